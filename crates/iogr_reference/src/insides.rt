//! What the contents of profiles and components hold.
ghost use Rattle.std.specs.Prelude.{◌≡◌, ℕ, List, ◌+◌, ◌<◌, ◌^◌, length, IfOk, IfSome, IfNone};
ghost use Rattle.cdr_codec.specs.Values.{boolean};
ghost use Rattle.cdr_codec.specs.Calls.{field_fault, Gives, Tells};
ghost use Rattle.cdr_codec.specs.Encapsulations.{held};
ghost use Rattle.cdr_codec.specs.Tagged.{content_of, IsShort};
ghost use Rattle.iogr_reference.specs.Formats.{component_parts, profile_parts, components_at, iiop, group_tag, AreShortComponents};
ghost use Rattle.iogr_reference.specs.Groups.{tag_inside, truth_inside, mark_of, profile_key};
ghost use Rattle.iogr_reference.specs.Naming.{HasKey};

use crate::faults::IorFault;
use crate::lists::Components;
use crate::references::{Component, GroupTag, Iiop, Profile};
use crate::tags::{GROUP_TAG, IIOP_TAG, PRIMARY_TAG};
use cdr_codec::{CdrReader, content_of, open_encapsulation, read_all_tagged};
use ft_base::{Bytes, GroupId, NoMemory, Version};
use std::alloc::Global;

/// What a profile says of its group.
#[derive(Drop)]
pub struct Mark {
    pub group: Option<GroupTag>,
    pub primary: bool,
}

fn counted_components(alloc: Global, reader: &mut CdrReader) -> Result<Components, IorFault>
    ensures read { Gives (λ cs. cs) field_fault result ((components_at 1).read reader.old) reader.new }
    ensures short { IfOk result AreShortComponents }
{
    let components = read_all_tagged(alloc, reader)?;
    Ok(Components::from_vec(components))
}

fn read_components(alloc: Global, minor: u8, reader: &mut CdrReader) -> Result<Components, IorFault>
    ensures read { Gives (λ cs. cs) field_fault result ((components_at minor).read reader.old) reader.new }
    ensures short { IfOk result AreShortComponents }
{
    match minor {
        0 => Ok(Components::from_vec(Vec::new(alloc))),
        _ => counted_components(alloc, reader),
    }
}

fn read_iiop(alloc: Global, reader: &mut CdrReader) -> Result<Iiop, IorFault>
    ensures read { Gives (λ x. x) field_fault result (iiop.read reader.old) reader.new }
    ensures short { IfOk result (λ x. AreShortComponents x.components) }
{
    let _major = reader.read_octet()?;
    let minor = reader.read_octet()?;
    let host = reader.read_string()?;
    let host = Bytes::of(alloc, host)?;
    let port = reader.read_u16()?;
    let key = reader.read_octets()?;
    let key = Bytes::of(alloc, key)?;
    let components = read_components(alloc, minor, reader)?;
    Ok(Iiop {
        minor,
        host,
        port,
        key,
        components,
    })
}

fn read_group_tag(alloc: Global, reader: &mut CdrReader) -> Result<GroupTag, IorFault>
    ensures { Gives (λ t. t) field_fault result (group_tag.read reader.old) reader.new }
{
    let _major = reader.read_octet()?;
    let _minor = reader.read_octet()?;
    let domain = reader.read_string()?;
    let domain = Bytes::of(alloc, domain)?;
    let group = reader.read_u64()?;
    let version = reader.read_u32()?;
    Ok(GroupTag {
        domain,
        group: GroupId(group),
        version: Version(version),
    })
}

/// The content of an IIOP profile.
pub fn iiop_inside(alloc: Global, content: &[u8]) -> Result<Iiop, IorFault>
    requires { length content.now + 8 < 2 ^ 32 }
    ensures read { Tells (λ x. x) field_fault result (held iiop content.now) }
    ensures short { IfOk result (λ x. AreShortComponents x.components) }
{
    let mut reader = open_encapsulation(content)?;
    read_iiop(alloc, &mut reader)
}

fn key_in(alloc: Global, tagged: &Profile) -> Result<Option<Bytes>, NoMemory>
    requires { IsShort profile_parts tagged.now }
    ensures { IfOk result (λ key. key ≡ profile_key tagged.now) }
{
    if tagged.tag != IIOP_TAG {
        return Ok(None);
    }
    match iiop_inside(alloc, tagged.content.bytes()) {
        Ok(iiop) => Ok(Some(iiop.key)),
        Err(IorFault::Bad(_)) => Ok(None),
        Err(IorFault::NoMemory) => Err(NoMemory),
    }
}

/// The object key of an IIOP profile; None where the profile has another tag, or its content can't be
/// read.
pub fn key_of(alloc: Global, tagged: &Profile) -> Result<Option<Bytes>, NoMemory>
    requires { IsShort profile_parts tagged.now }
    ensures found { IfOk result (λ o. IfSome o (HasKey tagged.now)) }
    ensures refused { IfOk result (λ o. IfNone o ((key : List ℕ) → HasKey tagged.now key → ⊥)) }
    ensures value { IfOk result (λ key. key ≡ profile_key tagged.now) }
{
    key_in(alloc, tagged)
}

fn group_tag_inside(alloc: Global, content: &[u8]) -> Result<GroupTag, IorFault>
    requires { length content.now + 8 < 2 ^ 32 }
    ensures { Tells (λ t. t) field_fault result (held group_tag content.now) }
{
    let mut reader = open_encapsulation(content)?;
    read_group_tag(alloc, &mut reader)
}

fn boolean_inside(content: &[u8]) -> Result<bool, IorFault>
    requires { length content.now + 8 < 2 ^ 32 }
    ensures { Tells (λ b. b) field_fault result (held boolean content.now) }
{
    let mut reader = open_encapsulation(content)?;
    let value = reader.read_bool()?;
    Ok(value)
}

fn tag_in(alloc: Global, components: &[Component]) -> Result<Option<GroupTag>, IorFault>
    requires { AreShortComponents components.now }
    ensures { Tells (λ t. t) field_fault result (tag_inside (content_of component_parts GROUP_TAG components.now)) }
{
    match content_of(components, GROUP_TAG) {
        None => Ok(None),
        Some(content) => {
            let tag = group_tag_inside(alloc, content)?;
            Ok(Some(tag))
        }
    }
}

fn truth_in(components: &[Component]) -> Result<bool, IorFault>
    requires { AreShortComponents components.now }
    ensures { Tells (λ b. b) field_fault result (truth_inside (content_of component_parts PRIMARY_TAG components.now)) }
{
    match content_of(components, PRIMARY_TAG) {
        None => Ok(false),
        Some(content) => boolean_inside(content),
    }
}

/// What the components of a profile say of its group.
pub fn mark_in(alloc: Global, components: &[Component]) -> Result<Mark, IorFault>
    requires { AreShortComponents components.now }
    ensures { Tells (λ m. m) field_fault result (mark_of components.now) }
{
    let group = tag_in(alloc, components)?;
    let primary = truth_in(components)?;
    Ok(Mark { group, primary })
}
