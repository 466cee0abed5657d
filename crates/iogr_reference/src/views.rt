//! The reference of a view.
ghost use Rattle.std.specs.Prelude.{◌≡◌, ◌+◌, ◌<◌, ◌≤◌, ◌^◌, length, map, IfOk, OnOk, true, None};
ghost use Rattle.std.specs.List.{All};
ghost use Rattle.ft_base.specs.Text.{zero_place};
ghost use Rattle.cdr_codec.specs.declared.orders.Order.TheVariants as orders;
ghost use Rattle.cdr_codec.specs.Calls.{appended};
ghost use Rattle.cdr_codec.specs.Encapsulations.{encapsulated};
ghost use Rattle.cdr_codec.specs.Tagged.{IsShort};
ghost use Rattle.iogr_reference.specs.Choices.{object_key};
ghost use Rattle.iogr_reference.specs.Formats.{profile_parts, component_parts, components_at, iiop, group_tag, AreShort, AreShortComponents, IsWritable};
ghost use Rattle.iogr_reference.specs.Views.{iiop_with, profile_of_host, profile_with as a_profile, group_component as the_group_component, primary_component as the_primary_component, components_of, plain_reference, reference_of};

use crate::choices::{ADDRESS, DOMAIN};
use crate::keys::object_key;
use crate::lists::{Ports, Profiles};
use crate::references::{Component, GroupTag, Ior, Profile};
use crate::tags::{GROUP_TAG, IIOP_TAG, PRIMARY_TAG};
use cdr_codec::{CdrWriter, Order, begin_encapsulation, write_all_tagged};
use ft_base::{Bytes, GroupId, HostNo, MEMBER_LIMIT, Name, NoMemory, Version, View};
use std::alloc::Global;

#[tactic(auto, using(crate::proofs::ViewLemmas::group_tag_written))]
fn write_group_tag(tag: &GroupTag, writer: &mut CdrWriter) -> Result<(), NoMemory>
    requires no_zero { zero_place tag.now.domain ≡ None }
    requires short { length tag.now.domain < 2 ^ 31 }
    ensures { OnOk result (writer.new ≡ appended group_tag.written tag.now writer.old) }
{
    writer.write_octet(1)?;
    writer.write_octet(0)?;
    writer.write_string(tag.domain.bytes())?;
    writer.write_u64(tag.group.0)?;
    writer.write_u32(tag.version.0)?;
    Ok(())
}

fn tag_bytes(alloc: Global, tag: &GroupTag) -> Result<Bytes, NoMemory>
    requires no_zero { zero_place tag.now.domain ≡ None }
    requires short { length tag.now.domain < 2 ^ 31 }
    ensures { IfOk result (λ bytes. bytes ≡ encapsulated orders.Big group_tag tag.now) }
{
    let mut writer = begin_encapsulation(alloc, Order::Big)?;
    write_group_tag(tag, &mut writer)?;
    Ok(writer.finish())
}

fn group_component(alloc: Global, group: GroupId, version: Version) -> Result<Component, NoMemory>
    ensures component { IfOk result (λ c. c ≡ the_group_component group version) }
    ensures short { IfOk result (IsShort component_parts) }
{
    let domain = Bytes::of(alloc, DOMAIN.as_slice())?;
    let tag = GroupTag {
        domain,
        group,
        version,
    };
    let content = tag_bytes(alloc, &tag)?;
    Ok(Component {
        tag: GROUP_TAG,
        content,
    })
}

fn primary_component(alloc: Global) -> Result<Component, NoMemory>
    ensures component { IfOk result (λ c. c ≡ the_primary_component) }
    ensures short { IfOk result (IsShort component_parts) }
{
    let mut writer = begin_encapsulation(alloc, Order::Big)?;
    writer.write_bool(true)?;
    Ok(Component {
        tag: PRIMARY_TAG,
        content: writer.finish(),
    })
}

/// The components of a member's profile: the group's, and the primary's where it is the primary.
pub(crate) fn member_components(
    alloc: Global,
    group: GroupId,
    version: Version,
    is_primary: bool,
) -> Result<Vec<Component>, NoMemory>
    ensures components { IfOk result (λ cs. cs.items ≡ components_of group version is_primary) }
    ensures count { IfOk result (λ cs. length cs.items ≤ 2) }
    ensures short { IfOk result (λ cs. AreShortComponents cs.items) }
{
    let mut components = Vec::new(alloc);
    let first = group_component(alloc, group, version)?;
    components.push(first)?;
    if !is_primary {
        return Ok(components);
    }
    let second = primary_component(alloc)?;
    components.push(second)?;
    Ok(components)
}

fn write_components(components: &[Component], writer: &mut CdrWriter) -> Result<(), NoMemory>
    requires count { length components.now < 2 ^ 32 }
    requires short { AreShortComponents components.now }
    ensures { OnOk result (writer.new ≡ appended (components_at 2).written components.now writer.old) }
{
    write_all_tagged(components, writer)?;
    Ok(())
}

#[tactic(auto, using(crate::proofs::ViewLemmas::iiop_written))]
fn write_address(
    port: u16,
    key: &[u8],
    components: &[Component],
    writer: &mut CdrWriter,
) -> Result<(), NoMemory>
    requires key { length key.now < 2 ^ 32 }
    requires count { length components.now < 2 ^ 32 }
    requires short { AreShortComponents components.now }
    ensures { OnOk result (writer.new ≡ appended iiop.written (iiop_with port key.now components.now) writer.old) }
{
    writer.write_octet(1)?;
    writer.write_octet(2)?;
    writer.write_string(ADDRESS.as_slice())?;
    writer.write_u16(port)?;
    writer.write_octets(key)?;
    write_components(components, writer)?;
    Ok(())
}

fn address_bytes(
    alloc: Global,
    group: GroupId,
    port: u16,
    components: &[Component],
) -> Result<Bytes, NoMemory>
    requires count { length components.now < 2 ^ 32 }
    requires short { AreShortComponents components.now }
    requires content { length (a_profile group port components.now).content ≤ 128 }
    ensures bytes { IfOk result (λ bytes. bytes ≡ encapsulated orders.Big iiop (iiop_with port (object_key group) components.now)) }
    ensures short { IfOk result (λ bytes. length bytes + 8 < 2 ^ 32) }
{
    let key = object_key(alloc, group)?;
    let mut writer = begin_encapsulation(alloc, Order::Big)?;
    write_address(port, key.bytes(), components, &mut writer)?;
    Ok(writer.finish())
}

fn profile_with(
    alloc: Global,
    group: GroupId,
    port: u16,
    components: &[Component],
) -> Result<Profile, NoMemory>
    requires count { length components.now < 2 ^ 32 }
    requires short { AreShortComponents components.now }
    requires content { length (a_profile group port components.now).content ≤ 128 }
    ensures profile { IfOk result (λ p. p ≡ a_profile group port components.now) }
    ensures short { IfOk result (IsShort profile_parts) }
{
    let content = address_bytes(alloc, group, port, components)?;
    Ok(Profile {
        tag: IIOP_TAG,
        content,
    })
}

fn profile_of(
    alloc: Global,
    group: GroupId,
    view: &View,
    ports: &Ports,
    host: u8,
) -> Result<Profile, NoMemory>
    requires { host < length ports.now }
    ensures profile { IfOk result (λ p. p ≡ profile_of_host group view.now ports.now host) }
    ensures short { IfOk result (IsShort profile_parts) }
{
    let port = ports.as_slice()[host as usize];
    let is_primary = view.is_led_by(HostNo(host));
    let components = member_components(alloc, group, view.version, is_primary)?;
    profile_with(alloc, group, port, components.as_slice())
}

fn profiles_of(
    alloc: Global,
    group: GroupId,
    view: &View,
    ports: &Ports,
) -> Result<Profiles, NoMemory>
    requires { All (λ host. host < length ports.now) view.now.members }
    ensures profiles { IfOk result (λ ps. ps ≡ map (profile_of_host group view.now ports.now) view.now.members) }
    ensures count { IfOk result (λ ps. length ps ≤ MEMBER_LIMIT) }
    ensures short { IfOk result AreShort }
{
    let mut profiles = Vec::with_capacity(alloc, view.members.len())?;
    for host in view.members.hosts() {
        let profile = profile_of(alloc, group, view, ports, *host)?;
        profiles.push(profile)?;
    }
    Ok(Profiles::from_vec(profiles))
}

/// The reference of a group's view. `ports` has the port of each member's host.
pub fn ref_of(
    alloc: Global,
    group: GroupId,
    type_id: &Name,
    view: &View,
    ports: &Ports,
) -> Result<Ior, NoMemory>
    requires { All (λ host. host < length ports.now) view.now.members }
    ensures reference { IfOk result (λ i. i ≡ reference_of group type_id.now view.now ports.now) }
    ensures writable { IfOk result IsWritable }
    ensures short { IfOk result (λ i. AreShort i.profiles) }
{
    let type_id = Bytes::of(alloc, type_id.bytes())?;
    let profiles = profiles_of(alloc, group, view, ports)?;
    Ok(Ior { type_id, profiles })
}

/// The reference of a group's one member, which names no group: its profile has no components.
#[tactic(auto, using(crate::proofs::ViewLemmas::plain_short))]
pub fn plain_ref(
    alloc: Global,
    group: GroupId,
    type_id: &Name,
    host: HostNo,
    ports: &Ports,
) -> Result<Ior, NoMemory>
    requires { host.0 < length ports.now }
    ensures reference { IfOk result (λ i. i ≡ plain_reference group type_id.now host.0 ports.now) }
    ensures writable { IfOk result IsWritable }
    ensures short { IfOk result (λ i. AreShort i.profiles) }
{
    let port = ports.as_slice()[host.0 as usize];
    let profile = profile_with(alloc, group, port, &[])?;
    let type_id = Bytes::of(alloc, type_id.bytes())?;
    let mut profiles = Vec::new(alloc);
    profiles.push(profile)?;
    Ok(Ior {
        type_id,
        profiles: Profiles::from_vec(profiles),
    })
}
