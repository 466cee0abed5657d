//! The target of a request (GIOP chapter, `TargetAddress`).
ghost use Rattle.std.specs.Prelude.{◌≡◌, ◌<◌, ◌^◌, length, slice_get, IfOk, OnOk};
ghost use Rattle.cdr_codec.specs.Calls.{field_fault, Gives, appended};
ghost use Rattle.iogr_reference.specs.Formats.{AreShort};
ghost use Rattle.giop_messages.specs.Faults.{read_fault};
ghost use Rattle.giop_messages.specs.Addresses.{key_target, profile_target, reference_target, target_by, target, key_by, key_named, address, IsShortTarget};

use crate::faults::{ReadFault, Why};
use cdr_codec::{CdrReader, CdrWriter, FieldFault};
use ft_base::{Bytes, NoMemory};
use iogr_reference::{Ior, Profile, key_of, read_ior, read_profile};
use std::alloc::Global;

/// The forms in which a target is named.
#[derive(Drop)]
pub enum Target {
    /// `KeyAddr`: the object key itself.
    Key(Bytes),
    /// `ProfileAddr`: a profile of a reference.
    Profile(Profile),
    /// `ReferenceAddr`: a reference, and which of its profiles.
    Reference(u32, Ior),
    /// A discriminator that there is not.
    Other(u16),
}

fn read_key(alloc: Global, reader: &mut CdrReader) -> Result<Target, FieldFault>
    ensures read { Gives (λ t. t) field_fault result (key_target.read reader.old) reader.new }
    ensures short { IfOk result IsShortTarget }
{
    let key = reader.read_octets()?;
    let key = Bytes::of(alloc, key)?;
    Ok(Target::Key(key))
}

fn read_one_profile(alloc: Global, reader: &mut CdrReader) -> Result<Target, FieldFault>
    ensures read { Gives (λ t. t) field_fault result (profile_target.read reader.old) reader.new }
    ensures short { IfOk result IsShortTarget }
{
    let profile = read_profile(alloc, reader)?;
    Ok(Target::Profile(profile))
}

fn read_reference(alloc: Global, reader: &mut CdrReader) -> Result<Target, FieldFault>
    ensures read { Gives (λ t. t) field_fault result (reference_target.read reader.old) reader.new }
    ensures short { IfOk result IsShortTarget }
{
    let index = reader.read_u32()?;
    let reference = read_ior(alloc, reader)?;
    Ok(Target::Reference(index, reference))
}

fn read_form(alloc: Global, form: u16, reader: &mut CdrReader) -> Result<Target, FieldFault>
    ensures read { Gives (λ t. t) field_fault result ((target_by form).read reader.old) reader.new }
    ensures short { IfOk result IsShortTarget }
{
    match form {
        0 => read_key(alloc, reader),
        1 => read_one_profile(alloc, reader),
        2 => read_reference(alloc, reader),
        _ => Ok(Target::Other(form)),
    }
}

fn read_target(alloc: Global, reader: &mut CdrReader) -> Result<(u16, Target), FieldFault>
    ensures read { Gives (λ x. (x.0, x.1)) field_fault result (target.read reader.old) reader.new }
    ensures short { IfOk result (λ x. IsShortTarget x.1) }
{
    let form = reader.read_u16()?;
    let target = read_form(alloc, form, reader)?;
    Ok((form, target))
}

fn key_among(alloc: Global, index: u32, profiles: &[Profile]) -> Result<Option<Bytes>, NoMemory>
    requires { AreShort profiles.now }
    ensures { IfOk result (λ key. key ≡ key_by (slice_get profiles.now index)) }
{
    match profiles.get(index as usize) {
        Some(profile) => key_of(alloc, profile),
        None => Ok(None),
    }
}

fn key_named(alloc: Global, target: Target) -> Result<Option<Bytes>, NoMemory>
    requires { IsShortTarget target }
    ensures { IfOk result (λ key. key ≡ key_named target) }
{
    match target {
        Target::Key(key) => Ok(Some(key)),
        Target::Profile(profile) => key_of(alloc, &profile),
        Target::Reference(index, reference) => {
            key_among(alloc, index, reference.profiles.as_slice())
        }
        Target::Other(_) => Ok(None),
    }
}

/// The object key of a target in any form.
pub fn read_address(alloc: Global, reader: &mut CdrReader) -> Result<Bytes, ReadFault>
    ensures { Gives (λ key. key) read_fault result (address.read reader.old) reader.new }
{
    let place = reader.start(2);
    let (_form, target) = read_target(alloc, reader)?;
    match key_named(alloc, target)? {
        Some(key) => Ok(key),
        None => Err(ReadFault::Malformed {
            why: Why::Address,
            place,
        }),
    }
}

/// An object key, as a target of the form `KeyAddr`.
#[tactic(auto, using(crate::proofs::WritingSteps::address_written))]
pub fn write_address(key: &[u8], writer: &mut CdrWriter) -> Result<(), NoMemory>
    requires { length key.now < 2 ^ 32 }
    ensures { OnOk result (writer.new ≡ appended address.written key.now writer.old) }
{
    writer.write_u16(0)?;
    writer.write_octets(key)?;
    Ok(())
}
