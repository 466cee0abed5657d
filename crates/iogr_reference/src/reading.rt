ghost use Rattle.std.specs.Prelude.{◌≡◌, OnErr, IfOk};
ghost use Rattle.cdr_codec.specs.Calls.{field_fault, Gives, Refuses};
ghost use Rattle.cdr_codec.specs.Laws.{Took, IsNowhere};
ghost use Rattle.cdr_codec.specs.Tagged.{IsShort};
ghost use Rattle.iogr_reference.specs.Formats.{profile, profile_parts, profiles, ior, AreShort};

use crate::faults::IorFault;
use crate::lists::Profiles;
use crate::references::{Ior, Profile};
use cdr_codec::{CdrReader, read_all_tagged, read_tagged};
use ft_base::Bytes;
use std::alloc::Global;

fn read_profiles(alloc: Global, reader: &mut CdrReader) -> Result<Profiles, IorFault>
    ensures read { Gives (λ ps. ps) field_fault result (profiles.read reader.old) reader.new }
    ensures short { IfOk result AreShort }
{
    let profiles = read_all_tagged(alloc, reader)?;
    Ok(Profiles::from_vec(profiles))
}

pub fn ior_in(alloc: Global, reader: &mut CdrReader) -> Result<Ior, IorFault>
    ensures read { Gives (λ i. i) field_fault result (ior.read reader.old) reader.new }
    ensures short { IfOk result (λ i. AreShort i.profiles) }
{
    let type_id = reader.read_string()?;
    let type_id = Bytes::of(alloc, type_id)?;
    let profiles = read_profiles(alloc, reader)?;
    Ok(Ior { type_id, profiles })
}

fn read_whole_ior(alloc: Global, reader: &mut CdrReader) -> Result<Ior, IorFault>
    ensures read { Gives (λ i. i) field_fault result (ior.read reader.old) reader.new }
    ensures short { IfOk result (λ i. AreShort i.profiles) }
    ensures left { OnErr result (reader.new ≡ reader.old) }
{
    let mut ahead = reader.again();
    let ior = ior_in(alloc, &mut ahead)?;
    *reader = ahead;
    Ok(ior)
}

/// Reads a reference. The reader stays where it was after a fault.
pub fn read_ior(alloc: Global, reader: &mut CdrReader) -> Result<Ior, IorFault>
    ensures found { IfOk result (λ i. Took ior.Spelled reader.old (i, reader.new)) }
    ensures refused { Refuses field_fault result (IsNowhere ior.Spelled reader.old) }
    ensures left { OnErr result (reader.new ≡ reader.old) }
    ensures read { Gives (λ i. i) field_fault result (ior.read reader.old) reader.new }
    ensures short { IfOk result (λ i. AreShort i.profiles) }
{
    read_whole_ior(alloc, reader)
}

fn read_whole_profile(alloc: Global, reader: &mut CdrReader) -> Result<Profile, IorFault>
    ensures read { Gives (λ p. p) field_fault result (profile.read reader.old) reader.new }
    ensures short { IfOk result (IsShort profile_parts) }
    ensures left { OnErr result (reader.new ≡ reader.old) }
{
    let mut ahead = reader.again();
    let profile = read_tagged(alloc, &mut ahead)?;
    *reader = ahead;
    Ok(profile)
}

/// Reads one profile. The reader stays where it was after a fault.
pub fn read_profile(alloc: Global, reader: &mut CdrReader) -> Result<Profile, IorFault>
    ensures found { IfOk result (λ p. Took profile.Spelled reader.old (p, reader.new)) }
    ensures refused { Refuses field_fault result (IsNowhere profile.Spelled reader.old) }
    ensures left { OnErr result (reader.new ≡ reader.old) }
    ensures read { Gives (λ p. p) field_fault result (profile.read reader.old) reader.new }
    ensures short { IfOk result (IsShort profile_parts) }
{
    read_whole_profile(alloc, reader)
}
