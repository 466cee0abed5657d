//! Octets behind a number that says what they are: a profile or a component behind its tag, a service
//! context behind its id.
ghost use Rattle.std.specs.Prelude.{◌≡◌, ◌+◌, ◌<◌, ◌^◌, ℕ, List, length, option_map, IfOk, IfSome, OnOk, OnErr};
ghost use Rattle.std.specs.List.{All};
ghost use Rattle.cdr_codec.specs.declared.faults.CdrWhy.TheVariants as causes;
ghost use Rattle.cdr_codec.specs.Formats.{tagged, all_tagged, read_each};
ghost use Rattle.cdr_codec.specs.Calls.{field_fault, Gives, appended, appended_each, Keeps};
ghost use Rattle.cdr_codec.specs.Laws.{IsCodec};
ghost use Rattle.cdr_codec.specs.Tagged.{content_of, IsShort, IsCounted, IsNumbered};

use crate::faults::FieldFault;
use crate::readers::CdrReader;
use crate::writers::CdrWriter;
use ft_base::{Bytes, NoMemory};
use std::alloc::Global;

/// A number and the octets behind it.
pub trait Tagged: Drop {
    ghost made: { ℕ × List ℕ → Self };

    ghost parts: { Self → ℕ × List ℕ };

    /// These octets, behind this number.
    fn behind(tag: u32, content: Bytes) -> Self
        ensures { result ≡ made (tag, content) };

    /// The number.
    fn tag(&self) -> u32
        ensures { result ≡ (parts self.now).0 };

    /// The octets.
    fn content(&self) -> &[u8]
        ensures { result.now ≡ (parts self.now).1 };

    ghost kept: { (x : ℕ × List ℕ) → parts (made x) ≡ x };

    ghost whole: { (one : Self) → made (parts one) ≡ one };
}

/// Reads one.
pub fn read_tagged<T: Tagged>(alloc: Global, reader: &mut CdrReader) -> Result<T, FieldFault>
    ensures read { Gives (λ one. one) field_fault result ((tagged T.made T.parts).read reader.old) reader.new }
    ensures short { IfOk result (IsShort T.parts) }
{
    let tag = reader.read_u32()?;
    let content = reader.read_octets()?;
    let content = Bytes::of(alloc, content)?;
    Ok(T::behind(tag, content))
}

fn read_each<T: Tagged>(
    alloc: Global,
    count: u32,
    reader: &mut CdrReader,
) -> Result<Vec<T>, FieldFault>
    ensures read { Gives (λ all. all.items) field_fault result (read_each (tagged T.made T.parts).read count reader.old) reader.new }
    ensures short { IfOk result (λ all. All (IsShort T.parts) all.items) }
{
    let mut all = Vec::new(alloc);
    for _ in 0..count {
        let one = read_tagged(alloc, reader)?;
        all.push(one)?;
    }
    Ok(all)
}

/// Reads a list of them. Its count is not believed for memory: each is read before it is kept.
pub fn read_all_tagged<T: Tagged>(
    alloc: Global,
    reader: &mut CdrReader,
) -> Result<Vec<T>, FieldFault>
    ensures read { Gives (λ all. all.items) field_fault result ((all_tagged T.made T.parts).read reader.old) reader.new }
    ensures short { IfOk result (λ all. All (IsShort T.parts) all.items) }
{
    let count = reader.read_u32()?;
    read_each(alloc, count, reader)
}

/// The octets of the first one behind this number.
pub fn content_of<T: Tagged>(all: &[T], tag: u32) -> Option<&[u8]>
    requires { All (IsShort T.parts) all.now }
    ensures content { option_map (λ piece. piece.now) result ≡ content_of T.parts tag all.now }
    ensures short { IfSome result (λ piece. length piece.now + 8 < 2 ^ 32) }
{
    match all.iter().find(|one| one.tag() == tag) {
        Some(one) => Some(one.content()),
        None => None,
    }
}

/// Writes one.
pub fn write_tagged<T: Tagged>(one: &T, writer: &mut CdrWriter) -> Result<(), NoMemory>
    requires { IsCounted T.parts one.now }
    ensures written { OnOk result (writer.new ≡ appended (tagged T.made T.parts).written one.now writer.old) }
    ensures numbered { OnOk result (IsNumbered T.parts one.now) }
    ensures kept { OnErr result (Keeps writer.old writer.new) }
{
    let tag = one.tag();
    writer.write_u32(tag)?;
    writer.write_octets(one.content())?;
    Ok(())
}

fn write_each<T: Tagged>(all: &[T], writer: &mut CdrWriter) -> Result<(), NoMemory>
    requires { All (IsCounted T.parts) all.now }
    ensures written { OnOk result (writer.new ≡ appended_each (tagged T.made T.parts).written all.now writer.old) }
    ensures numbered { OnOk result (All (IsNumbered T.parts) all.now) }
    ensures kept { OnErr result (Keeps writer.old writer.new) }
{
    for one in all {
        write_tagged(one, writer)?;
    }
    Ok(())
}

/// Writes a list of them. After want of memory a part of the list may stand in the writer.
pub fn write_all_tagged<T: Tagged>(all: &[T], writer: &mut CdrWriter) -> Result<(), NoMemory>
    requires count { length all.now < 2 ^ 32 }
    requires contents { All (IsCounted T.parts) all.now }
    ensures written { OnOk result (writer.new ≡ appended (all_tagged T.made T.parts).written all.now writer.old) }
    ensures numbered { OnOk result (All (IsNumbered T.parts) all.now) }
    ensures kept { OnErr result (Keeps writer.old writer.new) }
{
    writer.write_u32(all.len() as u32)?;
    write_each(all, writer)?;
    Ok(())
}

/// What is read is spelled there, and what is spelled is read.
pub fn all_tagged_are_codecs<T: Tagged>()
    ensures one { IsCodec causes.Short (tagged T.made T.parts) }
    ensures all { IsCodec causes.Short (all_tagged T.made T.parts) }
{}
