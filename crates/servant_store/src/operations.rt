ghost use Rattle.std.specs.Prelude.{◌≡◌, ◌≤◌, ◌<◌, ◌^◌, [], ◌∷◌, None, length, IfOk};
ghost use Rattle.ft_base.specs.Canonical as canonical;
ghost use Rattle.ft_base.specs.declared.requests.Outcome.TheVariants.{Value};
ghost use Rattle.servant_store.specs.Operations.{operation_of, signature_of};
ghost use Rattle.servant_store.specs.Store.{told};

use cdr_codec::{CdrWriter, Order};
use ft_base::{Bytes, Name, NoMemory, Outcome, Par, Signature};
use std::alloc::Global;

/// What a store can be asked.
#[derive(Clone, Copy, Debug, PartialEq, Eq)]
pub enum Operation {
    Put,
    Get,
    Remove,
    Size,
}

impl Operation {
    /// The operation of this name; none where a store has no such operation.
    pub fn named(name: &Name) -> Option<Operation>
        ensures { result ≡ operation_of name.now }
    {
        let text = name.bytes();
        if text == b"put".as_slice() {
            return Some(Operation::Put);
        }
        if text == b"get".as_slice() {
            return Some(Operation::Get);
        }
        if text == b"remove".as_slice() {
            return Some(Operation::Remove);
        }
        if text == b"size".as_slice() {
            return Some(Operation::Size);
        }
        None
    }

    /// Its parameters, and what it gives.
    pub fn signature(self) -> Signature
        ensures { result ≡ signature_of self }
    {
        let (first, second, gives) = match self {
            Operation::Put => (Some(Par::Text), Some(Par::Octets), Some(Par::Bool)),
            Operation::Get => (Some(Par::Text), None, Some(Par::Octets)),
            Operation::Remove => (Some(Par::Text), None, None),
            Operation::Size => (None, None, Some(Par::U32)),
        };
        Signature {
            first,
            second,
            gives,
        }
    }
}

/// Whether a key is new, as a value.
pub fn tell_flag(alloc: Global, flag: bool) -> Result<Outcome, NoMemory>
    ensures { IfOk result (λ outcome. outcome ≡ told flag) }
{
    let mut writer = CdrWriter::new(alloc, Order::Big, 0);
    writer.write_bool(flag)?;
    Ok(Outcome::Value(writer.finish()))
}

/// The number of keys as a value.
pub fn tell_size(alloc: Global, size: u32) -> Result<Outcome, NoMemory>
    ensures { IfOk result (λ outcome. outcome ≡ Value (canonical.number_at 4 0 size)) }
{
    let mut writer = CdrWriter::new(alloc, Order::Big, 0);
    writer.write_u32(size)?;
    Ok(Outcome::Value(writer.finish()))
}

/// A key's value as a value.
pub fn tell_value(alloc: Global, value: &[u8]) -> Result<Outcome, NoMemory>
    requires { length value.now < 2 ^ 32 }
    ensures { IfOk result (λ outcome. outcome ≡ Value (canonical.octets_at 0 value.now)) }
{
    let mut writer = CdrWriter::new(alloc, Order::Big, 0);
    writer.write_octets(value)?;
    Ok(Outcome::Value(writer.finish()))
}

/// What gives nothing.
pub fn tell_nothing(alloc: Global) -> Outcome
    ensures { result ≡ Value [] }
{
    Outcome::Value(Bytes::from_vec(Vec::new(alloc)))
}
