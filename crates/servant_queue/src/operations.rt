ghost use Rattle.std.specs.Prelude.{◌≡◌, ◌≤◌, ◌<◌, ◌^◌, ℕ, [], ◌∷◌, None, length, IfOk};
ghost use Rattle.ft_base.specs.Canonical as canonical;
ghost use Rattle.ft_base.specs.declared.requests.Outcome.TheVariants.{Value};
ghost use Rattle.servant_queue.specs.Operations.{operation_of, signature_of};
ghost use Rattle.servant_queue.specs.Queue.{told};

use cdr_codec::{CdrWriter, Order};
use ft_base::{Bytes, Name, NoMemory, Outcome, Par, Signature};
use std::alloc::Global;

/// What a queue can be asked.
#[derive(Clone, Copy, Debug, PartialEq, Eq)]
pub enum Operation {
    Push,
    Pop,
    Length,
}

impl Operation {
    /// The operation of this name; none where a queue has no such operation.
    pub fn named(name: &Name) -> Option<Operation>
        ensures { result ≡ operation_of name.now }
    {
        let text = name.bytes();
        if text == b"push".as_slice() {
            return Some(Operation::Push);
        }
        if text == b"pop".as_slice() {
            return Some(Operation::Pop);
        }
        if text == b"length".as_slice() {
            return Some(Operation::Length);
        }
        None
    }

    /// Its parameters, and what it gives.
    pub fn signature(self) -> Signature
        ensures { result ≡ signature_of self }
    {
        let first = match self {
            Operation::Push => Some(Par::Octets),
            _ => None,
        };
        let gives = match self {
            Operation::Pop => Some(Par::Octets),
            _ => Some(Par::U32),
        };
        Signature {
            first,
            second: None,
            gives,
        }
    }
}

/// A number of items as a value.
pub fn tell_length(alloc: Global, length: u32) -> Result<Outcome, NoMemory>
    ensures { IfOk result (λ outcome. outcome ≡ told length) }
{
    let mut writer = CdrWriter::new(alloc, Order::Big, 0);
    writer.write_u32(length)?;
    Ok(Outcome::Value(writer.finish()))
}

/// An item as a value.
pub fn tell_item(alloc: Global, item: &[u8]) -> Result<Outcome, NoMemory>
    requires { length item.now < 2 ^ 32 }
    ensures { IfOk result (λ outcome. outcome ≡ Value (canonical.octets_at 0 item.now)) }
{
    let mut writer = CdrWriter::new(alloc, Order::Big, 0);
    writer.write_octets(item)?;
    Ok(Outcome::Value(writer.finish()))
}
