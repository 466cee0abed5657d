//! The arguments of a push, read from their canonical form.
ghost use Rattle.std.specs.Prelude.{◌≡◌, [], ◌∷◌, IfOk};
ghost use Rattle.ft_base.specs.Canonical.{IsCanonical, type_of};
ghost use Rattle.ft_base.specs.declared.requests.Par.TheVariants.{Octets};
ghost use Rattle.ft_base.specs.declared.values.Value.TheVariants as values;
ghost use Rattle.servant_queue.specs.Queue.{item_of};

use cdr_codec::read_one;
use ft_base::{Bytes, NoMemory, Par, Value};
use std::alloc::Global;

/// The longest arguments that are read. A reader's places are unsigned longs, so longer ones are want
/// of memory.
const LONGEST: usize = 0xffff_fff7;

/// The octets that arguments say.
pub fn item_in(alloc: Global, args: &Bytes) -> Result<Bytes, NoMemory>
    requires { IsCanonical (Octets ∷ []) args.now }
    ensures { IfOk result (λ item. item ≡ item_of args.now) }
{
    if args.bytes().len() > LONGEST {
        return Err(NoMemory);
    }
    let item = read_one(alloc, Par::Octets, args.bytes())?;
    Ok(item.into_octets())
}
