//! The arguments of a request: keys and values, read from their canonical form.
ghost use Rattle.std.specs.Prelude.{◌≡◌, [], ◌∷◌, IfOk};
ghost use Rattle.ft_base.specs.Canonical.{IsCanonical, type_of};
ghost use Rattle.ft_base.specs.declared.requests.Par.TheVariants.{Text, Octets};
ghost use Rattle.ft_base.specs.declared.values.Value.TheVariants as values;
ghost use Rattle.servant_store.specs.Store as words;

use cdr_codec::{read_one, read_two};
use ft_base::{Bytes, NoMemory, Par, Value};
use std::alloc::Global;

/// The longest arguments that are read. A reader's places are unsigned longs, so longer ones are want
/// of memory.
const LONGEST: usize = 0xffff_fff7;

fn text(value: Value) -> Bytes
    requires { type_of value ≡ Text }
    ensures { value ≡ values.Text result }
{
    match value {
        Value::Text(text) => text,
        _ => unreachable!(),
    }
}

/// The key that arguments say.
pub fn key_in(alloc: Global, args: &Bytes) -> Result<Bytes, NoMemory>
    requires { IsCanonical (Text ∷ []) args.now }
    ensures { IfOk result (λ key. key ≡ words.key_of args.now) }
{
    if args.bytes().len() > LONGEST {
        return Err(NoMemory);
    }
    let key = read_one(alloc, Par::Text, args.bytes())?;
    Ok(text(key))
}

/// The key and the value that arguments say.
pub fn pair_in(alloc: Global, args: &Bytes) -> Result<(Bytes, Bytes), NoMemory>
    requires { IsCanonical (Text ∷ Octets ∷ []) args.now }
    ensures key { IfOk result (λ pair. pair.0 ≡ words.key_of args.now) }
    ensures value { IfOk result (λ pair. pair.1 ≡ words.value_of args.now) }
{
    if args.bytes().len() > LONGEST {
        return Err(NoMemory);
    }
    let (key, value) = read_two(alloc, Par::Text, Par::Octets, args.bytes())?;
    Ok((text(key), value.into_octets()))
}
