ghost use Rattle.std.specs.Prelude.{◌≡◌, ℕ, ◌↔◌, List};
ghost use Rattle.ft_base.specs.Canonical.{type_of, AreValuesAt, AreSpelledAs};
ghost use Rattle.ft_base.specs.declared.requests.Par.{Par};

use crate::requests::Par;
use crate::text::Bytes;

/// The value of a parameter or of a result.
#[derive(Debug, Drop)]
pub enum Value {
    I64(i64),
    U32(u32),
    Bool(bool),
    /// A text without zero bytes, and without the NUL that ends it on the wire.
    Text(Bytes),
    Octets(Bytes),
}

impl Value {
    /// The type of the value.
    pub fn par(&self) -> Par
        ensures { result ≡ type_of self.now }
    {
        match self {
            Value::I64(_) => Par::I64,
            Value::U32(_) => Par::U32,
            Value::Bool(_) => Par::Bool,
            Value::Text(_) => Par::Text,
            Value::Octets(_) => Par::Octets,
        }
    }

    /// The octets of a value that is octets.
    pub fn into_octets(self) -> Bytes
        requires { type_of self ≡ Par.Octets }
        ensures { self ≡ Value.Octets result }
    {
        match self {
            Value::Octets(octets) => octets,
            _ => unreachable!(),
        }
    }
}

/// Bytes are in the canonical form of some types exactly where they are the spellings, one behind the
/// other, of values of these types.
#[tactic(auto, using(crate::proofs::ValueLaws::canonical_forms))]
pub fn canonical_forms_are_of_values()
    ensures { (pars : List Par) (place : ℕ) (bytes : List ℕ) → AreValuesAt pars place bytes ↔ AreSpelledAs pars place bytes }
{}
