ghost use Rattle.std.specs.Prelude.{◌≡◌, ℕ, ◌+◌, ◌<◌, ◌^◌, ◌⊎◌, None, Some, List, length, IfOk, IfSome, MatchResult};
ghost use Rattle.std.specs.Str.{bytes_eq};
ghost use Rattle.ft_base.specs.Text.{IsName, name_refusal, zero_place};

use crate::memory::NoMemory;
use crate::stored::Stored;
use memchr::memchr;
use std::alloc::Global;
use std::marker::Model;
use thiserror::Error;

/// A text of 1 to 255 bytes, none of them 0: a client's id, an operation, a group's name.
#[derive(Debug, Drop)]
pub struct Name {
    text: Stored,
}

impl Model for Name {
    ghost Value = { List ℕ };

    ghost view = { λ n. n.text };

    ghost invariant = { λ n. IsName n.text };
}

/// Bytes of any content.
#[derive(Debug, Drop)]
pub struct Bytes {
    bytes: Stored,
}

impl Model for Bytes {
    ghost Value = { List ℕ };

    ghost view = { λ b. b.bytes };
}

/// Why a text is no [`Name`], with its length or the place of its first zero byte.
#[derive(Clone, Copy, Debug, PartialEq, Eq, Error)]
pub enum NameFault {
    #[error("an empty name")]
    Empty,
    #[error("a name of {0} bytes")]
    Long(u32),
    #[error("a zero byte at {0}")]
    Zero(u32),
    #[error("no memory")]
    NoMemory,
}

/// The longest name, in bytes.
pub const NAME_LIMIT: usize = 255;

/// The place of the first zero byte.
#[tactic(auto, using(crate::proofs::TextLaws::first_is_place))]
pub fn first_zero(text: &[u8]) -> Option<usize>
    ensures place { result ≡ zero_place text.now }
    ensures within { IfSome result (λ place. place < length text.now) }
{
    memchr(0, text)
}

impl Name {
    /// The name with this text.
    pub fn of(alloc: Global, text: &[u8]) -> Result<Name, NameFault>
        requires { length text.now < 2 ^ 32 }
        ensures { MatchResult result
            (λ name. (name_refusal text.now ≡ None) × (name ≡ text.now))
            (λ fault. (fault ≡ NameFault.NoMemory) ⊎ (name_refusal text.now ≡ Some fault)) }
    {
        if text.is_empty() {
            return Err(NameFault::Empty);
        }
        if text.len() > NAME_LIMIT {
            return Err(NameFault::Long(text.len() as u32));
        }
        if let Some(place) = first_zero(text) {
            return Err(NameFault::Zero(place as u32));
        }
        match Stored::of(alloc, text) {
            Ok(text) => Ok(Name { text }),
            Err(NoMemory) => Err(NameFault::NoMemory),
        }
    }

    /// The name's text.
    pub fn bytes(&self) -> &[u8]
        ensures value { result.now ≡ self.now }
        ensures name { IsName self.now }
    {
        self.text.as_slice()
    }

    /// Whether two names are one.
    pub fn is(&self, other: &Name) -> bool
        ensures { result ≡ bytes_eq self.now other.now }
    {
        self.text.as_slice() == other.text.as_slice()
    }

    /// An equal name.
    pub fn copy(&self, alloc: Global) -> Result<Name, NoMemory>
        ensures { IfOk result (λ name. name ≡ self.now) }
    {
        let text = self.text.copy(alloc)?;
        Ok(Name { text })
    }
}

impl Bytes {
    /// A copy of these bytes.
    pub fn of(alloc: Global, text: &[u8]) -> Result<Bytes, NoMemory>
        ensures { IfOk result (λ bytes. bytes ≡ text.now) }
    {
        let bytes = Stored::of(alloc, text)?;
        Ok(Bytes { bytes })
    }

    /// The bytes of a vector. It takes no memory.
    pub fn from_vec(bytes: Vec<u8>) -> Bytes
        ensures { result ≡ bytes.items }
    {
        Bytes {
            bytes: Stored::from_vec(bytes),
        }
    }

    /// The bytes themselves.
    pub fn bytes(&self) -> &[u8]
        ensures { result.now ≡ self.now }
    {
        self.bytes.as_slice()
    }

    /// The bytes as a vector. Only a few of them take memory: more lie in one already.
    pub fn into_vec(self, alloc: Global) -> Result<Vec<u8>, NoMemory>
        ensures { IfOk result (λ vec. vec.items ≡ self) }
    {
        self.bytes.into_vec(alloc)
    }

    /// Whether two are the same bytes.
    pub fn is(&self, other: &Bytes) -> bool
        ensures { result ≡ bytes_eq self.now other.now }
    {
        self.bytes() == other.bytes()
    }

    /// Equal bytes.
    pub fn copy(&self, alloc: Global) -> Result<Bytes, NoMemory>
        ensures { IfOk result (λ bytes. bytes ≡ self.now) }
    {
        let bytes = self.bytes.copy(alloc)?;
        Ok(Bytes { bytes })
    }
}
