//! Bytes that lie in the value itself where they are few.
ghost use Rattle.std.specs.Prelude.{◌≡◌, ◌≤◌, length, IsOk, IfOk};

use crate::memory::NoMemory;
use std::alloc::Global;
use std::fmt;
use std::marker::Model;

/// The most bytes that need no memory of their own: as many as make a short text as large as a `Vec`.
pub(crate) const SHORT_LIMIT: usize = 16;

/// At most 16 bytes, in the value itself. Its length is a whole word, so that the bytes lie as words do, and are
/// moved as such.
#[derive(Drop)]
struct Short {
    len: usize,
    cells: [u8; SHORT_LIMIT],
}

impl Model for Short {
    ghost use Rattle.std.specs.Prelude.{ℕ, List, take, ◌≤◌};

    ghost Value = { List ℕ };

    ghost view = { λ s. take s.len s.cells };

    ghost invariant = { λ s. s.len ≤ 16 };
}

#[derive(Drop)]
enum Kept {
    Here(Short),
    Apart(Vec<u8>),
}

/// Bytes of any number.
pub(crate) struct Stored {
    kept: Kept,
}

// A call, so that whoever drops a text sees no cases.
impl Drop for Stored {
    fn drop(self) {
        let Stored { kept: _kept } = self;
    }
}

impl Model for Stored {
    ghost use Rattle.std.specs.Prelude.{ℕ, List};

    ghost Value = { List ℕ };

    ghost use Rattle.ft_base.specs.Stored.{kept_bytes};

    ghost view = { λ s. kept_bytes s.kept };
}

impl Short {
    fn of(text: &[u8]) -> Short
        requires { length text.now ≤ SHORT_LIMIT }
        ensures { result ≡ text.now }
    {
        let mut cells = [0; SHORT_LIMIT];
        cells[..text.len()].copy_from_slice(text);
        Short {
            len: text.len(),
            cells,
        }
    }

    #[inline]
    fn as_slice(&self) -> &[u8]
        ensures { result.now ≡ self.now }
    {
        &self.cells[..self.len]
    }

    #[inline]
    fn copy(&self) -> Short
        ensures { result ≡ self.now }
    {
        Short {
            len: self.len,
            cells: self.cells,
        }
    }
}

impl Stored {
    /// A copy of these bytes. A short text takes no memory.
    pub(crate) fn of(alloc: Global, text: &[u8]) -> Result<Stored, NoMemory>
        ensures value { IfOk result (λ stored. stored ≡ text.now) }
        ensures short { length text.now ≤ SHORT_LIMIT → IsOk result }
    {
        let kept = if text.len() <= SHORT_LIMIT {
            Kept::Here(Short::of(text))
        } else {
            Kept::Apart(Vec::from_slice(alloc, text)?)
        };
        Ok(Stored { kept })
    }

    /// The bytes of a vector. It takes no memory.
    #[inline]
    pub(crate) fn from_vec(bytes: Vec<u8>) -> Stored
        ensures { result ≡ bytes.items }
    {
        Stored {
            kept: Kept::Apart(bytes),
        }
    }

    /// The bytes as a vector. Only a short text takes memory.
    pub(crate) fn into_vec(self, alloc: Global) -> Result<Vec<u8>, NoMemory>
        ensures { IfOk result (λ vec. vec.items ≡ self) }
    {
        let Stored { kept } = self;
        match kept {
            Kept::Here(short) => {
                let bytes = Vec::from_slice(alloc, short.as_slice())?;
                Ok(bytes)
            }
            Kept::Apart(bytes) => Ok(bytes),
        }
    }

    /// The bytes themselves.
    #[inline]
    pub(crate) fn as_slice(&self) -> &[u8]
        ensures { result.now ≡ self.now }
    {
        match &self.kept {
            Kept::Here(short) => short.as_slice(),
            Kept::Apart(bytes) => bytes.as_slice(),
        }
    }

    /// Equal bytes. Short ones take no memory.
    pub(crate) fn copy(&self, alloc: Global) -> Result<Stored, NoMemory>
        ensures value { IfOk result (λ stored. stored ≡ self.now) }
        ensures short { length self.now ≤ SHORT_LIMIT → IsOk result }
    {
        match &self.kept {
            Kept::Here(short) => Ok(Stored {
                kept: Kept::Here(short.copy()),
            }),
            Kept::Apart(bytes) => Stored::of(alloc, bytes.as_slice()),
        }
    }
}

impl fmt::Debug for Stored {
    fn fmt<W: fmt::Write>(&self, f: &mut fmt::Formatter<W>) -> fmt::Result {
        fmt::Debug::fmt(self.as_slice(), f)
    }
}
