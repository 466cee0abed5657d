use ft_base::NoMemory;
use std::alloc::AllocFailed;
use thiserror::Error;

/// What can be wrong with bytes that are read as values.
#[derive(Clone, Copy, Debug, PartialEq, Eq)]
pub enum CdrWhy {
    /// The input ends inside the value.
    Short,
    /// A boolean that is neither 0 nor 1.
    BadBool,
    /// A string of length 0, without the NUL at its end, or with a NUL before it.
    BadString,
    /// An encapsulation that begins with neither 0 nor 1.
    BadOrder,
}

/// The first fault of an input.
#[derive(Clone, Copy, Debug, PartialEq, Eq, Error)]
#[error("{why:?} at {place}")]
pub struct CdrFault {
    pub why: CdrWhy,
    /// Where the value that is at fault begins, behind its padding.
    pub place: u32,
}

/// Why a value of many fields can't be read.
#[derive(Clone, Copy, Debug, PartialEq, Eq, Error)]
pub enum FieldFault {
    /// The first field that can't be read.
    #[error("{0}")]
    Bad(CdrFault),
    #[error("no memory")]
    NoMemory,
}

impl From<CdrFault> for FieldFault {
    ghost use Rattle.std.specs.Prelude.{◌≡◌};
    ghost use Rattle.cdr_codec.specs.declared.faults.FieldFault.TheVariants as fields;

    ghost from_gives = { λ fault e. e ≡ fields.Bad fault };

    fn from(fault: CdrFault) -> FieldFault {
        FieldFault::Bad(fault)
    }
}

impl From<NoMemory> for FieldFault {
    ghost use Rattle.std.specs.Prelude.{◌≡◌};
    ghost use Rattle.cdr_codec.specs.declared.faults.FieldFault.TheVariants as fields;

    ghost from_gives = { λ _ e. e ≡ fields.NoMemory };

    fn from(_error: NoMemory) -> FieldFault {
        FieldFault::NoMemory
    }
}

impl<T: Drop> From<AllocFailed<T>> for FieldFault {
    ghost use Rattle.std.specs.Prelude.{◌≡◌};
    ghost use Rattle.cdr_codec.specs.declared.faults.FieldFault.TheVariants as fields;

    ghost from_gives = { λ _ e. e ≡ fields.NoMemory };

    fn from(_error: AllocFailed<T>) -> FieldFault {
        FieldFault::NoMemory
    }
}
