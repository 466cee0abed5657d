use cdr_codec::CdrFault;
use ft_base::NoMemory;
use thiserror::Error;

/// Why bytes are no reference: the first value that can't be read, or want of memory.
pub use cdr_codec::FieldFault as IorFault;

/// Why a reference is none of a group: the first that applies, in this order.
#[derive(Clone, Copy, Debug, PartialEq, Eq, Error)]
pub enum RefFault {
    /// An IIOP profile can't be read, or its group component or its primary component; with the place
    /// inside the encapsulation that is at fault.
    #[error("a profile that can't be read: {0}")]
    Bad(CdrFault),
    /// There is no IIOP profile, or one without a group component, or there are more than 65,535.
    #[error("no reference of a group")]
    NotAGroup,
    /// The group component of the IIOP profile at this place, counted among these, isn't that of the
    /// first.
    #[error("another group or version in profile {0}")]
    Unequal(u16),
    /// Two IIOP profiles are marked as the primary's.
    #[error("two primaries")]
    TwoPrimaries,
    #[error("no memory")]
    NoMemory,
}

impl From<IorFault> for RefFault {
    ghost use Rattle.std.specs.Prelude.{◌≡◌};
    ghost use Rattle.iogr_reference.specs.Faults.{ref_fault};

    ghost from_gives = { λ fault e. e ≡ ref_fault fault };

    fn from(fault: IorFault) -> RefFault {
        match fault {
            IorFault::Bad(fault) => RefFault::Bad(fault),
            IorFault::NoMemory => RefFault::NoMemory,
        }
    }
}

impl From<NoMemory> for RefFault {
    ghost use Rattle.std.specs.Prelude.{◌≡◌};
    ghost use Rattle.iogr_reference.specs.declared.faults.RefFault.TheVariants as faults;

    ghost from_gives = { λ _ e. e ≡ faults.NoMemory };

    fn from(_error: NoMemory) -> RefFault {
        RefFault::NoMemory
    }
}

/// Why a text is no reference: the first that applies, in this order.
#[derive(Clone, Copy, Debug, PartialEq, Eq, Error)]
pub enum TextFault {
    /// It doesn't begin with `IOR:`, in either case.
    #[error("no IOR: at the beginning")]
    NoPrefix,
    /// The place of the first byte behind the prefix that is no digit, or how many digits there are
    /// where they are all digits and their number is odd.
    #[error("no digits at {0}")]
    Digits(u32),
    /// What the digits spell is no reference; with the place inside the encapsulation.
    #[error("no reference: {0}")]
    Bad(CdrFault),
    #[error("no memory")]
    NoMemory,
}
