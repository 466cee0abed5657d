use ft_base::NoMemory;
use thiserror::Error;

/// Why a factory makes no object (chapter 23, GenericFactory).
#[derive(Clone, Copy, Debug, PartialEq, Eq, Error)]
pub enum CreateFault {
    /// No servant has the type id.
    #[error("no servant has this type id")]
    NoFactory,
    /// The criterion at this place, from 0, is none.
    #[error("criterion {0} is invalid")]
    InvalidCriteria(u32),
    /// The criterion at this place, from 0, has a value that isn't supported.
    #[error("criterion {0} is unsupported")]
    UnsupportedProperty(u32),
    /// More replicas are to stay than are to be made at first.
    #[error("{initial} replicas are fewer than {minimum}")]
    CannotMeetCriteria { initial: u16, minimum: u16 },
    /// Fewer hosts can make a replica than are to stay, where the infrastructure makes them.
    #[error("{fit} hosts are fewer than {minimum}")]
    TooFew { fit: u16, minimum: u16 },
    /// There are as many objects as there can be: this many.
    #[error("there are {0} objects already")]
    ObjectNotCreated(u32),
    #[error("no memory")]
    NoMemory,
}

impl From<NoMemory> for CreateFault {
    ghost use Rattle.std.specs.Prelude.{◌≡◌};
    ghost use Rattle.generic_factory.specs.declared.faults.CreateFault.TheVariants as faults;

    ghost from_gives = { λ _ fault. fault ≡ faults.NoMemory };

    fn from(_error: NoMemory) -> CreateFault {
        CreateFault::NoMemory
    }
}

/// No object has the id.
#[derive(Clone, Copy, Debug, PartialEq, Eq, Error)]
#[error("no object has this id")]
pub struct ObjectNotFound;
