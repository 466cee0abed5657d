use ft_base::{GroupId, NoMemory};
use thiserror::Error;

/// Why a property manager refuses a call (chapter 23, PropertyManager).
#[derive(Clone, Copy, Debug, PartialEq, Eq, Error)]
pub enum PropertyFault {
    /// The property at this place of the list, from 0, is none: its name is unknown or stands before,
    /// or its value isn't one of that property.
    #[error("property {place} is invalid")]
    InvalidProperty { place: u32 },
    /// The property at this place of the list, from 0, has a value that isn't supported, or can't be
    /// set while the group runs.
    #[error("property {place} is unsupported")]
    UnsupportedProperty { place: u32 },
    #[error("there is no such group")]
    ObjectGroupNotFound(GroupId),
    #[error("no memory")]
    NoMemory,
}

impl From<NoMemory> for PropertyFault {
    ghost use Rattle.std.specs.Prelude.{◌≡◌};
    ghost use Rattle.property_manager.specs.declared.faults.PropertyFault.TheVariants as faults;

    ghost from_gives = { λ _ fault. fault ≡ faults.NoMemory };

    fn from(_error: NoMemory) -> PropertyFault {
        PropertyFault::NoMemory
    }
}
