use ft_base::NoMemory;
use thiserror::Error;

/// Why a text is no filter.
#[derive(Clone, Copy, Debug, PartialEq, Eq, Error)]
pub enum FilterFault {
    /// The number, from 0, of the first term that is none, or whose name stands before.
    #[error("term {0} of the filter is bad")]
    BadFilter(u32),
    #[error("no memory")]
    NoMemory,
}

impl From<NoMemory> for FilterFault {
    ghost use Rattle.std.specs.Prelude.{◌≡◌};
    ghost use Rattle.fault_notifier.specs.declared.faults.FilterFault.TheVariants as faults;

    ghost from_gives = { λ _ fault. fault ≡ faults.NoMemory };

    fn from(_error: NoMemory) -> FilterFault {
        FilterFault::NoMemory
    }
}

/// Why a notifier refuses a call.
#[derive(Clone, Copy, Debug, PartialEq, Eq, Error)]
pub enum NotifyFault {
    /// The subscription isn't connected.
    #[error("no such subscriber")]
    NoSubscriber,
    /// There are as many subscribers, connections or events as there can be: this many.
    #[error("there are {0} already")]
    Full(u32),
    #[error("no memory")]
    NoMemory,
}

impl From<NoMemory> for NotifyFault {
    ghost use Rattle.std.specs.Prelude.{◌≡◌};
    ghost use Rattle.fault_notifier.specs.declared.faults.NotifyFault.TheVariants as faults;

    ghost from_gives = { λ _ fault. fault ≡ faults.NoMemory };

    fn from(_error: NoMemory) -> NotifyFault {
        NotifyFault::NoMemory
    }
}
