use ft_base::{Admission, NoMemory, Version};
use thiserror::Error;

/// Whether a request joins the journal: the first that applies.
#[derive(Clone, Copy, Debug, PartialEq, Eq)]
pub enum Admit {
    /// There is a newer view than the one that its writer knew: this one.
    Deposed(Version),
    /// What the journal says of it.
    Admission(Admission),
}

/// Whether a request was appended.
#[derive(Clone, Copy, Debug, PartialEq, Eq)]
pub enum Appended {
    /// It is the entry at this position.
    At(u32),
    /// The record couldn't be kept; the journal is as it was.
    Failed,
}

/// Why a view or a checkpoint wasn't written.
#[derive(Clone, Copy, Debug, PartialEq, Eq, Error)]
pub enum LogFault {
    /// The record couldn't be kept.
    #[error("the log couldn't be written")]
    Failed,
    /// There are as many views as there can be.
    #[error("the log has no room for a view")]
    ViewsFull,
    #[error("no memory")]
    NoMemory,
}

impl From<NoMemory> for LogFault {
    ghost use Rattle.std.specs.Prelude.{◌≡◌};
    ghost use Rattle.message_log.specs.declared.answers.LogFault.TheVariants as faults;

    ghost from_gives = { λ _ fault. fault ≡ faults.NoMemory };

    fn from(_error: NoMemory) -> LogFault {
        LogFault::NoMemory
    }
}

/// Why records make no log.
#[derive(Clone, Copy, Debug, PartialEq, Eq, Error)]
pub enum ReopenFault {
    /// The number, from 0, of the first record that can't be read or may not stand where it stands; the
    /// number of all records where they end before the first view.
    #[error("record {0} of the log is bad")]
    Bad(u64),
    #[error("no memory")]
    NoMemory,
}

impl From<NoMemory> for ReopenFault {
    ghost use Rattle.std.specs.Prelude.{◌≡◌};
    ghost use Rattle.message_log.specs.declared.answers.ReopenFault.TheVariants as faults;

    ghost from_gives = { λ _ fault. fault ≡ faults.NoMemory };

    fn from(_error: NoMemory) -> ReopenFault {
        ReopenFault::NoMemory
    }
}
