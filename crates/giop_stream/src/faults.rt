use ft_base::NoMemory;
use giop_messages::{Malformed, ReadFault, Why};
use std::alloc::AllocError;
use thiserror::Error;

/// Why a link can't be read on.
#[derive(Clone, Copy, Debug, PartialEq, Eq, Error)]
pub enum StreamFault {
    /// The first thing that is wrong with a message or one of its parts. The place is counted from its
    /// first byte; in a message that was joined of fragments, from the first byte of the joined one.
    #[error("{why:?} at {place}")]
    Malformed { why: Why, place: u32 },
    /// A message of so many bytes with its header, or one that its fragments make so large: more than
    /// 1 MiB.
    #[error("a message of {0} bytes")]
    TooLarge(u64),
    #[error("no memory")]
    NoMemory,
}

impl From<Malformed> for StreamFault {
    ghost use Rattle.std.specs.Prelude.{◌≡◌};
    ghost use Rattle.giop_stream.specs.declared.faults.StreamFault.TheVariants as faults;

    ghost from_gives = { λ wrong e. e ≡ faults.Malformed wrong.why wrong.place };

    fn from(wrong: Malformed) -> StreamFault {
        StreamFault::Malformed {
            why: wrong.why,
            place: wrong.place,
        }
    }
}

impl From<ReadFault> for StreamFault {
    ghost use Rattle.std.specs.Prelude.{◌≡◌};
    ghost use Rattle.giop_stream.specs.Faults.{from_read};

    ghost from_gives = { λ fault e. e ≡ from_read fault };

    fn from(fault: ReadFault) -> StreamFault {
        match fault {
            ReadFault::Malformed { why, place } => StreamFault::Malformed { why, place },
            ReadFault::NoMemory => StreamFault::NoMemory,
        }
    }
}

impl From<NoMemory> for StreamFault {
    ghost use Rattle.std.specs.Prelude.{◌≡◌};
    ghost use Rattle.giop_stream.specs.declared.faults.StreamFault.TheVariants as faults;

    ghost from_gives = { λ _ e. e ≡ faults.NoMemory };

    fn from(_error: NoMemory) -> StreamFault {
        StreamFault::NoMemory
    }
}
