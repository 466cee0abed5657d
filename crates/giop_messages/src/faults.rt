ghost use Rattle.std.specs.Prelude.{◌≡◌};
ghost use Rattle.giop_messages.specs.Faults.{up};

use cdr_codec::{CdrFault, CdrWhy, FieldFault};
use ft_base::NoMemory;
use std::alloc::AllocFailed;
use thiserror::Error;

/// What is wrong with a message.
#[derive(Clone, Copy, Debug, PartialEq, Eq, Error)]
pub enum Why {
    /// The message doesn't begin with `GIOP`.
    #[error("no GIOP message")]
    Magic,
    /// A version other than 1.0, 1.1 and 1.2.
    #[error("another version")]
    Version,
    /// More fragments are announced of a message that has none; in 1.1 none has any.
    #[error("fragments of a message that has none")]
    Flags,
    /// A type of message that the version hasn't: above 7, or a Fragment of 1.0 or 1.1.
    #[error("no type of message")]
    Kind,
    /// A part of a fragmented message whose length is no multiple of 8, though more parts follow.
    #[error("a part of a wrong length")]
    Length,
    /// A part that belongs to no begun message, or begins one that it may not begin.
    #[error("a part out of turn")]
    Open,
    /// The bytes end inside the message.
    #[error("the message is cut off")]
    Cut,
    /// The message ends inside a field.
    #[error("the message is too short")]
    Short,
    /// A boolean that is neither 0 nor 1.
    #[error("no boolean")]
    BadBool,
    /// A string without a NUL at its end, or with one before it.
    #[error("no string")]
    BadString,
    /// A byte order that is neither 0 nor 1.
    #[error("no byte order")]
    BadOrder,
    /// A target from which no object key comes.
    #[error("no object key")]
    Address,
    /// A reply status that the version hasn't.
    #[error("no reply status")]
    Status,
}

/// What is wrong with a message, and the place at which it is, counted from the message's first byte:
/// of the field that is at fault, behind its padding; of `Cut`, the number of bytes that there are.
#[derive(Clone, Copy, Debug, PartialEq, Eq, Error)]
#[error("{why:?} at {place}")]
pub struct Malformed {
    pub why: Why,
    pub place: u32,
}

/// Why bytes can't be read as a message.
#[derive(Clone, Copy, Debug, PartialEq, Eq, Error)]
pub enum ReadFault {
    /// The first thing that is wrong, and its place as in [`Malformed`].
    #[error("{why:?} at {place}")]
    Malformed { why: Why, place: u32 },
    #[error("no memory")]
    NoMemory,
}

fn why_of(why: CdrWhy) -> Why
    ensures { result ≡ up why }
{
    match why {
        CdrWhy::Short => Why::Short,
        CdrWhy::BadBool => Why::BadBool,
        CdrWhy::BadString => Why::BadString,
        CdrWhy::BadOrder => Why::BadOrder,
    }
}

impl From<CdrFault> for Malformed {
    ghost use Rattle.std.specs.Prelude.{◌≡◌};
    ghost use Rattle.giop_messages.specs.Faults.{up};

    ghost from_gives = { λ wrong e. e ≡ record { why = up wrong.why; place = wrong.place } };

    fn from(wrong: CdrFault) -> Malformed {
        Malformed {
            why: why_of(wrong.why),
            place: wrong.place,
        }
    }
}

impl From<CdrFault> for ReadFault {
    ghost use Rattle.std.specs.Prelude.{◌≡◌};
    ghost use Rattle.giop_messages.specs.Faults.{up};
    ghost use Rattle.giop_messages.specs.declared.faults.ReadFault.TheVariants as faults;

    ghost from_gives = { λ wrong e. e ≡ faults.Malformed (up wrong.why) wrong.place };

    fn from(wrong: CdrFault) -> ReadFault {
        ReadFault::Malformed {
            why: why_of(wrong.why),
            place: wrong.place,
        }
    }
}

impl From<FieldFault> for ReadFault {
    ghost use Rattle.std.specs.Prelude.{◌≡◌};
    ghost use Rattle.giop_messages.specs.Faults.{of_field};

    ghost from_gives = { λ wrong e. e ≡ of_field wrong };

    fn from(wrong: FieldFault) -> ReadFault {
        match wrong {
            FieldFault::Bad(wrong) => ReadFault::Malformed {
                why: why_of(wrong.why),
                place: wrong.place,
            },
            FieldFault::NoMemory => ReadFault::NoMemory,
        }
    }
}

impl From<Malformed> for ReadFault {
    ghost use Rattle.std.specs.Prelude.{◌≡◌};
    ghost use Rattle.giop_messages.specs.declared.faults.ReadFault.TheVariants as faults;

    ghost from_gives = { λ wrong e. e ≡ faults.Malformed wrong.why wrong.place };

    fn from(wrong: Malformed) -> ReadFault {
        ReadFault::Malformed {
            why: wrong.why,
            place: wrong.place,
        }
    }
}

impl From<NoMemory> for ReadFault {
    ghost use Rattle.std.specs.Prelude.{◌≡◌};
    ghost use Rattle.giop_messages.specs.declared.faults.ReadFault.TheVariants as faults;

    ghost from_gives = { λ _ e. e ≡ faults.NoMemory };

    fn from(_error: NoMemory) -> ReadFault {
        ReadFault::NoMemory
    }
}

impl<T: Drop> From<AllocFailed<T>> for ReadFault {
    ghost use Rattle.std.specs.Prelude.{◌≡◌};
    ghost use Rattle.giop_messages.specs.declared.faults.ReadFault.TheVariants as faults;

    ghost from_gives = { λ _ e. e ≡ faults.NoMemory };

    fn from(_error: AllocFailed<T>) -> ReadFault {
        ReadFault::NoMemory
    }
}
