use crate::numbers::{Tick, Version};

/// What a host made of a request: the first rule of a group that applied, with its numbers.
#[derive(Clone, Copy, Debug, PartialEq, Eq)]
pub enum Decision {
    /// It was accepted as the entry at this place of the journal.
    Append(u32),
    /// It repeats the entry at this place.
    Repeat(u32),
    /// It came when its expiration had come.
    Expired { expiration: Tick, now: Tick },
    /// Its client and retention id are those of the entry at this place, which is another request.
    Other(u32),
    /// The journal holds as many entries as it can, this many.
    Full(u32),
    /// The log couldn't be written.
    LogFault,
    /// It asks for a version of the group's reference that there isn't yet.
    Newer { asked: Version, newest: Version },
    /// The view of this version has no members.
    Empty(Version),
    /// It asks for an older version than the one that the host knows.
    Older { asked: Version, known: Version },
    /// The host is no member in the view of this version.
    Stranger(Version),
    /// Another member is the primary in the view of this version.
    Backup(Version),
    /// The host was the primary in the view that it knew, and there is a newer one.
    Deposed { known: Version, newest: Version },
    /// The servant has no such operation.
    BadOperation,
    /// Its body isn't the operation's parameters from this place on, counted from the body's first byte.
    Marshal(u32),
    /// Its arguments have too many bytes, this many in canonical form.
    Long(u32),
    /// The service context with this id stands twice or can't be read.
    Context(u32),
}

/// Where a host stops in the middle of a request that it accepted.
#[derive(Clone, Copy, Debug, PartialEq, Eq)]
pub enum Stop {
    /// It doesn't.
    Never,
    /// The entry is in the log, and the servant hasn't run it.
    AfterAppend,
    /// The servant ran it, and the reply isn't sent.
    AfterExecute,
}

/// Why a host ignores what another one sent.
#[derive(Clone, Copy, Debug, PartialEq, Eq)]
pub enum Ignored {
    /// It has no state to which an update or an order could be applied.
    NotLoaded,
    /// A state after `sent` entries, where the host has run as many or more, `at`.
    Position { sent: u32, at: u32 },
    /// An update that leads on from another position than the host's, `at`.
    From { from: u32, at: u32 },
    /// An order of an entry that the host has run: it is at position `at`.
    Order { index: u32, at: u32 },
    /// A view that is no newer than the one that the host knows.
    Known { sent: Version, known: Version },
}
