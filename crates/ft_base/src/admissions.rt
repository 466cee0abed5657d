use crate::numbers::Tick;

/// What a group's journal says of a request: the first that applies (chapter 23,
/// `FTRequestServiceContext`).
#[derive(Clone, Copy, Debug, PartialEq, Eq)]
pub enum Admission {
    /// Its expiration, which is this, has come.
    Expired(Tick),
    /// The entry at this position holds its retention id, and is the same request.
    Same(u32),
    /// The entry at this position holds its retention id, and is another request.
    Other(u32),
    /// The journal has as many entries as it can.
    Full,
    /// It is new.
    New,
}
