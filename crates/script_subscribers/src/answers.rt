use fault_notifier::FaultEvent;

/// What came of a subscription that was asked for.
#[derive(Clone, Copy, Debug, PartialEq, Eq)]
pub enum Subscribed {
    /// It listens from now on.
    Done,
    /// The term at this place of the filter, from 0, is none, or its name stands before.
    BadFilter(u32),
    /// There are as many subscribers as there can be: this many.
    Full(u32),
}

/// What a subscriber is told.
#[derive(Debug, Drop)]
pub enum Pulled {
    /// Nobody listens by this name.
    Unknown,
    /// It has read all.
    Nothing,
    Event(FaultEvent),
}
