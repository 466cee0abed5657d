//! A group behind a lock that knows its history: hosts that run side by side share one group and its log, and what each
//! is told is what one group gives at its place of one history. (Chapter 23, Replication Management and Logging &
//! Recovery Management.)
//!
//! The object of the lock is a [`Book`]: the group's core, and what its events sent and nobody has brought yet.
#![tactic(auto)]

mod books;
mod calls;
mod groups;
mod laws;
mod traces;

pub use books::Book;
pub use calls::{AskAnswer, Call, CallAnswer, QueuedAnswer};
pub use groups::{Note, Pass, SharedGroup};
pub use laws::{
    calls_stay_possible, entries_found_stay, free_calls_may_be_made, sent_may_be_brought,
};
