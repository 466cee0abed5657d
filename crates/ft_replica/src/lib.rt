//! A servant with its position in a group's journal, and a copy of it at the position from which its
//! next update leads. (Chapter 23, Logging and Recovery Mechanisms.)
//!
//! A replica begins at position 0 with a servant in its opening state. One that holds no servant is blank.
#![tactic(auto)]

mod replicas;

pub use replicas::Replica;
