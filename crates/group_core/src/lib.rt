//! One group: its log and its 64 hosts, and what each event makes of them. The events are requests, views,
//! states, updates, orders, stops and starts, checkpoints, and changes of members. After each event that
//! agrees with the plain group, the core stands for the plain group after it. (Chapter 23, Logging and
//! Recovery Mechanisms.)
//!
//! A write fails, as the tests have it. Each row has an event at the core, or a look at it, and what is told.
//!
//! ```
//! (Step::Fail, ("fail", 0, 0)),
//! (Step::Ask(0, 1, 5), ("PERSIST_STORE maybe", 0, 1)),
//! (Step::Ask(0, 1, 5), ("append", 0, 5)),
//! (Step::Ask(0, 1, 5), ("repeat", 0, 5)),
//! ```
#![tactic(auto)]

mod cores;
mod laws;
mod reopens;
mod running;
mod takers;
#[cfg(test)]
mod tests;
#[cfg(test)]
mod trials;

pub use cores::GroupCore;
pub use laws::{
    acts_are_steps, cores_tell, log_faults_are_counted, turns_are_as_foretold,
    want_of_memory_is_told,
};
pub use reopens::cores_may_go_on;
pub use running::{is_short, run};
pub use takers::event_of;
