//! Lines of a script by which a group's members are watched and faults are told: `poll`, `sweep`, `subscribe`,
//! `unsubscribe`, `pull`; and the monitor's messages as they come. (Chapter 23, Fault Management.)
//!
//! `examples/monitor.script` has each of these lines but `unsubscribe`.
#![tactic(auto)]

mod arriving;
mod monitoring;
mod polling;
mod subscribing;
mod sweeping;

pub use arriving::{ping_comes, pong_comes};
pub use polling::poll_line;
pub use subscribing::{pull_line, subscribe_line, unsubscribe_line};
pub use sweeping::sweep_line;
