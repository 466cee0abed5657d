//! The monitor of a script: the members that it watches, and all that it heard of them.
#![tactic(auto)]

mod happenings;
mod histories;
mod monitors;

pub use monitors::ScriptMonitor;
