//! The monitor of a running group: it looks at the group's figures, asks its members whether they are up, and reports those
//! that haven't answered in time. It brings what was sent, takes a checkpoint where that is worth its cost, and crashes a
//! host where the run is to have one killed. (Chapter 23, Fault Management: the PULL monitoring style; Logging & Recovery
//! Management.)
#![tactic(auto)]

mod bringing;
mod looks;
mod members;
mod rounds;
mod states;

pub use looks::{last_look, look};
pub use rounds::round;
pub use states::{Kill, RunMonitor};
