//! The groups of a script: each has a name, a kind of servant, and the core of a group over a log in memory.
//! (Chapter 23, "Replication Management".)
//!
//! A group is made, an event comes to it, and it is shown:
//!
//! ```
//! let mut group = ScriptGroup::new(alloc, id, name, kind, style, members)?;
//! ```
//!
//! ```
//! match group.act(world.alloc(), Event::Crash(host), steps) {
//!     GroupAnswer::NoMemory => Err(NoMemory),
//!     _ => Ok(()),
//! }
//! ```
//!
//! ```
//! match world.group(place).shown(world.alloc()) {
//!     Ok(report) => Ok(report),
//!     Err(NoMemory) => Err(LineFault::NoMemory),
//! }
//! ```
#![tactic(auto)]

mod groups;
mod happenings;
mod laws;
mod reading;
mod references;
mod showing;
mod taking;

pub use groups::ScriptGroup;
pub use happenings::Happening;
pub use laws::{
    answers_are_in_form, calls_are_counted, failures_come_once, groups_go_on, groups_keep_entries,
    shown_are_views, takers_may_take,
};
