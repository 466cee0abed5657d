//! Which members of object groups are to be asked whether they are alive, and which haven't answered
//! in time. (Chapter 23, Fault Management: the PULL monitoring style.)
//!
//! A monitor is told of each ask and of each answer. It keeps two ticks of a member in place of all
//! that it was told.
//!
//! Two members, each with an interval and a timeout of one tick, are asked at tick 0:
//!
//! ```
//! let mut monitor = Monitor::new(alloc);
//! // another group's member at the host, and another host's of the group
//! monitor.watch(GroupId(8), HOST, Tick(1), Tick(1))?;
//! monitor.watch(GROUP, HostNo(4), Tick(1), Tick(1))?;
//! monitor.asked(GroupId(8), HOST, Tick(0));
//! monitor.asked(GROUP, HostNo(4), Tick(0));
//! ```
//!
//! Whether a member is to be asked again, and whether it is late:
//!
//! ```
//! let is_due = monitor.due(GROUP, HOST, Tick(now)) == due;
//! let is_overdue = monitor.overdue(GROUP, HOST, Tick(now)) == overdue;
//! ```
#![tactic(auto)]

mod members;
mod monitors;
mod places;
#[cfg(test)]
mod tests;

pub use monitors::Monitor;
