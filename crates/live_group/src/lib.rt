//! The group of a live run, from its opening to its end: it is opened with a view of all its hosts and put behind a lock, it
//! is monitored while clients call, and once the hosts have ended its lock is closed. (Chapter 23, Replication Management.)
#![tactic(auto)]

mod closing;
mod opening;
mod watching;

pub use closing::close_group;
pub use opening::{GROUP, OpenGroup, open_group};
pub use watching::watch;
