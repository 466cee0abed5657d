//! Hosts of a running group, each a job in a thread of its own that serves the links of its door. Each has a pass of its
//! own to the group behind its lock; the turns that the group's history has under that pass's number are requests and
//! looks at this host. (Chapter 23, Replication Management; GIOP chapter, "GIOP Message Transfer".)
//!
//! The run starts them with passes that are split from its own, and takes these in again once the hosts have ended.
#![tactic(auto)]

mod jobs;
mod joins;
mod laws;
mod posts;
mod starts;

pub use jobs::HostJob;
pub use joins::join_hosts;
pub use laws::ended_hosts_stay;
pub use posts::Host;
pub use starts::{Hosts, StartFault, start_hosts};
