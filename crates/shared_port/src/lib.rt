//! A group behind a lock, as what answers the requests on links to its hosts: each is a turn of the link's pass. What is
//! written on a link answers its messages by those turns. (GIOP chapter, "GIOP Message Transfer".)
#![tactic(auto)]

mod answering;
mod ports;
mod serving;

pub use ports::LockedPort;
pub use serving::serve_group;
