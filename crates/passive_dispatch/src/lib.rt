//! A request at a host that has caught up: the journal refuses it, repeats its reply, or accepts it;
//! then the host's servant runs it. (Chapter 23, Logging and Recovery Mechanisms.)
#![tactic(auto)]

mod running;
mod serving;

pub use serving::{Arrival, Replied, Served, serve};
