//! A live run: an account is opened as a group of hosts, which serve links side by side; clients call it, each from a caller of
//! its own; and a monitor has a host that stops replaced. What the group's history is in the end, and what each client was
//! told, specs/Runs.antt says. (Chapter 23, Replication Management and Fault Management.)
#![tactic(auto)]

mod groups;
mod runs;
mod serving;
mod starts;
mod stations;

pub use runs::{RunEnd, RunFault, run_live};
