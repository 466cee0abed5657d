//! How a run of the program ends where its work isn't done: the status, and what the sink of errors is told.
#![tactic(auto)]

mod ends;

pub use ends::{ProgramFault, end, end_by};
