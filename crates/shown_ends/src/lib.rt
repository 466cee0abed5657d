//! How an invocation's end is shown, and a request's outcome: values by the type that the operation gives.
#![tactic(auto)]

mod ends;

pub use ends::{shown_end, shown_outcome};
