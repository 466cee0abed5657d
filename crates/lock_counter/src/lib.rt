//! A counter in a lock that knows its history, and threads that count with a pass each.
//!
//! Two threads take three turns each, and the answers are 1 to 6:
//!
//! ```
//! let (ones, others, last) = count_to_six(&rt, rt.alloc())?;
//! assert!(rt; are_one_to_six(ones, others), "{ones:?} and {others:?}");
//! assert_eq!(rt; last, 6);
//! ```
#![tactic(auto)]

mod counters;
mod runs;
#[cfg(test)]
mod tests;

pub use counters::Counter;
pub use runs::{count_in_threads, count_to_six, tell};
