//! What has happened to a value, for proofs alone: it takes no memory, and its calls do nothing at run time.
//!
//! A struct keeps it beside its fields, and its invariant says that they are what these events make:
//!
//! ```
//! self.past.push(Snapshot::of(happening));
//! ```
#![tactic(auto)]

mod pasts;

pub use pasts::PastEvents;
