//! Time and threads of running hosts. A clock answers a moment that is never before the one it was asked for, and a
//! crew starts jobs in threads of their own: what is joined is what the started job owes. Each has a form for tests,
//! which fails or stands still where it was told to, and one form over the system.
//!
//! Two jobs in threads of their own, each of which gives its number:
//!
//! ```
//! let mut crew = Crew::new(rt, rt.alloc());
//! let one = crew.start(Numbered { number: 7 });
//! let other = crew.start(Numbered { number: 8 });
//! assert_eq!(rt; crew.faults(), 0);
//! if let (Started::Running(one), Started::Running(other)) = (one, other) {
//!     assert_eq!(rt; join_both(&rt, one, other), (7, 8));
//! }
//! ```
#![tactic(auto)]

mod clocks;
mod crews;
mod jobs;
mod keepers;

pub use clocks::{Clock, SetClock, StdClock};
pub use crews::{Crew, Started};
pub use jobs::{Job, Owed, Running, join_both};
pub use keepers::CalmKeeper;

#[cfg(test)]
mod tests;
