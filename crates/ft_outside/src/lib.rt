//! The outside of `ftc`: where bytes come from and go to. A source and a sink may tell what they
//! have left and what they hold, and each counts its faults, so that a contract can say what was
//! read and written, and that a failure is answered only where there was one. Forms in memory tell
//! all of it, and fail where a [`Schedule`] says so. Of the adapters to the system a run sees their faults alone; their own clauses say that they
//! answer what their device did.
//!
//! A sink in memory with room for 8 bytes, whose second write fails:
//!
//! ```
//! let mut sink = MemSink::new(rt.alloc(), 8, &[2])?;
//! assert_eq!(rt; write_all(&mut sink, b"abc"), WholeWrite::All);
//! assert_eq!(rt; write_all(&mut sink, b"de"), WholeWrite::Failed);
//! assert_eq!(rt; write_all(&mut sink, b""), WholeWrite::All);
//! assert_eq!(rt; write_all(&mut sink, b"fg"), WholeWrite::All);
//! assert_eq!(rt; sink.bytes(), b"abcfg".as_slice());
//! ```
#![tactic(auto)]

mod copies;
mod keepers;
mod mem_keepers;
mod mem_sinks;
mod mem_sources;
mod schedules;
mod sinks;
mod sources;
mod standard;
mod wholes;

pub use copies::vec_of;
pub use keepers::{Keeper, Kept};
pub use mem_keepers::MemKeeper;
pub use mem_sinks::MemSink;
pub use mem_sources::MemSource;
pub use schedules::{Schedule, add_counts, next_count};
pub use sinks::{Flush, Put, Sink};
pub use sources::{Got, Source};
pub use standard::{StdSink, StdSource};
pub use wholes::{WholeWrite, behind, write_all};

#[cfg(test)]
mod tests;
