//! A group's log: its views, its journal of accepted requests with the replies that are retained, and
//! its checkpoints, on a keeper of records. (Chapter 23, Logging and Recovery Mechanisms.)
//!
//! A request joins a journal. All the memory that it takes is taken before the log is asked.
//!
//! ```
//! let version = log.newest().version;
//! log.reserve(alloc, version, clock, &request)
//!     .map_err(no_memory)?;
//! if log.admit(version, clock, &request) != Admit::Admission(Admission::New) {
//!     return Ok(None);
//! }
//! Ok(Some(log.append_reserved(version, clock, request)))
//! ```
//!
//! A log is opened again from its records:
//!
//! ```
//! match Log::reopen(rt.alloc(), keeper) {
//!     Ok(log) => {
//!         println!(rt; "    a log")?;
//!         Ok(Some(log))
//!     }
//!     Err((ReopenFault::NoMemory, _keeper)) => Err(anyhow!("no memory")),
//!     Err((ReopenFault::Bad(number), _keeper)) => {
//!         println!(rt; "    record {number} is bad")?;
//!         Ok(None)
//!     }
//! }
//! ```
#![tactic(auto)]

mod answers;
mod entries;
mod laws;
mod logs;
mod opening;
mod retaining;
mod tidying;
mod writes;

pub use answers::{Admit, Appended, LogFault, ReopenFault};
pub use laws::{
    logs_are_opened_again, logs_say_what_journals_say, logs_stand_for_journals,
    records_are_read_again,
};
pub use logs::Log;
pub use writes::writes_are_on_record;
