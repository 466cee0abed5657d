//! The records of a group's log, as bytes: an accepted request, a view, a checkpoint. (Chapter 23,
//! Logging and Recovery Mechanisms.)
//!
//! A record is an encapsulation in big endian order, and its first octet gives its form. Each is
//! written from the values that it tells, and is read as exactly the record that its bytes spell.
//!
//! The record of an entry, and what record bytes are:
//!
//! ```
//! let record = entry_record(rt.alloc(), position, version, tick, &request).map_err(no_memory)?;
//! ```
//!
//! ```
//! let kind = match record_in(rt.alloc(), piece).map_err(no_memory)? {
//!     Some(Record::Entry(_)) => "an entry",
//!     Some(Record::View(_)) => "a view",
//!     Some(Record::Checkpoint(_)) => "a checkpoint",
//!     None => "no record",
//! };
//! ```
#![tactic(auto)]

mod reading;
mod records;
mod writing;

pub use reading::record_in;
pub use records::{Accepted, Checkpoint, Record, RetainedList};
pub use writing::{checkpoint_record, entry_record, primary_octet, view_record};
