//! The replies that a group's log retains: each keyed request that was accepted, with its reply once
//! it has run, until its expiration has come. (Chapter 23, FTRequestServiceContext.)
//!
//! A table is seen as the list of its entries in order of position. It finds a request's entry by
//! the client's id and the retention id, without looking at the others and without memory.
//!
//! Requests are put at their positions, and one that comes again is found until it expires:
//!
//! ```
//! let mut table = ReplyTable::new(alloc);
//! table.reserve()?;
//! table.put_reserved(2, Version(1), Tick(3), first);
//! table.reserve()?;
//! table.put_reserved(5, Version(1), Tick(12), second);
//! ```
//!
//! ```
//! match table.find(&request, Tick(now.parse::<u64>()?)) {
//!     Found::Same(position) => println!(rt; "    a repeat of entry {position}")?,
//!     Found::Other(position) => println!(rt; "    other than entry {position}")?,
//!     Found::Fresh => println!(rt; "    new")?,
//! }
//! ```
#![tactic(auto)]

mod entries;
mod ids;
mod rows;
mod tables;

pub use entries::{Found, Retained};
pub use tables::ReplyTable;
