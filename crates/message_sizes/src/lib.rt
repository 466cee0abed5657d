//! How many bytes the messages of a script would have in GIOP 1.2, counted without writing them. (GIOP chapter, "GIOP Message Formats".)
//!
//! A Reply is counted, and written beside that:
//!
//! ```
//! let size = size_of(alloc, &answer)?;
//! let form = Form {
//!     minor: 2,
//!     order: Order::Big,
//! };
//! let bytes = reply_bytes(alloc, 7, form, &answer)?;
//! Ok(write!(out, "counted {size}, written {}", bytes.bytes().len())?)
//! ```
#![tactic(auto)]

mod answers;
mod laws;
mod places;
mod requests;

pub use answers::{fault_size, forward_size, outcome_size};
pub use laws::replies_are_as_long;
pub use requests::request_size;
