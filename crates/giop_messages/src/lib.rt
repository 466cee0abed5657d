//! The messages of GIOP 1.0, 1.1 and 1.2, both ways in both byte orders: what a peer says on a link. (GIOP
//! chapter, "GIOP Message Formats".)
//!
//! `specs/` say which bytes spell which message, and in which order the causes are judged for which
//! bytes are none.
//!
//! A message is read, and one of 1.2 written again:
//!
//! ```
//! match read_message(alloc, bytes.as_slice()) {
//!     Ok((message, form)) => {
//!         put_message(&message, form, out)?;
//!         if form.minor == 2 {
//!             put_again(alloc, &message, form.order, out)?;
//!         }
//!         Ok(())
//!     }
//!     Err(fault) => Ok(write!(out, "refused {fault}")?),
//! }
//! ```
//!
//! ```
//! let bytes = write_message(alloc, message, Form { minor: 2, order })?;
//! ```
#![tactic(auto)]

mod addresses;
mod contexts;
mod faults;
mod forms;
mod heads;
mod laws;
mod messages;
mod reading;
mod replies;
mod requests;
mod statuses;
mod writing;

pub use faults::{Malformed, ReadFault, Why};
pub use forms::Form;
pub use heads::{HEAD_LENGTH, Head, Kind, MESSAGE_LIMIT, read_head};
pub use laws::{
    headers_are_read_back, heads_are_read_exactly, messages_are_fields_behind_headers,
    messages_are_read_back, messages_are_read_exactly, messages_are_spelled, messages_are_within,
};
pub use messages::{Message, ReplyMsg, RequestMsg};
pub use reading::{read_fields, read_message};
pub use statuses::{
    LOCATION_FORWARD, LOCATION_FORWARD_PERM, NEEDS_ADDRESSING_MODE, NO_EXCEPTION, OBJECT_HERE,
    SYSTEM_EXCEPTION, UNKNOWN_OBJECT, USER_EXCEPTION,
};
pub use writing::write_message;
