//! What a host says on a link: the replies to requests and to questions where an object is. (GIOP
//! chapter, "GIOP Message Formats".)
//!
//! An answer as the bytes of a Reply:
//!
//! ```
//! let answer = answer_of(alloc, form.order, answer)?;
//! let bytes = reply_bytes(alloc, u32::try_from(number(*id)?)?, form, &answer)?;
//! ```
#![tactic(auto)]

mod answers;
mod bodies;
mod limits;
mod replies;

pub use answers::PortAnswer;
pub use bodies::no_group;
pub use limits::{BODY_LIMIT, PART_LIMIT};
pub use replies::{locate_reply_bytes, message_error_bytes, reply_bytes};
