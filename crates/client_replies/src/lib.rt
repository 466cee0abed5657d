//! What a Reply says to a client: the request's outcome, a system exception, or another reference to ask over. (GIOP
//! chapter, "Reply Message".)
//!
//! ```
//! let heard = heard_of(alloc, reply)?;
//! ```
#![tactic(auto)]

mod bodies;
mod hosts;
mod names;
mod replies;

pub use hosts::are_hosts;
pub use replies::heard_of;
