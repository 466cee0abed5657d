//! A link read in pieces: which messages of GIOP come in its bytes, with the fragments of 1.2 joined.
//! (GIOP chapter, "GIOP Message Header" and "Fragment Message".)
//!
//! `specs/` say it of the whole list of bytes (`stream`); the framer is fed pieces of it.
//!
//! A framer gives the messages of what it was fed, one after another:
//!
//! ```
//! match framer.next() {
//!     Ok(Some(message)) => {
//!         put_message(&message.0, message.1, out)?;
//!         out.push_str("; ")?;
//!     }
//!     Ok(None) => return Ok(None),
//!     Err(fault) => return Ok(Some(fault)),
//! }
//! ```
//!
//! A session gives a server what it is to serve, and says how the link ends:
//!
//! ```
//! match session.next()? {
//!     SessionStep::Serve(message) => {
//!         put_message(&message.0, message.1, out)?;
//!         out.push_str("; ")?;
//!     }
//!     SessionStep::Wait => return Ok(session.at_end()),
//!     SessionStep::End(end) => return Ok(end),
//! }
//! ```
#![tactic(auto)]

mod begun;
mod buffers;
mod faults;
mod framers;
mod fronts;
mod laws;
mod replies;
mod sessions;
mod tallies;

pub use faults::StreamFault;
pub use framers::Framer;
pub use laws::{cut_are_joined, streams_are_spelled, written_are_streamed};
pub use replies::{ReplySession, ReplyStep};
pub use sessions::{Session, SessionStep, StreamEnd};
