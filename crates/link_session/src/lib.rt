//! What a host makes of a link's messages, without sockets and without a world: what each message calls
//! for, what is written to it, and how the link ends. (GIOP chapter, "GIOP Message Transfer".)
//!
//! `specs/` say it over whatever answers requests. A port is a relation on passes, of what is exchanged with it
//! (`Exchanges`): what a message comes to is `IsStepped`, and the bytes that answer a link are `served` of its messages
//! and of the turns that they take (`Serving`). A port that is a function (`Ports`) is an instance (`Functions`). `Loops`
//! has the laws of a loop over a session.
//!
//! A host serves a link: `take` answers a message by [`step`], and `end` writes what [`end_bytes`] says.
//!
//! ```
//! match session.next() {
//!     Ok(SessionStep::Serve(received)) => take(received, &mut written, alloc)?,
//!     Ok(SessionStep::Wait) => return end(session.at_end(), written, alloc),
//!     Ok(SessionStep::End(how)) => return end(how, written, alloc),
//!     Err(NoMemory) => return Err(NoMemory),
//! }
//! ```
//!
//! ```
//! match step(alloc, &Lonely, written, HostNo(0), received)? {
//!     Stepped::Write(bytes) => written.push(bytes),
//!     Stepped::Silent => Ok(()),
//!     Stepped::Down => Err(NoMemory),
//! }
//! ```
#![tactic(auto)]

mod answering;
mod asking;
mod calls;
mod laws;
mod ports;
#[cfg(test)]
mod tests;

pub use answering::{done, end_bytes, reply, system};
pub use asking::asked_of;
pub use calls::{Calling, calling_of};
pub use host_server::locate_reply_bytes;
pub use laws::view_references_can_be_sent;
pub use ports::{GroupPort, Stepped, step};
