//! The calls of a live client: each deposits 1, and is tried at one member of the group after another until it ends.
//! (Chapter 23, "Extensions to CORBA Failover Semantics".)
//!
//! `specs/` say what a client is told (`IsTold`): each attempt is at the target of the act before, what is heard is what
//! the links had, and each end is the client's by what it heard.
//!
//! ```
//! let told = client_calls(rt, alloc, &client, reference, count, &mut caller).map_err(no_memory)?;
//! ```
#![tactic(auto)]

mod aims;
mod answers;
mod calling;
mod calls;
mod pauses;
mod requests;
mod turns;

pub use answers::{Hearing, Told, ToldCall};
pub use calls::client_calls;
pub use requests::{DEPOSIT, NEVER, ONE};
