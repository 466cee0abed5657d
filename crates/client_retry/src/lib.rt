//! A client of an object group: it tries one member after another until its invocation ends, and goes
//! on over the reference of a newer view where it is told one. (Chapter 23, "Extensions to
//! CORBA Failover Semantics".)
//!
//! An invocation of a group of two: the first attempt gets no reply, and a reply comes to the attempt `id`.
//!
//! ```
//! let mut client = ClientCore::new();
//! let _sent = client.start(group(rt.alloc(), 2, 2, Some(0))?, Tick(10));
//! let _sent_again = client.fault(Tick(0));
//! let act = client.reply(id, heard(rt.alloc(), name)?, Tick(0));
//! assert!(rt; shown(&act) == want, "{name} to {id}");
//! ```
#![tactic(auto)]

mod answers;
mod attempts;
mod clients;
mod laws;
mod limits;
mod meanings;

pub use answers::{Act, End, Heard};
pub use clients::ClientCore;
pub use laws::{ids_go_on, references_stay};
pub use limits::{LAST_ID, ROUNDS};
