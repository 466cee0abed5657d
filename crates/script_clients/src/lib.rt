//! The clients of a script: each invokes one group after another, and keeps a reference to each group that it
//! knows.
//!
//! A client joins a world, begins an invocation, and hears a reply:
//!
//! ```
//! world.add_client(ScriptClient::new(name, world.alloc()))?;
//! ```
//!
//! ```
//! let client = &mut self.items[place];
//! client.start(alloc, reference, expiration, numbers, versioned, request)
//! ```
//!
//! ```
//! let client = &mut self.items[place];
//! client.hear(alloc, id, heard, now)
//! ```
#![tactic(auto)]

mod answers;
mod clients;
mod happenings;
mod histories;
mod laws;
mod references;
mod telling;

pub use answers::{Attempt, Call, Told};
pub use clients::ScriptClient;
pub use laws::ids_go_on;
