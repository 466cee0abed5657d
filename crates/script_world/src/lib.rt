//! The world of a script: its hosts, groups and clients, every message that was sent, the monitor and the
//! subscribers. Each call of it is
//! a small change or a look; what the lines of a script make of it stands above.
//!
//! A client of a world begins an invocation, and hears its reply:
//!
//! ```
//! let told = world.start_at(client, begun)?;
//! ```
//!
//! ```
//! let told = world.hear_at(client, id, heard)?;
//! ```
#![tactic(auto)]

mod clients;
mod faults;
mod groups;
mod hosts;
mod limits;
mod messages;
mod settings;
mod worlds;

pub use hosts::HostState;
pub use limits::{BYTE_LIMIT, CLIENT_LIMIT, DEFAULT_LIFE, ENTRY_LIMIT, GROUP_LIMIT, MESSAGE_LIMIT};
pub use messages::{Apart, Message, Reply, copy_out};
pub use worlds::{Begun, World};
