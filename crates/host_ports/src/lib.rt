//! The ports of all hosts.
//!
//! The host that listens at a port, where there is one:
//!
//! ```
//! (1999, None),
//! (2000, Some(HostNo(0))),
//! (2063, Some(HostNo(63))),
//! (2064, None),
//! ```
#![tactic(auto)]

mod laws;
mod ports;
#[cfg(test)]
mod tests;

pub use laws::every_host_has_a_port;
pub use ports::{all_ports, host_at};
