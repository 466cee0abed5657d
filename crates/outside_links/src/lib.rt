//! Links of running hosts: what dials, accepts and binds, as traits that count their faults.
//!
//! Two ends of a link. What one sends comes to the other, and then the end:
//!
//! ```
//! let mut door = network.bind()?;
//! let mut caller = network.caller();
//! let near = caller.dial(name, door.port())?;
//! let far = door.accept()?;
//! Some((near, far))
//! ```
//!
//! ```
//! assert_eq!(rt; near.send(b"abc"), Put::Took(3));
//! near.close();
//! assert_eq!(rt; far.receive(&mut into), Got::Bytes(3));
//! assert_eq!(rt; far.receive(&mut into), Got::End);
//! ```
#![tactic(auto)]

mod hosts;
mod links;
mod mem_callers;
mod mem_links;
mod mem_networks;
mod sending;
mod targets;
mod tcp_links;
mod tcp_networks;

pub use links::{Acceptor, Dialer, Link, Network};
pub use mem_callers::MemCaller;
pub use mem_links::MemLink;
pub use mem_networks::{MemDoor, MemNetwork};
pub use sending::send_all;
pub use targets::Target;
pub use tcp_links::TcpLink;
pub use tcp_networks::{TcpCaller, TcpDoor, TcpNetwork};

#[cfg(test)]
mod tests;
