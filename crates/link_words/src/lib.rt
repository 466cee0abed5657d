//! What rows of links are tried with. A link in memory takes and gives few bytes at once, a port answers by letters, and
//! a job serves links over sockets through it.
//!
//! ```
//! let port = LetterPort::new(alloc, letters.as_bytes());
//! let ended = serve_link(rt, alloc, HOST, &port, &mut turns, &mut link);
//! ```
#![tactic(auto)]

mod hosts;
mod letters;
mod pieces;

pub use hosts::{HOST, LetterHost, Visits, start_host};
pub use letters::{LetterPort, Turns};
pub use pieces::PieceLink;
