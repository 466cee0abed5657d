//! A client's links: an attempt reaches its target over the link that is open, or over a new one, and hears what comes
//! next. (GIOP chapter, "Connection Management".)
//!
//! `specs/` say it of the bytes that a link had when it was dialled, and of what its dialer tells (`Attempts`).
//!
//! ```
//! let (next, item) = attempt(rt, alloc, dialer, line, aim.host(), aim.port(), aim.text());
//! ```
#![tactic(auto)]

mod attempts;
mod exchanges;
mod items;
mod lines;
mod listening;

pub use attempts::attempt;
pub use items::Item;
pub use lines::{Line, hang_up};
