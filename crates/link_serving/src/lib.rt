//! A host serves a link, whatever the link is and whatever answers its requests.
//!
//! `specs/` say what was written, by what was read and by the turns that the link's pass gained (`IsServed`), and how
//! the link was left (`Leaves`).
//!
//! ```
//! let left = serve_link(&rt, alloc, HostNo(3), &Lonely, &mut turns, &mut link);
//! ```
#![tactic(auto)]

mod ends;
mod fronts;
mod receiving;
mod serving;
#[cfg(test)]
mod tests;

pub use ends::Ended;
pub use serving::{Visit, serve_link, serve_visit};
