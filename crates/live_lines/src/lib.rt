//! All lines of a live run's clients, over whatever holds the group's replies to their calls.
#![tactic(auto)]

mod clients;
mod replies;

pub use clients::push_told_lines;
pub use replies::Replies;
