//! The lines of a live run's clients: one for each call, which says how it ended, and where that isn't the group's reply.
#![tactic(auto)]

mod lines;
mod replies;

pub use lines::push_call_line;
pub use replies::{differs, is_same};
