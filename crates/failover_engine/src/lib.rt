//! How a host takes over: it catches up with its group's journal, by the entries that it hasn't run
//! and no other, and it learns of newer views. (Chapter 23, Logging and Recovery Mechanisms.)
//!
//! A host that holds no servant begins at the newest checkpoint. What a catch-up gives is the count of the
//! entries that it had to run.
#![tactic(auto)]

mod catching;
mod views;

pub use catching::catch_up;
pub use views::take_view;
