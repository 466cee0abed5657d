//! What a request must pass before its group's journal is asked: the rows of the decision table that
//! speak of views, and then those of the request itself. (Chapter 23, "Object Group References" and
//! "Most Recent Object Group Reference".)
//!
//! What is asked of a host passes as a request, or is refused by the first row that applies.
#![tactic(auto)]

mod arguments;
mod passing;
mod views;

pub use passing::{Passed, pass};
pub use views::known_then;
