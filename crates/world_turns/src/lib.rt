//! What a line of a script does to its world, and how it is said: the world after it, what is printed, the servant
//! calls, and refusals; and how what a group sends becomes messages.
#![tactic(auto)]

mod lines;
mod naming;
mod sending;

pub use lines::one_line;
pub use naming::{Named, gone, group_called, group_with_number, late_line};
pub use sending::{push_view, send_all, send_all_at};
