//! The lines of a script: their grammar, and its reader.
//!
//! A line's text is nothing, a line, or why it is refused; the words of a call are read by its operation's signature:
//!
//! ```
//! match read_line(alloc, line) {
//!     Ok(Some(Line::Call { words, .. })) => call_words(alloc, Some(signature), &words),
//!     _ => Err(LineFault::Syntax),
//! }
//! ```
#![tactic(auto)]

mod arguments;
mod criteria;
mod forms;
mod hexadecimal;
mod keywords;
mod lines;
mod names;
mod numerals;
mod options;
mod reading;
mod settings;
mod splitting;
mod steps;
mod verbs;

pub use arguments::{CallWords, call_words};
pub use lines::{
    Criteria, HostNumbers, KindWord, Level, LimitName, Line, LineFault, MemberChange, Words,
};
pub use reading::{read_line, read_words, split_line};
pub use splitting::LineWords;
