//! The words behind `live`: how many hosts and clients, how many calls, which style, and which host is killed when.
//! specs/Words.antt says which words are of the form.
//!
//! ```
//! let words = words_of(alloc, line)?;
//! Ok(read_live(alloc, &words)? == wanted)
//! ```
#![tactic(auto)]

mod asking;
mod options;

pub use asking::{LiveWords, read_live};

#[cfg(test)]
mod tests;
