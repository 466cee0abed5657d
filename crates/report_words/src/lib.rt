//! The words of a line that is written, and the line's text: numbers, names, hosts, and octets in hexadecimal.
//!
//! A line is its words with a space between each two, and an LF:
//!
//! ```
//! push_line(text, &[Fixed(word), Text(name.bytes()), Number(number)])
//! ```
#![tactic(auto)]

mod hexadecimal;
mod words;

pub use words::{
    Word, hosts, octets, phrase, push_line, push_named, push_numbered, push_octets, push_phrase,
    push_signed,
};
