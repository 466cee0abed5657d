//! Numbers as texts of decimal digits.
//!
//! `007` is 7, and `+5` is none:
//!
//! ```
//! match read_number(text.as_bytes()) {
//!     Some(number) if is_number(text.as_bytes()) => println!(rt; "    {number}")?,
//!     None if !is_number(text.as_bytes()) => println!(rt; "    no number")?,
//!     _ => bail!("a number or none"),
//! }
//! ```
#![tactic(auto)]

mod numbers;

pub use numbers::{is_number, read_number};
