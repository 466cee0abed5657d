//! The script of `--make`: rounds of calls to a warm group, of whose requests some arrive twice, and a takeover.
//!
//! A script of five rounds:
//!
//! ```
//! let script = make_script(rt.alloc(), 5)?;
//! assert!(rt; script.bytes() == FIVE_ROUNDS.as_bytes());
//! ```
#![tactic(auto)]

mod lines;
mod rounds;
mod scripts;

pub use scripts::make_script;

#[cfg(test)]
mod tests;
