//! The run of a script: its lines come in pieces of any size, each whole line is run, and the output
//! of the lines of a piece is out before the next piece is read. What a line does is left to
//! [`Actor`]; what a run does is defined over whole lines alone, in specs/Runs.antt.
//!
//! A script in memory, whose lines are written back by the actor `Echo`:
//!
//! ```
//! let mut input = MemSource::new(alloc, script, fails)?;
//! let mut out = MemSink::new(alloc, room, &[])?;
//! let ended = run_script(alloc, &mut Echo { last: 0 }, &mut input, &mut out, steps);
//! Ok((ended, out))
//! ```
#![tactic(auto)]

mod actors;
mod feeding;
mod running;

pub use actors::{Actor, LineResult};
pub use feeding::{FeedResult, Pieces};
pub use running::{RunEnd, run_script, run_text};

#[cfg(test)]
mod tests;
