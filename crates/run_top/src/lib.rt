//! The run of `ftc`: the words of the command line, the world in which a script's lines run, the
//! counts of a script that is made, and the status with its text. What the whole run is,
//! specs/Headline.antt says.
//!
//! A script is run from memory into memory:
//!
//! ```
//! let mut input = MemSource::new(alloc, script, reads)?;
//! let mut out = MemSink::new(alloc, 10_000, writes)?;
//! let mut err = MemSink::new(alloc, 1_000, &[])?;
//! let status = ftc_run(alloc, words, &mut input, &mut out, &mut err, steps);
//! ```
#![tactic(auto)]

mod laws;
mod making;
mod playing;
mod runs;
mod words;

pub use laws::{
    made_runs_are_runs, made_runs_are_whole, runs_accept_once, runs_append_at_leaders,
    runs_are_of_lines, runs_call_servants, runs_keep_entries, runs_tell_once,
};
pub use playing::Script;
pub use runs::ftc_run;
