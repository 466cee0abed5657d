//! Lines of a script about states, updates and logs that fail: `checkpoint`, `update`, `logfail`. (Chapter 23, Logging and
//! Recovery Management.)
//!
//! `examples/warm-backup.script` has both.
#![tactic(auto)]

mod checkpoints;
mod failures;
mod updates;

pub use checkpoints::checkpoint_line;
pub use failures::logfail_line;
pub use updates::update_line;
