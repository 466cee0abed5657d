//! The run of `ftc live`, from the words of the command line to the status: the run that they ask for, its text, which is made
//! whole in memory and then written, and what is told where that fails. What the whole run is, specs/Headline.antt says.
//!
//! Over a network in memory:
//!
//! ```
//! let status = ftc_live(
//!     rt,
//!     alloc,
//!     words,
//!     &mut out,
//!     &mut err,
//!     &mut network,
//!     &clock,
//!     &mut crew,
//! );
//! ```
#![tactic(auto)]

mod runs;
mod texts;
mod words;

pub use runs::ftc_live;
pub use words::is_live;
