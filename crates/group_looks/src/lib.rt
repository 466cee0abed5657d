//! What a group is like: its figures, the reply that it holds for a key, and the lines by which they are shown.
//!
//! ```
//! let figures = figures_of(alloc, self.core())?;
//! show_lines(alloc, self.name(), self.style(), figures)
//! ```
#![tactic(auto)]

mod figures;
mod lines;

pub use figures::{Figure, Figures, figures_of, reply_to};
pub use lines::show_lines;
