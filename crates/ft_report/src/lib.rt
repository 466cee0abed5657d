//! The lines that `ftc run` writes: what each tells, and its bytes.
//!
//! Lines are pushed one behind the other, and are one text in the end:
//!
//! ```
//! lines.push(done(alloc, CallEnd::IdsSpent)?)?;
//! ```
//!
//! ```
//! let mut ended = ReportLines::new(alloc);
//! ends(alloc, &mut ended)?;
//! assert!(rt; ended.into_bytes().bytes() == ENDED);
//! ```
#![tactic(auto)]

mod histories;
mod outcomes;
mod parts;
mod rendering;
mod reports;
mod showing;
mod transfers;

pub use outcomes::{ReportOutcome, Worth, worth_of};
pub use parts::{push_end, push_outcome};
pub use rendering::write_line;
pub use reports::{CallEnd, ReportLine, ReportLines, Role, SettingFault, Standing, SubscribeFault};
