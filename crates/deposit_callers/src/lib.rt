//! Callers that share a group behind a lock. Each makes its deposits in a thread of its own, and asks on until each has a
//! value; another worker may stop hosts meanwhile, start them again and change the group's members.
//!
//! One deposit of another pass, asked for until it has a value:
//!
//! ```
//! let mut other = group.split(main).map_err(no_memory)?;
//! let value = ask_on(rt, alloc, group, &mut other, &mut Target::first(), 3);
//! ```
#![tactic(auto)]

mod callers;
mod deposits;
mod groups;
mod pairs;
mod upsets;
mod workers;

pub use callers::{Target, ask, ask_on, heard};
pub use deposits::{deposit_of, key_of, value_of};
pub use groups::{open_core, open_group};
pub use pairs::ask_in_turn;
pub use upsets::{HOST_COUNT, carry_some, upset};
pub use workers::{Task, Worker, split_off, values_told, work_in_threads};
