//! The words that every crate of `ftc` speaks in: names, requests and outcomes, views, and what a
//! servant is. Its `specs/` have the definitions of a servant's function, of the journal and of at
//! most once, which the contracts above cite.
//!
//! Any servant is asked like this:
//!
//! ```
//! let request = request_of(rt.alloc(), servant, words)?;
//! let outcome = servant
//!     .invoke(rt.alloc(), &request, steps)
//!     .map_err(no_memory)?;
//! ```
//!
//! Another one comes to the state of `from` by an update, which leads on from `servant`, or by the whole state:
//!
//! ```
//! let mut to = servant.copy(alloc)?;
//! move_update(alloc, &from, servant, &mut to)?;
//! move_state(alloc, &from, other)?;
//! ```
#![tactic(auto)]

mod admissions;
mod codings;
mod counter;
mod decisions;
mod laws;
mod limits;
mod memory;
mod moves;
mod numbers;
mod requests;
mod servants;
mod stored;
mod text;
mod values;
mod views;

pub use admissions::Admission;
pub use codings::{Coded, ValueServant};
pub use counter::Steps;
pub use decisions::{Decision, Ignored, Stop};
pub use laws::{replies_are_given, requests_join, requests_lead_on};
pub use limits::{ARGUMENTS_LIMIT, HOST_LIMIT, JOURNAL_LIMIT, RESULT_LIMIT, VIEW_LIMIT};
pub use memory::{NoMemory, push_within};
pub use moves::{move_state, move_update};
pub use numbers::{GroupId, HostNo, Retention, Tick, Version};
pub use requests::{Key, Outcome, Par, Request, Signature, gives_of};
pub use servants::{Servant, StateFault, UpdateFault};
pub use text::{Bytes, NAME_LIMIT, Name, NameFault, first_zero};
pub use values::{Value, canonical_forms_are_of_values};
pub use views::{MEMBER_LIMIT, Members, Style, View, has_host};
