//! The notifier: who is told of which faults of members, by filters. (Chapter 23, FaultNotifier.)
//!
//! A notifier keeps all fault events in order, and for each subscriber the place from which its
//! events are still to be read: it is told of those that were pushed since its connection and that
//! its filter lets through.
//!
//! A subscriber connects with a filter, which [`Notifier::create_filter`] reads from a text, and pulls what was pushed
//! since:
//!
//! ```
//! let filter = filter(notifier, text)?;
//! match notifier.connect(filter) {
//!     Ok(sub) => Ok(sub),
//!     Err(_) => Err(NoMemory),
//! }
//! ```
//!
//! ```
//! match notifier.pull(sub) {
//!     Ok(Some(event)) if event.host.0 == *host => {}
//!     _ => return false,
//! }
//! ```
#![tactic(auto)]

mod events;
mod faults;
mod filters;
mod limits;
mod notifiers;
mod subscribers;
#[cfg(test)]
mod tests;

pub use events::FaultEvent;
pub use faults::{FilterFault, NotifyFault};
pub use filters::Filter;
pub use limits::{CONNECTION_LIMIT, EVENT_LIMIT, SUBSCRIBER_LIMIT};
pub use notifiers::Notifier;
pub use subscribers::Sub;
