//! Those who subscribe to faults in a script, by their names.
#![tactic(auto)]

mod answers;
mod named;
mod subscriptions;

pub use answers::{Pulled, Subscribed};
pub use subscriptions::Subscribers;
