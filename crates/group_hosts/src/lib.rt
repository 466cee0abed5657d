//! A host of a group: what each event makes of it. Catching up, the decision table, the journal, transfers
//! and orders are crates of their own; here a host's part in its group holds them together, and every
//! event at it has the plain group's turn. (Chapter 23, Logging and Recovery Mechanisms.)
//!
//! group_core calls [`act_at`] for each event that comes to a host.
#![tactic(auto)]

mod acting;
mod entering;
mod founding;
mod hosts;
mod managing;
mod sending;
mod taking;

pub use acting::{act_at, host_of};
pub use founding::Founding;
pub use hosts::GroupHost;
pub use sending::is_warm;
