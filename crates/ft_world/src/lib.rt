//! What the lines of a script do to its world, and what they print. The world that the contracts speak of has a
//! plain group for each of its groups.
//!
//! run_top hands each line to [`act`]. Two scripts, and the error text with which each ends: the words behind a call's
//! operation are judged before its client.
//!
//! ```
//! # A deposit needs an amount, whoever calls.
//! hosts 1
//! group g account cold 0
//!     group g 1
//!     view g 1 members 0 primary 0
//! call ann g deposit
//!     ftc: line 4: syntax
//! ```
//!
//! ```
//! # The words behind an operation are judged before its client.
//! hosts 1
//! group bank account cold 0
//!     group bank 1
//!     view bank 1 members 0 primary 0
//! call c0 bank deposit 700
//!     ftc: line 4: unknown
//! ```
#![tactic(auto)]

mod acts;
mod asking;
mod calls;
mod deliveries;
mod laws;
mod links;
mod ports;
mod printing;
mod retrying;

pub use acts::act;
pub use laws::{
    deposed_do_nothing, links_append_at_leaders, links_are_replied_once, only_leaders_append,
    replies_are_of_entries, requests_are_replied_once, scripts_accept_once, scripts_keep_entries,
    scripts_take_no_dead_arm, servants_are_called,
};
pub use ports::{Printed, WorldPass, WorldPort};
