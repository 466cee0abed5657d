//! When the log and the replicas of a group stand for the plain group, and what keeps them so. There is
//! no code of the product here: `specs/` have the relations between the pictures that contracts see
//! and the plain group, and the functions do nothing but state laws.
#![tactic(auto)]

mod giving;
mod going;
mod holding;
mod resuming;
mod telling;
mod viewing;

pub use giving::{given_states_stand, replicas_give, what_is_given_stays};
pub use going::{entries_run, logs_go_on, replicas_go_on};
pub use holding::{holdbacks_go_on, orders_run};
pub use resuming::logs_are_reopened;
pub use telling::{logs_admit, logs_reply, logs_tell, repeats_are_answered, states_are_states};
pub use viewing::{views_are_shown, views_join};
