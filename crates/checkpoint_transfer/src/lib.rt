//! How states and updates come from one member of a group to another: a checkpoint gives the state, an
//! update leads on from the last one, and a member takes what takes it on. (Chapter 23,
//! "Checkpointable" and "Updateable".)
#![tactic(auto)]

mod giving;
mod lists;
mod taking;

pub use giving::{Given, give_state, give_update};
pub use lists::BytesList;
pub use taking::{take_state, take_update};
