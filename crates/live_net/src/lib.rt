//! The doors and the callers of a live run, which its network hands out in order, and how its hosts are ended.
//! (GIOP chapter, "GIOP Message Transport".)
#![tactic(auto)]

mod binds;
mod callers;
mod farewells;
mod laws;

pub use binds::{BindFault, Doors, bind_doors};
pub use callers::make_callers;
pub use farewells::end_hosts;
pub use laws::callers_are_in_order;

#[cfg(test)]
mod tests;
