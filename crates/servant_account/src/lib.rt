//! The account: a servant that keeps a balance, to which clients add and from which they take.
//!
//! A copy of an account is called, and another one follows it:
//!
//! ```
//! let request = request_of(rt.alloc(), servant, words)?;
//! let moved = moved(rt.alloc(), servant, base, &request, steps).map_err(no_memory)?;
//! ```
#![tactic(auto)]

mod accounts;
mod operations;

pub use accounts::Account;
