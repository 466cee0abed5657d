//! The servants that are shipped: one type for all kinds, each found by its type id.
//!
//! A servant is opened by its kind, and asked as every servant is:
//!
//! ```
//! let servant = Shipped::open(rt.alloc(), kind).map_err(no_memory)?;
//! ```
//!
//! ```
//! let request = request_of(rt.alloc(), servant, words)?;
//! let outcome = servant
//!     .invoke(rt.alloc(), &request, steps)
//!     .map_err(no_memory)?;
//! ```
#![tactic(auto)]

mod kinds;
mod shipped;

pub use kinds::Kind;
pub use shipped::Shipped;
