//! The store: a servant that keeps values by their keys.
//!
//! What a full store answers, one call behind the other: a new value for a key, a key that leaves, and a new key:
//!
//! ```
//! servant call put 0102 "w"
//!     value 00
//! servant call remove 0101
//!     value -
//! servant call put "new" ""
//!     value 01
//! ```
#![tactic(auto)]

mod arguments;
mod changes;
mod maps;
mod operations;
mod pieces;
mod stores;

pub use stores::Store;
