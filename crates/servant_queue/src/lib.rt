//! The queue: a servant that keeps items of 16 bytes, which are popped in the order in which they
//! were pushed.
//!
//! A queue of 4,096 items takes no further one:
//!
//! ```
//! servant items 0 4096
//!     restored
//!     state 65546 octets
//! servant call push "ABCDEFGHIJKLMNOP"
//!     user QueueFull
//! ```
#![tactic(auto)]

mod arguments;
mod contents;
mod operations;
mod queues;

pub use queues::Queue;
