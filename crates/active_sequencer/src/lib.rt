//! Requests and orders of an active group: the host that is asked appends the request and sends each
//! other member its order, and a member runs orders as they follow one another. (Chapter 23,
//! `ReplicationStyle`.)
#![tactic(auto)]

mod holding;
mod ordering;
mod sending;
mod sequencing;

pub use holding::Holdback;
pub use ordering::{Ordered, order};
pub use sequencing::serve;
