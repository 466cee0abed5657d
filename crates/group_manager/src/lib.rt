//! The management of object groups: the next view of a group, whom it is told, and the directory of all
//! groups. (Chapter 23, `ObjectGroupManager`.)
//!
//! A deleted group keeps its number:
//!
//! ```
//! let mut groups = Groups::new(alloc);
//! let first = groups.add(type_id(alloc)?, Style::Cold)?;
//! let second = groups.add(type_id(alloc)?, Style::Active)?;
//! assert!(rt; groups.delete(first).is_ok());
//! let third = groups.add(type_id(alloc)?, Style::Warm)?;
//! assert_eq!(rt; (first.0, second.0, third.0), (1, 2, 3));
//! ```
#![tactic(auto)]

mod changing;
mod directory;
mod managing;
mod members;
mod refusals;
mod sending;

pub use changing::changed;
pub use directory::{GroupInfo, Groups};
pub use sending::view_sent;

#[cfg(test)]
mod tests;
