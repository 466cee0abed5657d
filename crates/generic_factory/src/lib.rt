//! The factory of members' objects: what it makes, deletes and refuses. (Chapter 23, GenericFactory.)
//!
//! A factory makes a servant by its type id, or says why it doesn't: criteria that it can't meet are
//! refused in one order. It keeps which objects it has made, and of which kind.
//!
//! What creating an object answers where it is refused, and that an object is let go of once:
//!
//! ```
//! let type_id = name(alloc, type_id)?;
//! let criteria = two(alloc, first, second)?;
//! Ok(
//!     factory
//!         .create_object(alloc, &type_id, criteria.as_slice(), &Members::new())
//!         .err(),
//! )
//! ```
//!
//! ```
//! assert_eq!(rt; factory.delete_object(first), Ok(()));
//! assert_eq!(rt; factory.delete_object(first), Err(ObjectNotFound));
//! ```
#![tactic(auto)]

mod faults;
mod making;
#[cfg(test)]
mod tests;

pub use faults::{CreateFault, ObjectNotFound};
pub use making::{CreationId, Factory, OBJECT_LIMIT};
