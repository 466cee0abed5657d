//! The two service contexts that a request to an object group carries: which version of the group's
//! reference the client has, and which logical invocation this is. (Chapter 23, "Group Version Service
//! Context" and "Request Duration Context".)
//!
//! Both are written, and found again among the contexts of a request:
//!
//! ```
//! let contexts = write_contexts(alloc, Some(version), Some(&key))?;
//! ```
//!
//! ```
//! match find_contexts(alloc, &contexts) {
//!     Ok(found) => Ok(put_found(&found, out)?),
//!     Err(fault) => Ok(write!(out, "refused {fault}")?),
//! }
//! ```
#![tactic(auto)]

mod faults;
mod finding;
mod lists;
mod reading;
mod writing;

pub use faults::ContextFault;
pub use finding::find_contexts;
pub use lists::{Context, Contexts, FT_GROUP_VERSION, FT_REQUEST, FtContexts};
pub use writing::write_contexts;
