//! The system exceptions of the ORB: what went wrong, why, and whether the request was run. (CORBA
//! chapter, "Standard Exceptions".)
//!
//! An exception is read from the body of a reply:
//!
//! ```
//! match read_fault(alloc, &body) {
//!     Ok(fault) => put_fault(alloc, body.order, &fault, out),
//!     Err(fault) => Ok(write!(out, "refused {fault}")?),
//! }
//! ```
#![tactic(auto)]

mod answers;
mod faults;
mod ids;
mod reading;
mod writing;

pub use answers::Answer;
pub use faults::{Completed, SysFault, SysKind};
pub use reading::{SysReadFault, read_fault};
pub use writing::write_fault;
