//! Lines of a script that make hosts, groups and clients, that stop and start hosts, and by which groups are managed
//! and read. (Chapter 23, ObjectGroupManager, GenericFactory and PropertyManager.)
//!
//! ft_world calls a function for each such line. Two scripts, and the error text with which each ends: a group's hosts
//! must be there, and differ.
//!
//! ```
//! # A member on a host that is not there.
//! hosts 1
//! group g account cold 1
//!     ftc: line 3: unknown
//! ```
//!
//! ```
//! # A host that is named twice.
//! hosts 1
//! group g account cold 0 0
//!     ftc: line 3: again
//! ```
#![tactic(auto)]

mod creating;
mod hosts;
mod making;
mod membership;
mod properties;
mod reading;

pub use creating::{create_line, delete_line, grow_line};
pub use hosts::{change_line, crash_line, push_report, restart_line, show_line};
pub use making::{client_line, group_line, hosts_line, tick_line};
pub use properties::{get_group_line, get_line, set_group_line, set_line, unset_line};
pub use reading::{id_line, locations_line, member_line, ref_line};
