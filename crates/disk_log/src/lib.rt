//! A log on a disk: at every moment of every call a crash leaves one of two lists of records, and after a call that is
//! done only the new one. It is a keeper of records, so a group's log can stand on it; on a file it outlives all hosts.
//!
//! The log of a file that is there, or of a new one:
//!
//! ```
//! let made = match FileDisk::open(rt, path) {
//!     Ok(disk) => DiskLog::open(rt.alloc(), disk),
//!     Err(error) if error.kind() == io::ErrorKind::NotFound => {
//!         DiskLog::create(rt.alloc(), FileDisk::create(rt, path)?)
//!     }
//!     Err(error) => return Err(error.into()),
//! };
//! ```
//!
//! A record, of which room is made before:
//!
//! ```
//! log.reserve(rt.alloc(), 1).map_err(no_memory)?;
//! if log.append(record) == Kept::Failed {
//!     bail!("record {number} isn't kept");
//! }
//! ```
#![tactic(auto)]

mod disks;
mod failures;
mod file_disks;
mod laws;
mod logs;
mod mem_disks;
mod reading;
mod writing;

pub use disks::Disk;
pub use file_disks::FileDisk;
pub use laws::{images_hold_one_list, refused_images_hold_none};
pub use logs::{DiskLog, OpenFault};
pub use mem_disks::MemDisk;
