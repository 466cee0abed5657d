//! References of objects and of object groups: the IOR, its IIOP profiles, and the components by which
//! chapter 23 makes a reference one of a group. (GIOP chapter, "IOR profiles"; chapter 23, "Object
//! group references".)
//!
//! The group that a text names, and the object key of a group:
//!
//! ```
//! match from_text(alloc, text.as_bytes()) {
//!     Ok(reference) => Ok(put_group_of(alloc, &reference, out)?),
//!     Err(fault) => Ok(write!(out, "refused {fault}")?),
//! }
//! ```
//!
//! ```
//! let key = object_key(alloc, GroupId(u64::try_from(number(*group)?)?))?;
//! ```
#![tactic(auto)]

mod choices;
mod faults;
mod groups;
mod ids;
mod insides;
mod keys;
mod laws;
mod lists;
mod reading;
mod references;
mod tags;
mod texts;
mod view_groups;
mod views;
mod writing;

pub use choices::{
    ADDRESS, DOMAIN, FIRST_PORT, ID_BACK, ID_FRONT, ID_LIMIT, KEY_LENGTH, KEY_SIGN, PROFILE_LIMIT,
};
pub use faults::{IorFault, RefFault, TextFault};
pub use groups::group_ref_of;
pub use ids::{name_of_id, repository_id};
pub use insides::key_of;
pub use keys::{group_of_key, object_key, port_of};
pub use laws::{
    ids_name_names, keys_name_groups, references_are_codecs, references_are_read_back,
    references_are_refused_exactly, texts_are_read, views_are_named,
};
pub use lists::{Components, IiopList, Ports, Profiles};
pub use reading::{read_ior, read_profile};
pub use references::{Component, GroupRef, GroupTag, Iiop, Ior, Profile};
pub use tags::{GROUP_TAG, IIOP_TAG, PRIMARY_TAG};
pub use texts::{from_text, to_text};
pub use view_groups::view_reference;
pub use views::{plain_ref, ref_of};
pub use writing::write_ior;
