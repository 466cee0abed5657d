//! At which place of a list each name stands first, found by a map and not by a pass over the list.
//!
//! A name is added behind the others, or looked for:
//!
//! ```
//! "add" => {
//!     places.reserve(rt.alloc(), &name).map_err(no_memory)?;
//!     places.add_reserved(*count);
//!     *count = count.wrapping_add(1);
//! }
//! "of" => match places.place(&name) {
//!     Some(place) => println!(rt; "    {place}")?,
//!     None => println!(rt; "    nowhere")?,
//! },
//! ```
#![tactic(auto)]

mod names;

pub use names::NamePlaces;
