//! CDR, the Common Data Representation of the GIOP chapter, both ways: numbers, booleans, strings,
//! octets and encapsulations, in both byte orders and at any starting place.
//!
//! `specs/` say what spells a value, and how the format of a struct is made of the formats of its
//! fields; the crates of messages, references, contexts and log records cite them.
//!
//! The client's id, the retention id and the expiration of a request's key, written as an encapsulation:
//!
//! ```
//! let mut inner = begin_encapsulation(alloc, Order::Big)?;
//! inner.write_string(b"ann")?;
//! inner.write_i32(1)?;
//! inner.write_u64(1000)?;
//! ```
#![tactic(auto)]

mod arguments;
mod bodies;
mod digits;
mod encapsulations;
mod faults;
mod laws;
mod orders;
mod readers;
mod tagged;
mod values;
mod writers;

pub use arguments::{args_of, result_in};
pub use bodies::{ArgsFault, Raw};
pub use digits::digits_of_u32;
pub use encapsulations::{begin_encapsulation, open_encapsulation};
pub use faults::{CdrFault, CdrWhy, FieldFault};
pub use laws::{
    canonical_forms_are_read, canonical_forms_are_written, padding_leads_to_multiples,
    values_are_codecs, values_are_read_back, values_are_refused_exactly,
};
pub use orders::Order;
pub use readers::CdrReader;
pub use tagged::{
    Tagged, all_tagged_are_codecs, content_of, read_all_tagged, read_tagged, write_all_tagged,
    write_tagged,
};
pub use values::{canonical, read_one, read_two, read_value, write_value};
pub use writers::CdrWriter;
