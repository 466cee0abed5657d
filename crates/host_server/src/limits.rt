//! How long what a host says on a link can be.

/// The most bytes of a Reply's body.
pub const BODY_LIMIT: usize = 131_072;

/// The most bytes of a part of it: the id of an exception, or a reference.
pub const PART_LIMIT: usize = 65_536;
