/// The most hosts that there can be: host numbers are below it.
pub const HOST_LIMIT: usize = 64;

/// The longest arguments of a request, in bytes of their canonical form.
pub const ARGUMENTS_LIMIT: usize = 4096;

/// The longest value that an operation gives, in bytes of its canonical form.
pub const RESULT_LIMIT: usize = 65_536;

/// The most entries of a group's journal.
pub const JOURNAL_LIMIT: usize = 262_144;

/// The most views of a group, and so the greatest version of its reference.
pub const VIEW_LIMIT: u32 = 65_536;
