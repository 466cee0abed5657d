/// The most groups that a script makes.
pub const GROUP_LIMIT: usize = 256;

/// The most clients of a script.
pub const CLIENT_LIMIT: usize = 1024;

/// The most entries of all journals together.
pub const ENTRY_LIMIT: u64 = 262_144;

/// The most messages that a script sends.
pub const MESSAGE_LIMIT: usize = 262_144;

/// The most bytes in all messages together: 1 GiB.
pub const BYTE_LIMIT: u32 = 1_073_741_824;

/// How long a request is good for where its call doesn't say: so many ticks from the clock.
pub const DEFAULT_LIFE: u64 = 1000;
