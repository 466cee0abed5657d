/// The most subscribers that are connected at once.
pub const SUBSCRIBER_LIMIT: usize = 1024;

/// The most connections that are ever made.
pub const CONNECTION_LIMIT: u32 = 4_294_967_295;

/// The most events.
pub const EVENT_LIMIT: usize = 262_144;
