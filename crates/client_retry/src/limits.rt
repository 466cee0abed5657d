//! What this product chose for its clients.

/// How often each profile of a reference is tried before a client gives up.
pub const ROUNDS: u32 = 3;

/// The last id that a request can have (GIOP chapter, `request_id`: an unsigned long).
pub const LAST_ID: u32 = 4_294_967_295;
