use client_retry::{End, Heard};

/// What a client heard of an attempt.
#[derive(Drop)]
pub enum Hearing {
    /// A Reply to the request with this id, and what it says.
    Reply { id: u32, heard: Heard },
    /// A dial was refused.
    Dial,
    /// A call on the link failed.
    Failed,
    /// The link ended.
    Ended,
}

/// A call: all that was heard, in order, and how it ended.
#[derive(Drop)]
pub struct ToldCall {
    pub heard: Vec<Hearing>,
    pub end: End,
}

/// The calls of a client, in order.
#[derive(Drop)]
pub struct Told {
    pub calls: Vec<ToldCall>,
}
