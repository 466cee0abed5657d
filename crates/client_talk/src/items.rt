use giop_messages::ReplyMsg;

/// What an attempt hears next.
#[derive(Drop)]
pub enum Item {
    Reply(ReplyMsg),
    /// A dial was refused.
    Dial,
    /// A read or a write on the link failed.
    Failed,
    /// The link ended, by its bytes or by its peer's word, or its bytes are no messages.
    Ended,
}
