use ft_base::{Outcome, Tick, Version};
use iogr_reference::GroupRef;
use sys_faults::SysFault;

/// How an invocation ends.
#[derive(Drop)]
pub enum End {
    /// The request's one outcome.
    Outcome(Outcome),
    /// A refusal that no other member would answer otherwise.
    System(SysFault),
    /// There was a fault at a moment that isn't before the request's expiration: NO_RESPONSE.
    NoResponse { expiration: Tick, now: Tick },
    /// As many faults over one reference as there are attempts in all rounds of its profiles: TRANSIENT.
    /// Both numbers are 0 where a reference has no profiles.
    Transient { faults: u32, profiles: u16 },
    /// There is no request id left for another attempt.
    IdsSpent,
}

/// What a client does next.
#[derive(Drop)]
pub enum Act {
    /// It sends the request to the profile at this place of its reference, with this request id.
    Send {
        place: u16,
        id: u32,
    },
    /// It goes on over the reference that it was just told, of this version, and sends the request.
    Adopted {
        version: Version,
        place: u16,
        id: u32,
    },
    /// Its invocation has ended.
    Done(End),
    /// It does nothing: no invocation is open, or this one isn't concerned.
    Nothing,
}

/// What a reply says (GIOP chapter, `ReplyStatusType`).
#[derive(Drop)]
pub enum Heard {
    /// A value, or an exception that the operation declares.
    Outcome(Outcome),
    /// A system exception.
    System(SysFault),
    /// A redirect to a reference of an object group.
    Forward(GroupRef),
    /// A redirect to another reference, or what can't be read or served.
    Unreadable,
}
