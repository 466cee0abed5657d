use client_retry::End;
use ft_base::{GroupId, Request, Version};

/// An invocation that is open.
#[derive(Drop)]
pub struct Call {
    /// It counts the client's invocations from 1.
    pub number: u32,
    /// Whether its attempts name the version of the reference.
    pub versioned: bool,
    pub request: Request,
}

/// A request on its way to a member of a group.
#[derive(Drop)]
pub struct Attempt {
    pub group: GroupId,
    pub port: u16,
    pub id: u32,
    /// The version of the reference, where the request names it.
    pub version: Option<Version>,
    pub request: Request,
}

/// What a client does.
#[derive(Drop)]
pub enum Told {
    /// It sends a request.
    Attempt(Attempt),
    /// It goes on over a newer reference, of this version, and sends a request.
    Adopted {
        group: GroupId,
        version: Version,
        attempt: Attempt,
    },
    /// The invocation with this number has ended.
    Ended {
        number: u32,
        end: End,
    },
    /// It does nothing.
    Nothing,
}
