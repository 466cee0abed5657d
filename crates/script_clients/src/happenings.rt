use client_retry::Heard;
use ft_base::{GroupId, Request, Tick};
use iogr_reference::GroupRef;
use std::snapshot::Snapshot;

/// What happens to a client. It holds nothing of what comes with it.
#[derive(Drop)]
pub(crate) enum Happening {
    /// Its reference of a group was taken from it.
    Took(GroupId),
    /// It goes by a reference from now on.
    Bound(Snapshot<GroupRef>),
    /// It began an invocation over a reference.
    Began {
        reference: Snapshot<GroupRef>,
        expiration: Tick,
        /// Whether its retention id is one that the client chose itself.
        numbers: bool,
        /// Whether its attempts name the version.
        versioned: bool,
        request: Snapshot<Request>,
    },
    /// A reply to the request with this id came at this moment.
    Heard {
        id: u32,
        heard: Snapshot<Heard>,
        now: Tick,
    },
    /// At this moment it was known that its last attempt gets no reply.
    Failed(Tick),
}
