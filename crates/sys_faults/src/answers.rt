use crate::faults::SysFault;
use ft_base::{Outcome, Version};

/// What a host answers to a request.
#[derive(Debug, Drop)]
pub enum Answer {
    /// The request's one outcome.
    Done(Outcome),
    /// A refusal.
    System(SysFault),
    /// LOCATION_FORWARD of GIOP, with the reference of the group's view of this version: the client
    /// turns to it for this request alone.
    Forward(Version),
    /// LOCATION_FORWARD_PERM of GIOP, with the reference of the group's view of this version: the
    /// client turns to it from now on.
    ForwardPerm(Version),
}
