use ft_base::{Outcome, Par};
use iogr_reference::Ior;
use sys_faults::SysFault;

/// What a request on a link is answered.
#[derive(Drop)]
pub enum PortAnswer {
    /// The object key names no group.
    NoGroup,
    /// Ask where this reference says: from now on (perm), or for this request.
    Forward {
        perm: bool,
        body: Ior,
    },
    /// The request's outcome, and what its operation gives.
    Done {
        outcome: Outcome,
        gives: Option<Par>,
    },
    /// A system exception.
    System(SysFault),
    /// Nothing: the host is down.
    Down,
    /// Nothing: memory was wanted.
    NoMemory,
}
