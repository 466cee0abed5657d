use ft_base::{HostNo, Members};
use thiserror::Error;

/// A change of a group's members (chapter 23, `ObjectGroupManager`).
#[derive(Debug, Drop)]
pub enum Change {
    /// The host is reported faulty.
    Report(HostNo),
    /// `remove_member`.
    Remove(HostNo),
    /// `add_member`.
    Add(HostNo),
    /// `create_member`: whether the host is among the group's factories, and whether its factory made the
    /// object.
    Create {
        host: HostNo,
        listed: bool,
        made: bool,
    },
    /// `set_primary_member`.
    Primary(HostNo),
    /// The host is reported faulty, and spares come in its place: each in order that is no member then and
    /// isn't the host, while there is room.
    Replace {
        host: HostNo,
        spares: Members,
    },
}

/// Why a change of members is refused, in the order in which the causes are looked at.
#[derive(Clone, Copy, Debug, PartialEq, Eq, Error)]
pub enum ManageFault {
    /// There is no such group.
    #[error("no such group")]
    ObjectGroupNotFound,
    /// The host isn't among the group's factories.
    #[error("the host is no factory of the group")]
    NoFactory(HostNo),
    /// The host is a member already.
    #[error("the host is a member")]
    MemberAlreadyPresent(HostNo),
    /// The group has as many members as it can, this many.
    #[error("the group has {0} members")]
    ObjectNotAdded(u8),
    /// The host's factory made no object.
    #[error("the host made no object")]
    ObjectNotCreated(HostNo),
    /// An active group has no primary.
    #[error("an active group has no primary")]
    BadReplicationStyle,
    /// The host is no member.
    #[error("the host is no member")]
    MemberNotFound(HostNo),
    /// The host is the primary already.
    #[error("the host is the primary")]
    PrimaryNotSet(HostNo),
    /// The group has had as many views as it can, this many.
    #[error("the group has had {0} views")]
    ViewsFull(u32),
    /// The log couldn't be written.
    #[error("the log could not be written")]
    LogFault,
    #[error("no memory")]
    NoMemory,
}
