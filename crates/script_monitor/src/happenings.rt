use ft_base::{GroupId, HostNo, Tick};

/// What a monitor is told.
#[derive(Clone, Copy)]
pub(crate) enum Happening {
    /// A member is watched from now on, or again with other numbers.
    Watched {
        group: GroupId,
        host: HostNo,
        interval: Tick,
        timeout: Tick,
    },
    /// A member is watched no more.
    Unwatched {
        group: GroupId,
        host: HostNo,
    },
    /// A member was asked at this tick.
    Asked {
        group: GroupId,
        host: HostNo,
        now: Tick,
    },
    /// A member answered.
    Answered {
        group: GroupId,
        host: HostNo,
    },
}
