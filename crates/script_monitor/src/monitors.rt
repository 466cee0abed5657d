ghost use Rattle.std.specs.Prelude.{◌≡◌, is_some, None, OnOk, OnErr};
ghost use Rattle.fault_monitor.specs.Watching.{asked, answered, if_watched, is_due, is_overdue};
ghost use Rattle.script_monitor.specs.Watches.{nobody, member_at, with_member, watched, told};

use crate::happenings::Happening;
use crate::histories::History;
use fault_monitor::Monitor;
use ft_base::{GroupId, HostNo, NoMemory, Tick};
use std::alloc::Global;
use std::marker::Model;

/// The members that are watched. Contracts see of each all that was heard of it.
#[derive(Drop)]
pub struct ScriptMonitor {
    monitor: Monitor,
    history: History,
}

impl Model for ScriptMonitor {
    ghost use Rattle.fault_monitor.specs.Keeping.{StandsFor};
    ghost use Rattle.script_monitor.specs.Watches.{Watches, watch_of};

    ghost Value = { Watches };

    ghost view = { λ m. m.history };

    ghost invariant = { λ m. StandsFor (watch_of m.history) m.monitor };
}

impl ScriptMonitor {
    /// A monitor that watches nobody.
    pub fn new(alloc: Global) -> ScriptMonitor
        ensures { result ≡ nobody }
    {
        ScriptMonitor {
            monitor: Monitor::new(alloc),
            history: History::new(),
        }
    }

    /// Watches a member. One that is watched already gets the other interval and timeout, and what was
    /// heard of it stays.
    pub fn watch(
        &mut self,
        group: GroupId,
        host: HostNo,
        interval: Tick,
        timeout: Tick,
    ) -> Result<(), NoMemory>
        ensures watched { OnOk result (self.new ≡ watched self.old group.0 host.0 interval.0 timeout.0) }
        ensures left { OnErr result (self.new ≡ self.old) }
    {
        self.monitor.watch(group, host, interval, timeout)?;
        let happening = Happening::Watched {
            group,
            host,
            interval,
            timeout,
        };
        self.history.push(&happening);
        Ok(())
    }

    /// Forgets a member.
    pub fn unwatch(&mut self, group: GroupId, host: HostNo)
        ensures { self.new ≡ with_member self.old group.0 host.0 None }
    {
        self.monitor.unwatch(group, host);
        self.history.push(&Happening::Unwatched { group, host });
    }

    /// Whether a watched member is to be asked: it never was, or its last ask is an interval ago.
    pub fn is_due(&self, group: GroupId, host: HostNo, now: Tick) -> bool
        ensures { result ≡ if_watched is_due (member_at self.now group.0 host.0) now.0 }
    {
        self.monitor.due(group, host, now)
    }

    /// A member was asked. One that isn't watched is passed over.
    pub fn asked(&mut self, group: GroupId, host: HostNo, now: Tick)
        ensures { self.new ≡ told self.old group.0 host.0 (asked now.0) }
    {
        self.monitor.asked(group, host, now);
        self.history.push(&Happening::Asked { group, host, now });
    }

    /// A member answered; whether it is watched.
    pub fn answered(&mut self, group: GroupId, host: HostNo) -> bool
        ensures told { self.new ≡ told self.old group.0 host.0 answered }
        ensures watched { result ≡ is_some (member_at self.old group.0 host.0) }
    {
        let is_watched = self.monitor.answered(group, host);
        self.history.push(&Happening::Answered { group, host });
        is_watched
    }

    /// Whether a watched member hasn't answered in time: some ask is a timeout ago, and no answer was
    /// heard after it.
    pub fn is_overdue(&self, group: GroupId, host: HostNo, now: Tick) -> bool
        ensures { result ≡ if_watched is_overdue (member_at self.now group.0 host.0) now.0 }
    {
        self.monitor.overdue(group, host, now)
    }
}
