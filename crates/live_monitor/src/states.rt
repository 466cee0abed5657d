//! What a monitor keeps from one round to the next.
ghost use Rattle.std.specs.Prelude.{◌≡◌, true, false, IfOk};
ghost use Rattle.live_monitor.specs.Monitored.{kill_due};

use fault_monitor::Monitor;
use ft_base::{GroupId, HostNo, NoMemory, Tick};
use group_looks::{Figure, Figures};
use std::alloc::Global;
use std::marker::Model;

/// Which host is to be killed, and how many entries the journal has at least when it is.
#[derive(Clone, Copy, Debug, PartialEq, Eq)]
pub struct Kill {
    pub host: HostNo,
    pub after: u32,
}

/// The monitor of a run. Contracts see which host it is to kill, and whether it has.
#[derive(Drop)]
pub struct RunMonitor {
    members: Monitor,
    kill: Option<Kill>,
    killed: bool,
}

impl Model for RunMonitor {
    ghost use Rattle.live_monitor.specs.Monitored.{Errand};

    ghost Value = { Errand };

    ghost view = { λ m. record { kill = m.kill; killed = m.killed } };
}

/// How often a member is asked, and how long its answer may take.
const INTERVAL: Tick = Tick(10);

const TIMEOUT: Tick = Tick(5);

impl RunMonitor {
    /// A monitor that has asked nobody yet.
    pub fn new(alloc: Global, kill: Option<Kill>) -> RunMonitor
        ensures { result ≡ record { kill = kill; killed = false } }
    {
        RunMonitor {
            members: Monitor::new(alloc),
            kill,
            killed: false,
        }
    }

    /// The host that is to be killed, where these figures show so many entries and it was not.
    pub(crate) fn kill_due(&self, figures: &Figures) -> Option<HostNo>
        ensures { result ≡ kill_due self.now figures.now.entries }
    {
        match self.kill {
            Some(kill) if !self.killed && figures.entries >= kill.after => Some(kill.host),
            _ => None,
        }
    }

    /// Whether it has killed the host.
    pub fn has_killed(&self) -> bool
        ensures { result ≡ self.now.killed }
    {
        self.killed
    }

    /// The host was killed.
    pub(crate) fn note_kill(&mut self)
        ensures { self.new ≡ record self.old { killed = true } }
    {
        self.killed = true;
    }

    /// Asks a member where that is due; one that is up has answered. Whether it is down, and its answer is overdue.
    pub(crate) fn is_late(
        &mut self,
        group: GroupId,
        figure: &Figure,
        now: Tick,
    ) -> Result<bool, NoMemory>
        ensures same { self.new ≡ self.old }
        ensures down { IfOk result (λ late. late ≡ true → figure.now.up ≡ false) }
    {
        let host = figure.host;
        if self.members.watch(group, host, INTERVAL, TIMEOUT).is_err() {
            return Err(NoMemory);
        }
        if self.members.due(group, host, now) {
            self.members.asked(group, host, now);
        }
        if figure.up {
            self.members.answered(group, host);
            return Ok(false);
        }
        Ok(self.members.overdue(group, host, now))
    }
}
