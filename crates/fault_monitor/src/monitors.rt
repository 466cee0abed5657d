ghost use Rattle.std.specs.Prelude.{◌≡◌, None, is_some, OnOk, OnErr};
ghost use Rattle.fault_monitor.specs.Watching.{Watch, asked, answered, nobody, watched, with_member, told, if_watched, is_due, is_overdue};
ghost use Rattle.fault_monitor.specs.Keeping.{StandsFor};

use crate::members::Member;
use crate::places::{Places, change, member_at, put, take_out};
use ft_base::{GroupId, HostNo, NoMemory, Tick};
use std::alloc::Global;
use std::collections::BTreeMap;
use std::marker::Model;

/// The members that are watched, each of a group at a host.
#[derive(Drop)]
pub struct Monitor {
    members: Places,
}

impl Model for Monitor {
    ghost use Rattle.fault_monitor.specs.Keeping.{Kept};

    ghost Value = { Kept };

    ghost view = { λ m. m.members.entries };
}

impl Monitor {
    /// A monitor that watches nobody.
    pub fn new(alloc: Global) -> Monitor
        ensures { StandsFor nobody result }
    {
        Monitor {
            members: BTreeMap::new(alloc),
        }
    }

    /// Watches a member. One that is watched already gets the other interval and timeout, and what was
    /// heard of it stays.
    pub fn watch(
        &mut self,
        group: GroupId,
        host: HostNo,
        interval: Tick,
        timeout: Tick,
    ) -> Result<(), NoMemory>
        ensures watched { OnOk result ((w : Watch) → StandsFor w self.old → StandsFor (watched w group.0 host.0 interval.0 timeout.0) self.new) }
        ensures left { OnErr result (self.new ≡ self.old) }
    {
        match member_at(&self.members, group, host) {
            None => put(
                &mut self.members,
                group,
                host,
                Member::new(interval, timeout),
            )?,
            Some(member) => change(
                &mut self.members,
                group,
                host,
                member.numbered(interval, timeout),
            ),
        }
        Ok(())
    }

    /// Forgets a member.
    pub fn unwatch(&mut self, group: GroupId, host: HostNo)
        ensures { (w : Watch) → StandsFor w self.old → StandsFor (with_member w group.0 host.0 None) self.new }
    {
        take_out(&mut self.members, group, host);
    }

    /// Whether a watched member is to be asked: it never was, or its last ask is an interval ago.
    pub fn due(&self, group: GroupId, host: HostNo, now: Tick) -> bool
        ensures { (w : Watch) → StandsFor w self.now → result ≡ if_watched is_due (w group.0 host.0) now.0 }
    {
        match member_at(&self.members, group, host) {
            None => false,
            Some(member) => member.is_due(now),
        }
    }

    /// A member was asked. One that isn't watched is passed over.
    pub fn asked(&mut self, group: GroupId, host: HostNo, now: Tick)
        ensures { (w : Watch) → StandsFor w self.old → StandsFor (told w group.0 host.0 (asked now.0)) self.new }
    {
        if let Some(member) = member_at(&self.members, group, host) {
            change(&mut self.members, group, host, member.asked(now));
        }
    }

    /// A member answered; whether it is watched.
    pub fn answered(&mut self, group: GroupId, host: HostNo) -> bool
        ensures told { (w : Watch) → StandsFor w self.old → StandsFor (told w group.0 host.0 answered) self.new }
        ensures watched { (w : Watch) → StandsFor w self.old → result ≡ is_some (w group.0 host.0) }
    {
        match member_at(&self.members, group, host) {
            None => false,
            Some(member) => {
                change(&mut self.members, group, host, member.answered());
                true
            }
        }
    }

    /// Whether a watched member hasn't answered in time: some ask is a timeout ago, and no answer was
    /// heard after it.
    pub fn overdue(&self, group: GroupId, host: HostNo, now: Tick) -> bool
        ensures { (w : Watch) → StandsFor w self.now → result ≡ if_watched is_overdue (w group.0 host.0) now.0 }
    {
        match member_at(&self.members, group, host) {
            None => false,
            Some(member) => member.is_overdue(now),
        }
    }
}
