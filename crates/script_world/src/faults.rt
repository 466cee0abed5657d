//! The members that are watched, those who are told of faults, and the bytes in messages.
ghost use Rattle.std.specs.Prelude.{◌≡◌, None, is_some, OnOk};
ghost use Rattle.fault_monitor.specs.Watching.{answered, asked, if_watched, is_due, is_overdue};
ghost use Rattle.script_monitor.specs.Watches.{member_at, told, watched, with_member};
ghost use Rattle.script_subscribers.specs.Calls.{IsPulled, IsSubscribed};
ghost use Rattle.script_subscribers.specs.Subscribers.{subscriber_named, unsubscribed};
ghost use Rattle.script_world.specs.World.{counted, with_fault, with_subscribers, with_watch};

use crate::limits::BYTE_LIMIT;
use crate::worlds::World;
use fault_notifier::FaultEvent;
use ft_base::{GroupId, HostNo, Name, NoMemory, Tick};
use script_subscribers::{Pulled, Subscribed};

impl World {
    /// Watches a member. One that is watched already gets the other interval and timeout.
    pub fn watch(
        &mut self,
        group: GroupId,
        host: HostNo,
        interval: Tick,
        timeout: Tick,
    ) -> Result<(), NoMemory>
        ensures { OnOk result (self.new ≡ with_watch self.old (watched self.old.watch group.0 host.0 interval.0 timeout.0)) }
    {
        self.monitor.watch(group, host, interval, timeout)
    }

    /// Watches a member no more.
    pub fn unwatch(&mut self, group: GroupId, host: HostNo)
        ensures { self.new ≡ with_watch self.old (with_member self.old.watch group.0 host.0 None) }
    {
        self.monitor.unwatch(group, host);
    }

    /// Whether a watched member is to be asked now.
    pub fn is_due(&self, group: GroupId, host: HostNo) -> bool
        ensures { result ≡ if_watched is_due (member_at self.now.watch group.0 host.0) self.now.clock }
    {
        let now = self.clock();
        self.monitor.is_due(group, host, now)
    }

    /// A member is asked now.
    pub fn ask(&mut self, group: GroupId, host: HostNo)
        ensures { self.new ≡ with_watch self.old (told self.old.watch group.0 host.0 (asked self.old.clock)) }
    {
        let now = self.clock();
        self.monitor.asked(group, host, now);
    }

    /// A member answered; whether it is watched.
    pub fn hear_alive(&mut self, group: GroupId, host: HostNo) -> bool
        ensures heard { self.new ≡ with_watch self.old (told self.old.watch group.0 host.0 answered) }
        ensures watched { result ≡ is_some (member_at self.old.watch group.0 host.0) }
    {
        self.monitor.answered(group, host)
    }

    /// Whether a watched member hasn't answered in time.
    pub fn is_overdue(&self, group: GroupId, host: HostNo) -> bool
        ensures { result ≡ if_watched is_overdue (member_at self.now.watch group.0 host.0) self.now.clock }
    {
        let now = self.clock();
        self.monitor.is_overdue(group, host, now)
    }

    /// Whether somebody subscribed with this name, and still listens.
    pub fn listens(&self, name: &Name) -> bool
        ensures { result ≡ is_some (subscriber_named self.now.subscribers name.now) }
    {
        self.subscribers.listens(name)
    }

    /// One more subscriber, if the text is a filter and there is room.
    pub fn subscribe(&mut self, name: Name, filter: &[u8]) -> Result<Subscribed, NoMemory>
        ensures subscribed { IsSubscribed self.old.subscribers name filter.now result self.new.subscribers }
        ensures others { self.new ≡ with_subscribers self.old self.new.subscribers }
    {
        // A place in a longer text has no number; no line of a script is so long.
        if filter.len() > u32::MAX as usize {
            return Err(NoMemory);
        }
        self.subscribers.subscribe(name, filter)
    }

    /// The subscriber of this name listens no more; whether it did.
    pub fn unsubscribe(&mut self, name: &Name) -> bool
        ensures was { result ≡ is_some (subscriber_named self.old.subscribers name.now) }
        ensures left { self.new ≡ with_subscribers self.old (unsubscribed self.old.subscribers name.now) }
    {
        self.subscribers.unsubscribe(name)
    }

    /// The next event of the subscriber of this name.
    pub fn pull(&mut self, name: &Name) -> Result<Pulled, NoMemory>
        ensures pulled { IsPulled self.old.subscribers name.now result self.new.subscribers }
        ensures others { self.new ≡ with_subscribers self.old self.new.subscribers }
    {
        self.subscribers.pull(name)
    }

    /// A fault was reported.
    pub fn tell_fault(&mut self, event: FaultEvent) -> Result<(), NoMemory>
        ensures { OnOk result (self.new ≡ with_fault self.old event) }
    {
        self.subscribers.push(event)
    }

    /// How many faults were reported, counted up to one more than there can be.
    pub fn faults(&self) -> u32
        ensures { result ≡ self.now.subscribers.faults }
    {
        self.subscribers.faults()
    }

    /// How many bytes there are in messages, counted up to one more than there can be.
    pub fn bytes(&self) -> u32
        ensures { result ≡ self.now.bytes }
    {
        self.bytes
    }

    /// So many bytes more were sent in messages.
    pub fn count_bytes(&mut self, bytes: u128)
        ensures { self.new ≡ counted self.old bytes }
    {
        let room = u128::from(BYTE_LIMIT);
        if bytes <= room && u128::from(self.bytes) + bytes <= room {
            self.bytes += bytes as u32;
        } else {
            self.bytes = BYTE_LIMIT + 1;
        }
    }
}
