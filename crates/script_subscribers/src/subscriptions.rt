ghost use Rattle.std.specs.Prelude.{◌≡◌, ◌<◌, ◌^◌, is_some, length, OnOk, OnErr};
ghost use Rattle.std.specs.List.{list_any};
ghost use Rattle.std.specs.Str.{bytes_eq};
ghost use Rattle.script_subscribers.specs.Calls.{IsSubscribed, IsPulled, IsJoined, answer_of};
ghost use Rattle.script_subscribers.specs.Subscribers.{Good, nobody_listens, subscriber_named, told, unsubscribed};

use crate::answers::{Pulled, Subscribed};
use crate::named::NameFile;
use fault_notifier::{EVENT_LIMIT, FaultEvent, Filter, FilterFault, Notifier, NotifyFault};
use ft_base::{Name, NoMemory};
use std::alloc::Global;
use std::marker::Model;

/// All that ever subscribed, and the faults that were reported.
#[derive(Drop)]
pub struct Subscribers {
    notifier: Notifier,
    named: NameFile,
    faults: u32,
}

impl Model for Subscribers {
    ghost use Rattle.script_subscribers.specs.Subscribers.{Subscribers as Plain};
    ghost use Rattle.script_subscribers.specs.Pictures.{shown, IsKept};

    ghost Value = { Plain };

    ghost view = { λ s. shown s.notifier s.named.all s.faults };

    ghost invariant = { λ s. IsKept s.notifier s.named.all s.faults };
}

/// What one who is connected is answered.
fn answer_of(told: Result<Option<FaultEvent>, NotifyFault>) -> Result<Pulled, NoMemory>
    ensures { result ≡ answer_of told }
{
    match told {
        Ok(None) => Ok(Pulled::Nothing),
        Ok(Some(event)) => Ok(Pulled::Event(event)),
        Err(_) => Err(NoMemory),
    }
}

impl Subscribers {
    /// Nobody has subscribed, and no fault was reported.
    pub fn new(alloc: Global) -> Subscribers
        ensures { result ≡ nobody_listens }
    {
        Subscribers {
            notifier: Notifier::new(alloc),
            named: NameFile::new(alloc),
            faults: 0,
        }
    }

    /// Whether somebody ever subscribed with this name.
    pub fn is_named(&self, name: &Name) -> bool
        ensures { result ≡ list_any (λ s. bytes_eq s.name name.now) self.now.all }
    {
        self.named.has(name)
    }

    /// Whether somebody listens by this name.
    pub fn listens(&self, name: &Name) -> bool
        ensures { result ≡ is_some (subscriber_named self.now name.now) }
    {
        self.named.sub_of(name).is_some()
    }

    /// One more subscribes, and is told of the events from now on that its filter lets through. The filter is
    /// judged before the room.
    pub fn subscribe(&mut self, name: Name, filter: &[u8]) -> Result<Subscribed, NoMemory>
        requires { length filter.now < 2 ^ 32 }
        ensures { IsSubscribed self.old name filter.now result self.new }
    {
        let filter = match self.notifier.create_filter(filter) {
            Ok(filter) => filter,
            Err(FilterFault::BadFilter(place)) => return Ok(Subscribed::BadFilter(place)),
            Err(FilterFault::NoMemory) => return Err(NoMemory),
        };
        self.join(name, filter)
    }

    /// One more listens by a filter, where there is room.
    fn join(&mut self, name: Name, filter: Filter) -> Result<Subscribed, NoMemory>
        ensures { IsJoined self.old name (Good filter) result self.new }
    {
        self.named.reserve(name)?;
        match self.notifier.connect(filter) {
            Ok(sub) => {
                self.named.add_reserved(sub);
                Ok(Subscribed::Done)
            }
            Err(NotifyFault::Full(limit)) => Ok(Subscribed::Full(limit)),
            Err(_) => Err(NoMemory),
        }
    }

    /// The first who listens by this name listens no more; whether somebody did.
    pub fn unsubscribe(&mut self, name: &Name) -> bool
        ensures listened { result ≡ is_some (subscriber_named self.old name.now) }
        ensures left { self.new ≡ unsubscribed self.old name.now }
    {
        let Some(sub) = self.named.sub_of(name) else {
            return false;
        };
        match self.notifier.disconnect(sub) {
            Ok(()) => self.named.leave(name),
            Err(_) => unreachable!(),
        }
        true
    }

    /// The next unread event of the first who listens by this name.
    pub fn pull(&mut self, name: &Name) -> Result<Pulled, NoMemory>
        ensures { IsPulled self.old name.now result self.new }
    {
        let Some(sub) = self.named.sub_of(name) else {
            return Ok(Pulled::Unknown);
        };
        answer_of(self.notifier.pull(sub))
    }

    /// A fault is reported.
    pub fn push(&mut self, event: FaultEvent) -> Result<(), NoMemory>
        ensures told { OnOk result (self.new ≡ told self.old event) }
        ensures kept { OnErr result (self.new ≡ self.old) }
    {
        if self.faults as usize >= EVENT_LIMIT {
            self.faults = EVENT_LIMIT as u32 + 1;
            return Ok(());
        }
        match self.notifier.push(event) {
            Ok(()) => {
                self.faults += 1;
                Ok(())
            }
            Err(NotifyFault::Full(_)) => unreachable!(),
            Err(_) => Err(NoMemory),
        }
    }

    /// How many faults were reported: past the most, one more than that.
    pub fn faults(&self) -> u32
        ensures { result ≡ self.now.faults }
    {
        self.faults
    }
}
