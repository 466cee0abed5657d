ghost use Rattle.std.specs.Prelude.{◌≡◌, ◌<◌, ◌^◌, length, count_by, is_some, slice_get, IfOk, IfSome, Some, None};
ghost use Rattle.fault_notifier.specs.Filters.{Filter as Lets, terms, matches, IsFiltered};
ghost use Rattle.fault_notifier.specs.Notifying.{Notified, silent};
ghost use Rattle.fault_notifier.specs.Keeping.{StandsFor, refusal_of, IsConnected, IsDisconnected, IsPushed, IsPulled, IsNext};

use crate::events::FaultEvent;
use crate::faults::{FilterFault, NotifyFault};
use crate::filters::{Filter, filter_of, is_dash, split_terms};
use crate::limits::{CONNECTION_LIMIT, EVENT_LIMIT, SUBSCRIBER_LIMIT};
use crate::subscribers::{Sub, Subscriber, Subscribers, join, leave, look, subscriber_at};
use ft_base::NoMemory;
use slab::Slab;
use std::alloc::Global;
use std::marker::Model;

/// Fault events, and those who are told of them.
#[derive(Drop)]
pub struct Notifier {
    events: Vec<FaultEvent>,
    made: u32,
    subscribers: Subscribers,
}

impl Model for Notifier {
    ghost use Rattle.fault_notifier.specs.Keeping.{Picture};

    ghost Value = { Picture };

    ghost view = { λ n. record { events = n.events.items; made = n.made; places = n.subscribers.slots } };
}

fn event_at(events: &[FaultEvent], at: usize) -> &FaultEvent
    requires { at < length events.now }
    ensures { slice_get events.now at ≡ Some result.now }
{
    &events[at]
}

fn copy_at(alloc: Global, events: &[FaultEvent], at: usize) -> Result<FaultEvent, NoMemory>
    requires { at < length events.now }
    ensures { IfOk result (λ event. slice_get events.now at ≡ Some event) }
{
    let event = event_at(events, at).copy(alloc)?;
    Ok(event)
}

/// The place of the first event, from one on, that a filter lets through.
#[tactic(auto, using(crate::proofs::Reading::found_next, crate::proofs::Reading::passed_over))]
fn next_match(events: &[FaultEvent], from: usize, filter: &Filter) -> Option<usize>
    ensures next { IsNext (matches filter.now) events.now from result }
    ensures within { IfSome result (λ at. at < length events.now) }
{
    for at in from..events.len() {
        if filter.matches(event_at(events, at)) {
            return Some(at);
        }
    }
    None
}

impl Notifier {
    /// A notifier of no events, without subscribers.
    pub fn new(alloc: Global) -> Notifier
        ensures { StandsFor silent result }
    {
        Notifier {
            events: Vec::new(alloc),
            made: 0,
            subscribers: Slab::new(alloc),
        }
    }

    /// The filter that a text spells.
    #[tactic(auto, using(crate::proofs::Terms::few_terms, crate::proofs::Terms::no_terms))]
    pub fn create_filter(&self, text: &[u8]) -> Result<Filter, FilterFault>
        requires { length text.now < 2 ^ 32 }
        ensures { IsFiltered (terms text.now) result }
    {
        if is_dash(text) {
            return Ok(Filter::all());
        }
        let alloc = *self.events.allocator();
        let Ok(terms) = split_terms(alloc, text) else {
            return Err(FilterFault::NoMemory);
        };
        filter_of(alloc, terms.as_slice())
    }

    /// Why no more subscribers connect.
    fn refusal(&self) -> Option<u32>
        ensures is { result ≡ refusal_of (count_by is_some self.now.places) self.now.made }
        ensures room { result ≡ None → self.now.made < CONNECTION_LIMIT }
    {
        if self.subscribers.len() >= SUBSCRIBER_LIMIT {
            return Some(SUBSCRIBER_LIMIT as u32);
        }
        if self.made >= CONNECTION_LIMIT {
            return Some(CONNECTION_LIMIT);
        }
        None
    }

    /// Connects a subscriber, which is told of the events from now on that its filter lets through.
    #[tactic(auto, using(crate::proofs::Placing::connects))]
    pub fn connect(&mut self, filter: Filter) -> Result<Sub, NotifyFault>
        ensures { (n : Notified) → StandsFor n self.old → IsConnected n filter result self.old self.new }
    {
        match self.refusal() {
            Some(limit) => Err(NotifyFault::Full(limit)),
            None => {
                let number = self.made + 1;
                let subscriber = Subscriber {
                    number,
                    filter,
                    next: self.events.len(),
                };
                match join(&mut self.subscribers, subscriber) {
                    Err(NoMemory) => Err(NotifyFault::NoMemory),
                    Ok(place) => {
                        self.made = number;
                        Ok(Sub { place, number })
                    }
                }
            }
        }
    }

    /// Ends a connection; its subscription stays refused.
    #[tactic(auto, using(crate::proofs::Placing::leaves, crate::proofs::Placing::is_there, crate::proofs::Placing::is_absent))]
    pub fn disconnect(&mut self, sub: Sub) -> Result<(), NotifyFault>
        ensures { (n : Notified) → StandsFor n self.old → IsDisconnected n sub result self.old self.new }
    {
        match subscriber_at(&self.subscribers, sub) {
            None => Err(NotifyFault::NoSubscriber),
            Some(_subscriber) => {
                leave(&mut self.subscribers, sub.place);
                Ok(())
            }
        }
    }

    /// Tells of an event.
    #[tactic(auto, using(crate::proofs::Placing::pushes))]
    pub fn push(&mut self, event: FaultEvent) -> Result<(), NotifyFault>
        ensures { (n : Notified) → StandsFor n self.old → IsPushed n event result self.old self.new }
    {
        if self.events.len() >= EVENT_LIMIT {
            return Err(NotifyFault::Full(EVENT_LIMIT as u32));
        }
        match self.events.push(event) {
            Ok(()) => Ok(()),
            Err(_) => Err(NotifyFault::NoMemory),
        }
    }

    /// The next event of a subscriber; none where it has read all.
    #[tactic(auto, using(crate::proofs::Placing::pulls_absent, crate::proofs::Placing::pulls_no_memory, crate::proofs::Placing::pulls_nothing, crate::proofs::Placing::pulls_event))]
    pub fn pull(&mut self, sub: Sub) -> Result<Option<FaultEvent>, NotifyFault>
        ensures { (n : Notified) → StandsFor n self.old → IsPulled n sub result self.new }
    {
        let Some(subscriber) = subscriber_at(&self.subscribers, sub) else {
            return Err(NotifyFault::NoSubscriber);
        };
        match next_match(self.events.as_slice(), subscriber.next, &subscriber.filter) {
            None => {
                look(&mut self.subscribers, sub.place, self.events.len());
                Ok(None)
            }
            Some(at) => {
                let alloc = *self.events.allocator();
                let Ok(event) = copy_at(alloc, self.events.as_slice(), at) else {
                    return Err(NotifyFault::NoMemory);
                };
                look(&mut self.subscribers, sub.place, at + 1);
                Ok(Some(event))
            }
        }
    }
}
