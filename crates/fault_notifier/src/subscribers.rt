ghost use Rattle.std.specs.Prelude.{◌≡◌, ◌+◌, true, Some, None, is_some, option_copied, IfOk, OnErr};
ghost use Rattle.slab.specs.Slab.{Updates, slab_len, get};
ghost use Rattle.fault_notifier.specs.Keeping.{subscriber_at, looked};

use crate::filters::Filter;
use ft_base::NoMemory;
use slab::Slab;

/// A subscription: the place of a connection, and its number, from 1 in order of connecting.
#[derive(Clone, Copy, Debug, PartialEq, Eq)]
pub struct Sub {
    pub(crate) place: usize,
    pub(crate) number: u32,
}

/// A connection, and the first event that it hasn't looked at.
#[derive(Drop)]
pub(crate) struct Subscriber {
    pub(crate) number: u32,
    pub(crate) filter: Filter,
    pub(crate) next: usize,
}

pub(crate) type Subscribers = Slab<Subscriber>;

/// The subscriber of a subscription, while that is connected.
pub(crate) fn subscriber_at(subscribers: &Subscribers, sub: Sub) -> Option<&Subscriber>
    ensures { option_copied result ≡ subscriber_at subscribers.now.slots sub.place sub.number }
{
    let subscriber = subscribers.get(sub.place)?;
    if subscriber.number == sub.number {
        Some(subscriber)
    } else {
        None
    }
}

/// Puts a subscriber at a place that is free.
pub(crate) fn join(subscribers: &mut Subscribers, subscriber: Subscriber) -> Result<usize, NoMemory>
    ensures free { IfOk result (λ place. get subscribers.old place ≡ None) }
    ensures put { IfOk result (λ place. Updates subscribers.old subscribers.new place (Some subscriber)) }
    ensures counted { IfOk result (λ place. slab_len subscribers.new ≡ slab_len subscribers.old + 1) }
    ensures left { OnErr result (subscribers.new.slots ≡ subscribers.old.slots) }
{
    match subscribers.insert(subscriber) {
        Ok(place) => Ok(place),
        Err(_) => Err(NoMemory),
    }
}

/// Takes the subscriber at a place out.
pub(crate) fn leave(subscribers: &mut Subscribers, place: usize)
    requires { is_some (get subscribers.old place) ≡ true }
    ensures out { Updates subscribers.old subscribers.new place None }
    ensures counted { slab_len subscribers.new + 1 ≡ slab_len subscribers.old }
{
    let _ = subscribers.try_remove(place);
}

/// The subscriber at a place has looked at all events before this one.
#[tactic(auto, using(crate::proofs::Counting::same_count, crate::proofs::Counting::value_put))]
pub(crate) fn look(subscribers: &mut Subscribers, place: usize, next: usize)
    requires { is_some (get subscribers.old place) ≡ true }
    ensures looked { Updates subscribers.old subscribers.new place (looked next (get subscribers.old place)) }
    ensures counted { slab_len subscribers.new ≡ slab_len subscribers.old }
{
    if let Some(subscriber) = subscribers.get_mut(place) {
        subscriber.next = next;
    }
}
