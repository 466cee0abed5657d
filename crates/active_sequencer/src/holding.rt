//! Orders that came before their turn.
ghost use Rattle.std.specs.Prelude.{◌≡◌, [], drop, length, false, Some, None, OnOk, OnErr, MatchOption};
ghost use Rattle.group_stands.specs.Holding.{orders_from, request_of, with_order};
ghost use Rattle.active_sequencer.specs.Orders.{begins_below};

use ft_base::{NoMemory, Request};
use std::alloc::Global;
use std::collections::BTreeMap;
use std::marker::Model;

/// The orders that a host holds back until the entries before theirs have been run: the requests, by their
/// entries' places in the journal.
#[derive(Drop)]
pub struct Holdback {
    requests: BTreeMap<u32, Request>,
}

impl Model for Holdback {
    ghost use Rattle.std.specs.Prelude.{List};
    ghost use Rattle.group_stands.specs.Holding.{HeldOrder};

    ghost Value = { List HeldOrder };

    ghost view = { λ b. b.requests.entries };
}

impl Holdback {
    /// No orders. It takes no memory.
    pub fn new(alloc: Global) -> Holdback
        ensures { result ≡ [] }
    {
        Holdback {
            requests: BTreeMap::new(alloc),
        }
    }

    /// How many orders are held.
    pub(crate) fn len(&self) -> usize
        ensures { result ≡ length self.now }
    {
        self.requests.len()
    }

    /// The request of the order of an entry, where one is held.
    pub(crate) fn request(&self, index: u32) -> Option<&Request>
        ensures { MatchOption result (request_of index self.now ≡ None) (λ request. request_of index self.now ≡ Some request.now) }
    {
        self.requests.get(&index)
    }

    /// Holds an order, unless one of its entry is held.
    pub(crate) fn hold(&mut self, index: u32, request: Request) -> Result<(), NoMemory>
        ensures held { OnOk result (self.new ≡ with_order index request self.old) }
        ensures left { OnErr result (self.new ≡ self.old) }
    {
        if self.requests.contains_key(&index) {
            return Ok(());
        }
        self.requests.insert(index, request)?;
        Ok(())
    }

    /// Whether the first order is of an entry before a position.
    fn begins_below(&self, position: u32) -> bool
        ensures below { result ≡ begins_below position self.now }
        ensures sorted { result ≡ false → orders_from position self.now ≡ self.now }
    {
        match self.requests.first_key_value() {
            Some((first, _)) => *first < position,
            None => false,
        }
    }

    /// Lets go of the first order.
    fn drop_first(&mut self)
        ensures { self.new ≡ drop 1 self.old }
    {
        let _first = self.requests.pop_first();
    }

    /// Lets go of the orders of entries before a position. It takes no memory.
    pub fn drop_below(&mut self, position: u32)
        ensures { self.new ≡ orders_from position self.old }
    {
        while self.begins_below(position) {
            self.drop_first();
        }
    }

    /// Lets go of all orders.
    pub fn clear(&mut self)
        ensures { self.new ≡ [] }
    {
        self.requests.clear();
    }
}
