ghost use Rattle.std.specs.Prelude.{◌≡◌, ◌+◌, ◌<◌, ◌∷◌, All, IfOk, OnErr, IfSome, MatchOption, [], option_copied, option_map, slice_get};
ghost use Rattle.std.specs.VecDeque.{deque_len};
ghost use Rattle.outside_links.specs.Wires.{IsDialed, IsFresh, calling, taken_back};

use crate::links::{Dialer, Link};
use crate::mem_links::MemLink;
use crate::targets::Target;
use ft_base::{Name, NoMemory};
use ft_outside::{add_counts, next_count};
use std::alloc::Global;
use std::collections::VecDeque;
use std::marker::Model;

/// A caller in memory, which hands out the links that it was made with. Places for those that come back, and for where
/// each leads, were made with it, so that no call takes memory.
#[derive(Drop)]
pub struct MemCaller {
    links: VecDeque<MemLink>,
    targets: Vec<Target>,
    taken: VecDeque<MemLink>,
    lent: usize,
    faults: u64,
}

impl Model for MemCaller {
    ghost use Rattle.std.specs.Prelude.{◌+◌, ◌≤◌, All, vec_len, vec_capacity};
    ghost use Rattle.std.specs.VecDeque.{deque_len, deque_capacity};
    ghost use Rattle.outside_links.specs.Wires.{Calling, IsFresh};

    ghost Value = { Calling };

    ghost view = { λ c. record { links = c.links.items; targets = c.targets.items; taken = c.taken.items; lent = c.lent; faults = c.faults } };

    ghost invariant = { λ c. All IsFresh c.links.items × (deque_len c.links + c.lent + deque_len c.taken ≤ deque_capacity c.taken)
        × (deque_len c.links + vec_len c.targets ≤ vec_capacity c.targets) };
}

impl MemCaller {
    /// A caller with these links.
    pub fn new(alloc: Global, links: VecDeque<MemLink>) -> Result<MemCaller, NoMemory>
        requires { All IsFresh links.items }
        ensures value { IfOk result (λ caller. caller ≡ calling links.items) }
        ensures some { OnErr result (0 < deque_len links) }
    {
        let targets = Vec::with_capacity(alloc, links.len())?;
        let taken = VecDeque::with_capacity(alloc, links.len())?;
        Ok(MemCaller {
            links,
            targets,
            taken,
            lent: 0,
            faults: 0,
        })
    }

    /// A caller with no links.
    pub fn without_links(alloc: Global) -> MemCaller
        ensures { result ≡ calling [] }
    {
        MemCaller {
            links: VecDeque::new(alloc),
            targets: Vec::new(alloc),
            taken: VecDeque::new(alloc),
            lent: 0,
            faults: 0,
        }
    }

    /// The next link, which leads there.
    pub fn link_to(&mut self, host: &Name, port: u16) -> Option<MemLink>
        ensures exact { IsDialed record { host = host.now; port = port } self.old self.new result }
        ensures fresh { IfSome result IsFresh }
    {
        match take_first(&mut self.links) {
            Some(link) => {
                self.targets.push_reserved(Target::new(host, port));
                self.lent += 1;
                Some(link)
            }
            None => {
                self.faults = next_count(self.faults);
                None
            }
        }
    }

    /// Closes a link that was handed out, and keeps it.
    pub fn put_back(&mut self, link: MemLink)
        requires { 0 < self.old.lent }
        ensures { self.new ≡ taken_back self.old link }
    {
        let mut link = link;
        link.shut();
        self.faults = add_counts(self.faults, link.faults());
        self.lent -= 1;
        self.taken.push_back_reserved(link);
    }

    /// What the link held that came back at this place, counted from 0.
    pub fn sent_at(&self, place: usize) -> Option<&[u8]>
        ensures { option_copied result ≡ option_map (λ w. w.held) (slice_get self.now.taken place) }
    {
        match self.taken.get(place) {
            Some(link) => Some(link.held()),
            None => None,
        }
    }

    /// Where the link leads that was handed out at this place, counted from 0.
    pub fn target_at(&self, place: usize) -> Option<&Target>
        ensures { option_copied result ≡ slice_get self.now.targets place }
    {
        self.targets.get(place)
    }

    /// How many faults there were, its own and those of links that came back.
    pub fn faults(&self) -> u64
        ensures { result ≡ self.now.faults }
    {
        self.faults
    }
}

// Takes the first link out.
pub fn take_first(links: &mut VecDeque<MemLink>) -> Option<MemLink>
    requires { All IsFresh links.old.items }
    ensures first { MatchOption result ((links.old.items ≡ []) × (links.new.items ≡ [])) (λ link. links.old.items ≡ link ∷ links.new.items) }
    ensures len { MatchOption result (deque_len links.new ≡ deque_len links.old) (λ _. deque_len links.new + 1 ≡ deque_len links.old) }
    ensures fresh { IfSome result IsFresh }
    ensures all { All IsFresh links.new.items }
{
    links.pop_front()
}

impl Dialer<MemLink> for MemCaller {
    ghost use Rattle.std.specs.Prelude.{Some, map};

    ghost links = { λ caller. Some (map (λ w. w.left) caller.links) };

    ghost targets = { λ caller. Some caller.targets };

    ghost sent = { λ caller. Some (map (λ w. w.held) caller.taken) };

    ghost lent = { λ caller. Some caller.lent };

    ghost count = { λ caller. caller.faults };

    fn dial(&mut self, host: &Name, port: u16) -> Option<MemLink> {
        self.link_to(host, port)
    }

    fn take_back(&mut self, link: MemLink) {
        self.put_back(link);
    }
}
