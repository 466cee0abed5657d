ghost use Rattle.std.specs.Prelude.{◌≡◌, ◌<◌, ◌∷◌, [], length, MatchOption, All, IfOk, OnErr, IfSome, Some, map};
ghost use Rattle.ft_outside.specs.Schedules.{schedule_of};
ghost use Rattle.outside_links.specs.Wires.{IsAccepted, IsBound, IsFresh, IsNewDoor, IsNewCaller};
ghost use Rattle.outside_links.specs.Lending.{IsCaller};

use crate::links::{Acceptor, Network};
use crate::mem_callers::{MemCaller, take_first};
use crate::mem_links::MemLink;
use ft_base::NoMemory;
use ft_outside::{Schedule, add_counts, next_count};
use std::alloc::Global;
use std::collections::VecDeque;
use std::marker::Model;

/// A door in memory, which hands out the links that it was made with, and then fails.
#[derive(Drop)]
pub struct MemDoor {
    links: VecDeque<MemLink>,
    port: u16,
    faults: u64,
}

impl Model for MemDoor {
    ghost use Rattle.std.specs.Prelude.{All};
    ghost use Rattle.outside_links.specs.Wires.{Answering, IsFresh};

    ghost Value = { Answering };

    ghost view = { λ d. record { links = d.links.items; port = d.port; faults = d.faults } };

    ghost invariant = { λ d. All IsFresh d.links.items };
}

impl MemDoor {
    /// A door with these links, which says that it is at this port.
    pub fn new(links: VecDeque<MemLink>, port: u16) -> MemDoor
        requires { All IsFresh links.items }
        ensures { result ≡ record { links = links.items; port = port; faults = 0 } }
    {
        MemDoor {
            links,
            port,
            faults: 0,
        }
    }

    /// The link that it accepts next.
    pub fn next_link(&mut self) -> Option<MemLink>
        ensures exact { IsAccepted self.old self.new result }
        ensures fresh { IfSome result IsFresh }
    {
        match take_first(&mut self.links) {
            Some(link) => Some(link),
            None => {
                self.faults = next_count(self.faults);
                None
            }
        }
    }
}

impl Acceptor<MemLink> for MemDoor {
    ghost use Rattle.std.specs.Prelude.{Some, map};

    ghost links = { λ door. Some (map (λ w. w.left) door.links) };

    ghost own_port = { λ door. door.port };

    ghost count = { λ door. door.faults };

    fn accept(&mut self) -> Option<MemLink> {
        self.next_link()
    }

    fn port(&self) -> u16 {
        self.port
    }
}

/// A network in memory, which hands out the doors and callers that it was made with. A bind fails where it was told
/// to and past the last door; past the last caller come ones without links.
#[derive(Drop)]
pub struct MemNetwork {
    alloc: Global,
    doors: VecDeque<MemDoor>,
    callers: VecDeque<MemCaller>,
    schedule: Schedule,
    broken: u64,
}

impl Model for MemNetwork {
    ghost use Rattle.std.specs.Prelude.{All};
    ghost use Rattle.outside_links.specs.Wires.{Netting, IsNewDoor, IsNewCaller};

    ghost Value = { Netting };

    ghost view = { λ n. record { doors = n.doors.items; callers = n.callers.items; schedule = n.schedule; broken = n.broken } };

    ghost invariant = { λ n. All IsNewDoor n.doors.items × All IsNewCaller n.callers.items };
}

impl MemNetwork {
    /// `fails` are the numbers, from 1, of the binds that are to fail.
    pub fn new(
        alloc: Global,
        doors: VecDeque<MemDoor>,
        callers: VecDeque<MemCaller>,
        fails: &[u64],
    ) -> Result<MemNetwork, NoMemory>
        requires { All IsNewDoor doors.items × All IsNewCaller callers.items }
        ensures value { IfOk result (λ network. network ≡
            record { doors = doors.items; callers = callers.items; schedule = schedule_of fails.now; broken = 0 }) }
        ensures some { OnErr result (0 < length fails.now) }
    {
        let schedule = Schedule::new(alloc, fails)?;
        Ok(MemNetwork {
            alloc,
            doors,
            callers,
            schedule,
            broken: 0,
        })
    }

    /// The door that the next bind gives.
    pub fn next_door(&mut self) -> Option<MemDoor>
        ensures exact { IsBound self.old self.new result }
        ensures new { IfSome result IsNewDoor }
    {
        if self.schedule.is_failing() {
            self.schedule.fail();
            return None;
        }
        match first_door(&mut self.doors) {
            Some(door) => {
                self.schedule.pass();
                Some(door)
            }
            None => {
                self.schedule.fail();
                None
            }
        }
    }
}

fn first_door(doors: &mut VecDeque<MemDoor>) -> Option<MemDoor>
    requires { All IsNewDoor doors.old.items }
    ensures first { MatchOption result ((doors.old.items ≡ []) × (doors.new.items ≡ [])) (λ door. doors.old.items ≡ door ∷ doors.new.items) }
    ensures new { IfSome result IsNewDoor }
    ensures all { All IsNewDoor doors.new.items }
{
    doors.pop_front()
}

fn new_caller(callers: &mut VecDeque<MemCaller>) -> Option<MemCaller>
    requires { All IsNewCaller callers.old.items }
    ensures first { MatchOption result ((callers.old.items ≡ []) × (callers.new.items ≡ [])) (λ caller. callers.old.items ≡ caller ∷ callers.new.items) }
    ensures new { IfSome result IsNewCaller }
    ensures all { All IsNewCaller callers.new.items }
{
    callers.pop_front()
}

fn first_caller(alloc: Global, callers: &mut VecDeque<MemCaller>) -> MemCaller
    requires { All IsNewCaller callers.old.items }
    ensures new { IsNewCaller result }
    ensures all { All IsNewCaller callers.new.items }
    ensures first { IsCaller (Some (map (λ c. map (λ w. w.left) c.links) callers.old.items)) (Some (map (λ c. map (λ w. w.left) c.links) callers.new.items)) (Some (map (λ w. w.left) result.links)) }
{
    match new_caller(callers) {
        Some(caller) => caller,
        None => MemCaller::without_links(alloc),
    }
}

impl Network<MemLink, MemDoor, MemCaller> for MemNetwork {
    ghost use Rattle.std.specs.Prelude.{Some, map};

    ghost callers = { λ network. Some (map (λ c. map (λ w. w.left) c.links) network.callers) };

    ghost count = { λ network. network.schedule.faults };

    ghost broken = { λ network. network.broken };

    fn bind(&mut self) -> Option<MemDoor> {
        self.next_door()
    }

    fn caller(&mut self) -> MemCaller {
        first_caller(self.alloc, &mut self.callers)
    }

    fn take_caller(&mut self, caller: MemCaller) {
        self.broken = add_counts(self.broken, caller.faults());
    }
}
