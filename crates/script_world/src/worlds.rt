ghost use Rattle.std.specs.Prelude.{◌≡◌, ℕ, ◌+◌, ◌*◌, ◌<◌, ◌≤◌, ◌^◌, [], ◌∷◌, ◌++◌, None, Some, false, true, length, map, nat_lt, slice_get, slice_set, is_some, IfOk, IfSome, MatchOption, OnErr, OnOk, option_copied};
ghost use Rattle.std.specs.List.{AllByRecursion};
ghost use Rattle.ft_base.specs.declared.limits.TheConstants.{HOST_LIMIT};
ghost use Rattle.group_model.specs.Sending.{sent_by};
ghost use Rattle.host_ports.specs.Ports.{all_ports};
ghost use Rattle.script_clients.specs.Clients.{Client, binding, failing, hearing, taking};
ghost use Rattle.script_groups.specs.Acting.{IsSoundGroup, MayCome};
ghost use Rattle.script_groups.specs.Groups.{ScriptGroup as Group, entries_of, group_named, group_numbered};
ghost use Rattle.script_world.specs.declared.hosts.HostState.{HostState as State};
ghost use Rattle.script_world.specs.Sound.{IsKeptWorld, IsOnItsWay};
ghost use Rattle.script_world.specs.World.{World, carried, client_named, empty, fresh_host, host_clock, is_named, is_there, is_up, message_numbered, passed, ticked, with_client, with_event, with_failing, with_host, with_hosts, with_messages, with_one_client};
ghost use Rattle.script_world.specs.Worlds.{CanStart, EventAt, IsMade, IsPlace, begin, power_event};

use crate::clients::Clients;
use crate::groups::Groups;
use crate::hosts::HostState;
use crate::limits::GROUP_LIMIT;
use crate::messages::Message;
use client_retry::Heard;
use ft_base::{GroupId, HOST_LIMIT, HostNo, Name, NoMemory, Request, Steps, Tick};
use group_model::{Event, GroupAnswer};
use host_ports::all_ports;
use iogr_reference::{GroupRef, Ports};
use property_manager::PropertyManager;
use script_clients::{ScriptClient, Told};
use script_groups::{ScriptGroup, failures_come_once, groups_go_on};
use script_monitor::ScriptMonitor;
use script_subscribers::Subscribers;
use std::alloc::Global;
use std::marker::Model;
use std::sync::ledger::Ledger;

/// What a client begins an invocation with.
#[derive(Drop)]
pub struct Begun {
    pub reference: GroupRef,
    pub expiration: Tick,
    /// Whether it is counted for the next default retention id.
    pub numbers: bool,
    pub versioned: bool,
    pub request: Request,
}

/// All that a script made: the hosts with their clocks, the groups, also those that were deleted, the
/// clients, every message that was ever sent, the properties that are set, whom the monitor watches, who is
/// told of faults, and how many bytes there are in messages.
pub struct World {
    clock: u64,
    hosts: Vec<HostState>,
    pub(crate) groups: Groups,
    clients: Clients,
    messages: Vec<Message>,
    pub(crate) settings: PropertyManager,
    pub(crate) monitor: ScriptMonitor,
    pub(crate) subscribers: Subscribers,
    pub(crate) bytes: u32,
    ports: Ports,
}

// Written out, so that whoever drops a world makes one call, and not one for each part of each field.
impl Drop for World {
    fn drop(self) {
        let World {
            clock: _,
            hosts: _,
            groups: _,
            clients: _,
            messages: _,
            settings: _,
            monitor: _,
            subscribers: _,
            bytes: _,
            ports: _,
        } = self;
    }
}

impl Model for World {
    ghost use Rattle.script_world.specs.World.{World};

    ghost Value = { World };

    ghost use Rattle.std.specs.Prelude.{◌≡◌};
    ghost use Rattle.host_ports.specs.Ports.{all_ports};
    ghost use Rattle.script_world.specs.Standing.{world_of};
    ghost use Rattle.script_world.specs.Sound.{IsSound};

    ghost view = { world_of };

    ghost invariant = { λ a. IsSound (world_of a) × (a.ports ≡ all_ports) };
}

fn ticked(host: HostState, ticks: u32) -> HostState
    requires { host.clock ≤ 2 ^ 63 }
    ensures { result ≡ ticked ticks host }
{
    if host.up {
        HostState {
            up: true,
            clock: host.clock + u64::from(ticks),
        }
    } else {
        host
    }
}

// Every clock of a host that is up goes on.
fn raise(hosts: &mut Vec<HostState>, ticks: u32)
    requires { AllByRecursion (λ (h : State). h.clock ≤ 2 ^ 63) hosts.old.items }
    ensures { hosts.new.items ≡ map (ticked ticks) hosts.old.items }
{
    for host in hosts.iter_mut() {
        *host = ticked(*host, ticks);
    }
}

// A host in another state, if it is there.
fn set_host(hosts: &mut Vec<HostState>, host: HostNo, state: HostState)
    ensures { hosts.new.items ≡ slice_set hosts.old.items host.0 state }
{
    let place = host.0 as usize;
    if place < hosts.len() {
        hosts[place] = state;
    }
}

impl World {
    /// A world in which nothing was made yet.
    pub fn new(alloc: Global) -> Result<World, NoMemory>
        ensures { IfOk result (λ world. world ≡ empty) }
    {
        let ports = all_ports(alloc)?;
        Ok(World {
            clock: 0,
            hosts: Vec::new(alloc),
            groups: Groups::new(alloc),
            clients: Clients::new(alloc),
            messages: Vec::new(alloc),
            settings: PropertyManager::new(alloc),
            monitor: ScriptMonitor::new(alloc),
            subscribers: Subscribers::new(alloc),
            bytes: 0,
            ports,
        })
    }

    /// The allocator of all that it keeps.
    pub fn alloc(&self) -> Global {
        *self.messages.allocator()
    }

    pub fn ports(&self) -> &Ports
        ensures { result.now ≡ all_ports }
    {
        &self.ports
    }

    pub fn clock(&self) -> Tick
        ensures { result.0 ≡ self.now.clock }
    {
        Tick(self.clock)
    }

    pub fn has_hosts(&self) -> bool
        ensures { result ≡ nat_lt 0 (length self.now.hosts) }
    {
        !self.hosts.is_empty()
    }

    /// The host with this number, where it is there.
    pub fn host(&self, number: u64) -> Option<HostNo>
        ensures there { MatchOption result (is_there self.now number ≡ false)
            (λ host. (is_there self.now number ≡ true) × (host.0 ≡ number)) }
        ensures limit { IfSome result (λ host. host.0 < HOST_LIMIT) }
    {
        if (number as usize) < self.hosts.len() {
            Some(HostNo(number as u8))
        } else {
            None
        }
    }

    pub fn is_up(&self, host: HostNo) -> bool
        ensures { result ≡ is_up self.now host.0 }
    {
        match self.hosts.get(host.0 as usize) {
            Some(host) => host.up,
            None => false,
        }
    }

    /// A host's clock.
    pub fn host_clock(&self, host: HostNo) -> Tick
        ensures { result.0 ≡ host_clock self.now host.0 }
    {
        match self.hosts.get(host.0 as usize) {
            Some(host) => Tick(host.clock),
            None => Tick(0),
        }
    }

    /// A group, a client or a subscriber was made with this name.
    pub fn is_named(&self, name: &Name) -> bool
        ensures { result ≡ is_named self.now name.now }
    {
        self.groups.has(name) || self.clients.has(name) || self.subscribers.is_named(name)
    }

    pub fn group_place(&self, name: &Name) -> Option<usize>
        ensures { IsPlace (group_named self.now.groups name.now) self.now.groups result }
    {
        self.groups.place(name)
    }

    /// The place of the group with this number, from 1.
    pub fn numbered_place(&self, group: GroupId) -> Option<usize>
        ensures { IsPlace (group_numbered self.now.groups group.0) self.now.groups result }
    {
        if group.0 == 0 {
            return None;
        }
        let place = (group.0 - 1) as usize;
        if place < self.group_count() {
            Some(place)
        } else {
            None
        }
    }

    pub fn client_place(&self, name: &Name) -> Option<usize>
        ensures { IsPlace (client_named self.now name.now) self.now.clients result }
    {
        self.clients.place(name)
    }

    pub fn group_count(&self) -> usize
        ensures count { result ≡ length self.now.groups }
        ensures limit { result ≤ GROUP_LIMIT }
    {
        self.groups.len()
    }

    pub fn host_count(&self) -> usize
        ensures count { result ≡ length self.now.hosts }
        ensures limit { result ≤ HOST_LIMIT }
    {
        self.hosts.len()
    }

    pub fn client_count(&self) -> usize
        ensures { result ≡ length self.now.clients }
    {
        self.clients.len()
    }

    /// How many messages were sent.
    pub fn message_count(&self) -> usize
        ensures count { result ≡ length self.now.messages }
        ensures limit { result < 2 ^ 63 }
    {
        self.messages.len()
    }

    pub fn group(&self, place: usize) -> &ScriptGroup
        requires { place < length self.now.groups }
        ensures { slice_get self.now.groups place ≡ Some result.now }
    {
        self.groups.at(place)
    }

    /// The client at this place.
    pub fn client_at(&self, place: usize) -> &ScriptClient
        requires { place < length self.now.clients }
        ensures { slice_get self.now.clients place ≡ Some result.now }
    {
        self.clients.at(place)
    }

    /// The client at this place, if there is one.
    pub fn client(&self, place: usize) -> Option<&ScriptClient>
        ensures { option_copied result ≡ slice_get self.now.clients place }
    {
        self.clients.get(place)
    }

    /// The message with this number, from 1.
    pub fn message(&self, number: u64) -> Option<&Message>
        ensures value { option_copied result ≡ message_numbered self.now number }
        ensures comes { IfSome (option_copied result) (IsOnItsWay self.now.groups) }
    {
        if number == 0 {
            return None;
        }
        self.messages.get((number - 1) as usize)
    }

    /// So many hosts are up, with clocks at 0.
    pub fn make_hosts(&mut self, count: u8) -> Result<(), NoMemory>
        requires { count ≤ 64 }
        ensures { OnOk result (self.new ≡ with_hosts self.old count) }
    {
        let alloc = *self.hosts.allocator();
        let fresh = HostState { up: true, clock: 0 };
        self.hosts = vec![in alloc; fresh; count as usize]?;
        Ok(())
    }

    pub fn add_client(&mut self, client: ScriptClient) -> Result<(), NoMemory>
        ensures { OnOk result (self.new ≡ with_one_client self.old client) }
    {
        let alloc = *self.messages.allocator();
        self.clients.add(alloc, client)
    }

    /// Sends a message.
    #[inline(always)]
    pub fn send(&mut self, message: Message) -> Result<(), NoMemory>
        requires { IsOnItsWay self.old.groups message }
        ensures { OnOk result (self.new ≡ with_messages self.old (message ∷ [])) }
    {
        self.messages.push(message)?;
        Ok(())
    }

    /// Time goes on.
    pub fn pass(&mut self, ticks: u32)
        requires { self.old.clock ≤ 2 ^ 63 }
        ensures { self.new ≡ passed self.old ticks }
    {
        self.clock += u64::from(ticks);
        raise(&mut self.hosts, ticks);
    }

    /// Acts an event at the group at this place.
    #[inline(always)]
    pub fn event_at<L: Ledger>(
        &mut self,
        place: usize,
        event: Event,
        steps: &mut Steps<L>,
    ) -> GroupAnswer
        requires within { place < length self.old.groups }
        requires kept { IsKeptWorld self.old }
        requires may { (g : Group) → slice_get self.old.groups place ≡ Some g → MayCome g event }
        ensures turn { EventAt self.old place event result self.new steps.old steps.new }
        ensures kept { IsMade result (IsKeptWorld self.new) }
        ensures sent { (g : Group) → slice_get self.old.groups place ≡ Some g → AllByRecursion (λ out. IsOnItsWay self.new.groups (carried g.id out)) (sent_by result) }
    {
        let alloc = *self.messages.allocator();
        groups_go_on();
        self.groups.act_at(alloc, place, event, steps)
    }

    /// The next write of the log of the group at this place fails.
    pub fn fail_log_at(&mut self, place: usize) -> Result<(), NoMemory>
        requires within { place < length self.old.groups }
        requires kept { IsKeptWorld self.old }
        ensures failing { (g : Group) → slice_get self.old.groups place ≡ Some g → OnOk result (self.new ≡ with_failing self.old place g) }
        ensures left { OnErr result (self.new ≡ self.old) }
    {
        failures_come_once();
        self.groups.fail_log_at(place)
    }

    /// A host stops, or starts again with a clock at 0; each group hears of it.
    pub fn set_power<L: Ledger>(
        &mut self,
        host: HostNo,
        up: bool,
        steps: &mut Steps<L>,
    ) -> Result<(), NoMemory>
        requires host { host.0 < HOST_LIMIT }
        requires kept { IsKeptWorld self.old }
        ensures world { OnOk result (self.new ≡ with_host self.old host.0 (record { up = up; clock = 0 }) (power_event up host)) }
        ensures steps { OnOk result (steps.new ≡ steps.old) }
        ensures within { steps.new ≤ steps.old }
    {
        let alloc = *self.messages.allocator();
        groups_go_on();
        match self.groups.power(alloc, host, up, steps) {
            Ok(()) => {
                set_host(&mut self.hosts, host, HostState { up, clock: 0 });
                Ok(())
            }
            Err(NoMemory) => Err(NoMemory),
        }
    }

    /// Whether the client at this place has an open invocation.
    pub fn is_busy(&self, place: usize) -> bool
        requires { place < length self.now.clients }
        ensures { (c : Client) → slice_get self.now.clients place ≡ Some c → result ≡ is_some c.call }
    {
        self.clients.at(place).is_open()
    }

    /// The client at this place gives away its reference of a group, if it has one.
    pub fn take_reference(
        &mut self,
        place: usize,
        group: GroupId,
    ) -> Result<Option<GroupRef>, NoMemory>
        requires within { place < length self.old.clients }
        requires idle { (c : Client) → slice_get self.old.clients place ≡ Some c → c.call ≡ None }
        ensures { (c : Client) → slice_get self.old.clients place ≡ Some c →
            IfOk result (λ reference. (reference ≡ (taking c group).reference) × (self.new ≡ with_client self.old place (taking c group).client)) }
    {
        self.clients.take_reference(place, group)
    }

    /// The client at this place begins an invocation.
    pub fn start_at(&mut self, place: usize, begun: Begun) -> Result<Told, NoMemory>
        requires within { place < length self.old.clients }
        requires idle { (c : Client) → slice_get self.old.clients place ≡ Some c → (c.call ≡ None) × CanStart c }
        ensures { (c : Client) → slice_get self.old.clients place ≡ Some c →
            IfOk result (λ told. (told ≡ (begin c begun).told) × (self.new ≡ with_client self.old place (begin c begun).client)) }
    {
        let alloc = *self.messages.allocator();
        self.clients.start(alloc, place, begun)
    }

    /// A reply comes to the client at this place, now.
    pub fn hear_at(&mut self, place: usize, id: u32, heard: Heard) -> Result<Told, NoMemory>
        requires within { place < length self.old.clients }
        ensures { (c : Client) → slice_get self.old.clients place ≡ Some c →
            IfOk result (λ told. (told ≡ (hearing c id heard (record { 0 = self.old.clock })).told)
            × (self.new ≡ with_client self.old place (hearing c id heard (record { 0 = self.old.clock })).client)) }
    {
        let alloc = *self.messages.allocator();
        let now = Tick(self.clock);
        self.clients.hear(alloc, place, id, heard, now)
    }

    /// The client at this place goes by this reference for its group from now on, between two invocations.
    pub fn bind_at(&mut self, place: usize, reference: GroupRef) -> Result<(), NoMemory>
        requires within { place < length self.old.clients }
        requires idle { (c : Client) → slice_get self.old.clients place ≡ Some c → c.call ≡ None }
        ensures { (c : Client) → slice_get self.old.clients place ≡ Some c → OnOk result (self.new ≡ with_client self.old place (binding c reference)) }
    {
        self.clients.bind(place, reference)
    }

    /// Now it is known that the last attempt of the client at this place gets no reply.
    pub fn fail_at(&mut self, place: usize) -> Result<Told, NoMemory>
        requires within { place < length self.old.clients }
        ensures { (c : Client) → slice_get self.old.clients place ≡ Some c →
            IfOk result (λ told. (told ≡ (failing c (record { 0 = self.old.clock })).told)
            × (self.new ≡ with_client self.old place (failing c (record { 0 = self.old.clock })).client)) }
    {
        let alloc = *self.messages.allocator();
        let moment = Tick(self.clock);
        self.clients.fault(alloc, place, moment)
    }

    /// How many requests all groups have accepted.
    pub fn entries(&self) -> u64
        requires { IsKeptWorld self.now }
        ensures { result ≡ entries_of self.now.groups }
    {
        self.groups.entries()
    }
}
