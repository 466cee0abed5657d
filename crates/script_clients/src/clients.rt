ghost use Rattle.std.specs.Prelude.{◌≡◌, ◌+◌, ◌<◌, ◌≤◌, ◌^◌, is_some, if◌then◌else◌, Some, None, false, IfOk, OnOk, OnErr};
ghost use Rattle.script_clients.specs.Clients.{new_client, taking, binding, starting, hearing, failing};

use crate::answers::{Call, Told};
use crate::happenings::Happening;
use crate::histories::History;
use crate::references::{put_known, take_known};
use crate::telling::told_of;
use client_retry::{ClientCore, Heard};
use ft_base::{GroupId, Name, NoMemory, Request, Tick};
use iogr_reference::GroupRef;
use std::alloc::Global;
use std::collections::VecDeque;
use std::marker::Model;
use std::snapshot::Snapshot;

/// A client of a script. It sends nothing itself. Contracts see it as the plain client that all that has
/// happened to it makes.
#[derive(Drop)]
pub struct ScriptClient {
    name: Name,
    started: u32,
    numbered: u32,
    others: VecDeque<GroupRef>,
    core: ClientCore,
    call: Option<Call>,
    history: History,
}

impl Model for ScriptClient {
    ghost use Rattle.script_clients.specs.Clients.{Client};
    ghost use Rattle.script_clients.specs.Pictures.{IsKept};

    ghost Value = { Client };

    ghost view = { λ c. c.history };

    ghost invariant = { λ c. IsKept (record { name = c.name; started = c.started; numbered = c.numbered; others = c.others.items; core = c.core; call = c.call }) c.history };
}

fn while_open(is_open: bool, call: Call) -> Option<Call>
    ensures { result ≡ (if is_open then Some call else None) }
{
    if is_open { Some(call) } else { None }
}

impl ScriptClient {
    /// A client that has begun no invocation.
    pub fn new(name: Name, alloc: Global) -> ScriptClient
        ensures { result ≡ new_client name }
    {
        let history = History::new(&name);
        ScriptClient {
            name,
            started: 0,
            numbered: 0,
            others: VecDeque::new(alloc),
            core: ClientCore::new(),
            call: None,
            history,
        }
    }

    pub fn name(&self) -> &Name
        ensures { result.now ≡ self.now.name }
    {
        &self.name
    }

    /// How many invocations it began.
    pub fn started(&self) -> u32
        ensures { result ≡ self.now.started }
    {
        self.started
    }

    /// How many of them it sent whose retention id it chose itself.
    pub fn numbered(&self) -> u32
        ensures value { result ≡ self.now.numbered }
        ensures few { self.now.numbered ≤ self.now.started }
    {
        self.numbered
    }

    /// Whether an invocation is open.
    pub fn is_open(&self) -> bool
        ensures { result ≡ is_some self.now.call }
    {
        self.call.is_some()
    }

    /// Takes the reference that it goes by for this group, between two invocations.
    pub fn take_reference(&mut self, group: GroupId) -> Result<Option<GroupRef>, NoMemory>
        requires { is_some self.old.call ≡ false }
        ensures taken { IfOk result
            (λ reference. (reference ≡ (taking self.old group).reference) × (self.new ≡ (taking self.old group).client)) }
        ensures kept { OnErr result (self.new ≡ self.old) }
    {
        self.others.reserve(1)?;
        let last = self.core.take_reference();
        let reference = take_known(&mut self.others, last, group);
        self.history.push(Snapshot::of(&Happening::Took(group)));
        Ok(reference)
    }

    /// Goes by this reference for its group from now on, between two invocations.
    pub fn bind(&mut self, reference: GroupRef) -> Result<(), NoMemory>
        requires { is_some self.old.call ≡ false }
        ensures bound { OnOk result (self.new ≡ binding self.old reference) }
        ensures kept { OnErr result (self.new ≡ self.old) }
    {
        self.others.reserve(2)?;
        let happening = Happening::Bound(Snapshot::of(&reference));
        let last = self.core.take_reference();
        put_known(&mut self.others, last, reference);
        self.history.push(Snapshot::of(&happening));
        Ok(())
    }

    /// Begins an invocation over this reference, whose request expires at this moment. `numbers` says that
    /// its retention id is one that the client chose itself, `versioned` that its attempts name the version.
    /// Where memory is wanted it has begun all the same, and only what is told is lost.
    pub fn start(
        &mut self,
        alloc: Global,
        reference: GroupRef,
        expiration: Tick,
        numbers: bool,
        versioned: bool,
        request: Request,
    ) -> Result<Told, NoMemory>
        requires closed { is_some self.old.call ≡ false }
        requires few { self.old.started + 1 < 2 ^ 32 }
        ensures told { IfOk result (λ told. told ≡ (starting self.old reference expiration numbers versioned request).told) }
        ensures client { self.new ≡ (starting self.old reference expiration numbers versioned request).client }
    {
        let happening = Happening::Began {
            reference: Snapshot::of(&reference),
            expiration,
            numbers,
            versioned,
            request: Snapshot::of(&request),
        };
        let number = self.started + 1;
        let act = self.core.start(reference, expiration);
        let is_open = self.core.is_open();
        self.started = number;
        if numbers && is_open {
            self.numbered += 1;
        }
        let call = Call {
            number,
            versioned,
            request,
        };
        let told = told_of(alloc, &call, self.core.reference(), act);
        self.call = while_open(is_open, call);
        self.history.push(Snapshot::of(&happening));
        told
    }

    /// A reply to the request with this id came at this moment. Where memory is wanted it has heard it all the
    /// same.
    pub fn hear(
        &mut self,
        alloc: Global,
        id: u32,
        heard: Heard,
        now: Tick,
    ) -> Result<Told, NoMemory>
        ensures told { IfOk result (λ told. told ≡ (hearing self.old id heard now).told) }
        ensures client { self.new ≡ (hearing self.old id heard now).client }
    {
        let happening = Happening::Heard {
            id,
            heard: Snapshot::of(&heard),
            now,
        };
        let Some(call) = self.call.take() else {
            return Ok(Told::Nothing);
        };
        let act = self.core.reply(id, heard, now);
        let told = told_of(alloc, &call, self.core.reference(), act);
        self.call = while_open(self.core.is_open(), call);
        self.history.push(Snapshot::of(&happening));
        told
    }

    /// At this moment it is known that the last attempt gets no reply: its time is over. Where memory is wanted
    /// it knows it all the same.
    pub fn fault(&mut self, alloc: Global, now: Tick) -> Result<Told, NoMemory>
        ensures told { IfOk result (λ told. told ≡ (failing self.old now).told) }
        ensures client { self.new ≡ (failing self.old now).client }
    {
        let Some(call) = self.call.take() else {
            return Ok(Told::Nothing);
        };
        let act = self.core.fault(now);
        let told = told_of(alloc, &call, self.core.reference(), act);
        self.call = while_open(self.core.is_open(), call);
        self.history.push(Snapshot::of(&Happening::Failed(now)));
        told
    }
}
