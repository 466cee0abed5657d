//! A host's part in its group.
ghost use Rattle.std.specs.Prelude.{◌≡◌, ◌+◌, ◌≤◌, ℕ, Some, None, [], true, IfOk, OnOk, OnErr, option_copied, if◌then◌else◌};
ghost use Rattle.ft_base.specs.declared.numbers.HostNo.{HostNo as Numbered};
ghost use Rattle.ft_base.specs.declared.views.Style.{Style as AnyStyle};
ghost use Rattle.group_model.specs.declared.events.Event.TheVariants as events;
ghost use Rattle.group_model.specs.Agreeing.{IsBrought, IsShortAsked};
ghost use Rattle.group_model.specs.Openings.{opening_host, opens_loaded};
ghost use Rattle.group_model.specs.Plain.{Common, Host, Group, blank};
ghost use Rattle.group_model.specs.Serving.{calls_behind};
ghost use Rattle.active_sequencer.specs.Orders.{answer_of};
ghost use Rattle.active_sequencer.specs.Sequences.{replied_as};
ghost use Rattle.group_hosts.specs.Answers.{context_told, given_told};
ghost use Rattle.group_hosts.specs.Asking.{settled, entered_told};
ghost use Rattle.group_hosts.specs.Hosts.{Shared, IsHere, shared, opening_picture, opening_replica, forgotten};
ghost use Rattle.group_hosts.specs.Keeping.{IsQuiet, WroteFor};
ghost use Rattle.group_hosts.specs.Taking.{IsReady, IsUnready};
ghost use Rattle.group_hosts.specs.Turning.{IsTurn, seen};

use crate::entering::{Entered, catch_up_here, enter};
use crate::founding::{Founding, Progress};
use crate::taking::{take_changes, take_checkpoint};
use active_sequencer::{Holdback, Ordered, order};
use checkpoint_transfer::{Given, give_state, give_update};
use decision_table::{Passed, known_then, pass};
use failover_engine::take_view;
use ft_base::{
    Bytes, Decision, HostNo, Ignored, NoMemory, Request, Servant, Steps, Style, Tick, Version, View,
};
use ft_outside::Keeper;
use ft_replica::Replica;
use group_model::{Asked, GroupAnswer, OutList};
use group_stands::{holdbacks_go_on, logs_tell, replicas_go_on};
use message_log::Log;
use passive_dispatch::{Arrival, Replied};
use std::alloc::Global;
use std::marker::Model;
use std::sync::ledger::Ledger;
use sys_faults::{Answer, Completed, SysFault, SysKind};

/// A host's part in a group: whether it is up, the newest view of which it heard, and how far it has come.
#[derive(Drop)]
pub struct GroupHost<S: Servant> {
    up: bool,
    known: Version,
    progress: Progress<S>,
}

impl<S: Servant> Model for GroupHost<S> {
    ghost use Rattle.group_hosts.specs.Hosts.{HostPicture};

    ghost Value = { HostPicture };

    ghost view = { λ h. record { up = h.up; known = h.known.0; replica = h.progress.replica; held = h.progress.holdback } };
}

/// What a request came to, as the group's answer.
fn replied_as(replied: Replied) -> GroupAnswer
    ensures { result ≡ replied_as replied }
{
    let Replied {
        decision,
        answer,
        out,
    } = replied;
    GroupAnswer::Reply {
        decision,
        answer,
        out,
    }
}

/// A request is decided so, and nothing is sent.
fn told(alloc: Global, decision: Decision, answer: Answer) -> GroupAnswer
    ensures { result ≡ GroupAnswer.Reply decision (Some answer) [] }
{
    GroupAnswer::Reply {
        decision,
        answer: Some(answer),
        out: OutList::new(alloc),
    }
}

/// A request with a context that stands twice or can't be read.
fn bad_context(alloc: Global, id: u32) -> GroupAnswer
    ensures { result ≡ context_told id }
{
    let answer = Answer::System(SysFault {
        kind: SysKind::BadContext,
        minor: 3,
        completed: Completed::No,
    });
    told(alloc, Decision::Context(id), answer)
}

/// What is answered of an order at a host whose servant was loaded, or wasn't.
fn order_told(loaded: bool, index: u32, ordered: Ordered) -> GroupAnswer
    ensures told { result ≡ answer_of loaded index ordered }
    ensures quiet { IsQuiet result }
{
    match ordered {
        Ordered::Applied(position) => GroupAnswer::Applied(position),
        Ordered::Held(position) => GroupAnswer::Held(position),
        Ordered::Ignored(at) => {
            if loaded {
                GroupAnswer::Ignored(Ignored::Order { index, at })
            } else {
                GroupAnswer::Ignored(Ignored::NotLoaded)
            }
        }
        Ordered::NoMemory => GroupAnswer::NoMemory,
    }
}

/// What is answered of a state or an update.
fn given_told(given: Given) -> GroupAnswer
    ensures told { result ≡ given_told given }
    ensures quiet { IsQuiet result }
{
    match given {
        Given::Applied(position) => GroupAnswer::Applied(position),
        Given::Ignored(cause) => GroupAnswer::Ignored(cause),
        Given::NoMemory => GroupAnswer::NoMemory,
    }
}

/// Whether a host has the opening state from the start.
fn opens_loaded(style: Style, view: &View, host: HostNo) -> bool
    ensures { result ≡ opens_loaded style view.now host.0 }
{
    match style {
        Style::Cold => view.is_led_by(host),
        Style::Warm | Style::Active => view.members.has(host),
    }
}

/// A replica with the opening state, or a blank one.
fn opening_replica<S: Servant + Drop>(
    alloc: Global,
    opening: &S,
    loaded: bool,
) -> Result<Replica<S>, NoMemory>
    ensures { IfOk result (λ replica. replica ≡ opening_replica (S.kind opening.now) (S.state opening.now) loaded) }
{
    let servant = opening.copy(alloc)?;
    let mut replica = Replica::new(alloc, servant)?;
    if loaded {
        return Ok(replica);
    }
    replica.blank();
    Ok(replica)
}

/// What a host knows as a group opens.
fn opening_version(is_member: bool) -> Version
    ensures { result.0 ≡ (if is_member then 1 else 0) }
{
    if is_member { Version(1) } else { Version(0) }
}

impl<S: Servant + Drop> GroupHost<S> {
    /// A host as a group opens with a first view: its members know that view; in a cold group the
    /// primary has the opening state, and else each member.
    pub fn opening(
        alloc: Global,
        founding: &Founding<S>,
        view: &View,
        host: HostNo,
    ) -> Result<GroupHost<S>, NoMemory>
        ensures { IfOk result (λ it. it ≡ opening_picture (S.kind founding.now.opening) (S.state founding.now.opening) (opening_host founding.now.style view.now host.0)) }
    {
        let is_member = view.members.has(host);
        let loaded = is_member && opens_loaded(founding.style, view, host);
        let replica = opening_replica(alloc, &founding.opening, loaded)?;
        Ok(GroupHost {
            up: true,
            known: opening_version(is_member),
            progress: Progress {
                replica,
                holdback: Holdback::new(alloc),
            },
        })
    }

    /// A host of a group whose log was opened again: it is up, and knows nothing.
    pub fn blank(alloc: Global, founding: &Founding<S>) -> Result<GroupHost<S>, NoMemory>
        ensures { IfOk result (λ it. it ≡ opening_picture (S.kind founding.now.opening) (S.state founding.now.opening) (blank true)) }
    {
        let replica = opening_replica(alloc, &founding.opening, false)?;
        Ok(GroupHost {
            up: true,
            known: Version(0),
            progress: Progress {
                replica,
                holdback: Holdback::new(alloc),
            },
        })
    }

    /// Whether the host is up.
    pub fn is_up(&self) -> bool
        ensures { result ≡ self.now.up }
    {
        self.up
    }

    /// The version of the newest view of which it heard, or 0.
    pub fn known(&self) -> Version
        ensures { result.0 ≡ self.now.known }
    {
        self.known
    }

    /// Its replica, where it is loaded.
    pub fn replica(&self) -> Option<&Replica<S>>
        ensures { option_copied result ≡ (if self.now.replica.loaded then Some self.now.replica else None) }
    {
        if self.progress.replica.is_loaded() {
            Some(&self.progress.replica)
        } else {
            None
        }
    }

    /// The host forgets everything, and is up or down.
    fn forget(&mut self, up: bool)
        ensures { self.new ≡ forgotten up self.old }
    {
        self.up = up;
        self.known = Version(0);
        self.progress.replica.blank();
        self.progress.holdback.clear();
    }

    /// The host stops.
    pub(crate) fn crash(&mut self) -> GroupAnswer
        ensures turn { (g : Group) (s : Shared) (host : Numbered) (steps : ℕ) → IsHere S.machine g.common (g.hosts host.0) s self.old →
            IsTurn S.machine g (events.Crash host) result steps (seen s.log self.new steps) }
        ensures quiet { IsQuiet result }
    {
        replicas_go_on();
        holdbacks_go_on();
        self.forget(false);
        GroupAnswer::Down
    }

    /// The host starts again.
    pub(crate) fn restart(&mut self) -> GroupAnswer
        ensures turn { (g : Group) (s : Shared) (host : Numbered) (steps : ℕ) → IsHere S.machine g.common (g.hosts host.0) s self.old →
            IsTurn S.machine g (events.Restart host) result steps (seen s.log self.new steps) }
        ensures quiet { IsQuiet result }
    {
        self.up = true;
        GroupAnswer::Up
    }

    /// The host hears of a view.
    pub(crate) fn hear_view(&mut self, sent: Version) -> GroupAnswer
        ensures turn { (g : Group) (s : Shared) (host : Numbered) (steps : ℕ) → IsHere S.machine g.common (g.hosts host.0) s self.old →
            IsTurn S.machine g (events.View host sent) result steps (seen s.log self.new steps) }
        ensures quiet { IsQuiet result }
    {
        if !self.up {
            return GroupAnswer::Down;
        }
        match take_view(self.known, sent) {
            Some(version) => {
                self.known = version;
                GroupAnswer::Known(version)
            }
            None => GroupAnswer::Ignored(Ignored::Known {
                sent,
                known: self.known,
            }),
        }
    }

    /// The host is given a state.
    pub(crate) fn hear_state(&mut self, alloc: Global, position: u32, state: &Bytes) -> GroupAnswer
        requires { (g : Group) × (s : Shared) × (host : Numbered) × IsHere S.machine g.common (g.hosts host.0) s self.old × IsBrought (S.machine g.common.kind) g (events.State host position state.now) }
        ensures turn { (g : Group) (s : Shared) (host : Numbered) (steps : ℕ) → IsHere S.machine g.common (g.hosts host.0) s self.old → IsBrought (S.machine g.common.kind) g (events.State host position state.now) →
            IsTurn S.machine g (events.State host position state.now) result steps (seen s.log self.new steps) }
        ensures quiet { IsQuiet result }
    {
        holdbacks_go_on();
        if !self.up {
            return GroupAnswer::Down;
        }
        let given = give_state(alloc, &mut self.progress.replica, position, state);
        given_told(given)
    }

    /// The host is given an update.
    pub(crate) fn hear_update(
        &mut self,
        alloc: Global,
        from: u32,
        to: u32,
        update: &Bytes,
    ) -> GroupAnswer
        requires { (g : Group) × (s : Shared) × (host : Numbered) × IsHere S.machine g.common (g.hosts host.0) s self.old × IsBrought (S.machine g.common.kind) g (events.Update host from to update.now) }
        ensures turn { (g : Group) (s : Shared) (host : Numbered) (steps : ℕ) → IsHere S.machine g.common (g.hosts host.0) s self.old → IsBrought (S.machine g.common.kind) g (events.Update host from to update.now) →
            IsTurn S.machine g (events.Update host from to update.now) result steps (seen s.log self.new steps) }
        ensures quiet { IsQuiet result }
    {
        holdbacks_go_on();
        if !self.up {
            return GroupAnswer::Down;
        }
        let given = give_update(alloc, &mut self.progress.replica, from, to, update);
        given_told(given)
    }

    /// The host is sent an order.
    pub(crate) fn hear_order<L: Ledger>(
        &mut self,
        alloc: Global,
        index: u32,
        request: Request,
        steps: &mut Steps<L>,
    ) -> GroupAnswer
        requires { (g : Group) × (s : Shared) × (host : Numbered) × IsHere S.machine g.common (g.hosts host.0) s self.old × IsBrought (S.machine g.common.kind) g (events.Order host index request) }
        ensures turn { (g : Group) (s : Shared) (host : Numbered) → IsHere S.machine g.common (g.hosts host.0) s self.old → IsBrought (S.machine g.common.kind) g (events.Order host index request) →
            IsTurn S.machine g (events.Order host index request) result steps.old (seen s.log self.new steps.new) }
        ensures quiet { IsQuiet result }
    {
        holdbacks_go_on();
        if !self.up {
            return GroupAnswer::Down;
        }
        let progress = &mut self.progress;
        let loaded = progress.replica.is_loaded();
        let ordered = order(
            alloc,
            &mut progress.holdback,
            &mut progress.replica,
            index,
            request,
            steps,
        );
        order_told(loaded, index, ordered)
    }

    /// What came of a request that no row before the journal refused, and what is answered.
    fn settle(&mut self, entered: Entered) -> GroupAnswer
        ensures host { self.new ≡ settled entered self.old }
        ensures told { result ≡ entered_told entered }
    {
        match entered {
            Entered::Done(replied) => {
                if replied.answer.is_none() {
                    self.forget(false);
                }
                replied_as(replied)
            }
            Entered::Short => GroupAnswer::NoMemory,
            Entered::Unrun => {
                self.forget(true);
                GroupAnswer::NoMemory
            }
        }
    }

    /// The host is asked; it may stop in the middle of the request.
    pub(crate) fn ask<K: Keeper, L: Ledger>(
        &mut self,
        alloc: Global,
        founding: &Founding<S>,
        log: &mut Log<K>,
        arrival: Arrival,
        asked: Asked,
        steps: &mut Steps<L>,
    ) -> GroupAnswer
        requires { (g : Group) × IsHere S.machine g.common (g.hosts arrival.host.0) (shared founding.now.style (S.kind founding.now.opening) (S.state founding.now.opening) log.old) self.old × IsShortAsked asked }
        ensures turn { (g : Group) → IsHere S.machine g.common (g.hosts arrival.host.0) (shared founding.now.style (S.kind founding.now.opening) (S.state founding.now.opening) log.old) self.old → IsShortAsked asked →
            IsTurn S.machine g (events.Request arrival.host arrival.clock asked arrival.stop) result steps.old (seen log.new self.new steps.new) }
        ensures wrote { WroteFor (events.Request arrival.host arrival.clock asked arrival.stop) result log.old log.new }
    {
        logs_tell();
        replicas_go_on();
        holdbacks_go_on();
        if !self.up {
            return GroupAnswer::Down;
        }
        if let Some(id) = asked.bad_context {
            return bad_context(alloc, id);
        }
        let known = known_then(log.newest().version, self.known, asked.version);
        let Founding { style, opening } = founding;
        match pass(alloc, log, *style, opening, arrival.host, known, asked) {
            Passed::NoMemory => GroupAnswer::NoMemory,
            Passed::Refused(refusal) => {
                self.known = refusal.known;
                told(alloc, refusal.decision, refusal.answer)
            }
            Passed::Request(request) => {
                self.known = known;
                let progress = &mut self.progress;
                let entered = enter(alloc, founding, log, progress, arrival, request, steps);
                self.settle(entered)
            }
        }
    }

    /// The host learns of the newest view, and catches up.
    fn prepare<K: Keeper, L: Ledger>(
        &mut self,
        alloc: Global,
        log: &mut Log<K>,
        opening: &S,
        steps: &mut Steps<L>,
    ) -> Result<(), NoMemory>
        requires { (c : Common) × (h : Host) × (style : AnyStyle) × IsHere S.machine c h (shared style (S.kind opening.now) (S.state opening.now) log.old) self.old }
        ensures ready { OnOk result ((c : Common) (h : Host) (style : AnyStyle) → IsHere S.machine c h (shared style (S.kind opening.now) (S.state opening.now) log.old) self.old →
            IsReady S.machine c h log.new self.new × (steps.new ≡ steps.old + calls_behind c h)) }
        ensures stopped { OnErr result ((c : Common) (h : Host) (style : AnyStyle) → IsHere S.machine c h (shared style (S.kind opening.now) (S.state opening.now) log.old) self.old →
            IsUnready S.machine c h log.new self.new × (steps.new ≤ steps.old + calls_behind c h)) }
        ensures rest { log.new ≡ record log.old { table = log.new.table } }
    {
        logs_tell();
        self.known = log.newest().version;
        let progress = &mut self.progress;
        if let Err(NoMemory) = catch_up_here(alloc, log, progress, opening, steps) {
            return Err(NoMemory);
        }
        Ok(())
    }

    /// The host takes a checkpoint.
    pub(crate) fn checkpoint<K: Keeper, L: Ledger>(
        &mut self,
        alloc: Global,
        founding: &Founding<S>,
        log: &mut Log<K>,
        host: HostNo,
        clock: Tick,
        steps: &mut Steps<L>,
    ) -> GroupAnswer
        requires { (g : Group) × IsHere S.machine g.common (g.hosts host.0) (shared founding.now.style (S.kind founding.now.opening) (S.state founding.now.opening) log.old) self.old }
        ensures turn { (g : Group) → IsHere S.machine g.common (g.hosts host.0) (shared founding.now.style (S.kind founding.now.opening) (S.state founding.now.opening) log.old) self.old →
            IsTurn S.machine g (events.Checkpoint host clock) result steps.old (seen log.new self.new steps.new) }
        ensures wrote { WroteFor (events.Checkpoint host clock) result log.old log.new }
    {
        if !self.up {
            return GroupAnswer::Down;
        }
        if let Err(NoMemory) = self.prepare(alloc, log, &founding.opening, steps) {
            return GroupAnswer::NoMemory;
        }
        let replica = &mut self.progress.replica;
        take_checkpoint(alloc, founding.style, log, replica, host, clock)
    }

    /// The host sends the other members of a warm group an update.
    pub(crate) fn send_update<K: Keeper, L: Ledger>(
        &mut self,
        alloc: Global,
        log: &mut Log<K>,
        opening: &S,
        host: HostNo,
        steps: &mut Steps<L>,
    ) -> GroupAnswer
        requires { (g : Group) × (style : AnyStyle) × IsHere S.machine g.common (g.hosts host.0) (shared style (S.kind opening.now) (S.state opening.now) log.old) self.old }
        ensures turn { (g : Group) (style : AnyStyle) → IsHere S.machine g.common (g.hosts host.0) (shared style (S.kind opening.now) (S.state opening.now) log.old) self.old →
            IsTurn S.machine g (events.SendUpdate host) result steps.old (seen log.new self.new steps.new) }
        ensures wrote { WroteFor (events.SendUpdate host) result log.old log.new }
    {
        if !self.up {
            return GroupAnswer::Down;
        }
        if let Err(NoMemory) = self.prepare(alloc, log, opening, steps) {
            return GroupAnswer::NoMemory;
        }
        take_changes(alloc, log, &mut self.progress.replica, host)
    }
}
