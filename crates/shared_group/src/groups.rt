//! A group behind a lock.
ghost use Rattle.std.specs.Prelude.{◌≡◌, ◌<◌, ◌≤◌, [], length, IfOk, OnErr};
ghost use Rattle.std.specs.List.{AllByRecursion};
ghost use Rattle.ft_base.specs.declared.limits.TheConstants.{HOST_LIMIT};
ghost use Rattle.hist_lock.specs.Histories.{calls};
ghost use Rattle.hist_lock.specs.Passes.{IsOf, IsJoin, first_pass, IsDivisible, parent_after, child_of, after_note, note_of, own_turns};
ghost use Rattle.iogr_reference.specs.Views.{reference_of};
ghost use Rattle.group_model.specs.Agreeing.{IsShortAsked};
ghost use Rattle.group_model.specs.Plain.{Group};
ghost use Rattle.group_core.specs.Cores.{Stands};
ghost use Rattle.shared_group.specs.Books.{MayCall};
ghost use Rattle.shared_group.specs.Turns.{AreFiguresOf, IsAsk, IsCarry, IsCheckpoint, IsEvent, IsGroupHistory, IsHere, IsReplyOf, IsTaken, IsWhole, carry_told, checkpoint_told};

use crate::books::Book;
use crate::calls::{AskAnswer, Call, CallAnswer, QueuedAnswer};
use ft_base::{GroupId, HostNo, Key, Name, NoMemory, Outcome, Servant, Tick, View};
use ft_outside::Keeper;
use group_core::GroupCore;
use group_looks::Figures;
use group_model::{Asked, Event, GroupAnswer};
use hist_lock::HistLock;
use iogr_reference::{Ior, Ports, ref_of};
use std::alloc::Global;
use std::marker::Model;
use std::sync::Wait;

/// What one caller has seen of a group behind its lock.
pub type Pass<S, K> = hist_lock::Pass<Book<S, K>>;

/// What a pass had seen.
pub type Note<S, K> = hist_lock::Note<Book<S, K>>;

/// A group behind a lock, as threads share it. Each has a pass of its own, by which it takes turns.
///
/// What is told in a turn is what one group gives at that place of one history. A call under `Wait` keeps its promise if it
/// returns; nothing is promised of progress, of fairness, or of the order of two calls whose passes never met.
#[derive(Drop)]
pub struct SharedGroup<S: Servant + Drop, K: Keeper> {
    lock: HistLock<Book<S, K>>,
    group: GroupId,
    type_id: Name,
    ports: Ports,
}

impl<S: Servant + Drop, K: Keeper> Model for SharedGroup<S, K> {
    ghost use Rattle.shared_group.specs.Turns.{SharedValue};

    ghost Value = { SharedValue };

    ghost view = { λ s. record { lock = s.lock; group = s.group; type_id = s.type_id; ports = s.ports } };

    ghost use Rattle.std.specs.Prelude.{◌≤◌, length};
    ghost use Rattle.ft_base.specs.declared.limits.TheConstants.{HOST_LIMIT};

    ghost invariant = { λ s. HOST_LIMIT ≤ length s.ports };
}

fn event_told(answer: CallAnswer) -> GroupAnswer
    requires { IsEvent answer }
    ensures { answer ≡ CallAnswer.Event result }
{
    match answer {
        CallAnswer::Event(of) => of,
        _ => unreachable!(),
    }
}

fn ask_told(answer: CallAnswer) -> AskAnswer
    requires { IsAsk answer }
    ensures { answer ≡ CallAnswer.Ask result }
{
    match answer {
        CallAnswer::Ask(of) => of,
        _ => unreachable!(),
    }
}

fn carry_told(answer: CallAnswer) -> Option<GroupAnswer>
    requires { IsCarry answer }
    ensures { answer ≡ carry_told result }
{
    match answer {
        CallAnswer::Event(of) => Some(of),
        CallAnswer::Nothing => None,
        _ => unreachable!(),
    }
}

fn checkpoint_told(answer: CallAnswer) -> Option<QueuedAnswer>
    requires { IsCheckpoint answer }
    ensures { answer ≡ checkpoint_told result }
{
    match answer {
        CallAnswer::Checkpoint(of) => Some(of),
        CallAnswer::Nothing => None,
        _ => unreachable!(),
    }
}

fn here_told(answer: CallAnswer) -> bool
    requires { IsHere answer }
    ensures { answer ≡ CallAnswer.Here result }
{
    match answer {
        CallAnswer::Here(here) => here,
        _ => unreachable!(),
    }
}

fn figures_told(answer: CallAnswer) -> Result<Figures, NoMemory>
    requires { AreFiguresOf answer }
    ensures { answer ≡ CallAnswer.Figures result }
{
    match answer {
        CallAnswer::Figures(of) => of,
        _ => unreachable!(),
    }
}

fn reply_told(answer: CallAnswer) -> Result<Option<Outcome>, NoMemory>
    requires { IsReplyOf answer }
    ensures { answer ≡ CallAnswer.Reply result }
{
    match answer {
        CallAnswer::Reply(of) => of,
        _ => unreachable!(),
    }
}

impl<S: Servant + Drop, K: Keeper + Drop> SharedGroup<S, K> {
    /// The group of a core behind a lock, with an empty history; and the first pass. Its references have this type id, and
    /// these ports, by the hosts' numbers.
    pub fn new(
        alloc: Global,
        core: GroupCore<S, K>,
        type_id: Name,
        ports: Ports,
    ) -> Result<(SharedGroup<S, K>, Pass<S, K>), NoMemory>
        requires stands { (g : Group) × Stands S.machine core g }
        requires ports { HOST_LIMIT ≤ length ports }
        ensures opening { IfOk result (λ made. made.0.lock.opening ≡ record { core = core; queue = []; acts = [] }) }
        ensures references { IfOk result (λ made. (made.0.group.0 ≡ core.id) × (made.0.type_id ≡ type_id) × (made.0.ports ≡ ports)) }
        ensures pass { IfOk result (λ made. made.1 ≡ first_pass made.0.lock) }
    {
        let group = core.group();
        let book = Book::new(alloc, core);
        let (lock, pass) = match HistLock::new(alloc, book) {
            Ok(made) => made,
            Err(_) => return Err(NoMemory),
        };
        let shared = SharedGroup {
            lock,
            group,
            type_id,
            ports,
        };
        Ok((shared, pass))
    }

    // Waits for a turn, and makes the call in it.
    fn take<R: Wait>(&self, rt: &R, pass: &mut Pass<S, K>, call: Call) -> CallAnswer
        requires own { IsOf self.now.lock pass.old }
        requires may { MayCall S.machine self.now.lock.opening (calls pass.old.seen) call }
        ensures { IsTaken S.machine self.now.lock pass.old call result pass.new }
    {
        self.lock.turn(rt, pass, call)
    }

    /// Acts an event that goes on agreeing with the group: it agrees with each group to which what the pass has seen may lead.
    /// What it sends is the caller's, who brings it as events of its own.
    pub fn event<R: Wait>(&self, rt: &R, pass: &mut Pass<S, K>, event: Event) -> GroupAnswer
        requires own { IsOf self.now.lock pass.old }
        requires may { MayCall S.machine self.now.lock.opening (calls pass.old.seen) (Call.Act event) }
        ensures { IsTaken S.machine self.now.lock pass.old (Call.Act event) (CallAnswer.Event result) pass.new }
    {
        event_told(self.take(rt, pass, Call::Act(event)))
    }

    /// A request comes to a host, with clock 0 and no stop. What it sends joins the queue. It may come whatever was seen.
    pub fn ask<R: Wait>(
        &self,
        rt: &R,
        pass: &mut Pass<S, K>,
        host: HostNo,
        asked: Asked,
    ) -> AskAnswer
        requires own { IsOf self.now.lock pass.old }
        requires host { host.0 < HOST_LIMIT }
        requires short { IsShortAsked asked }
        ensures { IsTaken S.machine self.now.lock pass.old (Call.Ask host asked) (CallAnswer.Ask result) pass.new }
    {
        ask_told(self.take(rt, pass, Call::Ask { host, asked }))
    }

    /// The first of the queue arrives. None comes exactly where the queue is empty. Where memory is wanted it is lost.
    pub fn carry<R: Wait>(&self, rt: &R, pass: &mut Pass<S, K>) -> Option<GroupAnswer>
        requires { IsOf self.now.lock pass.old }
        ensures { IsTaken S.machine self.now.lock pass.old (Call.Carry) (carry_told result) pass.new }
    {
        carry_told(self.take(rt, pass, Call::Carry))
    }

    /// The host whose part it is takes a checkpoint, by this clock. What it sends joins the queue. None comes exactly where
    /// there is no such host, or it is down.
    pub fn checkpoint<R: Wait>(
        &self,
        rt: &R,
        pass: &mut Pass<S, K>,
        clock: Tick,
    ) -> Option<QueuedAnswer>
        requires { IsOf self.now.lock pass.old }
        ensures { IsTaken S.machine self.now.lock pass.old (Call.Checkpoint clock) (checkpoint_told result) pass.new }
    {
        checkpoint_told(self.take(rt, pass, Call::Checkpoint { clock }))
    }

    /// Whether a host is up, and a member of the view that it knows. A look.
    pub fn here<R: Wait>(&self, rt: &R, pass: &mut Pass<S, K>, host: HostNo) -> bool
        requires own { IsOf self.now.lock pass.old }
        requires host { host.0 < HOST_LIMIT }
        ensures { IsTaken S.machine self.now.lock pass.old (Call.Here host) (CallAnswer.Here result) pass.new }
    {
        here_told(self.take(rt, pass, Call::Here { host }))
    }

    /// What the group is like. A look.
    pub fn figures<R: Wait>(&self, rt: &R, pass: &mut Pass<S, K>) -> Result<Figures, NoMemory>
        requires { IsOf self.now.lock pass.old }
        ensures { IsTaken S.machine self.now.lock pass.old (Call.Figures) (CallAnswer.Figures result) pass.new }
    {
        figures_told(self.take(rt, pass, Call::Figures))
    }

    /// The reply of the entry that holds this key's retention id at the group's time. None comes exactly where there is no
    /// such entry, or no host has run it. A look.
    pub fn replied<R: Wait>(
        &self,
        rt: &R,
        pass: &mut Pass<S, K>,
        key: Key,
    ) -> Result<Option<Outcome>, NoMemory>
        requires { IsOf self.now.lock pass.old }
        ensures { IsTaken S.machine self.now.lock pass.old (Call.Reply key) (CallAnswer.Reply result) pass.new }
    {
        reply_told(self.take(rt, pass, Call::Reply { key }))
    }

    /// A second pass, which has seen as much and has had no turn, under a number of its own. No memory is taken: an error
    /// comes where the pass's parts are spent, after some 2.8 million splits.
    pub fn split(&self, pass: &mut Pass<S, K>) -> Result<Pass<S, K>, NoMemory>
        requires own { IsOf self.now.lock pass.old }
        ensures own { IsOf self.now.lock pass.new × IfOk result (IsOf self.now.lock) }
        ensures ok { IfOk result (λ child. IsDivisible pass.old × (pass.new ≡ parent_after pass.old) × (child ≡ child_of pass.old)) }
        ensures no_turns { IfOk result (λ child. own_turns child ≡ []) }
        ensures spent { OnErr result (¬ (IsDivisible pass.old) × (pass.new ≡ pass.old)) }
    {
        match self.lock.split(pass) {
            Ok(child) => Ok(child),
            Err(_) => Err(NoMemory),
        }
    }

    /// Takes in a pass, which is gone then, and sees the history since. The turns of the gone pass stay under its number.
    pub fn join(&self, into: &mut Pass<S, K>, gone: Pass<S, K>)
        requires own { IsOf self.now.lock into.old × IsOf self.now.lock gone }
        ensures own { IsOf self.now.lock into.new }
        ensures joined { IsJoin into.old gone into.new }
        ensures legal { IsGroupHistory S.machine self.now.lock into.new.seen }
    {
        self.lock.join(into, gone);
    }

    /// What the pass has seen so far, to be told to another pass.
    pub fn note(&self, pass: &mut Pass<S, K>) -> Note<S, K>
        requires own { IsOf self.now.lock pass.old }
        ensures own { IsOf self.now.lock pass.new × IsOf self.now.lock result }
        ensures note { (pass.new ≡ after_note pass.old) × (result ≡ note_of pass.old) }
    {
        self.lock.note(pass)
    }

    /// Sees the history since, which begins with what the pass and the note had seen.
    pub fn meet(&self, pass: &mut Pass<S, K>, note: Note<S, K>)
        requires own { IsOf self.now.lock pass.old × IsOf self.now.lock note }
        ensures own { IsOf self.now.lock pass.new }
        ensures met { IsJoin pass.old note pass.new }
        ensures legal { IsGroupHistory S.machine self.now.lock pass.new.seen }
    {
        self.lock.meet(pass, note);
    }

    /// Waits for a turn that it doesn't end, and gives the book to which the whole history leads.
    pub fn close<R: Wait>(self, rt: &R, pass: Pass<S, K>) -> Book<S, K>
        requires own { IsOf self.lock pass }
        ensures { IsWhole S.machine self.lock pass result }
    {
        let SharedGroup {
            lock,
            group: _,
            type_id: _type_id,
            ports: _ports,
        } = self;
        lock.close(rt, pass)
    }

    /// The group's number.
    pub fn group(&self) -> GroupId
        ensures { result ≡ self.now.group }
    {
        self.group
    }

    /// The type id of its references.
    pub fn type_id(&self) -> &Name
        ensures { result.now ≡ self.now.type_id }
    {
        &self.type_id
    }

    /// The reference of a view of the group.
    pub fn reference(&self, alloc: Global, view: &View) -> Result<Ior, NoMemory>
        requires { AllByRecursion (λ host. host < HOST_LIMIT) view.now.members }
        ensures { IfOk result (λ reference. reference ≡ reference_of self.now.group self.now.type_id view.now self.now.ports) }
    {
        ref_of(alloc, self.group, &self.type_id, view, &self.ports)
    }
}
