//! The object of the lock.
ghost use Rattle.std.specs.Prelude.{◌≡◌, ◌+◌, ◌≤◌, [], ◌∷◌, ◌++◌, length};
ghost use Rattle.std.specs.VecDeque.{deque_len, deque_capacity};
ghost use Rattle.ft_base.specs.Machine.{gives_of};
ghost use Rattle.group_model.specs.Agreeing.{Agrees};
ghost use Rattle.group_model.specs.Amounts.{most_sent};
ghost use Rattle.group_model.specs.Asking.{signature_asked};
ghost use Rattle.group_model.specs.Events.{shows_fault};
ghost use Rattle.group_model.specs.Plain.{Group};
ghost use Rattle.group_model.specs.Sending.{sent_by};
ghost use Rattle.group_model.specs.Steps.{IsStep};
ghost use Rattle.group_model.specs.Takers.{taker};
ghost use Rattle.group_core.specs.Cores.{Stands};
ghost use Rattle.shared_group.specs.Books.{CountsFaults, DoesFor, IsBook, IsPut, IsReady};
ghost use Rattle.shared_group.specs.Shared.{Shared, answered, shows_fault_by, version_named, view_with, without_out};

use crate::calls::{AskAnswer, Call, CallAnswer, QueuedAnswer};
use crate::traces::TracedCore;
use ft_base::{HostNo, Key, Name, Par, Servant, Stop, Tick, Version, View, gives_of};
use ft_outside::Keeper;
use group_core::{GroupCore, cores_tell, event_of};
use group_looks::{figures_of, reply_to};
use group_model::{
    Asked, Event, GroupAnswer, Out, OutList, few_are_sent, steps_go_on, takers_may_take,
    what_is_sent_agrees,
};
use hist_lock::Object;
use std::alloc::Global;
use std::collections::VecDeque;
use std::marker::Model;
use std::snapshot::Snapshot;
use sys_faults::Answer;

/// A group's core, what its events sent and nobody has brought yet, and all that it has acted.
#[derive(Drop)]
pub struct Book<S: Servant, K: Keeper> {
    traced: TracedCore<S, K>,
    queue: VecDeque<Out>,
    alloc: Global,
}

impl<S: Servant, K: Keeper> Model for Book<S, K> {
    ghost use Rattle.shared_group.specs.Books.{BookPicture};

    ghost Value = { BookPicture };

    ghost view = { λ b. record { core = b.traced.core; queue = b.queue.items; acts = b.traced.acts } };
}

/// The most that a request or a checkpoint sends: to the members of one view.
const OUT_LIMIT: usize = 16;

fn push_all(queue: &mut VecDeque<Out>, out: Vec<Out>)
    requires { deque_len queue.old + length out.items ≤ deque_capacity queue.old }
    ensures { queue.new.items ≡ queue.old.items ++ out.items }
{
    for sent in out {
        queue.push_back_reserved(sent);
    }
}

// Puts what an answer sends behind the queue, and gives the answer without it.
fn keep_out(alloc: Global, queue: &mut VecDeque<Out>, answer: GroupAnswer) -> GroupAnswer
    requires { deque_len queue.old + length (sent_by answer) ≤ deque_capacity queue.old }
    ensures queue { queue.new.items ≡ queue.old.items ++ sent_by answer }
    ensures answer { result ≡ without_out answer }
{
    let none = OutList::new(alloc);
    match answer {
        GroupAnswer::Reply {
            decision,
            answer,
            out,
        } => {
            push_all(queue, out.into_vec());
            GroupAnswer::Reply {
                decision,
                answer,
                out: none,
            }
        }
        GroupAnswer::Taken {
            from,
            position,
            out,
        } => {
            push_all(queue, out.into_vec());
            GroupAnswer::Taken {
                from,
                position,
                out: none,
            }
        }
        GroupAnswer::Changed { view, out } => {
            push_all(queue, out.into_vec());
            GroupAnswer::Changed { view, out: none }
        }
        GroupAnswer::Known(version) => GroupAnswer::Known(version),
        GroupAnswer::Applied(position) => GroupAnswer::Applied(position),
        GroupAnswer::Held(position) => GroupAnswer::Held(position),
        GroupAnswer::Ignored(cause) => GroupAnswer::Ignored(cause),
        GroupAnswer::Refused(fault) => GroupAnswer::Refused(fault),
        GroupAnswer::LogFault => GroupAnswer::LogFault,
        GroupAnswer::Down => GroupAnswer::Down,
        GroupAnswer::Up => GroupAnswer::Up,
        GroupAnswer::NoMemory => GroupAnswer::NoMemory,
    }
}

// The version to whose view an answer forwards.
fn version_named(answer: &GroupAnswer) -> Option<Version>
    ensures { result ≡ version_named answer.now }
{
    let GroupAnswer::Reply {
        answer: Some(answer),
        ..
    } = answer
    else {
        return None;
    };
    match answer {
        Answer::Done(_) | Answer::System(_) => None,
        Answer::Forward(version) | Answer::ForwardPerm(version) => Some(*version),
    }
}

impl<S: Servant + Drop, K: Keeper> Book<S, K> {
    /// A core of which nothing was asked yet.
    pub fn new(alloc: Global, core: GroupCore<S, K>) -> Book<S, K>
        requires { (g : Group) × Stands S.machine core g }
        ensures is { result ≡ record { core = core; queue = []; acts = [] } }
        ensures stands { IsBook S.machine result [] result }
    {
        Book {
            traced: TracedCore::new(core),
            queue: VecDeque::new(alloc),
            alloc,
        }
    }

    /// Its core.
    pub fn core(&self) -> &GroupCore<S, K>
        ensures { result.now ≡ self.now.core }
    {
        self.traced.core()
    }

    /// Its core, once nothing more is asked.
    pub fn into_core(self) -> GroupCore<S, K>
        ensures { result ≡ self.core }
    {
        let Book {
            traced,
            queue: _queue,
            alloc: _,
        } = self;
        traced.into_core()
    }

    // Acts an event whose Outs join the queue. Where there is no room for them, it answers NoMemory, changes nothing and
    // adds no entry.
    fn act_queued(&mut self, event: Event) -> QueuedAnswer
        requires may { (g : Group) × Stands S.machine self.old.core g × Agrees (S.machine g.common.kind) event g }
        requires few { most_sent event ≤ 16 }
        ensures acted { (g : Group) → Stands S.machine self.old.core g → Agrees (S.machine g.common.kind) event g
            → (after : Group) × IsStep (S.machine g.common.kind) g event result.whole.value after × Stands S.machine self.new.core after }
        ensures counts { CountsFaults (shows_fault result.whole.value) self.old.core.log self.new.core.log }
        ensures answer { result.answer ≡ without_out result.whole.value }
        ensures queue { self.new.queue ≡ self.old.queue ++ sent_by result.whole.value }
        ensures entry { IsPut event result.whole.value self.old self.new }
    {
        few_are_sent();
        if self.queue.reserve(OUT_LIMIT).is_err() {
            let answer = GroupAnswer::NoMemory;
            let whole = Snapshot::of(&answer);
            return QueuedAnswer { answer, whole };
        }
        let answer = self.traced.act(self.alloc, event);
        let whole = Snapshot::of(&answer);
        let answer = keep_out(self.alloc, &mut self.queue, answer);
        QueuedAnswer { answer, whole }
    }

    // What an operation gives.
    fn gives(&self, op: &Option<Name>) -> Option<Par>
        ensures { result ≡ gives_of (signature_asked (S.machine self.now.core.kind) op.now) }
    {
        match op {
            None => None,
            Some(op) => gives_of(self.traced.core().signature(op)),
        }
    }

    // The view of a version, where there is one.
    fn view(&self, version: Option<Version>) -> Option<View>
        requires { (g : Group) × Stands S.machine self.now.core g }
        ensures { (g : Group) → Stands S.machine self.now.core g → result ≡ view_with g.common version }
    {
        cores_tell();
        match version {
            None => None,
            Some(version) => match self.traced.core().view(version) {
                None => None,
                Some(view) => Some(view.copy()),
            },
        }
    }

    // The host that takes a checkpoint now.
    fn taker(&self) -> Option<HostNo>
        requires { (g : Group) × Stands S.machine self.now.core g }
        ensures { (g : Group) → Stands S.machine self.now.core g → result ≡ taker g }
    {
        self.traced.core().taker()
    }

    fn event(&mut self, event: Event) -> CallAnswer
        requires { (s : Shared) × IsReady S.machine (Call.Act event) self.old s }
        ensures done { DoesFor S.machine (Call.Act event) result self.old self.new }
        ensures counts { CountsFaults (shows_fault_by (answered result)) self.old.core.log self.new.core.log }
    {
        CallAnswer::Event(self.traced.act(self.alloc, event))
    }

    fn ask(&mut self, host: HostNo, asked: Asked) -> CallAnswer
        requires { (s : Shared) × IsReady S.machine (Call.Ask host asked) self.old s }
        ensures done { DoesFor S.machine (Call.Ask host asked) result self.old self.new }
        ensures counts { CountsFaults (shows_fault_by (answered result)) self.old.core.log self.new.core.log }
    {
        cores_tell();
        let gives = self.gives(&asked.op);
        let event = Event::Request {
            host,
            clock: Tick(0),
            asked,
            stop: Stop::Never,
        };
        let queued = self.act_queued(event);
        let view = self.view(version_named(&queued.answer));
        CallAnswer::Ask(AskAnswer {
            queued,
            gives,
            view,
        })
    }

    fn carry(&mut self) -> CallAnswer
        requires { (s : Shared) × IsReady S.machine (Call.Carry) self.old s }
        ensures done { DoesFor S.machine (Call.Carry) result self.old self.new }
        ensures counts { CountsFaults (shows_fault_by (answered result)) self.old.core.log self.new.core.log }
    {
        match self.queue.pop_front() {
            None => CallAnswer::Nothing,
            Some(out) => CallAnswer::Event(self.traced.act(self.alloc, event_of(out))),
        }
    }

    fn checkpoint(&mut self, clock: Tick) -> CallAnswer
        requires { (s : Shared) × IsReady S.machine (Call.Checkpoint clock) self.old s }
        ensures done { DoesFor S.machine (Call.Checkpoint clock) result self.old self.new }
        ensures counts { CountsFaults (shows_fault_by (answered result)) self.old.core.log self.new.core.log }
    {
        takers_may_take();
        match self.taker() {
            None => CallAnswer::Nothing,
            Some(host) => {
                CallAnswer::Checkpoint(self.act_queued(Event::Checkpoint { host, clock }))
            }
        }
    }

    fn here(&mut self, host: HostNo) -> CallAnswer
        requires { (s : Shared) × IsReady S.machine (Call.Here host) self.old s }
        ensures done { DoesFor S.machine (Call.Here host) result self.old self.new }
        ensures counts { CountsFaults (shows_fault_by (answered result)) self.old.core.log self.new.core.log }
    {
        CallAnswer::Here(self.traced.core().is_here(host))
    }

    fn figures(&mut self) -> CallAnswer
        requires { (s : Shared) × IsReady S.machine (Call.Figures) self.old s }
        ensures done { DoesFor S.machine (Call.Figures) result self.old self.new }
        ensures counts { CountsFaults (shows_fault_by (answered result)) self.old.core.log self.new.core.log }
    {
        CallAnswer::Figures(figures_of(self.alloc, self.traced.core()))
    }

    fn reply(&mut self, key: Key) -> CallAnswer
        requires { (s : Shared) × IsReady S.machine (Call.Reply key) self.old s }
        ensures done { DoesFor S.machine (Call.Reply key) result self.old self.new }
        ensures counts { CountsFaults (shows_fault_by (answered result)) self.old.core.log self.new.core.log }
    {
        CallAnswer::Reply(reply_to(self.alloc, self.traced.core(), key))
    }
}

impl<S: Servant + Drop, K: Keeper> Object for Book<S, K> {
    ghost use Rattle.shared_group.specs.Books.{IsBook, MayCall};

    type Event = Call;

    type Answer = CallAnswer;

    ghost stands = { λ first past now. IsBook S.machine first past now };

    ghost may = { λ first past call. MayCall S.machine first past call };

    fn act(&mut self, event: Call) -> CallAnswer {
        steps_go_on();
        what_is_sent_agrees();
        match event {
            Call::Act(event) => self.event(event),
            Call::Ask { host, asked } => self.ask(host, asked),
            Call::Carry => self.carry(),
            Call::Checkpoint { clock } => self.checkpoint(clock),
            Call::Here { host } => self.here(host),
            Call::Figures => self.figures(),
            Call::Reply { key } => self.reply(key),
        }
    }

    fn lasts() {
        steps_go_on();
    }
}
