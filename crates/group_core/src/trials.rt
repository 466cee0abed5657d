//! A group in the tests: its core, what its last event sent, and what is told of its events.
ghost use Rattle.std.specs.Prelude.{◌≡◌, ◌<◌, ◌∷◌, [], false, IfOk, OnOk};
ghost use Rattle.std.specs.List.{AllByRecursion};
ghost use Rattle.group_core.specs.Running.{is_short};
ghost use Rattle.group_core.specs.Trying.{IsSome, MayCome};

use crate::{GroupCore, cores_may_go_on};
use cdr_codec::{Order, Raw};
use ft_base::{
    Bytes, Decision, GroupId, HostNo, Key, Members, Name, NoMemory, Outcome, Retention, Servant,
    Steps, Stop, Style, Tick, Version,
};
use ft_outside::MemKeeper;
use group_hosts::is_warm;
use group_model::{Asked, Event, GroupAnswer, Inner, Out, OutList};
use group_stands::logs_tell;
use message_log::Log;
use std::alloc::Global;
use std::sync::ledger::Ledger;
use sys_faults::{Answer, Completed, SysKind};

/// A group's core, and what its last event sent.
#[derive(Drop)]
pub struct Trial<S: Servant> {
    pub core: GroupCore<S, MemKeeper>,
    pub sent: OutList,
}

/// What happens, or what is looked at.
#[derive(Clone, Copy)]
pub enum Step {
    /// ann asks a host: the retention id of her key, or 0 for none; what she deposits, or 0 for the balance.
    Ask(u8, i32, u8),
    /// The primary takes a checkpoint.
    Checkpoint,
    /// The primary sends an update.
    SendUpdate,
    /// The log's next write fails.
    Fail,
    /// The position and the balance of a host.
    Look(u8),
    /// How many entries the newest checkpoint covers.
    Mark,
    /// What the last event sent: how many messages, and a number that is the same in each.
    Sent,
}

// what is told: a word, and two numbers that go with it
pub type Told = (&'static str, u64, u64);

/// The last byte of a value, or the minor code of a system exception.
fn worth(answer: &Answer) -> u64 {
    match answer {
        Answer::Done(Outcome::Value(value)) => last_of(value.bytes()),
        Answer::System(fault) => u64::from(fault.minor),
        _ => 0,
    }
}

fn last_of(bytes: &[u8]) -> u64 {
    match bytes {
        [.., last] => u64::from(*last),
        [] => 0,
    }
}

/// The exception that is answered, of those in these tests, and of the system's whether it leaves open what was done.
fn thrown(answer: &Answer) -> Option<&'static str> {
    match answer {
        Answer::Done(Outcome::User(name)) if name.bytes() == b"BadKey".as_slice() => Some("BadKey"),
        Answer::System(fault)
            if matches!(fault.kind, SysKind::PersistStore) && fault.completed == Completed::Maybe =>
            { Some("PERSIST_STORE maybe") }
        _ => None,
    }
}

fn decided(decision: Decision, value: u64) -> Told {
    match decision {
        Decision::Append(at) => ("append", u64::from(at), value),
        Decision::Repeat(at) => ("repeat", u64::from(at), value),
        Decision::Long(count) => ("long", u64::from(count), value),
        Decision::LogFault => ("logfault", 0, value),
        _ => ("refused", 0, value),
    }
}

fn reply_told(decision: Decision, answer: &Option<Answer>) -> Told {
    match answer {
        None => ("stopped", 0, 0),
        Some(answer) => answered(decision, answer),
    }
}

fn answered(decision: Decision, answer: &Answer) -> Told {
    let (word, first, second) = decided(decision, worth(answer));
    match thrown(answer) {
        Some(exception) => (exception, first, second),
        None => (word, first, second),
    }
}

/// What is told of an event.
fn told(answer: &GroupAnswer) -> Told {
    match answer {
        GroupAnswer::Reply {
            decision,
            answer,
            ..
        } => reply_told(*decision, answer),
        GroupAnswer::Taken { from, position, .. } => {
            ("taken", u64::from(*from), u64::from(*position))
        }
        GroupAnswer::LogFault => ("logfault", 0, 0),
        _ => ("other", 0, 0),
    }
}

/// A word for what is sent, and the last byte of a state, or the number of what else it is.
fn carried(out: &Out) -> (&'static str, u64) {
    match &out.carried {
        Inner::State { state, .. } => ("state", last_of(state.bytes())),
        Inner::Update { to, .. } => ("update", u64::from(*to)),
        Inner::Order { index, .. } => ("order", u64::from(*index)),
        Inner::View { version } => ("view", u64::from(version.0)),
    }
}

/// What was sent, where it is the same to each host.
fn sent_told(out: &OutList) -> Told {
    let out = out.as_slice();
    let [first, ..] = out else {
        return ("nothing", 0, 0);
    };
    if out.iter().any(|other| carried(other) != carried(first)) {
        return ("different", 0, 0);
    }
    let (word, number) = carried(first);
    (word, out.len() as u64, number)
}

fn four() -> Members
    ensures { result ≡ 0 ∷ 1 ∷ 2 ∷ 3 ∷ [] }
{
    let mut members = Members::new();
    members.join(HostNo(0));
    members.join(HostNo(1));
    members.join(HostNo(2));
    members.join(HostNo(3));
    members
}

/// A new group of four members, of whose log these writes fail.
#[tactic(auto, using(crate::proofs::Trying::opened, crate::proofs::Trying::four_there))]
pub fn open<S: Servant + Drop>(
    alloc: Global,
    opening: S,
    style: Style,
    fails: &[u64],
) -> Result<Trial<S>, NoMemory>
    ensures { IfOk result (λ trial. IsSome S.machine trial.core) }
{
    let keeper = MemKeeper::new(alloc, fails)?;
    match GroupCore::new(alloc, GroupId(1), style, opening, four(), keeper) {
        Ok(core) => Ok(Trial {
            core,
            sent: OutList::new(alloc),
        }),
        Err(_) => Err(NoMemory),
    }
}

/// What an event sent; none where memory was wanted.
fn sent_by(alloc: Global, answer: GroupAnswer) -> Result<OutList, NoMemory>
    ensures { IfOk result (λ out. is_short answer ≡ false) }
{
    match answer {
        GroupAnswer::Reply {
            decision: _decision,
            answer: _answer,
            out,
        } => Ok(out),
        GroupAnswer::Taken {
            from: _from,
            position: _position,
            out,
        } => Ok(out),
        GroupAnswer::NoMemory => Err(NoMemory),
        _other => Ok(OutList::new(alloc)),
    }
}

/// Acts an event that may come.
fn act<S: Servant + Drop, L: Ledger>(
    alloc: Global,
    trial: &mut Trial<S>,
    event: Event,
    steps: &mut Steps<L>,
) -> Result<Told, NoMemory>
    requires some { IsSome S.machine trial.old.core }
    requires may { MayCome S.machine trial.old.core event }
    ensures { OnOk result (IsSome S.machine trial.new.core) }
{
    let answer = trial.core.act(alloc, event, steps);
    let told = told(&answer);
    let out = sent_by(alloc, answer)?;
    trial.sent = out;
    Ok(told)
}

/// What a text's elements are.
fn are_bytes(text: &[u8])
    ensures { AllByRecursion (λ b. b < 256) text.now }
{
    let _text = text;
}

/// A key of ann's, or none for the id 0.
fn key_of(alloc: Global, id: i32) -> Result<Option<Key>, NoMemory> {
    if id == 0 {
        return Ok(None);
    }
    match Name::of(alloc, b"ann") {
        Ok(client) => Ok(Some(Key {
            client,
            retention: Retention(id),
            expiration: Tick(100),
        })),
        Err(_) => Err(NoMemory),
    }
}

fn name_of(alloc: Global, op: &'static str) -> Result<Name, NoMemory> {
    if op.len() > 255 {
        return Err(NoMemory);
    }
    match Name::of(alloc, op.as_bytes()) {
        Ok(op) => Ok(op),
        Err(_) => Err(NoMemory),
    }
}

/// ann asks a host.
#[tactic(auto, using(crate::proofs::Trying::may_ask))]
pub fn ask<S: Servant + Drop, L: Ledger>(
    alloc: Global,
    trial: &mut Trial<S>,
    host: u8,
    id: i32,
    op: &'static str,
    body: &[u8],
    steps: &mut Steps<L>,
) -> Result<Told, NoMemory>
    requires { IsSome S.machine trial.old.core }
    ensures { OnOk result (IsSome S.machine trial.new.core) }
{
    if host >= 64 || body.len() > 8192 {
        return Err(NoMemory);
    }
    let key = key_of(alloc, id)?;
    let op = name_of(alloc, op)?;
    are_bytes(body);
    let bytes = Bytes::of(alloc, body)?;
    let asked = Asked {
        version: Some(Version(1)),
        key,
        bad_context: None,
        op: Some(op),
        body: Raw {
            order: Order::Big,
            align: 0,
            bytes,
        },
    };
    let event = Event::Request {
        host: HostNo(host),
        clock: Tick(0),
        asked,
        stop: Stop::Never,
    };
    act(alloc, trial, event, steps)
}

/// The primary takes a checkpoint.
#[tactic(auto, using(crate::proofs::Trying::may_checkpoint))]
fn checkpoint<S: Servant + Drop, L: Ledger>(
    alloc: Global,
    trial: &mut Trial<S>,
    steps: &mut Steps<L>,
) -> Result<Told, NoMemory>
    requires { IsSome S.machine trial.old.core }
    ensures { OnOk result (IsSome S.machine trial.new.core) }
{
    logs_tell();
    let Some(host) = trial.core.log().newest().primary else {
        return Err(NoMemory);
    };
    if host.0 >= 64 || !trial.core.style().is_passive() {
        return Err(NoMemory);
    }
    let event = Event::Checkpoint {
        host,
        clock: Tick(0),
    };
    act(alloc, trial, event, steps)
}

/// The primary of a warm group sends an update.
#[tactic(auto, using(crate::proofs::Trying::may_send))]
fn send_update<S: Servant + Drop, L: Ledger>(
    alloc: Global,
    trial: &mut Trial<S>,
    steps: &mut Steps<L>,
) -> Result<Told, NoMemory>
    requires { IsSome S.machine trial.old.core }
    ensures { OnOk result (IsSome S.machine trial.new.core) }
{
    logs_tell();
    let Some(host) = trial.core.log().newest().primary else {
        return Err(NoMemory);
    };
    if host.0 >= 64 || !is_warm(trial.core.style()) {
        return Err(NoMemory);
    }
    act(alloc, trial, Event::SendUpdate(host), steps)
}

/// The position and the balance of a host.
fn look<S: Servant + Drop>(alloc: Global, trial: &Trial<S>, host: u8) -> Result<Told, NoMemory>
    requires { IsSome S.machine trial.now.core }
{
    if host >= 64 {
        return Err(NoMemory);
    }
    match trial.core.replica(HostNo(host)) {
        None => Ok(("blank", 0, 0)),
        Some(replica) => {
            let state = replica.state(alloc)?;
            Ok(("at", u64::from(replica.position()), last_of(state.bytes())))
        }
    }
}

/// The next write fails.
fn fail<S: Servant + Drop>(trial: &mut Trial<S>) -> Result<Told, NoMemory>
    requires { IsSome S.machine trial.old.core }
    ensures { OnOk result (IsSome S.machine trial.new.core) }
{
    trial.core.fail_next()?;
    Ok(("fail", 0, 0))
}

/// All hosts stop, and the group goes on over its log, which is opened again.
pub fn reopen<S: Servant + Drop>(alloc: Global, trial: Trial<S>) -> Result<Trial<S>, NoMemory>
    requires { IsSome S.machine trial.core }
    ensures { IfOk result (λ again. IsSome S.machine again.core) }
{
    cores_may_go_on();
    let Trial { core, sent: _sent } = trial;
    let group = core.group();
    let style = core.style();
    let (opening, log) = core.into_parts();
    log.is_written_down();
    let log = match Log::reopen(alloc, log.into_keeper()) {
        Ok(log) => log,
        Err(_) => return Err(NoMemory),
    };
    match GroupCore::resume(alloc, group, style, opening, log) {
        Ok(core) => Ok(Trial {
            core,
            sent: OutList::new(alloc),
        }),
        Err(_) => Err(NoMemory),
    }
}

/// Takes a step.
pub fn take<S: Servant + Drop, L: Ledger>(
    alloc: Global,
    trial: &mut Trial<S>,
    step: Step,
    steps: &mut Steps<L>,
) -> Result<Told, NoMemory>
    requires { IsSome S.machine trial.old.core }
    ensures { OnOk result (IsSome S.machine trial.new.core) }
{
    match step {
        Step::Ask(host, id, 0) => ask(alloc, trial, host, id, "balance", &[], steps),
        Step::Ask(host, id, amount) => {
            let body = [0, 0, 0, 0, 0, 0, 0, amount];
            ask(alloc, trial, host, id, "deposit", &body, steps)
        }
        Step::Checkpoint => checkpoint(alloc, trial, steps),
        Step::SendUpdate => send_update(alloc, trial, steps),
        Step::Fail => fail(trial),
        Step::Look(host) => look(alloc, trial, host),
        Step::Mark => Ok(("mark", u64::from(trial.core.log().mark()), 0)),
        Step::Sent => Ok(sent_told(&trial.sent)),
    }
}
