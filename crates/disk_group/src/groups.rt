//! A group that is asked for deposits before a stop of everything, and for the same ones behind it.
ghost use Rattle.std.specs.Prelude.{◌≡◌, ◌<◌, ◌∷◌, [], IfOk};
ghost use Rattle.std.specs.List.{AllByRecursion};
ghost use Rattle.group_model.specs.Agreeing.{IsShortAsked};
ghost use Rattle.group_core.specs.Trying.{IsSome, MayCome};

use crate::stops::{new_log, stop};
use anyhow::{Result, anyhow, bail};
use cdr_codec::{Order, Raw};
use ft_base::{
    Bytes, Decision, GroupId, HostNo, Key, Members, Name, Retention, Servant, Steps, Stop, Style,
    Tick, Version,
};
use ft_outside::Keeper;
use group_core::GroupCore;
use group_model::{Asked, Event, GroupAnswer, takers_may_take};
use octet_words::{no_memory, outcome_text};
use shipped_servants::{Kind, Shipped};
use std::alloc::Global;
use std::sync::ledger::{Blank, Ledger};
use sys_faults::Answer;

fn one_member() -> Members
    ensures { result ≡ 0 ∷ [] }
{
    let mut members = Members::new();
    members.join(HostNo(0));
    members
}

#[tactic(auto, using(crate::proofs::Going::one_there))]
fn open<S: Servant + Drop, K: Keeper + Drop>(
    alloc: Global,
    opening: S,
    keeper: K,
) -> Result<GroupCore<S, K>>
    requires { K.records keeper ≡ [] }
    ensures { IfOk result (λ core. IsSome S.machine core) }
{
    let members = one_member();
    match GroupCore::new(alloc, GroupId(1), Style::Cold, opening, members, keeper) {
        Ok(core) => Ok(core),
        Err(_) => Err(anyhow!("refused")),
    }
}

fn decision_text(alloc: Global, decision: Decision) -> Result<String> {
    match decision {
        Decision::Append(at) => Ok(format!(in alloc; "append {at}")?),
        Decision::Repeat(at) => Ok(format!(in alloc; "repeat {at}")?),
        _ => bail!("refused"),
    }
}

fn reply_text(alloc: Global, decision: Decision, answer: &Option<Answer>) -> Result<String> {
    let decision = decision_text(alloc, decision)?;
    match answer {
        Some(Answer::Done(outcome)) => {
            let outcome = outcome_text(alloc, outcome)?;
            Ok(format!(in alloc; "{decision}, {outcome}")?)
        }
        _ => bail!("no outcome"),
    }
}

// What came of an event.
fn answer_text(alloc: Global, answer: &GroupAnswer) -> Result<String> {
    match answer {
        GroupAnswer::Reply {
            decision,
            answer,
            ..
        } => reply_text(alloc, *decision, answer),
        GroupAnswer::Taken { from, position, .. } => {
            Ok(format!(in alloc; "taken from {from} to {position}")?)
        }
        _ => bail!("another answer"),
    }
}

fn tell(rt: &HostRuntime, step: &str, answer: &GroupAnswer, calls: u64) -> Result<()> {
    let answer = answer_text(rt.alloc(), answer)?;
    println!(rt; "{step}: {answer}; servant calls: {calls}")?;
    Ok(())
}

// Acts an event that may come, and tells what came of it and how many servant calls it took.
fn act<S: Servant + Drop, K: Keeper, L: Ledger>(
    rt: &HostRuntime,
    core: &mut GroupCore<S, K>,
    step: &str,
    event: Event,
    steps: &mut Steps<L>,
) -> Result<()>
    requires some { IsSome S.machine core.old }
    requires may { MayCome S.machine core.old event }
    ensures { IsSome S.machine core.new }
{
    let before = steps.count();
    let answer = core.act(rt.alloc(), event, steps);
    tell(rt, step, &answer, steps.count().saturating_sub(before))
}

/// What a text's elements are.
fn are_bytes(text: &[u8])
    ensures { AllByRecursion (λ b. b < 256) text.now }
{
    let _text = text;
}

// A deposit of this amount, by ann with this retention id.
fn deposit_of(alloc: Global, id: i32, amount: u8) -> Result<Asked>
    ensures { IfOk result (λ asked. IsShortAsked asked) }
{
    let body = [0, 0, 0, 0, 0, 0, 0, amount];
    let text = body.as_slice();
    are_bytes(text);
    let bytes = Bytes::of(alloc, text).map_err(no_memory)?;
    let client = Name::of(alloc, b"ann")?;
    let op = Name::of(alloc, b"deposit")?;
    let key = Key {
        client,
        retention: Retention(id),
        expiration: Tick(100),
    };
    Ok(Asked {
        version: Some(Version(1)),
        key: Some(key),
        bad_context: None,
        op: Some(op),
        body: Raw {
            order: Order::Big,
            align: 0,
            bytes,
        },
    })
}

#[tactic(auto, using(crate::proofs::Going::may_ask))]
fn ask<S: Servant + Drop, K: Keeper, L: Ledger>(
    rt: &HostRuntime,
    core: &mut GroupCore<S, K>,
    id: i32,
    amount: u8,
    steps: &mut Steps<L>,
) -> Result<()>
    requires { IsSome S.machine core.old }
    ensures { IsSome S.machine core.new }
{
    let step = format!(in rt.alloc(); "deposit {amount} with key {id}")?;
    let event = Event::Request {
        host: HostNo(0),
        clock: Tick(0),
        asked: deposit_of(rt.alloc(), id, amount)?,
        stop: Stop::Never,
    };
    act(rt, core, step.as_str(), event, steps)
}

#[tactic(auto, using(crate::proofs::Going::may_take))]
fn checkpoint<S: Servant + Drop, K: Keeper, L: Ledger>(
    rt: &HostRuntime,
    core: &mut GroupCore<S, K>,
    steps: &mut Steps<L>,
) -> Result<()>
    requires { IsSome S.machine core.old }
    ensures { IsSome S.machine core.new }
{
    takers_may_take();
    let Some(host) = core.taker() else {
        bail!("nobody takes a checkpoint");
    };
    let clock = Tick(0);
    act(
        rt,
        core,
        "checkpoint",
        Event::Checkpoint { host, clock },
        steps,
    )
}

// Two deposits, and a checkpoint between them.
fn before_the_stop<S: Servant + Drop, K: Keeper, L: Ledger>(
    rt: &HostRuntime,
    core: &mut GroupCore<S, K>,
    steps: &mut Steps<L>,
) -> Result<()>
    requires { IsSome S.machine core.old }
    ensures { IsSome S.machine core.new }
{
    ask(rt, core, 1, 5, steps)?;
    checkpoint(rt, core, steps)?;
    ask(rt, core, 2, 2, steps)
}

// The same deposits again: the first one finds the host blank, which runs the entry behind the checkpoint.
fn behind_the_stop<S: Servant + Drop, K: Keeper, L: Ledger>(
    rt: &HostRuntime,
    core: &mut GroupCore<S, K>,
    steps: &mut Steps<L>,
) -> Result<()>
    requires { IsSome S.machine core.old }
    ensures { IsSome S.machine core.new }
{
    ask(rt, core, 1, 5, steps)?;
    ask(rt, core, 2, 2, steps)
}

pub fn run<L: Ledger>(rt: &HostRuntime, blank: Blank) -> Result<()>
    requires name { blank.name ≡ L.name }
    requires parts { blank.parts ≡ L.parts }
    requires some { 0 < blank.parts }
{
    let mut steps = Steps::<L>::new(blank);
    let account = Shipped::open(rt.alloc(), Kind::Account).map_err(no_memory)?;
    let mut core = open(rt.alloc(), account, new_log(rt.alloc())?)?;
    before_the_stop(rt, &mut core, &mut steps)?;
    let mut core = stop(rt, core)?;
    behind_the_stop(rt, &mut core, &mut steps)
}
