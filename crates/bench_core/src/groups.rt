//! Groups that are asked many times.
ghost use Rattle.std.specs.Prelude.{◌≡◌, ◌<◌, ◌≤◌, ◌∷◌, [], length, IfOk, OnOk};
ghost use Rattle.std.specs.List.{AllByRecursion};
ghost use Rattle.group_core.specs.Trying.{IsSome, MayCome};

use anyhow::{Result, anyhow};
use cdr_codec::{Order, Raw};
use ft_base::{
    Bytes, Decision, GroupId, HostNo, Key, Members, Name, Retention, Servant, Steps, Stop, Style,
    Tick, Version,
};
use ft_outside::MemKeeper;
use group_core::GroupCore;
use group_model::{Asked, Change, Event, GroupAnswer};
use shipped_servants::{Kind, Shipped};
use std::alloc::Global;
use std::sync::ledger::{Blank, Ledger};
use std::time::{Duration, Instant};

fn four() -> Members
    ensures { result ≡ 0 ∷ 1 ∷ 2 ∷ 3 ∷ [] }
{
    let mut members = Members::new();
    members.join(HostNo(0));
    members.join(HostNo(1));
    members.join(HostNo(2));
    members.join(HostNo(3));
    members
}

#[tactic(auto, using(crate::proofs::Going::four_there))]
fn open<S: Servant + Drop>(
    alloc: Global,
    style: Style,
    opening: S,
) -> Result<GroupCore<S, MemKeeper>>
    ensures { IfOk result (λ core. IsSome S.machine core) }
{
    let keeper = MemKeeper::new(alloc, &[]).map_err(|_| anyhow!("no memory"))?;
    let members = four();
    match GroupCore::new(alloc, GroupId(1), style, opening, members, keeper) {
        Ok(core) => Ok(core),
        Err(_) => Err(anyhow!("refused")),
    }
}

/// Whether a request was accepted, or repeated.
fn is_served(answer: &GroupAnswer) -> bool {
    match answer {
        GroupAnswer::Reply { decision, .. } => {
            matches!(decision, Decision::Append(_) | Decision::Repeat(_))
        }
        _ => false,
    }
}

fn act<S: Servant + Drop, L: Ledger>(
    alloc: Global,
    core: &mut GroupCore<S, MemKeeper>,
    event: Event,
    steps: &mut Steps<L>,
) -> bool
    requires some { IsSome S.machine core.old }
    requires may { MayCome S.machine core.old event }
    ensures { IsSome S.machine core.new }
{
    let answer = core.act(alloc, event, steps);
    is_served(&answer)
}

// A key of ann's.
fn key_of(alloc: Global, id: i32) -> Result<Key> {
    let client = Name::of(alloc, b"ann").map_err(|_| anyhow!("no name"))?;
    Ok(Key {
        client,
        retention: Retention(id),
        expiration: Tick(100),
    })
}

/// What a text's elements are.
fn are_bytes(text: &[u8])
    ensures { AllByRecursion (λ b. b < 256) text.now }
{
    let _text = text;
}

#[tactic(auto, using(crate::proofs::Going::may_ask))]
fn ask<S: Servant + Drop, L: Ledger>(
    alloc: Global,
    core: &mut GroupCore<S, MemKeeper>,
    host: u8,
    version: u32,
    id: i32,
    steps: &mut Steps<L>,
) -> Result<bool>
    requires host { host < 64 }
    requires some { IsSome S.machine core.old }
    ensures { IsSome S.machine core.new }
{
    let body = [0, 0, 0, 0, 0, 0, 0, 1];
    let text = body.as_slice();
    are_bytes(text);
    let bytes = Bytes::of(alloc, text).map_err(|_| anyhow!("no memory"))?;
    let op = Name::of(alloc, b"deposit").map_err(|_| anyhow!("no name"))?;
    let key = key_of(alloc, id)?;
    let asked = Asked {
        version: Some(Version(version)),
        key: Some(key),
        bad_context: None,
        op: Some(op),
        body: Raw {
            order: Order::Big,
            align: 0,
            bytes,
        },
    };
    let event = Event::Request {
        host: HostNo(host),
        clock: Tick(0),
        asked,
        stop: Stop::Never,
    };
    Ok(act(alloc, core, event, steps))
}

// How many of these requests were served.
fn ask_all<S: Servant + Drop, L: Ledger>(
    alloc: Global,
    core: &mut GroupCore<S, MemKeeper>,
    count: u32,
    steps: &mut Steps<L>,
) -> Result<u32>
    requires { IsSome S.machine core.old }
    ensures { IsSome S.machine core.new }
{
    let mut served: u32 = 0;
    for id in 0..count {
        if ask(alloc, core, 0, 1, (id % 0x4000_0000) as i32, steps)? {
            served = served.wrapping_add(1);
        }
    }
    Ok(served)
}

// The primary leaves, and the next member is asked: it runs the whole journal first.
#[tactic(auto, using(crate::proofs::Going::may_manage))]
fn take_over<S: Servant + Drop, L: Ledger>(
    alloc: Global,
    core: &mut GroupCore<S, MemKeeper>,
    steps: &mut Steps<L>,
) -> Result<bool>
    requires { IsSome S.machine core.old }
    ensures { IsSome S.machine core.new }
{
    let event = Event::Manage(Change::Report(HostNo(0)));
    let _served = act(alloc, core, event, steps);
    ask(alloc, core, 1, 2, 0, steps)
}

fn a_second(count: u32, time: Duration) -> f64 {
    f64::from(count) / time.as_secs_f64()
}

fn timed<S: Servant + Drop, L: Ledger>(
    rt: &HostRuntime,
    core: &mut GroupCore<S, MemKeeper>,
    count: u32,
    word: &str,
    steps: &mut Steps<L>,
) -> Result<u32>
    requires { IsSome S.machine core.old }
    ensures { OnOk result (IsSome S.machine core.new) }
{
    let start = Instant::now(rt)?;
    let served = ask_all(rt.alloc(), core, count, steps)?;
    let time = start.elapsed(rt)?;
    eprintln!(rt; "{word}: {:.0} requests a second", a_second(count, time))?;
    Ok(served)
}

fn passive<L: Ledger>(rt: &HostRuntime, count: u32, steps: &mut Steps<L>) -> Result<()> {
    let account = Shipped::open(rt.alloc(), Kind::Account).map_err(|_| anyhow!("no memory"))?;
    let mut core = open(rt.alloc(), Style::Cold, account)?;
    let accepted = timed(rt, &mut core, count, "new", steps)?;
    let repeated = timed(rt, &mut core, count, "repeated", steps)?;
    let start = Instant::now(rt)?;
    let served = take_over(rt.alloc(), &mut core, steps)?;
    let time = start.elapsed(rt)?;
    eprintln!(rt; "taken over: {:.0} entries a second", a_second(count, time))?;
    println!(rt; "{accepted} accepted, {repeated} repeated, {served}")?;
    Ok(())
}

fn active<L: Ledger>(rt: &HostRuntime, count: u32, steps: &mut Steps<L>) -> Result<()> {
    let account = Shipped::open(rt.alloc(), Kind::Account).map_err(|_| anyhow!("no memory"))?;
    let mut core = open(rt.alloc(), Style::Active, account)?;
    let ordered = timed(rt, &mut core, count, "with three orders each", steps)?;
    println!(rt; "{ordered} ordered")?;
    Ok(())
}

pub fn run<L: Ledger>(rt: &HostRuntime, count: u32, blank: Blank) -> Result<()>
    requires name { blank.name ≡ L.name }
    requires parts { blank.parts ≡ L.parts }
    requires some { 0 < blank.parts }
{
    let mut steps = Steps::<L>::new(blank);
    passive(rt, count, &mut steps)?;
    active(rt, count, &mut steps)
}
