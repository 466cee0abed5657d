//! Groups whose logs fail, in rows of an event each and what is told of it; and arguments that no line of a script is
//! long enough for.
ghost use Rattle.std.specs.Prelude.{◌≡◌, ◌<◌, OnOk};
ghost use Rattle.group_core.specs.Trying.{IsSome};

use crate::trials::{Step, Told, Trial, ask, open, reopen, take};
use ft_base::{NoMemory, Servant, Steps, Style};
use shipped_servants::{Kind, Shipped};
use std::alloc::Global;
use std::marker::Brand;
use std::process::Abort;
use std::sync::ledger::{Blank, Ledger};

/// Takes these steps.
fn run_rows<S: Servant + Drop, L: Ledger>(
    rt: &impl Abort,
    alloc: Global,
    trial: &mut Trial<S>,
    rows: &[(Step, Told)],
    steps: &mut Steps<L>,
) -> Result<(), NoMemory>
    requires { IsSome S.machine trial.old.core }
    ensures { OnOk result (IsSome S.machine trial.new.core) }
{
    for (step, wanted) in rows {
        let told = take(alloc, trial, *step, steps)?;
        let (word, first, second) = told;
        assert!(rt; told == *wanted, "{word} {first} {second}");
    }
    Ok(())
}

/// Takes them in a new group of this style, of whose log these writes fail.
fn run_group<L: Ledger>(
    rt: &impl Abort,
    alloc: Global,
    style: Style,
    fails: &[u64],
    rows: &[(Step, Told)],
    steps: &mut Steps<L>,
) -> Result<(), NoMemory> {
    let account = Shipped::open(alloc, Kind::Account)?;
    let mut trial = open(alloc, account, style, fails)?;
    run_rows(rt, alloc, &mut trial, rows, steps)
}

// A write fails. The retry is accepted, once; and so it is with a checkpoint.
const WRITTEN_LATE: [(Step, Told); 8] = [
    (Step::Fail, ("fail", 0, 0)),
    (Step::Ask(0, 1, 5), ("PERSIST_STORE maybe", 0, 1)),
    (Step::Ask(0, 1, 5), ("append", 0, 5)),
    (Step::Ask(0, 1, 5), ("repeat", 0, 5)),
    (Step::Fail, ("fail", 0, 0)),
    (Step::Checkpoint, ("logfault", 0, 0)),
    (Step::Checkpoint, ("taken", 0, 1)),
    (Step::Look(0), ("at", 1, 5)),
];

// Of an active group: the orders go to the three other members where the write succeeds, and to nobody where it fails.
const ORDERED_LATE: [(Step, Told); 7] = [
    (Step::Ask(1, 1, 1), ("append", 0, 1)),
    (Step::Sent, ("order", 3, 0)),
    (Step::Fail, ("fail", 0, 0)),
    (Step::Ask(1, 0, 0), ("PERSIST_STORE maybe", 0, 1)),
    (Step::Sent, ("nothing", 0, 0)),
    (Step::Ask(1, 0, 0), ("append", 1, 1)),
    (Step::Sent, ("order", 3, 1)),
];

// The first write is the first view's, the second the entry's. The third is the checkpoint's: where it fails there is
// none, and nothing is given.
const NO_CHECKPOINT: [(Step, Told); 5] = [
    (Step::Ask(0, 0, 5), ("append", 0, 5)),
    (Step::Checkpoint, ("logfault", 0, 0)),
    (Step::Sent, ("nothing", 0, 0)),
    (Step::Mark, ("mark", 0, 0)),
    (Step::SendUpdate, ("taken", 0, 1)),
];

// The fourth is the view's behind it, and the fifth the cut: where one of these fails the checkpoint counts.
const CHECKPOINT: [(Step, Told); 5] = [
    (Step::Ask(0, 0, 5), ("append", 0, 5)),
    (Step::Checkpoint, ("taken", 0, 1)),
    (Step::Sent, ("state", 3, 5)),
    (Step::Mark, ("mark", 1, 0)),
    (Step::SendUpdate, ("taken", 1, 1)),
];

// All hosts stop, and the group goes on over its log, of which the checkpoint cut the first entry.
const BEFORE_THE_STOP: [(Step, Told); 3] = [
    (Step::Ask(0, 1, 5), ("append", 0, 5)),
    (Step::Checkpoint, ("taken", 0, 1)),
    (Step::Ask(0, 2, 2), ("append", 1, 7)),
];

const BEHIND_THE_STOP: [(Step, Told); 6] = [
    (Step::Look(0), ("blank", 0, 0)),
    (Step::Mark, ("mark", 1, 0)),
    (Step::Ask(0, 1, 5), ("repeat", 0, 5)),
    (Step::Ask(0, 2, 2), ("repeat", 1, 7)),
    (Step::Ask(0, 3, 1), ("append", 2, 8)),
    (Step::Look(0), ("at", 3, 8)),
];

fn run_reopened<L: Ledger>(
    rt: &impl Abort,
    alloc: Global,
    style: Style,
    steps: &mut Steps<L>,
) -> Result<(), NoMemory> {
    let account = Shipped::open(alloc, Kind::Account)?;
    let mut trial = open(alloc, account, style, &[])?;
    run_rows(rt, alloc, &mut trial, &BEFORE_THE_STOP, steps)?;
    let mut trial = reopen(alloc, trial)?;
    run_rows(rt, alloc, &mut trial, &BEHIND_THE_STOP, steps)
}

fn each_row<L: Ledger>(rt: &impl Abort, alloc: Global, blank: Blank) -> Result<(), NoMemory>
    requires name { blank.name ≡ L.name }
    requires parts { blank.parts ≡ L.parts }
    requires some { 0 < blank.parts }
{
    let mut steps = Steps::<L>::new(blank);
    run_group(rt, alloc, Style::Cold, &[], &WRITTEN_LATE, &mut steps)?;
    run_group(rt, alloc, Style::Active, &[], &ORDERED_LATE, &mut steps)?;
    run_group(rt, alloc, Style::Warm, &[3], &NO_CHECKPOINT, &mut steps)?;
    run_group(rt, alloc, Style::Warm, &[4], &CHECKPOINT, &mut steps)?;
    run_group(rt, alloc, Style::Warm, &[5], &CHECKPOINT, &mut steps)?;
    run_reopened(rt, alloc, Style::Cold, &mut steps)?;
    run_reopened(rt, alloc, Style::Warm, &mut steps)
}

#[test]
fn rows(rt: HostRuntime) -> Result<(), NoMemory> {
    each_row::<Brand>(&rt, rt.alloc(), Blank::new(1))
}

/// Asks for a deposit, and once more where its write failed.
fn insist<S: Servant + Drop, L: Ledger>(
    alloc: Global,
    trial: &mut Trial<S>,
    id: i32,
    amount: u8,
    steps: &mut Steps<L>,
) -> Result<Told, NoMemory>
    requires { IsSome S.machine trial.old.core }
    ensures { OnOk result (IsSome S.machine trial.new.core) }
{
    let step = Step::Ask(0, id, amount);
    let told = take(alloc, trial, step, steps)?;
    let (word, _first, _second) = told;
    if word == "PERSIST_STORE maybe" {
        return take(alloc, trial, step, steps);
    }
    Ok(told)
}

/// Of three deposits one write fails, and each is accepted once.
fn write_fails<L: Ledger>(
    rt: &impl Abort,
    alloc: Global,
    write: u64,
    steps: &mut Steps<L>,
) -> Result<(), NoMemory> {
    let account = Shipped::open(alloc, Kind::Account)?;
    let mut trial = open(alloc, account, Style::Cold, &[write])?;
    let first = insist(alloc, &mut trial, 1, 1, steps)?;
    assert!(rt; first == ("append", 0, 1), "the first, write {write}");
    let second = insist(alloc, &mut trial, 2, 2, steps)?;
    assert!(rt; second == ("append", 1, 3), "the second, write {write}");
    let third = insist(alloc, &mut trial, 3, 4, steps)?;
    assert!(rt; third == ("append", 2, 7), "the third, write {write}");
    Ok(())
}

fn each_write<L: Ledger>(rt: &impl Abort, alloc: Global, blank: Blank) -> Result<(), NoMemory>
    requires name { blank.name ≡ L.name }
    requires parts { blank.parts ≡ L.parts }
    requires some { 0 < blank.parts }
{
    let mut steps = Steps::<L>::new(blank);
    write_fails(rt, alloc, 2, &mut steps)?;
    write_fails(rt, alloc, 3, &mut steps)?;
    write_fails(rt, alloc, 4, &mut steps)?;
    write_fails(rt, alloc, 5, &mut steps)
}

#[test]
fn failing_writes(rt: HostRuntime) -> Result<(), NoMemory> {
    each_write::<Brand>(&rt, rt.alloc(), Blank::new(1))
}

/// The body of `get` with a key of so many bytes.
fn body_of_get(alloc: Global, count: u32) -> Result<Vec<u8>, NoMemory>
    requires { count < 8192 }
{
    let mut body: Vec<u8> = Vec::new(alloc);
    for byte in (count + 1).to_be_bytes() {
        body.push(byte)?;
    }
    for _byte in 0..count {
        body.push(b'a')?;
    }
    body.push(0)?;
    Ok(body)
}

/// Asks for the value of a key of so many bytes.
fn get<S: Servant + Drop, L: Ledger>(
    alloc: Global,
    trial: &mut Trial<S>,
    count: u32,
    steps: &mut Steps<L>,
) -> Result<Told, NoMemory>
    requires count { count < 8192 }
    requires some { IsSome S.machine trial.old.core }
    ensures { OnOk result (IsSome S.machine trial.new.core) }
{
    let body = body_of_get(alloc, count)?;
    ask(alloc, trial, 0, count as i32, "get", &body, steps)
}

fn get_both<L: Ledger>(rt: &impl Abort, alloc: Global, blank: Blank) -> Result<(), NoMemory>
    requires name { blank.name ≡ L.name }
    requires parts { blank.parts ≡ L.parts }
    requires some { 0 < blank.parts }
{
    let mut steps = Steps::<L>::new(blank);
    let store = Shipped::open(alloc, Kind::Store)?;
    let mut trial = open(alloc, store, Style::Cold, &[])?;
    let longest = get(alloc, &mut trial, 4091, &mut steps)?;
    assert!(rt; longest == ("BadKey", 0, 0), "the longest key");
    let longer = get(alloc, &mut trial, 4092, &mut steps)?;
    assert!(rt; longer == ("long", 4097, 1), "a longer one");
    Ok(())
}

#[test]
fn long_arguments(rt: HostRuntime) -> Result<(), NoMemory> {
    get_both::<Brand>(&rt, rt.alloc(), Blank::new(1))
}
