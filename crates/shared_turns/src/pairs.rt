//! Two passes that ask in turn, and are joined.
ghost use Rattle.std.specs.Prelude.{IfOk};
ghost use Rattle.hist_lock.specs.Passes.{IsOf};

use crate::groups::{Group, Seat, open};
use anyhow::{Context, Result};
use deposit_callers::{Target, ask_in_turn, ask_on, deposit_of, heard, key_of, value_of};
use ft_base::{HostNo, Style};
use octet_words::no_memory;
use std::alloc::Global;
use std::sync::Wait;

/// What two passes were told.
#[derive(Drop)]
pub struct Pair {
    /// The values of two deposits, of a pass each.
    pub first: Option<u64>,
    pub second: Option<u64>,
    /// How many entries there were behind the join, and the replies of the two.
    pub joined: u32,
    pub replied: [Option<u64>; 2],
    /// The value of another pass's deposit, and how many entries there were behind its note.
    pub third: Option<u64>,
    pub noted: u32,
    /// How many entries there were in the end.
    pub closed: u32,
}

fn entries<R: Wait>(rt: &R, group: &Group, pass: &mut Seat) -> Result<u32>
    requires { IsOf group.now.lock pass.old }
    ensures { IsOf group.now.lock pass.new }
{
    match group.figures(rt, pass) {
        Ok(figures) => Ok(figures.entries),
        Err(fault) => Err(no_memory(fault)),
    }
}

/// The reply that the group has for the deposit with the key of this number.
pub fn replied<R: Wait>(
    rt: &R,
    alloc: Global,
    group: &Group,
    pass: &mut Seat,
    id: u32,
) -> Result<Option<u64>>
    requires { IsOf group.now.lock pass.old }
    ensures { IsOf group.now.lock pass.new }
{
    let key = key_of(alloc, id).map_err(no_memory)?;
    match group.replied(rt, pass, key) {
        Ok(Some(outcome)) => Ok(value_of(&outcome)),
        Ok(None) => Ok(None),
        Err(fault) => Err(no_memory(fault)),
    }
}

// Both ask for a deposit, and the second is taken in.
fn join_two<R: Wait>(
    rt: &R,
    alloc: Global,
    group: &Group,
    main: &mut Seat,
) -> Result<(Option<u64>, Option<u64>)>
    requires { IsOf group.now.lock main.old }
    ensures { IsOf group.now.lock main.new }
{
    let at = Target::first();
    let one = deposit_of(alloc, 1, at.version).map_err(no_memory)?;
    let other = deposit_of(alloc, 2, at.version).map_err(no_memory)?;
    let second = group.split(main).map_err(no_memory)?;
    let (first, second) = ask_in_turn(rt, group, main, second, HostNo(0), (one, other));
    Ok((heard(&first, at).ok(), heard(&second, at).ok()))
}

// A second pass asks for a deposit, and only what it had seen is told.
fn meet_note<R: Wait>(rt: &R, alloc: Global, group: &Group, main: &mut Seat) -> Result<Option<u64>>
    requires { IsOf group.now.lock main.old }
    ensures { IsOf group.now.lock main.new }
{
    let mut other = group.split(main).map_err(no_memory)?;
    let value = ask_on(rt, alloc, group, &mut other, &mut Target::first(), 3);
    let note = group.note(&mut other);
    group.meet(main, note);
    Ok(value)
}

pub fn run<R: Wait>(rt: &R, alloc: Global) -> Result<Pair> {
    let (group, mut main) = open(alloc, Style::Cold).map_err(no_memory)?;
    let (first, second) = join_two(rt, alloc, &group, &mut main)?;
    let joined = entries(rt, &group, &mut main)?;
    let one = replied(rt, alloc, &group, &mut main, 1)?;
    let two = replied(rt, alloc, &group, &mut main, 2)?;
    let third = meet_note(rt, alloc, &group, &mut main)?;
    let noted = entries(rt, &group, &mut main)?;
    let book = group.close(rt, main);
    Ok(Pair {
        first,
        second,
        joined,
        replied: [one, two],
        third,
        noted,
        closed: book.core().log().length(),
    })
}
