//! One thread alone, which asks again where memory was wanted.
ghost use Rattle.std.specs.Prelude.{IfOk};
ghost use Rattle.hist_lock.specs.Passes.{IsOf};

use crate::groups::{Group, Seat, open};
use crate::pairs::replied;
use anyhow::{Result, bail};
use deposit_callers::{Target, ask, ask_on, carry_some, heard, upset};
use ft_base::{NoMemory, Style, Tick};
use group_model::GroupAnswer;
use octet_words::no_memory;
use std::alloc::Global;
use std::sync::Wait;

/// How often a turn is tried.
const TRIES: u32 = 3;

/// What one thread was told.
#[derive(Drop)]
pub struct Single {
    /// The values of deposits: new ones, one that is asked for again, and those behind stops and changes of members.
    pub values: [u64; 4],
    pub again: u64,
    pub upset: [Option<u64>; 4],
    /// A reply that the group has in the end.
    pub replied: Option<u64>,
    /// How many turns were told that memory was wanted.
    pub short: u32,
}

// The first host's answer to a deposit: its value, or that memory was wanted, and then it is asked again.
fn value<R: Wait>(
    rt: &R,
    alloc: Global,
    group: &Group,
    pass: &mut Seat,
    id: u32,
    short: &mut u32,
) -> Result<u64>
    requires { IsOf group.now.lock pass.old }
    ensures { IsOf group.now.lock pass.new }
{
    let at = Target::first();
    for _ in 0..TRIES {
        let Ok(answer) = ask(rt, alloc, group, pass, at, id) else {
            continue;
        };
        if let Ok(value) = heard(&answer, at) {
            return Ok(value);
        }
        if !matches!(answer.queued.answer, GroupAnswer::NoMemory) {
            bail!("another answer than a value");
        }
        *short = short.wrapping_add(1);
    }
    bail!("no value")
}

// The reply that the group has for the first deposit.
fn first_reply<R: Wait>(rt: &R, alloc: Global, group: &Group, pass: &mut Seat) -> Option<u64>
    requires { IsOf group.now.lock pass.old }
    ensures { IsOf group.now.lock pass.new }
{
    for _ in 0..TRIES {
        if let Ok(reply) = replied(rt, alloc, group, pass, 0) {
            return reply;
        }
    }
    None
}

// A group, for which is asked again where memory was wanted.
fn opened(alloc: Global, style: Style) -> Result<(Group, Seat), NoMemory>
    ensures { IfOk result (λ made. IsOf made.0.lock made.1) }
{
    match open(alloc, style) {
        Ok(made) => Ok(made),
        Err(NoMemory) => open(alloc, style),
    }
}

pub fn run<R: Wait>(rt: &R, alloc: Global, style: Style) -> Result<Single> {
    let (group, mut pass) = opened(alloc, style).map_err(no_memory)?;
    let mut short = 0;
    let mut values = [0; 4];
    for id in 0..4 {
        values[id] = value(rt, alloc, &group, &mut pass, id as u32, &mut short)?;
        group.checkpoint(rt, &mut pass, Tick(0));
        carry_some(rt, &group, &mut pass, 8);
    }
    let again = value(rt, alloc, &group, &mut pass, 0, &mut short)?;
    let mut at = Target::first();
    let mut upset_values = [None; 4];
    for id in 0..4 {
        upset(rt, &group, &mut pass, id as u8);
        upset_values[id] = ask_on(rt, alloc, &group, &mut pass, &mut at, 4 + id as u32);
    }
    let replied = first_reply(rt, alloc, &group, &mut pass);
    group.close(rt, pass);
    Ok(Single {
        values,
        again,
        upset: upset_values,
        replied,
        short,
    })
}
