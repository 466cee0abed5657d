//! Eight threads that make deposits, and a ninth that upsets the group meanwhile.
ghost use Rattle.std.specs.Prelude.{All, IfOk};
ghost use Rattle.hist_lock.specs.Passes.{IsOf};

use crate::groups::{Group, Seat, open};
use anyhow::Result;
use deposit_callers::{Task, Worker, split_off, work_in_threads};
use ft_base::{NoMemory, Style};
use octet_words::no_memory;
use outside_crews::CalmKeeper;
use shipped_servants::Shipped;
use std::alloc::Global;
use std::sync::Wait;
use std::thread::Threads;

const CALLERS: u32 = 8;

type Hand = Worker<Shipped, CalmKeeper>;

// The callers, and the ninth, who goes on until all of their deposits are there.
fn hands(alloc: Global, group: &Group, main: &mut Seat, each: u32) -> Result<Vec<Hand>, NoMemory>
    requires { IsOf group.now.lock main.old }
    ensures main { IsOf group.now.lock main.new }
    ensures hands { IfOk result (λ hands. All (λ hand. IsOf group.now.lock hand.pass) hands.items) }
{
    let mut hands = split_off(alloc, group, main, CALLERS, each)?;
    let pass = group.split(main)?;
    let entries = CALLERS.wrapping_mul(each);
    let task = Task::Upset { entries };
    let values = Vec::new(alloc);
    hands.push(Worker { pass, task, values })?;
    Ok(hands)
}

// Takes in a worker's pass, and its values, which are to rise. Whether they do.
fn take_in(group: &Group, main: &mut Seat, hand: Hand, all: &mut Vec<u64>) -> Result<bool, NoMemory>
    requires { IsOf group.now.lock main.old × IsOf group.now.lock hand.pass }
    ensures { IsOf group.now.lock main.new }
{
    let Worker {
        pass,
        task: _,
        values,
    } = hand;
    group.join(main, pass);
    all.extend_from_slice(values.as_slice())?;
    Ok(values.as_slice().windows(2).all(|pair| pair[0] < pair[1]))
}

// Takes in all of them. Gives all values, and whether each worker's rise.
fn take_in_all(
    alloc: Global,
    group: &Group,
    main: &mut Seat,
    hands: Vec<Hand>,
) -> Result<(Vec<u64>, bool), NoMemory>
    requires { IsOf group.now.lock main.old × All (λ hand. IsOf group.now.lock hand.pass) hands.items }
    ensures { IsOf group.now.lock main.new }
{
    let mut all: Vec<u64> = Vec::new(alloc);
    let mut rise = true;
    for hand in hands {
        rise = take_in(group, main, hand, &mut all)? && rise;
    }
    Ok((all, rise))
}

// Whether these are 1 and the numbers behind it, each once.
fn is_each_once(mut values: Vec<u64>) -> Result<bool, NoMemory> {
    values.sort()?;
    Ok(
        values
            .iter()
            .zip(1..)
            .all(|(value, number)| *value == number),
    )
}

/// What all threads together were told, and what is left.
#[derive(Drop)]
pub struct Crowd {
    /// How many values were told, and by how many threads.
    pub told: usize,
    pub callers: u32,
    /// Whether they are 1 and the numbers behind it, each once.
    pub each_once: bool,
    /// Whether each thread's values rise.
    pub rise: bool,
    /// Whether the group had views behind its first.
    pub changed: bool,
    /// How many entries its journal has.
    pub entries: u32,
}

/// The deposits of all threads, of which as many as fit are each thread's.
pub fn run<R: Threads + Wait + Sync>(
    rt: &R,
    alloc: Global,
    style: Style,
    deposits: u32,
) -> Result<Crowd> {
    let (group, mut main) = open(alloc, style).map_err(no_memory)?;
    let hands = hands(alloc, &group, &mut main, deposits / CALLERS).map_err(no_memory)?;
    let hands = work_in_threads(rt, alloc, &group, hands).map_err(no_memory)?;
    let (all, rise) = take_in_all(alloc, &group, &mut main, hands).map_err(no_memory)?;
    let told = all.len();
    let each_once = is_each_once(all).map_err(no_memory)?;
    let figures = group.figures(rt, &mut main).map_err(no_memory)?;
    let book = group.close(rt, main);
    Ok(Crowd {
        told,
        callers: CALLERS,
        each_once,
        rise,
        changed: figures.view.version.0 > 1,
        entries: book.core().log().length(),
    })
}
