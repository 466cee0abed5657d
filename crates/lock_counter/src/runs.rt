ghost use Rattle.std.specs.Prelude.{◌≡◌, All, IfOk};
ghost use Rattle.hist_lock.specs.Passes.{IsOf};

use crate::counters::Counter;
use hist_lock::{HistLock, Pass};
use std::alloc::{AllocError, Global};
use std::sync::Wait;
use std::thread;
use std::thread::{Threads, join};

// Adds 1 in three turns.
fn count_three<R: Wait>(
    rt: &R,
    lock: &HistLock<Counter>,
    mut pass: Pass<Counter>,
) -> (Pass<Counter>, [u64; 3])
    requires { IsOf lock.now pass }
    ensures { IsOf lock.now result.0 }
{
    let first = lock.turn(rt, &mut pass, 1);
    let second = lock.turn(rt, &mut pass, 1);
    let third = lock.turn(rt, &mut pass, 1);
    (pass, [first, second, third])
}

/// Two threads with a pass each add 1 three times. Gives their answers, and what the counter is in the end.
pub fn count_to_six<R: Threads + Wait + Sync>(
    rt: &R,
    alloc: Global,
) -> Result<([u64; 3], [u64; 3], u64), AllocError> {
    let (lock, mut main) = HistLock::new(alloc, Counter { value: 0 })?;
    let one = lock.split(&mut main)?;
    let other = lock.split(&mut main)?;
    let shared = &lock;
    let (left, right) = join(
        rt,
        move || count_three(rt, shared, one),
        move || count_three(rt, shared, other),
    );
    let (one, ones) = left;
    let (other, others) = right;
    lock.join(&mut main, one);
    lock.join(&mut main, other);
    let counter = lock.close(rt, main);
    Ok((ones, others, counter.value))
}

/// One pass adds 1, and the other meets its note and adds nothing. Gives the two answers, and what the counter is
/// in the end.
pub fn tell<R: Wait>(rt: &R, alloc: Global) -> Result<(u64, u64, u64), AllocError> {
    let (lock, mut main) = HistLock::new(alloc, Counter { value: 10 })?;
    let mut other = lock.split(&mut main)?;
    let added = lock.turn(rt, &mut other, 1);
    let note = lock.note(&mut other);
    lock.meet(&mut main, note);
    let met = lock.turn(rt, &mut main, 0);
    lock.join(&mut main, other);
    Ok((added, met, lock.close(rt, main).value))
}

// Adds 1 in so many turns.
fn count_up<R: Wait>(
    rt: &R,
    lock: &HistLock<Counter>,
    mut pass: Pass<Counter>,
    turns: u64,
) -> Pass<Counter>
    requires { IsOf lock.now pass }
    ensures { IsOf lock.now result }
{
    for _ in 0..turns {
        lock.turn(rt, &mut pass, 1);
    }
    pass
}

// So many passes, split from one.
fn split_off(
    alloc: Global,
    lock: &HistLock<Counter>,
    main: &mut Pass<Counter>,
    count: usize,
) -> Result<Vec<Pass<Counter>>, AllocError>
    requires { IsOf lock.now main.old }
    ensures main { IsOf lock.now main.new }
    ensures passes { IfOk result (λ passes. All (IsOf lock.now) passes.items) }
{
    let mut passes = Vec::new(alloc);
    for _ in 0..count {
        passes.push(lock.split(main)?)?;
    }
    Ok(passes)
}

// Takes them all in.
fn join_all(lock: &HistLock<Counter>, main: &mut Pass<Counter>, mut passes: Vec<Pass<Counter>>)
    requires { IsOf lock.now main.old × All (IsOf lock.now) passes.items }
    ensures { IsOf lock.now main.new }
{
    while let Some(pass) = passes.pop() {
        lock.join(main, pass);
    }
}

/// So many threads with a pass each add 1 in so many turns. Gives what the counter is in the end.
pub fn count_in_threads<R: Threads + Wait + Sync>(
    rt: &R,
    alloc: Global,
    threads: usize,
    turns: u64,
) -> Result<u64, AllocError> {
    let (lock, mut main) = HistLock::new(alloc, Counter { value: 0 })?;
    let passes = split_off(alloc, &lock, &mut main, threads)?;
    let shared = &lock;
    let count = move |pass| count_up(rt, shared, pass, turns);
    let passes = thread::map_vec(rt, passes, &count)?;
    join_all(&lock, &mut main, passes);
    Ok(lock.close(rt, main).value)
}
