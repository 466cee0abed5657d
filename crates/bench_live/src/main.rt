//! Makes deposits by 1, 2, 4 and 8 threads in a shared group, and in its core behind a std `Mutex`. How many turns a
//! second they take goes to standard error: standard output is the same on every run with the same word, which is how many
//! deposits the threads make together.
#![tactic(auto)]

mod mutexes;
mod runs;

ghost use Rattle.std.specs.Prelude.{◌<◌};

use crate::runs::{Run, run_behind_mutex, run_in_lock};
use anyhow::{Context, Result};
use std::env;
use std::num::nearest_u64_to_f64;
use std::rt::Env;

// How many deposits this word of the command line wants.
fn deposits(rt: &(impl Env + AllocGlobal), place: usize) -> Result<u32> {
    let word = env::args(rt)?.nth(place).context("how many deposits?")?;
    Ok(word.parse::<u32>()?)
}

fn turns_per_second(run: &Run) -> f64 {
    nearest_u64_to_f64(run.turns) / run.time.as_secs_f64()
}

fn main(rt: HostRuntime) -> Result<()> {
    let count = deposits(&rt, 1)?;
    for threads in [1, 2, 4, 8] {
        let lock = run_in_lock(&rt, rt.alloc(), threads, count)?;
        let mutex = run_behind_mutex(&rt, rt.alloc(), threads, count)?;
        let (by_lock, by_mutex) = (turns_per_second(&lock), turns_per_second(&mutex));
        eprintln!(rt;
            "threads {threads}: {by_lock:.0} turns/s in the lock, {by_mutex:.0} behind a Mutex, ratio {:.3}",
            by_lock / by_mutex
        )?;
        println!(rt;
            "threads {threads}: {} and {} deposits",
            lock.turns, mutex.turns
        )?;
    }
    Ok(())
}
