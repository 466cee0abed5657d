//! Runs whose time is taken.
ghost use Rattle.std.specs.Prelude.{◌<◌};

use crate::mutexes::{SomeCore, deposit_in_threads};
use anyhow::Result;
use deposit_callers::{open_core, open_group, split_off, values_told, work_in_threads};
use ft_base::Style;
use octet_words::no_memory;
use outside_crews::CalmKeeper;
use shipped_servants::{Kind, Shipped};
use std::alloc::Global;
use std::sync::{Mutex, Wait};
use std::thread::Threads;
use std::time::{Clock, Duration, Instant};

/// How many deposits had a value, each in a turn, and how long they took.
#[derive(Drop)]
pub struct Run {
    pub turns: u64,
    pub time: Duration,
}

/// So many deposits by so many threads, in the lock that knows its history.
pub fn run_in_lock<R: Threads + Wait + Sync + Clock>(
    rt: &R,
    alloc: Global,
    threads: u32,
    deposits: u32,
) -> Result<Run>
    requires { 0 < threads }
{
    let account = Shipped::open(alloc, Kind::Account).map_err(no_memory)?;
    let keeper = CalmKeeper::new(alloc);
    let (group, mut main) = open_group(alloc, Style::Cold, account, keeper).map_err(no_memory)?;
    let workers = split_off(alloc, &group, &mut main, threads, deposits / threads).map_err(
        no_memory,
    )?;
    let start = Instant::now(rt)?;
    let workers = work_in_threads(rt, alloc, &group, workers).map_err(no_memory)?;
    let time = start.elapsed(rt)?;
    let turns = values_told(&workers);
    Ok(Run { turns, time })
}

/// The same behind a mutex.
pub fn run_behind_mutex<R: Threads + Wait + Sync + Clock>(
    rt: &R,
    alloc: Global,
    threads: u32,
    deposits: u32,
) -> Result<Run>
    requires { 0 < threads }
{
    let account = Shipped::open(alloc, Kind::Account).map_err(no_memory)?;
    let keeper = CalmKeeper::new(alloc);
    let core = open_core(alloc, Style::Cold, account, keeper).map_err(no_memory)?;
    let core = Mutex::new(SomeCore::new(core));
    let start = Instant::now(rt)?;
    let turns = deposit_in_threads(rt, alloc, &core, threads, deposits / threads).map_err(
        no_memory,
    )?;
    let time = start.elapsed(rt)?;
    Ok(Run { turns, time })
}
