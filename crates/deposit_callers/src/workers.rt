//! Workers with a pass each, in threads of their own.
ghost use Rattle.std.specs.Prelude.{All, IfOk};
ghost use Rattle.hist_lock.specs.Passes.{IsOf};

use crate::callers::{Target, ask_on};
use crate::upsets::{HOST_COUNT, upset};
use ft_base::{NoMemory, Servant};
use ft_outside::Keeper;
use shared_group::{Pass, SharedGroup};
use std::alloc::Global;
use std::sync::Wait;
use std::thread;
use std::thread::Threads;

/// How often hosts are stopped and started again at most.
const UPSET_LIMIT: u32 = 10_000;

/// What a worker is to do.
#[derive(Clone, Copy)]
pub enum Task {
    /// To make the deposits with the keys of these numbers, from the first to the one before the last.
    Deposit { first: u32, last: u32 },
    /// To stop hosts, start them again and change members, until the journal has so many entries.
    Upset { entries: u32 },
}

/// A worker with its pass, and the values that it was told.
#[derive(Drop)]
pub struct Worker<S: Servant + Drop, K: Keeper> {
    pub pass: Pass<S, K>,
    pub task: Task,
    pub values: Vec<u64>,
}

// Makes the deposits, up to the first that gets no value.
fn deposit<R: Wait, S: Servant + Drop, K: Keeper + Drop>(
    rt: &R,
    alloc: Global,
    group: &SharedGroup<S, K>,
    pass: &mut Pass<S, K>,
    first: u32,
    last: u32,
) -> Vec<u64>
    requires { IsOf group.now.lock pass.old }
    ensures { IsOf group.now.lock pass.new }
{
    let mut values: Vec<u64> = Vec::new(alloc);
    let mut at = Target::first();
    for id in first..last {
        let Some(value) = ask_on(rt, alloc, group, pass, &mut at, id) else {
            return values;
        };
        if values.push(value).is_err() {
            return values;
        }
    }
    values
}

// Whether the journal has so many entries.
fn has_entries<R: Wait, S: Servant + Drop, K: Keeper + Drop>(
    rt: &R,
    group: &SharedGroup<S, K>,
    pass: &mut Pass<S, K>,
    entries: u32,
) -> bool
    requires { IsOf group.now.lock pass.old }
    ensures { IsOf group.now.lock pass.new }
{
    match group.figures(rt, pass) {
        Ok(figures) => figures.entries >= entries,
        Err(NoMemory) => false,
    }
}

// Stops each host in turn and starts it again, until the journal has so many entries.
fn upset_until<R: Wait, S: Servant + Drop, K: Keeper + Drop>(
    rt: &R,
    group: &SharedGroup<S, K>,
    pass: &mut Pass<S, K>,
    entries: u32,
)
    requires { IsOf group.now.lock pass.old }
    ensures { IsOf group.now.lock pass.new }
{
    for round in 0..UPSET_LIMIT {
        if has_entries(rt, group, pass, entries) {
            return;
        }
        upset(rt, group, pass, (round % u32::from(HOST_COUNT)) as u8);
    }
}

// Does a worker's task.
fn work<R: Wait, S: Servant + Drop, K: Keeper + Drop>(
    rt: &R,
    alloc: Global,
    group: &SharedGroup<S, K>,
    worker: Worker<S, K>,
) -> Worker<S, K>
    requires { IsOf group.now.lock worker.pass }
    ensures { IsOf group.now.lock result.pass }
{
    let Worker {
        mut pass,
        task,
        mut values,
    } = worker;
    match task {
        Task::Deposit { first, last } => {
            values = deposit(rt, alloc, group, &mut pass, first, last);
        }
        Task::Upset { entries } => upset_until(rt, group, &mut pass, entries),
    }
    Worker { pass, task, values }
}

/// So many workers, split from a pass, who make so many deposits each, with keys of their own.
pub fn split_off<S: Servant + Drop, K: Keeper + Drop>(
    alloc: Global,
    group: &SharedGroup<S, K>,
    main: &mut Pass<S, K>,
    count: u32,
    each: u32,
) -> Result<Vec<Worker<S, K>>, NoMemory>
    requires { IsOf group.now.lock main.old }
    ensures main { IsOf group.now.lock main.new }
    ensures workers { IfOk result (λ workers. All (λ worker. IsOf group.now.lock worker.pass) workers.items) }
{
    let mut workers = Vec::new(alloc);
    for number in 0..count {
        let pass = group.split(main)?;
        let first = number.wrapping_mul(each);
        let last = first.wrapping_add(each);
        let task = Task::Deposit { first, last };
        let values = Vec::new(alloc);
        workers.push(Worker { pass, task, values })?;
    }
    Ok(workers)
}

/// Each worker does its task in a thread of its own.
pub fn work_in_threads<R: Threads + Wait + Sync, S: Servant + Drop + Send, K: Keeper + Drop + Send>(
    rt: &R,
    alloc: Global,
    group: &SharedGroup<S, K>,
    workers: Vec<Worker<S, K>>,
) -> Result<Vec<Worker<S, K>>, NoMemory>
    requires { All (λ worker. IsOf group.now.lock worker.pass) workers.items }
    ensures { IfOk result (λ workers. All (λ worker. IsOf group.now.lock worker.pass) workers.items) }
{
    let work = move |worker| work(rt, alloc, group, worker);
    Ok(thread::map_vec(rt, workers, &work)?)
}

/// How many values workers were told.
pub fn values_told<S: Servant + Drop, K: Keeper>(workers: &[Worker<S, K>]) -> u64 {
    let mut count: u64 = 0;
    for worker in workers {
        count = count.wrapping_add(worker.values.len() as u64);
    }
    count
}
