//! Clients are started in order, and joined.
ghost use Rattle.std.specs.Prelude.{◌≡◌, ℕ, ◌≤◌, ◌++◌, ◌∷◌, [], true, false, length, map, IfOk, MatchResult};
ghost use Rattle.ft_outside.specs.Outside.{added};
ghost use Rattle.client_calls.specs.Requests.{HasHosts};
ghost use Rattle.live_clients.specs.Clients.{AreStarted, AreTold, CountsStart, HasPorts, IsToldBy, client_task, task_of, tasks_of};

use crate::jobs::{ClientEnd, ClientJob};
use crate::settings::{ClientSetting, client_name, client_reference};
use client_calls::Told;
use ft_base::NoMemory;
use outside_crews::{Crew, Running, Started};
use outside_links::{Acceptor, Dialer, Link, Network};
use std::alloc::Global;
use std::marker::PhantomData;
use std::sync::atomic::AtomicBool;
use std::sync::{Arc, Wait};
use std::thread::Threads;
use std::time::Clock;

/// Clients that were started, and whether all were: not where the crew refused one.
#[derive(Drop)]
pub struct RunningClients<
    R: Wait + Clock + Drop + Send + 'static,
    L: Link + Drop + Send + 'static,
    D: Dialer<L> + Send + 'static,
> {
    pub running: Vec<Running<ClientJob<R, L, D>>>,
    pub all: Result<bool, NoMemory>,
}

// The job of the client with this number.
fn client_job<R: Wait + Clock + Clone + Drop, L: Link + Drop, D: Dialer<L>>(
    rt: &R,
    alloc: Global,
    setting: &ClientSetting<'_>,
    number: u64,
    caller: D,
    ended: &Arc<AtomicBool, Global>,
) -> Result<ClientJob<R, L, D>, NoMemory>
    requires { HasPorts setting.now }
    ensures task { IfOk result (λ job. task_of job ≡ client_task setting.now number caller) }
    ensures hosts { IfOk result (λ job. HasHosts job.reference) }
{
    let name = client_name(alloc, number)?;
    let reference = client_reference(alloc, setting)?;
    let Ok(ended) = Arc::try_clone(ended) else {
        return Err(NoMemory);
    };
    let Ok(rt) = rt.clone() else {
        return Err(NoMemory);
    };
    Ok(ClientJob {
        rt,
        alloc,
        name,
        reference,
        calls: setting.calls,
        caller,
        ended,
        link: PhantomData,
    })
}

// Starts a job behind those that run. Whether the crew gave it a thread.
fn start_behind<
    R: Threads + Wait + Clock + Clone + Drop + Send + 'static,
    L: Link + Drop + Send + 'static,
    D: Dialer<L> + Send + 'static,
>(
    crew: &mut Crew<R>,
    job: ClientJob<R, L, D>,
    running: &mut Vec<Running<ClientJob<R, L, D>>>,
) -> Result<bool, NoMemory>
    requires { HasHosts job.reference }
    ensures more { IfOk result (λ begun. begun ≡ true → running.new.items ≡ running.old.items ++ job ∷ []) }
    ensures same { MatchResult result (λ begun. begun ≡ false → running.new.items ≡ running.old.items) (λ _. running.new.items ≡ running.old.items) }
    ensures faults { CountsStart result crew.old crew.new }
{
    running.reserve(1)?;
    match crew.start(job) {
        Started::Running(one) => {
            running.push(one).unwrap();
            Ok(true)
        }
        Started::Refused => Ok(false),
    }
}

/// Starts a client for each caller, in order, as far as there are threads and memory. Each sets its flag as it ends.
pub fn start_clients<
    R: Threads + Wait + Clock + Clone + Drop + Send + 'static,
    L: Link + Drop + Send + 'static,
    D: Dialer<L> + Send + 'static,
>(
    rt: &R,
    alloc: Global,
    crew: &mut Crew<R>,
    setting: &ClientSetting<'_>,
    callers: Vec<D>,
    flags: &[Arc<AtomicBool, Global>],
) -> RunningClients<R, L, D>
    requires ports { HasPorts setting.now }
    requires flags { length callers.items ≤ length flags.now }
    ensures started { AreStarted setting.now callers.items (map task_of result.running.items) }
    ensures all { IfOk result.all (λ all. all ≡ true → map task_of result.running.items ≡ tasks_of setting.now callers.items) }
    ensures faults { CountsStart result.all crew.old crew.new }
{
    let mut running = Vec::new(alloc);
    for caller in callers {
        let number = running.len();
        let job = match client_job(rt, alloc, setting, number as u64, caller, &flags[number]) {
            Ok(job) => job,
            Err(NoMemory) => {
                return RunningClients {
                    running,
                    all: Err(NoMemory),
                };
            }
        };
        match start_behind(crew, job, &mut running) {
            Ok(true) => {}
            all => return RunningClients { running, all },
        }
    }
    RunningClients {
        running,
        all: Ok(true),
    }
}

// Waits for a client's end, and gives its caller back to the network.
fn join_client<
    R: Threads + Wait + Clock + Clone + Drop + Send + 'static,
    L: Link + Drop + Send + 'static,
    D: Dialer<L> + Send + 'static,
    A: Acceptor<L>,
    N: Network<L, A, D>,
>(rt: &R, net: &mut N, client: Running<ClientJob<R, L, D>>) -> Result<Told, NoMemory>
    ensures told { IfOk result (λ told. (faults : ℕ) × IsToldBy D.links D.targets D.sent D.count (task_of client) told faults × (N.broken net.new ≡ added (N.broken net.old) faults)) }
    ensures count { N.count net.new ≡ N.count net.old }
    ensures callers { N.callers net.new ≡ N.callers net.old }
{
    let ClientEnd { told, caller } = client.join(rt);
    net.take_caller(caller);
    told
}

// Whether there was room for what a client was told.
fn push_told(tolds: &mut Vec<Told>, told: Told) -> bool
    ensures { result ≡ true → tolds.new.items ≡ tolds.old.items ++ told ∷ [] }
{
    match tolds.push(told) {
        Ok(()) => true,
        Err(_) => false,
    }
}

/// Waits for the end of all clients, in order, and gives their callers back to the network.
pub fn join_clients<
    R: Threads + Wait + Clock + Clone + Drop + Send + 'static,
    L: Link + Drop + Send + 'static,
    D: Dialer<L> + Send + 'static,
    A: Acceptor<L>,
    N: Network<L, A, D>,
>(
    rt: &R,
    alloc: Global,
    net: &mut N,
    running: Vec<Running<ClientJob<R, L, D>>>,
) -> Result<Vec<Told>, NoMemory>
    ensures told { IfOk result (λ tolds. AreTold D.links D.targets D.sent D.count (map task_of running.items) tolds.items (N.broken net.old) (N.broken net.new)) }
    ensures count { N.count net.new ≡ N.count net.old }
    ensures callers { N.callers net.new ≡ N.callers net.old }
{
    let mut tolds = Vec::new(alloc);
    let mut whole = true;
    for client in running {
        match join_client::<R, L, D, A, N>(rt, net, client) {
            Ok(told) => whole = push_told(&mut tolds, told) && whole,
            Err(NoMemory) => whole = false,
        }
    }
    if whole { Ok(tolds) } else { Err(NoMemory) }
}
