//! The threads of a run are started.
ghost use Rattle.std.specs.Prelude.{◌≡◌, ◌≢◌, ◌≤◌, Some, None, length, map, MatchOption};
ghost use Rattle.live_clients.specs.Clients.{HasPorts, task_of, tasks_of};
ghost use Rattle.live_run.specs.Faults.{after_starts, client_fault, host_fault};

use crate::runs::RunFault;
use ft_base::NoMemory;
use live_clients::{ClientJob, ClientSetting, RunningClients, start_clients};
use live_hosts::StartFault;
use outside_crews::{Crew, Running};
use outside_links::{Dialer, Link};
use std::alloc::Global;
use std::sync::atomic::AtomicBool;
use std::sync::{Arc, Wait};
use std::thread::Threads;
use std::time::Clock;

/// Clients that run, and why there are not all of them.
#[derive(Drop)]
pub struct Clients<
    R: Wait + Clock + Drop + Send + 'static,
    L: Link + Drop + Send + 'static,
    D: Dialer<L> + Send + 'static,
> {
    pub running: Vec<Running<ClientJob<R, L, D>>>,
    pub fault: Option<RunFault>,
}

fn host_fault(fault: StartFault) -> RunFault
    ensures { result ≡ host_fault fault }
{
    match fault {
        StartFault::Refused => RunFault::Thread,
        StartFault::NoMemory => RunFault::NoMemory,
    }
}

fn client_fault(all: Result<bool, NoMemory>) -> Option<RunFault>
    ensures { result ≡ client_fault all }
{
    match all {
        Ok(true) => None,
        Ok(false) => Some(RunFault::Thread),
        Err(NoMemory) => Some(RunFault::NoMemory),
    }
}

/// Starts the clients; none where a host wasn't started.
pub fn start_behind_hosts<
    R: Threads + Wait + Clock + Clone + Drop + Send + 'static,
    L: Link + Drop + Send + 'static,
    D: Dialer<L> + Send + 'static,
>(
    rt: &R,
    alloc: Global,
    crew: &mut Crew<R>,
    setting: &ClientSetting<'_>,
    callers: Vec<D>,
    flags: &[Arc<AtomicBool, Global>],
    hosts: Option<StartFault>,
) -> Clients<R, L, D>
    requires ports { HasPorts setting.now }
    requires flags { length callers.items ≤ length flags.now }
    ensures all { result.fault ≡ None → map task_of result.running.items ≡ tasks_of setting.now callers.items }
    ensures faults { MatchOption hosts (crew.new.faults ≡ after_starts result.fault crew.old.faults) (λ fault. (crew.new ≡ crew.old) × (result.fault ≡ Some (host_fault fault))) }
    ensures doors { result.fault ≢ Some (RunFault.Bind) }
{
    if let Some(fault) = hosts {
        return Clients {
            running: Vec::new(alloc),
            fault: Some(host_fault(fault)),
        };
    }
    let RunningClients { running, all } = start_clients(rt, alloc, crew, setting, callers, flags);
    Clients {
        running,
        fault: client_fault(all),
    }
}
