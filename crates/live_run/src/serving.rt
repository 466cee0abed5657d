//! Hosts and clients run side by side, until all have ended.
ghost use Rattle.std.specs.Prelude.{◌≡◌, ◌≢◌, None, Some, Ok, Err, IfOk, IfErr, IfSome};
ghost use Rattle.std.specs.Arc.{arc_value};
ghost use Rattle.live_clients.specs.Clients.{AreTold, tasks_from};
ghost use Rattle.live_run.specs.Faults.{after_starts, fault_in};
ghost use Rattle.live_run.specs.Runs.{CanRun, first_reference, kill_of};
ghost use Rattle.live_run.specs.Serving.{HasWatched, HaveServed, IsReady};

use crate::groups::kill_of;
use crate::runs::RunFault;
use crate::starts::{Clients, start_behind_hosts};
use crate::stations::{Setup, Station};
use client_calls::Told;
use ft_base::NoMemory;
use live_clients::{ClientSetting, join_clients};
use live_group::{GROUP, OpenGroup, watch};
use live_hosts::{Hosts, join_hosts, start_hosts};
use live_monitor::RunMonitor;
use live_net::end_hosts;
use outside_crews::{CalmKeeper, Clock, Crew};
use outside_links::{Acceptor, Dialer, Link, Network};
use shared_group::{Pass, SharedGroup};
use shipped_servants::Shipped;
use std::alloc::Global;
use std::sync::{Arc, Wait};
use std::thread::Threads;
use std::time;

/// The group once all threads have ended, with the run's pass and its monitor; and what the clients were told.
#[derive(Drop)]
pub struct Served {
    pub group: Arc<SharedGroup<Shipped, CalmKeeper>, Global>,
    pub main: Pass<Shipped, CalmKeeper>,
    pub monitor: RunMonitor,
    pub tolds: Result<Vec<Told>, RunFault>,
}

// What all clients were told, where nothing kept one from it.
fn tolds_without(
    fault: Option<RunFault>,
    tolds: Result<Vec<Told>, NoMemory>,
) -> Result<Vec<Told>, RunFault>
    ensures ok { IfOk result (λ all. (fault ≡ None) × (tolds ≡ Ok all)) }
    ensures fault { IfSome fault (λ why. result ≡ Err why) }
    ensures memory { fault ≡ None → IfErr result (λ why. why ≡ RunFault.NoMemory) }
{
    if let Some(fault) = fault {
        return Err(fault);
    }
    match tolds {
        Ok(tolds) => Ok(tolds),
        Err(NoMemory) => Err(RunFault::NoMemory),
    }
}

/// Starts the hosts and then the clients, monitors the group in this thread until all clients have ended, joins them and gives
/// their callers back, and then ends the hosts and joins them. Where a thread can't be started, those that run are ended and
/// joined all the same.
pub fn serve<
    R: Threads + Wait + time::Clock + Clone + Drop + Send + 'static,
    L: Link + Drop + Send + 'static,
    A: Acceptor<L> + Send + 'static,
    D: Dialer<L> + Send + 'static,
    N: Network<L, A, D>,
    C: Clock,
>(rt: &R, alloc: Global, net: &mut N, clock: &C, crew: &mut Crew<R>, setup: Setup<A, D>) -> Served
    requires ready { IsReady setup.live setup }
    requires can { CanRun setup.live }
    ensures group { arc_value result.group ≡ arc_value setup.opened.group }
    ensures hosts { IfOk result.tolds (λ _. HaveServed setup.live.hosts result.main) }
    ensures monitor { HasWatched setup.live result.monitor (arc_value result.group) result.main }
    ensures clients { IfOk result.tolds (λ tolds. AreTold D.links D.targets D.sent D.count
        (tasks_from (first_reference setup.live setup.station.ports) setup.live.calls 0 setup.station.callers.items) tolds.items (N.broken net.old) (N.broken net.new)) }
    ensures binds { (N.count net.new ≡ N.count net.old) × (result.tolds ≢ Err (RunFault.Bind)) }
    ensures starts { crew.new.faults ≡ after_starts (fault_in result.tolds) crew.old.faults }
{
    let Setup {
        live,
        station,
        opened,
    } = setup;
    let Station {
        doors,
        ports,
        callers,
        mut flags,
        own,
        address,
    } = station;
    let OpenGroup {
        group,
        mut main,
        view,
    } = opened;
    let Hosts {
        started: hosts,
        fault,
    } = start_hosts(rt, alloc, crew, &group, &mut main, doors);
    let setting = ClientSetting {
        group: GROUP,
        type_id: group.type_id(),
        view: &view,
        ports: &ports,
        calls: live.calls,
    };
    let Clients {
        running: clients,
        fault,
    } = start_behind_hosts(rt, alloc, crew, &setting, callers, flags.as_slice(), fault);
    flags.truncate(clients.len());
    let mut monitor = RunMonitor::new(alloc, kill_of(&live));
    watch(rt, &group, &mut main, &mut monitor, clock, flags.as_slice());
    let tolds = join_clients::<R, L, D, A, N>(rt, alloc, net, clients);
    end_hosts(rt, own, &address, hosts.as_slice(), &ports);
    join_hosts(rt, &group, &mut main, hosts);
    Served {
        group,
        main,
        monitor,
        tolds: tolds_without(fault, tolds),
    }
}
