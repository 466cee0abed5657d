//! The run, from its first door to the group's last state.
ghost use Rattle.std.specs.Prelude.{◌≡◌, ◌⊎◌, None, Ok, Err, IfOk, IfErr};
ghost use Rattle.std.specs.Arc.{arc_value};
ghost use Rattle.hist_lock.specs.Passes.{IsOf, own_turns};
ghost use Rattle.live_monitor.specs.Monitored.{IsMonitored, can_be_killed};
ghost use Rattle.live_group.specs.Closing.{IsClosed};
ghost use Rattle.live_run.specs.Faults.{after_binds, after_starts, fault_in};
ghost use Rattle.live_run.specs.Runs.{CanRun, IsRun, account};

use crate::serving::{Served, serve};
use crate::stations::set_up;
use client_calls::Told;
use ft_base::NoMemory;
use group_core::GroupCore;
use live_clients::faults_are_counted;
use live_group::close_group;
use live_hosts::ended_hosts_stay;
use live_net::callers_are_in_order;
use live_words::LiveWords;
use outside_crews::{CalmKeeper, Clock, Crew};
use outside_links::{Acceptor, Dialer, Link, Network};
use shipped_servants::Shipped;
use std::alloc::Global;
use std::sync::Wait;
use std::thread::Threads;
use std::time;

/// Why a run doesn't come to its end.
#[derive(Clone, Copy, Debug, PartialEq, Eq)]
pub enum RunFault {
    /// The network refused a door.
    Bind,
    /// The crew refused a thread.
    Thread,
    NoMemory,
}

/// What a run came to: what each client was told, in their order, and the group's core.
#[derive(Drop)]
pub struct RunEnd {
    pub tolds: Vec<Told>,
    pub core: GroupCore<Shipped, CalmKeeper>,
}

// Closes the group's lock, once all have ended.
fn close_run<R: Wait>(rt: &R, served: Served) -> Result<RunEnd, RunFault>
    requires own { IsOf (arc_value served.group).lock served.main }
    requires kill { can_be_killed served.monitor.kill }
    requires so_far { IsMonitored served.monitor (own_turns served.main) }
    ensures closed { IfOk result (λ end. (served.tolds ≡ Ok end.tolds) × IsClosed account (arc_value served.group).lock served.main served.monitor.kill end.core) }
    ensures faults { IfErr result (λ fault. (served.tolds ≡ Err fault) ⊎ ((fault ≡ RunFault.NoMemory) × (fault_in served.tolds ≡ None))) }
{
    let Served {
        group,
        main,
        monitor,
        tolds,
    } = served;
    let tolds = match tolds {
        Ok(tolds) => tolds,
        Err(fault) => return Err(fault),
    };
    match close_group(rt, group, main, monitor) {
        Ok(core) => Ok(RunEnd { tolds, core }),
        Err(NoMemory) => Err(RunFault::NoMemory),
    }
}

/// Runs what the words ask for. Doors are bound first, and callers made; then hosts and clients run side by side, until all
/// have ended. Then the group's lock is closed.
pub fn run_live<
    R: Threads + Wait + time::Clock + Clone + Drop + Send + 'static,
    L: Link + Drop + Send + 'static,
    A: Acceptor<L> + Send + 'static,
    D: Dialer<L> + Send + 'static,
    N: Network<L, A, D>,
    C: Clock,
>(
    rt: &R,
    alloc: Global,
    live: &LiveWords,
    net: &mut N,
    clock: &C,
    crew: &mut Crew<R>,
) -> Result<RunEnd, RunFault>
    requires { CanRun live.now }
    ensures run { IfOk result (λ end. IsRun live.now (record { callers = N.callers net.old; broken = N.broken net.old })
        (record { callers = N.callers net.new; broken = N.broken net.new }) end.tolds.items end.core) }
    ensures binds { N.count net.new ≡ after_binds (fault_in result) (N.count net.old) }
    ensures starts { crew.new.faults ≡ after_starts (fault_in result) crew.old.faults }
{
    ended_hosts_stay();
    callers_are_in_order();
    faults_are_counted::<L, D>();
    let setup = match set_up::<L, A, D, N>(alloc, live, net) {
        Ok(setup) => setup,
        Err(fault) => return Err(fault),
    };
    let served = serve(rt, alloc, net, clock, crew, setup);
    close_run(rt, served)
}
