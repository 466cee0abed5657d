//! What a run needs before its first thread starts.
ghost use Rattle.std.specs.Prelude.{◌≡◌, ◌≢◌, ◌≤◌, ℕ, List, Option, length, map, Err, IfOk};
ghost use Rattle.std.specs.List.{AllByRecursion};
ghost use Rattle.ft_base.specs.declared.limits.TheConstants.{HOST_LIMIT};
ghost use Rattle.ft_base.specs.declared.views.TheConstants.{MEMBER_LIMIT};
ghost use Rattle.live_net.specs.Callers.{AreCallers, IsUnused};
ghost use Rattle.live_run.specs.Faults.{after_binds, fault_in};
ghost use Rattle.live_run.specs.Serving.{IsReady};

use crate::groups::open_account;
use crate::runs::RunFault;
use ft_base::{Name, NoMemory};
use iogr_reference::{ADDRESS, Ports};
use live_group::OpenGroup;
use live_net::{BindFault, Doors, bind_doors, make_callers};
use live_words::LiveWords;
use outside_crews::CalmKeeper;
use outside_links::{Acceptor, Dialer, Link, Network};
use shipped_servants::Shipped;
use std::alloc::Global;
use std::sync::Arc;
use std::sync::atomic::AtomicBool;

/// The hosts' doors with their ports; the clients' callers, the flags by which they tell that they have ended; and the run's
/// own caller, with the address that it dials.
#[derive(Drop)]
pub struct Station<A: Drop, D: Drop> {
    pub doors: Vec<A>,
    pub ports: Ports,
    pub callers: Vec<D>,
    pub flags: Vec<Arc<AtomicBool, Global>>,
    pub own: D,
    pub address: Name,
}

// A flag for each client.
fn make_flags(alloc: Global, count: u8) -> Result<Vec<Arc<AtomicBool, Global>>, NoMemory>
    ensures { IfOk result (λ flags. length flags.items ≡ count) }
{
    let mut flags = Vec::new(alloc);
    for _ in 0..count {
        let Ok(flag) = Arc::new(alloc, AtomicBool::new(false)) else {
            return Err(NoMemory);
        };
        flags.push(flag)?;
    }
    Ok(flags)
}

// The address at which all hosts are.
fn address(alloc: Global) -> Result<Name, NoMemory> {
    match Name::of(alloc, ADDRESS.as_slice()) {
        Ok(name) => Ok(name),
        Err(_) => Err(NoMemory),
    }
}

/// The doors are bound first; then callers are made, the clients' in their order and then the run's own.
pub fn make_station<L: Link, A: Acceptor<L>, D: Dialer<L>, N: Network<L, A, D>>(
    alloc: Global,
    live: &LiveWords,
    net: &mut N,
) -> Result<Station<A, D>, RunFault>
    requires { live.now.hosts ≤ MEMBER_LIMIT }
    ensures doors { IfOk result (λ station. (length station.doors.items ≡ live.now.hosts) × (length station.ports ≡ HOST_LIMIT)) }
    ensures flags { IfOk result (λ station. length station.flags.items ≡ live.now.clients) }
    ensures callers { IfOk result (λ station. (length station.callers.items ≡ live.now.clients)
        × ((now : Option (List (List (List ℕ)))) × AreCallers (N.callers net.old) now (map D.links station.callers.items))) }
    ensures unused { IfOk result (λ station. AllByRecursion (λ c. IsUnused (D.count c) (D.lent c) (D.sent c) (D.targets c)) station.callers.items) }
    ensures faults { N.count net.new ≡ after_binds (fault_in result) (N.count net.old) }
    ensures starts { result ≢ Err (RunFault.Thread) }
    ensures broken { N.broken net.new ≡ N.broken net.old }
{
    let Doors { doors, ports } = match bind_doors::<L, A, D, N>(alloc, net, live.hosts) {
        Ok(doors) => doors,
        Err(BindFault::Refused) => return Err(RunFault::Bind),
        Err(BindFault::NoMemory) => return Err(RunFault::NoMemory),
    };
    let Ok(flags) = make_flags(alloc, live.clients) else {
        return Err(RunFault::NoMemory);
    };
    let Ok(address) = address(alloc) else {
        return Err(RunFault::NoMemory);
    };
    let Ok(callers) = make_callers::<L, A, D, N>(alloc, net, live.clients) else {
        return Err(RunFault::NoMemory);
    };
    let own = net.caller();
    Ok(Station {
        doors,
        ports,
        callers,
        flags,
        own,
        address,
    })
}

/// All that a run has before its first thread starts.
#[derive(Drop)]
pub struct Setup<A: Drop, D: Drop> {
    pub live: LiveWords,
    pub station: Station<A, D>,
    pub opened: OpenGroup<Shipped, CalmKeeper>,
}

/// Makes the station, and opens the group with its ports.
pub fn set_up<L: Link, A: Acceptor<L>, D: Dialer<L>, N: Network<L, A, D>>(
    alloc: Global,
    live: &LiveWords,
    net: &mut N,
) -> Result<Setup<A, D>, RunFault>
    requires { live.now.hosts ≤ MEMBER_LIMIT }
    ensures ready { IfOk result (IsReady live.now) }
    ensures callers { IfOk result (λ setup. ((now : Option (List (List (List ℕ)))) × AreCallers (N.callers net.old) now (map D.links setup.station.callers.items))) }
    ensures unused { IfOk result (λ setup. AllByRecursion (λ c. IsUnused (D.count c) (D.lent c) (D.sent c) (D.targets c)) setup.station.callers.items) }
    ensures faults { N.count net.new ≡ after_binds (fault_in result) (N.count net.old) }
    ensures starts { result ≢ Err (RunFault.Thread) }
    ensures broken { N.broken net.new ≡ N.broken net.old }
{
    let station = match make_station::<L, A, D, N>(alloc, live, net) {
        Ok(station) => station,
        Err(fault) => return Err(fault),
    };
    match open_account(alloc, live, &station.ports) {
        Ok(opened) => Ok(Setup {
            live: *live,
            station,
            opened,
        }),
        Err(NoMemory) => Err(RunFault::NoMemory),
    }
}
