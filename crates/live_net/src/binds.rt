//! The doors of a run's hosts.
ghost use Rattle.std.specs.Prelude.{◌≡◌, ◌≤◌, length, map, replicate, IfOk};
ghost use Rattle.ft_base.specs.declared.limits.TheConstants.{HOST_LIMIT};
ghost use Rattle.live_net.specs.Doors.{after_binds, ports_of};

use ft_base::{HOST_LIMIT, NoMemory};
use iogr_reference::Ports;
use outside_links::{Acceptor, Dialer, Link, Network};
use std::alloc::Global;

/// Why the doors were not bound.
#[derive(Clone, Copy, Debug, PartialEq, Eq)]
pub enum BindFault {
    /// The network refused.
    Refused,
    NoMemory,
}

/// The doors of hosts, by the host's number, and the ports of all hosts that there can be.
#[derive(Drop)]
pub struct Doors<A: Drop> {
    pub doors: Vec<A>,
    pub ports: Ports,
}

// No host has a port yet.
fn no_ports(alloc: Global) -> Result<Vec<u16>, NoMemory>
    ensures { IfOk result (λ ports. ports.items ≡ replicate HOST_LIMIT 0) }
{
    match vec![in alloc; 0u16; HOST_LIMIT] {
        Ok(ports) => Ok(ports),
        Err(_) => Err(NoMemory),
    }
}

/// Binds a door for each of so many hosts, and stops at the first that is refused. It takes its memory before it binds one.
pub fn bind_doors<L: Link, A: Acceptor<L>, D: Dialer<L>, N: Network<L, A, D>>(
    alloc: Global,
    net: &mut N,
    count: u8,
) -> Result<Doors<A>, BindFault>
    requires few { count ≤ HOST_LIMIT }
    ensures doors { IfOk result (λ bound. length bound.doors.items ≡ count) }
    ensures ports { IfOk result (λ bound. bound.ports ≡ ports_of (map A.own_port bound.doors.items)) }
    ensures places { IfOk result (λ bound. length bound.ports ≡ HOST_LIMIT) }
    ensures faults { N.count net.new ≡ after_binds result (N.count net.old) }
    ensures broken { N.broken net.new ≡ N.broken net.old }
    ensures callers { N.callers net.new ≡ N.callers net.old }
{
    let Ok(mut doors) = Vec::with_capacity(alloc, count as usize) else {
        return Err(BindFault::NoMemory);
    };
    let mut ports = match no_ports(alloc) {
        Ok(ports) => ports,
        Err(NoMemory) => return Err(BindFault::NoMemory),
    };
    for place in 0..count {
        let Some(door) = net.bind() else {
            return Err(BindFault::Refused);
        };
        ports[place as usize] = door.port();
        doors.push_reserved(door);
    }
    Ok(Doors {
        doors,
        ports: Ports::from_vec(ports),
    })
}
