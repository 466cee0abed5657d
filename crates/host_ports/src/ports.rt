ghost use Rattle.std.specs.Prelude.{◌≡◌, ◌≢◌, ◌<◌, ℕ, length, slice_index, IfOk, IfSome, IfNone};
ghost use Rattle.iogr_reference.specs.Choices.{port_of};
ghost use Rattle.host_ports.specs.Ports.{all_ports, host_at};

use ft_base::{HOST_LIMIT, HostNo, NoMemory};
use iogr_reference::{FIRST_PORT, Ports};
use std::alloc::Global;

/// The port of each host that there can be, by the host's number.
pub fn all_ports(alloc: Global) -> Result<Ports, NoMemory>
    ensures ports { IfOk result (λ ports. ports ≡ all_ports) }
    ensures count { IfOk result (λ ports. length ports ≡ HOST_LIMIT) }
    ensures each { IfOk result (λ ports. (host : ℕ) → host < HOST_LIMIT → slice_index ports host ≡ port_of host) }
{
    let ports = ports_in_order(alloc)?;
    Ok(Ports::from_vec(ports))
}

#[tactic(auto, unfolding(crate::specs::Ports::all_ports))]
fn ports_in_order(alloc: Global) -> Result<Vec<u16>, NoMemory>
    ensures { IfOk result (λ ports. ports.items ≡ all_ports) }
{
    let mut ports = Vec::new(alloc);
    for host in 0..HOST_LIMIT as u16 {
        ports.push(FIRST_PORT + host)?;
    }
    Ok(ports)
}

/// The host that listens at a port.
pub fn host_at(port: u16) -> Option<HostNo>
    ensures value { result ≡ host_at port }
    ensures found { IfSome result (λ host. port ≡ port_of host.0) }
    ensures within { IfSome result (λ host. host.0 < HOST_LIMIT) }
    ensures other { IfNone result ((host : ℕ) → host < HOST_LIMIT → port ≢ port_of host) }
{
    if port < FIRST_PORT {
        return None;
    }
    let number = port - FIRST_PORT;
    if (number as usize) < HOST_LIMIT {
        Some(HostNo(number as u8))
    } else {
        None
    }
}
