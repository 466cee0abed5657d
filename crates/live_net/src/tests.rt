ghost use Rattle.std.specs.Prelude.{IfOk};
ghost use Rattle.outside_links.specs.Wires.{IsNewCaller};

use crate::farewells::send_farewell;
use crate::{BindFault, bind_doors, make_callers};
use ft_base::{Name, NoMemory};
use iogr_reference::ADDRESS;
use outside_links::{Dialer, MemCaller, MemDoor, MemLink, MemNetwork};
use std::alloc::Global;
use std::collections::VecDeque;

// The ports of the first three hosts, of whom two have doors. The bind with this number is to fail.
fn bound(alloc: Global, fails: u64) -> Result<Result<[u16; 3], BindFault>, NoMemory> {
    let mut doors = VecDeque::new(alloc);
    doors.push_back(MemDoor::new(VecDeque::new(alloc), 80))?;
    doors.push_back(MemDoor::new(VecDeque::new(alloc), 81))?;
    let mut net = MemNetwork::new(alloc, doors, VecDeque::new(alloc), &[fails])?;
    match bind_doors(alloc, &mut net, 2) {
        Ok(bound) => {
            let ports = bound.ports.as_slice();
            Ok(Ok([ports[0], ports[1], ports[2]]))
        }
        Err(fault) => Ok(Err(fault)),
    }
}

#[test]
fn doors_are_bound_up_to_a_refusal(rt: HostRuntime) -> Result<(), NoMemory> {
    let alloc = rt.alloc();
    assert_eq!(rt; bound(alloc, 0)?, Ok([80, 81, 0]));
    assert_eq!(rt; bound(alloc, 2)?, Err(BindFault::Refused));
    Ok(())
}

// A caller of one link.
fn caller(alloc: Global) -> Result<MemCaller, NoMemory>
    ensures { IfOk result IsNewCaller }
{
    let mut links = VecDeque::new(alloc);
    links.push_back(MemLink::new(alloc, &[7], 12, &[])?)?;
    MemCaller::new(alloc, links)
}

// Which of three callers can dial, where the network has one with a link and one without.
fn dialling(alloc: Global, address: &Name) -> Result<Vec<bool>, NoMemory> {
    let mut callers = VecDeque::new(alloc);
    callers.push_back(MemCaller::without_links(alloc))?;
    callers.push_back(caller(alloc)?)?;
    let mut net = MemNetwork::new(alloc, VecDeque::new(alloc), callers, &[])?;
    let mut dialling = Vec::new(alloc);
    for mut caller in make_callers(alloc, &mut net, 3)? {
        dialling.push(caller.dial(address, 80).is_some())?;
    }
    Ok(dialling)
}

fn address(alloc: Global) -> Result<Name, NoMemory> {
    match Name::of(alloc, ADDRESS.as_slice()) {
        Ok(name) => Ok(name),
        Err(_) => Err(NoMemory),
    }
}

#[test]
fn callers_are_made_in_order(rt: HostRuntime) -> Result<(), NoMemory> {
    let alloc = rt.alloc();
    let address = address(alloc)?;
    assert_eq!(rt;
        dialling(alloc, &address)?.as_slice(),
        [false, true, false].as_slice()
    );
    Ok(())
}

#[test]
fn a_farewell_is_a_close_connection(rt: HostRuntime) -> Result<(), NoMemory> {
    let alloc = rt.alloc();
    let address = address(alloc)?;
    let mut caller = caller(alloc)?;
    send_farewell(&mut caller, &address, 80);
    let close = [0x47, 0x49, 0x4f, 0x50, 1, 2, 0, 5, 0, 0, 0, 0];
    assert_eq!(rt; caller.sent_at(0), Some(close.as_slice()));
    // a refused dial
    send_farewell(&mut caller, &address, 80);
    assert_eq!(rt; caller.faults(), 1);
    Ok(())
}
