use crate::{
    Acceptor, Dialer, Link, MemCaller, MemDoor, MemLink, MemNetwork, Network, TcpLink, TcpNetwork,
    send_all,
};
use ft_base::{Name, NoMemory};
use ft_outside::{Got, Put, WholeWrite};
use std::alloc::Global;
use std::collections::VecDeque;
use std::io;
use std::io::Read;
use std::net::{Ipv4Addr, Shutdown, TcpStream};
use std::thread::{Threads, join};

fn localhost(alloc: Global) -> Result<Name, NoMemory> {
    named(alloc, b"localhost")
}

fn named(alloc: Global, text: &[u8; 9]) -> Result<Name, NoMemory> {
    match Name::of(alloc, text) {
        Ok(name) => Ok(name),
        Err(_) => Err(NoMemory),
    }
}

const PIECES: [usize; 3] = [1, 64, 65_536];

// How many of so many bytes come over a link, each of which is a 7.
fn come<L: Link>(link: &mut L, count: usize) -> usize {
    let mut into = [0u8; 4096];
    let mut came = 0usize;
    for _ in 0..count {
        if came >= count {
            return came;
        }
        match link.receive(&mut into) {
            Got::Bytes(n) if into[..n].iter().all(|byte| *byte == 7) => {
                came = came.saturating_add(n);
            }
            _ => return came,
        }
    }
    came
}

// Whether a piece goes from one end to the other, and comes back.
fn goes_both_ways<L: Link>(near: &mut L, far: &mut L, piece: &[u8]) -> bool {
    let there = send_all(near, piece) == WholeWrite::All && come(far, piece.len()) == piece.len();
    let back = send_all(far, piece) == WholeWrite::All && come(near, piece.len()) == piece.len();
    there && back
}

#[test]
fn pieces_pass_over_loopback(rt: HostRuntime) -> Result<(), NoMemory> {
    let name = localhost(rt.alloc())?;
    let bytes = [7u8; 65_536];
    let mut network = TcpNetwork::new(rt);
    let mut caller = network.caller();
    if let Some(mut door) = network.bind() {
        // its port is taken
        assert!(rt; network.bind_at(door.port()).is_none());
        let near = caller.dial(&name, door.port());
        let far = door.accept();
        if let (Some(mut near), Some(mut far)) = (near, far) {
            assert!(rt; near.stream.nodelay().unwrap_or(false));
            for size in PIECES {
                for _ in 0..16 {
                    assert!(rt;
                        goes_both_ways(&mut near, &mut far, &bytes[..size]),
                        "{size}"
                    );
                }
            }
            assert_eq!(rt; near.faults(), 0);
            caller.take_back(near);
        }
    }
    network.take_caller(caller);
    Ok(())
}

// Two ends of a link.
fn ends<L: Link, A: Acceptor<L>, D: Dialer<L>, N: Network<L, A, D>>(
    network: &mut N,
    name: &Name,
) -> Option<(L, L)> {
    let mut door = network.bind()?;
    let mut caller = network.caller();
    let near = caller.dial(name, door.port())?;
    let far = door.accept()?;
    Some((near, far))
}

#[test]
fn peers_close_and_reset(rt: HostRuntime) -> Result<(), NoMemory> {
    let name = localhost(rt.alloc())?;
    let mut network = TcpNetwork::new(rt);
    let mut into = [0u8; 4];
    // one that closes in the middle: what it sent comes, and then the end
    if let Some((mut near, mut far)) = ends(&mut network, &name) {
        assert_eq!(rt; near.send(b"abc"), Put::Took(3));
        near.close();
        assert_eq!(rt; far.receive(&mut into), Got::Bytes(3));
        assert_eq!(rt; far.receive(&mut into), Got::End);
        // closed twice, and used once it is closed
        near.close();
        assert_eq!(rt; near.send(b"d"), Put::Failed);
        assert_eq!(rt; near.receive(&mut into), Got::Failed);
        assert_eq!(rt; near.faults(), 3);
    }
    // nobody waits at a port whose door is gone
    let mut caller = network.caller();
    if let Some(door) = network.bind() {
        let port = door.port();
        drop(door);
        assert!(rt; caller.dial(&name, port).is_none());
    }
    // one that goes with bytes unread resets the link
    if let Some((mut near, far)) = ends(&mut network, &name) {
        assert_eq!(rt; near.send(b"abc"), Put::Took(3));
        drop(far);
        assert_eq!(rt; near.receive(&mut into), Got::Failed);
        assert_eq!(rt; near.faults(), 1);
    }
    Ok(())
}

// What is dialled in one thread and accepted in another.
fn ends_in_threads<R: Threads + Sync, L: Link + Send, A: Acceptor<L> + Send, D: Dialer<L> + Send>(
    rt: &R,
    mut door: A,
    mut caller: D,
    name: &Name,
) -> (Option<L>, Option<L>) {
    let port = door.port();
    join(rt, move || caller.dial(name, port), move || door.accept())
}

#[test]
fn doors_and_callers_go_to_threads(rt: HostRuntime) -> Result<(), NoMemory> {
    let name = named(rt.alloc(), b"127.0.0.1")?;
    let mut network = TcpNetwork::new(rt);
    let caller = network.caller();
    if let Some(door) = network.bind() {
        if let (Some(mut near), Some(mut far)) = ends_in_threads(&rt, door, caller, &name) {
            assert!(rt; goes_both_ways(&mut near, &mut far, &[7]));
        }
    }
    Ok(())
}

#[test]
fn a_host_that_is_no_address_is_not_dialled(rt: HostRuntime) -> Result<(), NoMemory> {
    let name = named(rt.alloc(), b"localh0st")?;
    let mut network = TcpNetwork::new(rt);
    let mut caller = network.caller();
    if let Some(door) = network.bind() {
        assert!(rt; caller.dial(&name, door.port()).is_none());
        assert_eq!(rt; caller.faults(), 1);
    }
    Ok(())
}

#[test]
fn a_link_is_closed_both_ways_and_a_peer_may_end_one(rt: HostRuntime) -> io::Result<()> {
    let mut into = [0u8; 4];
    let mut network = TcpNetwork::new(rt);
    if let Some(mut door) = network.bind() {
        let stream = TcpStream::connect(&rt, (Ipv4Addr::LOCALHOST, door.port()))?;
        if let Some(mut far) = door.accept() {
            assert!(rt; far.stream.nodelay()?);
            // the peer says that it sends no more, and still reads
            stream.shutdown(Shutdown::Write)?;
            assert_eq!(rt; far.receive(&mut into), Got::End);
            assert_eq!(rt; far.send(b"abc"), Put::Took(3));
            let mut near = TcpLink::new(stream);
            assert_eq!(rt; near.receive(&mut into), Got::Bytes(3));
            // what is closed has nothing more to read, and doesn't wait for it
            far.close();
            far.stream.set_nonblocking(true)?;
            assert_eq!(rt; far.stream.read(&mut into)?, 0);
            assert_eq!(rt; near.receive(&mut into), Got::End);
        }
    }
    Ok(())
}

#[test]
fn sixty_four_links_at_once(rt: HostRuntime) -> Result<(), NoMemory> {
    let alloc = rt.alloc();
    let name = localhost(alloc)?;
    let mut network = TcpNetwork::new(rt);
    let mut nears = Vec::new(alloc);
    let mut fars = Vec::new(alloc);
    for _ in 0..64 {
        if let Some((near, far)) = ends(&mut network, &name) {
            nears.push(near)?;
            fars.push(far)?;
        }
    }
    assert_eq!(rt; nears.len(), 64);
    for (near, far) in nears.iter_mut().zip(fars.iter_mut()) {
        assert!(rt; goes_both_ways(near, far, &[7]));
    }
    Ok(())
}

// What two reads and two writes give, of which the one with this number is to fail.
const FAILS: [(u64, [Got; 2], [Put; 2]); 5] = [
    (0, [Got::Bytes(2), Got::End], [Put::Took(3), Put::Failed]),
    (1, [Got::Failed, Got::Bytes(2)], [Put::Took(3), Put::Failed]),
    (2, [Got::Bytes(2), Got::End], [Put::Failed, Put::Took(3)]),
    (3, [Got::Bytes(2), Got::Failed], [Put::Took(3), Put::Failed]),
    (4, [Got::Bytes(2), Got::End], [Put::Took(3), Put::Failed]),
];

#[test]
fn links_in_memory_fail_where_told(rt: HostRuntime) -> Result<(), NoMemory> {
    for (number, gots, puts) in FAILS {
        let mut link = MemLink::new(rt.alloc(), &[7, 7], 4, &[number])?;
        let mut into = [0u8; 8];
        assert_eq!(rt; link.receive(&mut into), gots[0], "{number}");
        assert_eq!(rt; link.send(b"abc"), puts[0], "{number}");
        assert_eq!(rt; link.receive(&mut into), gots[1], "{number}");
        assert_eq!(rt; link.send(b"def"), puts[1], "{number}");
    }
    Ok(())
}

// What three binds give of two doors, of which the one with this number is to fail.
const BINDS: [(u64, [bool; 3]); 4] = [
    (0, [true, true, false]),
    (1, [false, true, true]),
    (2, [true, false, true]),
    (3, [true, true, false]),
];

#[test]
fn binds_in_memory_fail_where_told(rt: HostRuntime) -> Result<(), NoMemory> {
    let alloc = rt.alloc();
    for (number, bound) in BINDS {
        let mut doors = VecDeque::new(alloc);
        doors.push_back(MemDoor::new(VecDeque::new(alloc), 80))?;
        doors.push_back(MemDoor::new(VecDeque::new(alloc), 81))?;
        let mut network = MemNetwork::new(alloc, doors, VecDeque::new(alloc), &[number])?;
        assert_eq!(rt; network.bind().is_some(), bound[0], "{number}");
        assert_eq!(rt; network.bind().is_some(), bound[1], "{number}");
        assert_eq!(rt; network.bind().is_some(), bound[2], "{number}");
    }
    Ok(())
}

#[test]
fn networks_in_memory_hand_out_what_they_have(rt: HostRuntime) -> Result<(), NoMemory> {
    let alloc = rt.alloc();
    let name = localhost(alloc)?;
    let mut links = VecDeque::new(alloc);
    links.push_back(MemLink::new(alloc, &[7], 1, &[])?)?;
    let mut door = MemDoor::new(links, 80);
    assert_eq!(rt; door.port(), 80);
    assert!(rt; door.accept().is_some());
    assert!(rt; door.accept().is_none());
    let mut links = VecDeque::new(alloc);
    links.push_back(MemLink::new(alloc, &[7, 7], 2, &[])?)?;
    let mut callers = VecDeque::new(alloc);
    callers.push_back(MemCaller::new(alloc, links)?)?;
    let mut network = MemNetwork::new(alloc, VecDeque::new(alloc), callers, &[])?;
    let mut caller = network.caller();
    let link = caller.dial(&name, 80);
    assert!(rt; caller.dial(&name, 80).is_none());
    if let Some(mut link) = link {
        assert_eq!(rt; come(&mut link, 2), 2);
        assert_eq!(rt; link.send(b"ab"), Put::Took(2));
        assert_eq!(rt; link.send(b"c"), Put::Failed);
        caller.take_back(link);
    }
    // one fault of the link, one of the dial
    assert_eq!(rt; caller.faults(), 2);
    assert_eq!(rt; caller.sent_at(0), Some(b"ab".as_slice()));
    if let Some(target) = caller.target_at(0) {
        assert_eq!(rt; target.host(), b"localhost".as_slice());
        assert_eq!(rt; target.port(), 80);
    }
    assert!(rt; caller.target_at(1).is_none());
    assert!(rt; caller.sent_at(1).is_none());
    network.take_caller(caller);
    assert!(rt; network.caller().dial(&name, 80).is_none());
    Ok(())
}
