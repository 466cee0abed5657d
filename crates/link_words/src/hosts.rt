//! A host in a thread of its own.

use crate::letters::{LetterPort, Turns};
use ft_base::HostNo;
use link_serving::{Ended, serve_link};
use outside_crews::{Crew, Job, Running, Started};
use outside_links::{Acceptor, Network, TcpDoor, TcpNetwork};
use std::alloc::Global;
use std::net::{Net, TcpListener, TcpStream};
use std::sync::Wait;
use std::thread::Threads;

/// The number of the host that serves the links of rows.
pub const HOST: HostNo = HostNo(3);

/// A job that accepts so many links at a door, and serves one behind the other.
#[derive(Drop)]
pub struct LetterHost<R: Wait + Drop> {
    rt: R,
    alloc: Global,
    door: TcpDoor,
    letters: Vec<u8>,
    links: u32,
}

/// How each link was left, and what was asked on all of them. None where a link wasn't accepted, or memory was wanted.
#[derive(Drop)]
pub struct Visits {
    pub ends: Vec<Option<Ended>>,
    pub turns: Turns,
}

// Serves the next link.
fn visit<R: Wait>(
    rt: &R,
    alloc: Global,
    door: &mut TcpDoor,
    port: &LetterPort<'_>,
    turns: &mut Turns,
) -> Option<Ended> {
    let mut link = door.accept()?;
    Some(serve_link(rt, alloc, HOST, port, turns, &mut link))
}

impl<R: Wait + Send + Drop> Job for LetterHost<R> {
    type Gives = Visits;

    ghost ready = { λ _. Unit {0} };

    ghost owes = { λ _ _. Unit {0} };

    fn run(self) -> Visits {
        let LetterHost {
            rt,
            alloc,
            mut door,
            letters,
            links,
        } = self;
        let port = LetterPort::new(alloc, letters.as_slice());
        let mut turns = Turns::new();
        let mut ends = Vec::new(alloc);
        for _ in 0..links {
            let ended = visit(&rt, alloc, &mut door, &port, &mut turns);
            if ends.push(ended).is_err() {
                break;
            }
        }
        Visits { ends, turns }
    }
}

/// Starts a host that serves so many links and answers by these letters, and gives the port at which it waits for them.
/// None where the system gives no port, or no thread.
pub fn start_host<
    R: Net<Listener = TcpListener, Stream = TcpStream>
        + Threads
        + Wait
        + Copy
        + Send
        + Drop
        + 'static,
>(rt: &R, alloc: Global, letters: Vec<u8>, links: u32) -> Option<(Running<LetterHost<R>>, u16)> {
    let mut network = TcpNetwork::new(*rt);
    let door = network.bind()?;
    let port = door.port();
    let job = LetterHost {
        rt: *rt,
        alloc,
        door,
        letters,
        links,
    };
    match Crew::new(*rt, alloc).start(job) {
        Started::Running(running) => Some((running, port)),
        Started::Refused => None,
    }
}
