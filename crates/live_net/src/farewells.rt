//! The hosts of a run are ended from outside. No contract rests on it: that all have ended is what their joins say.

use ft_base::{Name, Servant};
use ft_outside::Keeper;
use iogr_reference::Ports;
use live_hosts::Host;
use outside_links::{Acceptor, Dialer, Link, send_all};
use std::sync::Wait;
use std::thread;
use std::thread::Threads;
use std::time::{Clock, Duration};

/// A CloseConnection of GIOP 1.2, big endian, which has no body. It is written out here because hosts have to be ended
/// where no memory is left too.
pub(crate) const FAREWELL: [u8; 12] = *b"GIOP\x01\x02\x00\x05\x00\x00\x00\x00";

/// How long a host is given to end before it is looked at again, in milliseconds.
const GAP: u64 = 1;

// Dials a port, sends a farewell there, and hangs up.
pub(crate) fn send_farewell<L: Link, D: Dialer<L>>(caller: &mut D, address: &Name, port: u16) {
    let Some(mut link) = caller.dial(address, port) else {
        return;
    };
    let _sent = send_all(&mut link, FAREWELL.as_slice());
    caller.take_back(link);
}

// Says farewell to a host until it has ended. One farewell may not do: the host may refuse the link, or be serving another.
fn end_host<
    R: Threads + Wait + Clock + Drop + Send + 'static,
    S: Servant + Drop + Send + 'static,
    K: Keeper + Drop + Send + 'static,
    L: Link + Drop + Send + 'static,
    A: Acceptor<L> + Send + 'static,
    D: Dialer<L>,
>(rt: &R, caller: &mut D, address: &Name, host: &Host<R, S, K, L, A>, port: u16) {
    for _ in rt.forever() {
        if host.is_ended() {
            return;
        }
        send_farewell(caller, address, port);
        thread::sleep(rt, Duration::from_millis(GAP));
    }
    unreachable!()
}

/// Ends each of these hosts, in their order, and returns once the last has ended. All are dialled at this address, each at
/// the port that stands at its place. The caller is let go.
pub fn end_hosts<
    R: Threads + Wait + Clock + Drop + Send + 'static,
    S: Servant + Drop + Send + 'static,
    K: Keeper + Drop + Send + 'static,
    L: Link + Drop + Send + 'static,
    A: Acceptor<L> + Send + 'static,
    D: Dialer<L>,
>(rt: &R, caller: D, address: &Name, hosts: &[Host<R, S, K, L, A>], ports: &Ports) {
    let mut caller = caller;
    for (host, port) in hosts.iter().zip(ports.as_slice()) {
        end_host(rt, &mut caller, address, host, *port);
    }
}
