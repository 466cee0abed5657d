ghost use Rattle.std.specs.Prelude.{◌≡◌, IfOk, IfSome, MatchOption, false};
ghost use Rattle.std.specs.declared.net.ipv4_addr.Ipv4Addr.{Ipv4Addr};
ghost use Rattle.ft_outside.specs.Outside.{next_count};
ghost use Rattle.outside_links.specs.Addresses.{IsAddressOf};

use crate::hosts::peer_of;
use crate::links::{Acceptor, Dialer, Network};
use crate::tcp_links::TcpLink;
use ft_base::Name;
use ft_outside::{add_counts, next_count};
use std::io;
use std::net::{Ipv4Addr, Net, TcpListener, TcpStream};

// An open link that sends small pieces at once.
fn link_over(stream: TcpStream) -> io::Result<TcpLink>
    ensures { IfOk result (λ link. (link.faults ≡ 0) × (link.is_closed ≡ false)) }
{
    stream.set_nodelay(true)?;
    Ok(TcpLink::new(stream))
}

/// Waits for links at a port of loopback.
#[derive(Drop)]
pub struct TcpDoor {
    listener: TcpListener,
    port: u16,
    faults: u64,
}

impl TcpDoor {
    fn take_in(&self) -> io::Result<TcpLink>
        ensures { IfOk result (λ link. (link.faults ≡ 0) × (link.is_closed ≡ false)) }
    {
        let (stream, _) = self.listener.accept()?;
        link_over(stream)
    }
}

impl Acceptor<TcpLink> for TcpDoor {
    ghost use Rattle.std.specs.Prelude.{None};

    ghost links = { λ _. None };

    ghost own_port = { λ door. door.port };

    ghost count = { λ door. door.faults };

    fn accept(&mut self) -> Option<TcpLink> {
        match self.take_in() {
            Ok(link) => Some(link),
            Err(_) => {
                self.faults = next_count(self.faults);
                None
            }
        }
    }

    fn port(&self) -> u16 {
        self.port
    }
}

/// Dials hosts that are called by their IPv4 addresses, four numbers with dots between them, or `localhost`. A dial of
/// any other is refused.
#[derive(Drop)]
pub struct TcpCaller<R: Net<Listener = TcpListener, Stream = TcpStream> + Drop> {
    rt: R,
    faults: u64,
}

// A link to this port of the host.
fn dialed<R: Net<Listener = TcpListener, Stream = TcpStream>>(
    rt: &R,
    host: &[u8],
    port: u16,
) -> Option<TcpLink>
    ensures fresh { IfSome result (λ link. (link.faults ≡ 0) × (link.is_closed ≡ false)) }
    ensures address { IfSome result (λ _. (address : Ipv4Addr) × IsAddressOf host.now address) }
{
    let peer = peer_of(host, port)?;
    let stream = TcpStream::connect(rt, peer).ok()?;
    link_over(stream).ok()
}

impl<R: Net<Listener = TcpListener, Stream = TcpStream> + Drop> TcpCaller<R> {
    /// How many faults there were, its own and those of links that came back.
    pub fn faults(&self) -> u64
        ensures { result ≡ self.now.faults }
    {
        self.faults
    }
}

impl<R: Net<Listener = TcpListener, Stream = TcpStream> + Drop> Dialer<TcpLink> for TcpCaller<R> {
    ghost use Rattle.std.specs.Prelude.{None};

    ghost links = { λ _. None };

    ghost targets = { λ _. None };

    ghost sent = { λ _. None };

    ghost lent = { λ _. None };

    ghost count = { λ caller. caller.faults };

    fn dial(&mut self, host: &Name, port: u16) -> Option<TcpLink>
        ensures fresh { IfSome result (λ link. (link.faults ≡ 0) × (link.is_closed ≡ false)) }
        ensures address { IfSome result (λ _. (address : Ipv4Addr) × IsAddressOf host.now address) }
        ensures faults { MatchOption result (self.new.faults ≡ next_count self.old.faults) (λ _. self.new.faults ≡ self.old.faults) }
    {
        match dialed(&self.rt, host.bytes(), port) {
            Some(link) => Some(link),
            None => {
                self.faults = next_count(self.faults);
                None
            }
        }
    }

    fn take_back(&mut self, link: TcpLink) {
        self.faults = add_counts(self.faults, link.faults());
    }
}

/// The network of loopback, over sockets of the system, which send small writes without delay.
#[derive(Drop)]
pub struct TcpNetwork<R: Net<Listener = TcpListener, Stream = TcpStream> + Copy + Drop> {
    rt: R,
    faults: u64,
    broken: u64,
}

// A door at this port of loopback, or at a free one for 0.
fn opened<R: Net<Listener = TcpListener, Stream = TcpStream>>(
    rt: &R,
    port: u16,
) -> io::Result<TcpDoor>
    ensures { IfOk result (λ door. door.faults ≡ 0) }
{
    let listener = TcpListener::bind(rt, (Ipv4Addr::LOCALHOST, port))?;
    let port = listener.local_addr()?.port();
    Ok(TcpDoor {
        listener,
        port,
        faults: 0,
    })
}

impl<R: Net<Listener = TcpListener, Stream = TcpStream> + Copy + Drop> TcpNetwork<R> {
    /// Doors at free ports.
    pub fn new(rt: R) -> TcpNetwork<R>
        ensures faults { result.faults ≡ 0 }
        ensures broken { result.broken ≡ 0 }
    {
        TcpNetwork {
            rt,
            faults: 0,
            broken: 0,
        }
    }

    /// A door at this port, which is a fault where it is taken.
    pub fn bind_at(&mut self, port: u16) -> Option<TcpDoor>
        ensures fresh { MatchOption result (Unit {0}) (λ door. door.faults ≡ 0) }
        ensures faults { MatchOption result (self.new.faults ≡ next_count self.old.faults) (λ _. self.new.faults ≡ self.old.faults) }
        ensures broken { self.new.broken ≡ self.old.broken }
    {
        match opened(&self.rt, port) {
            Ok(door) => Some(door),
            Err(_) => {
                self.faults = next_count(self.faults);
                None
            }
        }
    }
}

impl<R: Net<Listener = TcpListener, Stream = TcpStream> + Copy + Drop> Network<
    TcpLink,
    TcpDoor,
    TcpCaller<R>,
> for TcpNetwork<R> {
    ghost use Rattle.std.specs.Prelude.{None};

    ghost callers = { λ _. None };

    ghost count = { λ network. network.faults };

    ghost broken = { λ network. network.broken };

    fn bind(&mut self) -> Option<TcpDoor> {
        match opened(&self.rt, 0) {
            Ok(door) => Some(door),
            Err(_) => {
                self.faults = next_count(self.faults);
                None
            }
        }
    }

    fn caller(&mut self) -> TcpCaller<R> {
        TcpCaller {
            rt: self.rt,
            faults: 0,
        }
    }

    fn take_caller(&mut self, caller: TcpCaller<R>) {
        self.broken = add_counts(self.broken, caller.faults);
    }
}
