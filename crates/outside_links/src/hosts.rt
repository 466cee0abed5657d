ghost use Rattle.std.specs.Prelude.{◌≡◌, MatchOption};
ghost use Rattle.std.specs.Net.Socket.{v4_ip, v4_port};
ghost use Rattle.outside_links.specs.Addresses.{IsAddressOf, HasNoAddress};

use std::net::{Ipv4Addr, SocketAddrV4};

// The address of a host that is called by it, or `localhost`.
fn address_of(host: &[u8]) -> Option<Ipv4Addr>
    ensures { MatchOption result (HasNoAddress host.now) (IsAddressOf host.now) }
{
    if host == b"localhost".as_slice() {
        return Some(Ipv4Addr::LOCALHOST);
    }
    match Ipv4Addr::parse_ascii(host) {
        Ok(address) => Some(address),
        Err(_) => None,
    }
}

/// Where a dial goes.
pub(crate) fn peer_of(host: &[u8], port: u16) -> Option<SocketAddrV4>
    ensures { MatchOption result (HasNoAddress host.now) (λ peer. IsAddressOf host.now (v4_ip peer) × (v4_port peer ≡ port)) }
{
    match address_of(host) {
        Some(address) => Some(SocketAddrV4::new(address, port)),
        None => None,
    }
}
