//! The hosts at which a group's members can be made.
ghost use Rattle.std.specs.Prelude.{◌≡◌, ◌<◌, [], codes, length, position, IfSome};
ghost use Rattle.std.specs.List.{slice_split};
ghost use Rattle.std.specs.Str.{bytes_eq};
ghost use Rattle.ft_base.specs.Members.{is_member};
ghost use Rattle.property_manager.specs.Numbers.{host};
ghost use Rattle.property_manager.specs.Hosts.{AreHosts, factories, hosts_from, is_comma, with_host};

use crate::numbers::{behind, bounded, front};
use arrayvec::ArrayVec;
use ft_base::{HOST_LIMIT, HostNo, has_host};
use std::marker::Model;

/// Different hosts, in the order in which a value has them.
#[derive(Debug, Drop)]
pub struct Hosts {
    hosts: ArrayVec<u8, HOST_LIMIT>,
}

impl Model for Hosts {
    ghost use Rattle.std.specs.Prelude.{ℕ, List};
    ghost use Rattle.property_manager.specs.Hosts.{AreHosts};

    ghost Value = { List ℕ };

    ghost view = { λ h. h.hosts.items };

    ghost invariant = { λ h. AreHosts h.hosts.items };
}

fn host_in(text: &[u8]) -> Option<u8>
    ensures value { result ≡ host text.now }
    ensures within { IfSome result (λ host. host < HOST_LIMIT) }
{
    match bounded(text, 63) {
        None => None,
        Some(host) => Some(host as u8),
    }
}

fn is_dash(text: &[u8]) -> bool
    ensures { result ≡ bytes_eq text.now (codes "-") }
{
    text == b"-".as_slice()
}

fn first_comma(text: &[u8]) -> Option<usize>
    ensures place { result ≡ position is_comma text.now }
    ensures within { IfSome result (λ place. place < length text.now) }
{
    text.iter().position(|byte| *byte == b',')
}

impl Hosts {
    #[tactic(auto, using(crate::proofs::HostLemmas::no_hosts))]
    fn none() -> Hosts
        ensures { result ≡ [] }
    {
        Hosts {
            hosts: ArrayVec::new(),
        }
    }

    /// Whether the host is among them.
    pub fn has(&self, host: HostNo) -> bool
        ensures { result ≡ is_member host.0 self.now }
    {
        has_host(self.hosts.as_slice(), host)
    }

    /// The host numbers, in order.
    pub fn hosts(&self) -> &[u8]
        ensures value { result.now ≡ self.now }
        ensures hosts { AreHosts self.now }
    {
        self.hosts.as_slice()
    }

    /// These hosts and the one that a text names, if it names one and that is new.
    #[tactic(auto, using(crate::proofs::HostLemmas::room))]
    fn with(self, text: &[u8]) -> Option<Hosts>
        ensures { result ≡ with_host self text.now }
    {
        let host = host_in(text)?;
        if self.has(HostNo(host)) {
            return None;
        }
        let mut hosts = self.hosts;
        hosts.push(host);
        Some(Hosts { hosts })
    }
}

/// The hosts that the parts of a text between commas name, if each names one and no other has it.
#[tactic(auto, using(crate::proofs::HostLemmas::one_more, crate::proofs::HostLemmas::no_more, crate::proofs::HostLemmas::last_part))]
fn hosts_in(text: &[u8]) -> Option<Hosts>
    ensures { result ≡ hosts_from [] (slice_split is_comma text.now) }
{
    let mut hosts = Hosts::none();
    let mut rest = text;
    while let Some(place) = first_comma(rest) {
        hosts = hosts.with(front(rest, place))?;
        rest = behind(rest, place + 1);
    }
    hosts.with(rest)
}

/// The hosts that a value lists. It takes no memory.
#[tactic(auto, unfolding(crate::specs::Hosts::factories))]
pub fn factories(text: &[u8]) -> Option<Hosts>
    ensures { result ≡ factories text.now }
{
    if is_dash(text) {
        return Some(Hosts::none());
    }
    hosts_in(text)
}
