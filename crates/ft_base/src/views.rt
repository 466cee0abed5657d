ghost use Rattle.std.specs.Prelude.{◌≡◌, ℕ, ◌<◌, ◌≤◌, false, [], ◌∷◌, ◌++◌, List, length};
ghost use Rattle.ft_base.specs.Members.{first_of, is_empty, is_member, AreDifferent};
ghost use Rattle.ft_base.specs.Views.{is_led_by, is_passive};

use crate::numbers::{HostNo, Version};
use arrayvec::ArrayVec;
use std::marker::Model;

/// The most members that a group can have.
pub const MEMBER_LIMIT: usize = 16;

/// How a group's members share its work (chapter 23, `ReplicationStyle`).
#[derive(Clone, Copy, Debug, PartialEq, Eq)]
pub enum Style {
    /// COLD_PASSIVE: the primary runs requests; another member begins with the log when it takes over.
    Cold,
    /// WARM_PASSIVE: the primary runs requests, and sends the other members its state and updates.
    Warm,
    /// ACTIVE: every member runs every request, in the order of the log.
    Active,
}

impl Style {
    /// Whether one member, the primary, runs the requests.
    pub fn is_passive(self) -> bool
        ensures { result ≡ is_passive self }
    {
        match self {
            Style::Cold | Style::Warm => true,
            Style::Active => false,
        }
    }
}

/// Whether a host is among these host numbers.
pub fn has_host(hosts: &[u8], host: HostNo) -> bool
    ensures { result ≡ is_member host.0 hosts.now }
{
    hosts.iter().any(|other| *other == host.0)
}

/// The members of a group: at most 16 different host numbers, in order of joining.
#[derive(Debug, Drop)]
pub struct Members {
    hosts: ArrayVec<u8, MEMBER_LIMIT>,
}

impl Model for Members {
    ghost use Rattle.std.specs.Prelude.{ℕ, List};

    ghost Value = { List ℕ };

    ghost view = { λ m. m.hosts.items };

    ghost use Rattle.ft_base.specs.Members.{AreDifferent};

    ghost invariant = { λ m. AreDifferent m.hosts.items };
}

/// A view of a group: its members at one version, and the primary where there is one.
#[derive(Debug, Drop)]
pub struct View {
    pub version: Version,
    pub members: Members,
    pub primary: Option<HostNo>,
}

impl Members {
    /// No members.
    pub fn new() -> Members
        ensures { result ≡ [] }
    {
        Members {
            hosts: ArrayVec::new(),
        }
    }

    /// How many members there are.
    pub fn len(&self) -> usize
        ensures count { result ≡ length self.now }
        ensures limit { result ≤ MEMBER_LIMIT }
        ensures different { AreDifferent self.now }
    {
        self.hosts.len()
    }

    /// Whether there are none.
    pub fn is_empty(&self) -> bool
        ensures { result ≡ is_empty self.now }
    {
        self.hosts.len() == 0
    }

    /// The first that joined, where there is one.
    pub fn first(&self) -> Option<HostNo>
        ensures { result ≡ first_of self.now }
    {
        match self.hosts.as_slice() {
            [] => None,
            [host, ..] => Some(HostNo(*host)),
        }
    }

    /// Whether the host is a member.
    pub fn has(&self, host: HostNo) -> bool
        ensures { result ≡ is_member host.0 self.now }
    {
        has_host(self.hosts.as_slice(), host)
    }

    /// Adds a member, as the last in order of joining.
    #[tactic(auto, using(crate::proofs::ViewLaws::joined_differ))]
    pub fn join(&mut self, host: HostNo)
        requires room { length self.old < MEMBER_LIMIT }
        requires new { is_member host.0 self.old ≡ false }
        ensures { self.new ≡ self.old ++ host.0 ∷ [] }
    {
        self.hosts.push(host.0);
    }

    /// The host numbers, in order of joining.
    pub fn hosts(&self) -> &[u8]
        ensures { result.now ≡ self.now }
    {
        self.hosts.as_slice()
    }

    /// The same members. It takes no memory.
    pub fn copy(&self) -> Members
        ensures { result ≡ self.now }
    {
        let mut hosts = ArrayVec::new();
        for host in self.hosts.as_slice() {
            hosts.push(*host);
        }
        Members { hosts }
    }
}

impl View {
    /// Whether the host is the primary of the view.
    pub fn is_led_by(&self, host: HostNo) -> bool
        ensures { result ≡ is_led_by self.now host.0 }
    {
        match self.primary {
            None => false,
            Some(primary) => primary.0 == host.0,
        }
    }

    /// The same view. It takes no memory.
    pub fn copy(&self) -> View
        ensures { result ≡ self.now }
    {
        View {
            version: self.version,
            members: self.members.copy(),
            primary: self.primary,
        }
    }
}
