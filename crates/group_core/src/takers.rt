//! Who takes a group's checkpoints and sends its updates now, and which hosts are here for its clients.
ghost use Rattle.std.specs.Prelude.{◌≡◌, ◌<◌};
ghost use Rattle.std.specs.List.{AllByRecursion};
ghost use Rattle.ft_base.specs.declared.limits.TheConstants.{HOST_LIMIT};
ghost use Rattle.group_model.specs.Agreeing.{first_up, taking_host};
ghost use Rattle.group_model.specs.Plain.{Group};
ghost use Rattle.group_model.specs.Sending.{brought};
ghost use Rattle.group_model.specs.Takers.{is_here, taker, updater};
ghost use Rattle.group_core.specs.Cores.{Stands};

use crate::cores::GroupCore;
use crate::laws::cores_tell;
use ft_base::{HostNo, Servant, Style};
use ft_outside::Keeper;
use group_model::{Event, Inner, Out, takers_may_take};

impl<S: Servant + Drop, K: Keeper> GroupCore<S, K> {
    /// The first of these hosts that is up.
    fn first_up(&self, hosts: &[u8]) -> Option<HostNo>
        requires stands { (g : Group) × Stands S.machine self.now g }
        requires hosts { AllByRecursion (λ host. host < HOST_LIMIT) hosts.now }
        ensures { (g : Group) → Stands S.machine self.now g → result ≡ first_up g.hosts hosts.now }
    {
        for host in hosts {
            let host = HostNo(*host);
            if !self.down(host) {
                return Some(host);
            }
        }
        None
    }

    /// The host whose part it is to take checkpoints; it may be down.
    fn taking_host(&self) -> Option<HostNo>
        requires { (g : Group) × Stands S.machine self.now g }
        ensures { (g : Group) → Stands S.machine self.now g → result ≡ taking_host g }
    {
        cores_tell();
        let view = self.log().newest();
        match self.style() {
            Style::Cold | Style::Warm => view.primary,
            Style::Active => self.first_up(view.members.hosts()),
        }
    }

    /// The host that takes a checkpoint now: the newest view's primary, in an active group its first member
    /// that is up; none where that host is down.
    pub fn taker(&self) -> Option<HostNo>
        requires { (g : Group) × Stands S.machine self.now g }
        ensures { (g : Group) → Stands S.machine self.now g → result ≡ taker g }
    {
        takers_may_take();
        match self.taking_host() {
            None => None,
            Some(host) => { if self.down(host) { None } else { Some(host) } }
        }
    }

    /// The host that sends the other members an update now: that of the checkpoints, in a warm group.
    pub fn updater(&self) -> Option<HostNo>
        requires { (g : Group) × Stands S.machine self.now g }
        ensures { (g : Group) → Stands S.machine self.now g → result ≡ updater g }
    {
        match self.style() {
            Style::Warm => self.taker(),
            Style::Cold | Style::Active => None,
        }
    }

    /// Whether a host is up, and a member of the view that it knows.
    pub fn is_here(&self, host: HostNo) -> bool
        requires stands { (g : Group) × Stands S.machine self.now g }
        requires host { host.0 < HOST_LIMIT }
        ensures { (g : Group) → Stands S.machine self.now g → result ≡ is_here g host.0 }
    {
        cores_tell();
        if self.down(host) {
            return false;
        }
        match self.view(self.known(host)) {
            None => false,
            Some(view) => view.members.has(host),
        }
    }
}

/// What a host sent, as the event that it is at the host to which it goes.
pub fn event_of(out: Out) -> Event
    ensures { result ≡ brought out }
{
    let host = out.to;
    match out.carried {
        Inner::View { version } => Event::View { host, version },
        Inner::State { position, state } => Event::State {
            host,
            position,
            state,
        },
        Inner::Update { from, to, update } => Event::Update {
            host,
            from,
            to,
            update,
        },
        Inner::Order { index, request } => Event::Order {
            host,
            index,
            request,
        },
    }
}
