//! The doors of two hosts, and the caller of one client. They tell nothing of their links.
ghost use Rattle.std.specs.Prelude.{◌≡◌};

use crate::gates::Gate;
use crate::links::{GateLink, Plan};
use anyhow::Result;
use ft_base::Name;
use ft_outside::{add_counts, next_count};
use octet_words::octets;
use outside_links::{Acceptor, Dialer, Link, Network};
use std::alloc::Global;
use std::collections::VecDeque;
use std::sync::Arc;

/// A deposit of 5 without a key, which is accepted anew each time.
const DEPOSIT: &str =
    "47494f5001020000000000340000000103000000000000000000000c46544f470000000000000001000000086465706f73697400000000000000000000000005";

/// A reply to request 1, with the value 5.
const REPLY: &str = "47494f5001020001000000140000000100000000000000000000000000000005";

/// A CloseConnection.
const CLOSE: &str = "47494f500102000500000000";

/// A door whose links have these plans.
#[derive(Drop)]
pub struct GateDoor {
    alloc: Global,
    plans: VecDeque<Plan>,
    port: u16,
    faults: u64,
}

impl Acceptor<GateLink> for GateDoor {
    ghost use Rattle.std.specs.Prelude.{None};

    ghost links = { λ _. None };

    ghost own_port = { λ door. door.port };

    ghost count = { λ door. door.faults };

    fn accept(&mut self) -> Option<GateLink> {
        match self.plans.pop_front() {
            Some(plan) => Some(GateLink::new(self.alloc, plan)),
            None => {
                self.faults = next_count(self.faults);
                None
            }
        }
    }

    fn port(&self) -> u16 {
        self.port
    }
}

/// A caller whose one link has this plan, wherever it is dialled.
#[derive(Drop)]
pub struct GateCaller {
    alloc: Global,
    plan: Option<Plan>,
    faults: u64,
}

impl Dialer<GateLink> for GateCaller {
    ghost use Rattle.std.specs.Prelude.{None};

    ghost links = { λ _. None };

    ghost targets = { λ _. None };

    ghost sent = { λ _. None };

    ghost lent = { λ _. None };

    ghost count = { λ caller. caller.faults };

    fn dial(&mut self, _host: &Name, _port: u16) -> Option<GateLink> {
        match self.plan.take() {
            Some(plan) => Some(GateLink::new(self.alloc, plan)),
            None => {
                self.faults = next_count(self.faults);
                None
            }
        }
    }

    fn take_back(&mut self, link: GateLink) {
        self.faults = add_counts(self.faults, link.faults());
    }
}

/// Two doors, and a caller whose link has a plan. Further callers have none.
#[derive(Drop)]
pub struct GateNetwork {
    alloc: Global,
    doors: VecDeque<VecDeque<Plan>>,
    client: Option<Plan>,
    port: u16,
    faults: u64,
    broken: u64,
}

// The plans of a door: a link with deposits, so many, the first of which needs so many replies of the other; and a farewell.
fn plans(
    alloc: Global,
    deposits: u32,
    needs: u32,
    own: &Arc<Gate, Global>,
    other: &Arc<Gate, Global>,
) -> Result<VecDeque<Plan>> {
    let mut plans = VecDeque::new(alloc);
    let deposit = octets(alloc, DEPOSIT)?;
    plans.push_back(Plan::new(deposit, deposits, needs, own, other)?)?;
    let close = octets(alloc, CLOSE)?;
    plans.push_back(Plan::new(close, 1, 0, own, other)?)?;
    Ok(plans)
}

impl GateNetwork {
    /// Host 0 is asked twice, the second time where host 1 has replied; host 1 once, where host 0 has. The client is answered
    /// at once.
    pub fn between(
        alloc: Global,
        first: &Arc<Gate, Global>,
        second: &Arc<Gate, Global>,
    ) -> Result<GateNetwork> {
        let mut doors = VecDeque::new(alloc);
        doors.push_back(plans(alloc, 2, 0, first, second)?)?;
        doors.push_back(plans(alloc, 1, 1, second, first)?)?;
        let client = Arc::new(alloc, Gate::new())?;
        let reply = octets(alloc, REPLY)?;
        Ok(GateNetwork {
            alloc,
            doors,
            client: Some(Plan::new(reply, 1, 0, &client, first)?),
            port: 0,
            faults: 0,
            broken: 0,
        })
    }
}

impl Network<GateLink, GateDoor, GateCaller> for GateNetwork {
    ghost use Rattle.std.specs.Prelude.{None};

    ghost callers = { λ _. None };

    ghost count = { λ network. network.faults };

    ghost broken = { λ network. network.broken };

    fn bind(&mut self) -> Option<GateDoor> {
        match self.doors.pop_front() {
            Some(plans) => {
                self.port = self.port.saturating_add(1);
                Some(GateDoor {
                    alloc: self.alloc,
                    plans,
                    port: self.port,
                    faults: 0,
                })
            }
            None => {
                self.faults = next_count(self.faults);
                None
            }
        }
    }

    fn caller(&mut self) -> GateCaller {
        GateCaller {
            alloc: self.alloc,
            plan: self.client.take(),
            faults: 0,
        }
    }

    fn take_caller(&mut self, caller: GateCaller) {
        self.broken = add_counts(self.broken, caller.faults);
    }
}
