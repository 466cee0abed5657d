//! A request comes to a host of an active group.
ghost use Rattle.group_model.specs.Plain.{Common, Host, Place};
ghost use Rattle.passive_dispatch.specs.Served.{seen, IsWritten};
ghost use Rattle.active_sequencer.specs.Sequences.{CanSequence, IsSequenced};

use crate::sending::{next_orders, with_orders};
use ft_base::{NoMemory, Request, Servant, Steps, Version};
use ft_outside::Keeper;
use ft_replica::Replica;
use group_stands::logs_tell;
use message_log::Log;
use passive_dispatch::{Arrival, Served};
use std::alloc::Global;
use std::sync::ledger::Ledger;

/// Serves a request at a host of an active group whose replica has run the whole journal, as
/// `passive_dispatch::serve` does, and gives the orders that the other members are sent. They are made
/// before anything is written.
pub fn serve<K: Keeper, S: Servant + Drop, L: Ledger>(
    alloc: Global,
    log: &mut Log<K>,
    replica: &mut Replica<S>,
    version: Version,
    arrival: Arrival,
    request: Request,
    steps: &mut Steps<L>,
) -> Served
    requires { (c : Common) × (place : Place) × CanSequence S.machine c place version.0 request (seen log.old replica.old steps.old) }
    ensures served { (c : Common) (h : Host) → CanSequence S.machine c h.place version.0 request (seen log.old replica.old steps.old) →
        IsSequenced S.machine c h arrival.host.0 arrival.clock.0 request arrival.stop result (seen log.old replica.old steps.old) (seen log.new replica.new steps.new) }
    ensures written { IsWritten result log.old version arrival.clock request log.new }
{
    logs_tell();
    let orders = match next_orders(alloc, log, arrival.host, &request) {
        Ok(orders) => orders,
        Err(NoMemory) => return Served::NoMemory,
    };
    match passive_dispatch::serve(alloc, log, replica, version, arrival, request, steps) {
        Served::Done(replied) => Served::Done(with_orders(alloc, replied, orders)),
        Served::NoMemory => Served::NoMemory,
    }
}
