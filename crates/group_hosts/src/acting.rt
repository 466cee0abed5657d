//! Every event at a host.
ghost use Rattle.std.specs.Prelude.{◌≡◌};
ghost use Rattle.group_model.specs.Agreeing.{Agrees};
ghost use Rattle.group_model.specs.Changes.{host_of_change};
ghost use Rattle.group_model.specs.Events.{host_of};
ghost use Rattle.group_model.specs.Plain.{Group};
ghost use Rattle.group_hosts.specs.Hosts.{IsHere, shared};
ghost use Rattle.group_hosts.specs.Keeping.{WroteFor};
ghost use Rattle.group_hosts.specs.Turning.{IsTurn, seen};

use crate::founding::Founding;
use crate::hosts::GroupHost;
use crate::managing::manage;
use ft_base::{HostNo, Servant, Steps};
use ft_outside::Keeper;
use group_model::{Change, Event, GroupAnswer};
use group_stands::views_join;
use message_log::Log;
use passive_dispatch::Arrival;
use std::alloc::Global;
use std::sync::ledger::Ledger;

/// The host at which an event is.
pub fn host_of(event: &Event) -> HostNo
    ensures { result.0 ≡ host_of event.now }
{
    match event {
        Event::Request { host, .. }
        | Event::View { host, .. }
        | Event::State { host, .. }
        | Event::Update { host, .. }
        | Event::Order { host, .. }
        | Event::Checkpoint { host, .. }
        | Event::Crash(host)
        | Event::Restart(host)
        | Event::SendUpdate(host) => *host,
        Event::Manage(change) => host_of_change(change),
    }
}

/// The host that a change names.
fn host_of_change(change: &Change) -> HostNo
    ensures { result ≡ host_of_change change.now }
{
    match change {
        Change::Report(host)
        | Change::Remove(host)
        | Change::Add(host)
        | Change::Create { host, .. }
        | Change::Primary(host)
        | Change::Replace { host, .. } => *host,
    }
}

/// Acts an event at its host, with the group's log and that with which the group was made.
pub fn act_at<S: Servant + Drop, K: Keeper, L: Ledger>(
    alloc: Global,
    founding: &Founding<S>,
    log: &mut Log<K>,
    host: &mut GroupHost<S>,
    event: Event,
    steps: &mut Steps<L>,
) -> GroupAnswer
    requires { (g : Group) × IsHere S.machine g.common (g.hosts (host_of event)) (shared founding.now.style (S.kind founding.now.opening) (S.state founding.now.opening) log.old) host.old × Agrees (S.machine g.common.kind) event g }
    ensures turn { (g : Group) → IsHere S.machine g.common (g.hosts (host_of event)) (shared founding.now.style (S.kind founding.now.opening) (S.state founding.now.opening) log.old) host.old → Agrees (S.machine g.common.kind) event g →
        IsTurn S.machine g event result steps.old (seen log.new host.new steps.new) }
    ensures wrote { WroteFor event result log.old log.new }
{
    views_join();
    match event {
        Event::Request {
            host: at,
            clock,
            asked,
            stop,
        } => {
            let arrival = Arrival {
                host: at,
                clock,
                stop,
            };
            host.ask(alloc, founding, log, arrival, asked, steps)
        }
        Event::View { host: _, version } => host.hear_view(version),
        Event::State {
            host: _,
            position,
            state,
        } => host.hear_state(alloc, position, &state),
        Event::Update {
            host: _,
            from,
            to,
            update,
        } => host.hear_update(alloc, from, to, &update),
        Event::Order {
            host: _,
            index,
            request,
        } => host.hear_order(alloc, index, request, steps),
        Event::Crash(_) => host.crash(),
        Event::Restart(_) => host.restart(),
        Event::Checkpoint { host: at, clock } => {
            host.checkpoint(alloc, founding, log, at, clock, steps)
        }
        Event::SendUpdate(at) => host.send_update(alloc, log, &founding.opening, at, steps),
        Event::Manage(change) => manage(alloc, founding.style, log, change),
    }
}
