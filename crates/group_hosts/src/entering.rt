//! A request that no row before the journal refuses.
ghost use Rattle.std.specs.Prelude.{◌≡◌, ◌+◌, length, OnOk, OnErr};
ghost use Rattle.group_model.specs.Plain.{Common, Host};
ghost use Rattle.group_model.specs.Serving.{calls_behind};
ghost use Rattle.group_hosts.specs.Asking.{parts, CanCatchUp, CanEnter, HasComeTo, HasStopped, IsEntered, WroteEntered};
ghost use Rattle.passive_dispatch.specs.Served.{seen, CanServe, IsWritten};
ghost use Rattle.active_sequencer.specs.Sequences.{IsSequenced};

use crate::founding::{Founding, Progress};
use failover_engine::catch_up;
use ft_base::{NoMemory, Request, Servant, Steps, Style};
use ft_outside::Keeper;
use ft_replica::Replica;
use group_stands::{holdbacks_go_on, logs_tell};
use message_log::Log;
use passive_dispatch::{Arrival, Replied, Served};
use std::alloc::Global;
use std::sync::ledger::Ledger;

/// What came of a request.
#[derive(Drop)]
pub enum Entered {
    /// The replica of a host that stopped is blank.
    Done(Replied),
    /// There was no memory before the request could join.
    Short,
    /// The request joined, and there was no memory to run it; the replica is blank.
    Unrun,
}

/// Brings a replica to the end of the journal, and lets go of the orders that it has passed.
pub(crate) fn catch_up_here<S: Servant + Drop, K: Keeper, L: Ledger>(
    alloc: Global,
    log: &mut Log<K>,
    progress: &mut Progress<S>,
    opening: &S,
    steps: &mut Steps<L>,
) -> Result<(), NoMemory>
    requires { (c : Common) × (h : Host) × CanCatchUp S.machine c h (S.kind opening.now) (S.state opening.now) (parts log.old progress.old.replica progress.old.holdback steps.old) }
    ensures caught_up { OnOk result ((c : Common) (h : Host) → CanCatchUp S.machine c h (S.kind opening.now) (S.state opening.now) (parts log.old progress.old.replica progress.old.holdback steps.old) →
        HasComeTo S.machine c h (parts log.new progress.new.replica progress.new.holdback steps.new) (length c.journal)) }
    ensures counted { OnOk result ((c : Common) (h : Host) → CanCatchUp S.machine c h (S.kind opening.now) (S.state opening.now) (parts log.old progress.old.replica progress.old.holdback steps.old) →
        steps.new ≡ steps.old + calls_behind c h) }
    ensures stopped { OnErr result ((c : Common) (h : Host) → CanCatchUp S.machine c h (S.kind opening.now) (S.state opening.now) (parts log.old progress.old.replica progress.old.holdback steps.old) →
        HasStopped S.machine c h (parts log.old progress.old.replica progress.old.holdback steps.old) (parts log.new progress.new.replica progress.new.holdback steps.new)) }
    ensures rest { log.new ≡ record log.old { table = log.new.table } }
{
    holdbacks_go_on();
    let caught = catch_up(alloc, log, &mut progress.replica, opening, steps);
    progress.holdback.drop_below(progress.replica.position());
    match caught {
        Ok(_count) => Ok(()),
        Err(NoMemory) => Err(NoMemory),
    }
}

/// Serves a request at a host that has caught up, by its group's style: in an active group the entry goes to
/// the other members.
fn serve_by<S: Servant + Drop, K: Keeper, L: Ledger>(
    alloc: Global,
    style: Style,
    log: &mut Log<K>,
    replica: &mut Replica<S>,
    arrival: Arrival,
    request: Request,
    steps: &mut Steps<L>,
) -> Served
    requires { (c : Common) × (h : Host) × CanServe S.machine c h.place log.old.newest.version.0 request (seen log.old replica.old steps.old) × (style ≡ c.style) }
    ensures served { (c : Common) (h : Host) → CanServe S.machine c h.place log.old.newest.version.0 request (seen log.old replica.old steps.old) → style ≡ c.style →
        IsSequenced S.machine c h arrival.host.0 arrival.clock.0 request arrival.stop result (seen log.old replica.old steps.old) (seen log.new replica.new steps.new) }
    ensures written { IsWritten result log.old log.old.newest.version arrival.clock request log.new }
{
    let version = log.newest().version;
    if !style.is_passive() {
        return active_sequencer::serve(alloc, log, replica, version, arrival, request, steps);
    }
    match passive_dispatch::serve(alloc, log, replica, version, arrival, request, steps) {
        Served::Done(replied) => Served::Done(replied),
        Served::NoMemory => Served::NoMemory,
    }
}

/// Has a host catch up, and then serve a request; the host knows the newest version.
pub(crate) fn enter<S: Servant + Drop, K: Keeper, L: Ledger>(
    alloc: Global,
    founding: &Founding<S>,
    log: &mut Log<K>,
    progress: &mut Progress<S>,
    arrival: Arrival,
    request: Request,
    steps: &mut Steps<L>,
) -> Entered
    requires { (c : Common) × (h : Host) × CanEnter S.machine c h founding.now.style (S.kind founding.now.opening) (S.state founding.now.opening) request (parts log.old progress.old.replica progress.old.holdback steps.old) }
    ensures entered { (c : Common) (h : Host) → CanEnter S.machine c h founding.now.style (S.kind founding.now.opening) (S.state founding.now.opening) request (parts log.old progress.old.replica progress.old.holdback steps.old) →
        IsEntered S.machine c h arrival.host.0 arrival.clock.0 request arrival.stop result (parts log.old progress.old.replica progress.old.holdback steps.old) (parts log.new progress.new.replica progress.new.holdback steps.new) }
    ensures written { WroteEntered result log.old log.new }
{
    logs_tell();
    holdbacks_go_on();
    let opening = &founding.opening;
    if let Err(NoMemory) = catch_up_here(alloc, log, progress, opening, steps) {
        return Entered::Short;
    }
    let style = founding.style;
    let replica = &mut progress.replica;
    match serve_by(alloc, style, log, replica, arrival, request, steps) {
        Served::Done(replied) => Entered::Done(replied),
        Served::NoMemory => {
            if progress.replica.is_loaded() {
                Entered::Short
            } else {
                Entered::Unrun
            }
        }
    }
}
