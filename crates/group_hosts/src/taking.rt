//! What a host that has caught up gives: a checkpoint, and an update.
ghost use Rattle.group_model.specs.declared.events.Event.TheVariants as events;
ghost use Rattle.group_model.specs.Plain.{Common, Host};
ghost use Rattle.group_model.specs.Transfers.{checkpoint_written, update_taken};
ghost use Rattle.group_hosts.specs.Keeping.{WroteFor};
ghost use Rattle.group_hosts.specs.Taking.{CanTake, IsGiven};

use crate::sending::{states_out, updates_out};
use checkpoint_transfer::{take_state, take_update};
use ft_base::{HostNo, NoMemory, Servant, Style, Tick};
use ft_outside::Keeper;
use ft_replica::Replica;
use group_model::GroupAnswer;
use group_stands::logs_tell;
use message_log::{Log, LogFault};
use std::alloc::Global;

/// Takes a checkpoint; in a warm group the other members are sent its state. What is sent is made before
/// the log is written.
pub(crate) fn take_checkpoint<S: Servant + Drop, K: Keeper>(
    alloc: Global,
    style: Style,
    log: &mut Log<K>,
    replica: &mut Replica<S>,
    host: HostNo,
    clock: Tick,
) -> GroupAnswer
    requires { (c : Common) × (h : Host) × CanTake S.machine c h style log.old replica.old }
    ensures given { (c : Common) (h : Host) → CanTake S.machine c h style log.old replica.old →
        IsGiven S.machine c h (checkpoint_written (S.machine c.kind) c h host.0 clock.0) result log.new replica.old replica.new }
    ensures written { WroteFor (events.Checkpoint host clock) result log.old log.new }
{
    logs_tell();
    let version = log.newest().version;
    let from = replica.base();
    let position = replica.position();
    let Ok(out) = states_out(alloc, style, log.newest(), host, replica) else {
        return GroupAnswer::NoMemory;
    };
    match take_state(alloc, log, replica, version, clock, 0) {
        Ok(_none) => GroupAnswer::Taken {
            from,
            position,
            out,
        },
        Err(LogFault::Failed) => GroupAnswer::LogFault,
        Err(LogFault::ViewsFull) => unreachable!(),
        Err(LogFault::NoMemory) => GroupAnswer::NoMemory,
    }
}

/// Sends the other members of a warm group the update from the base to the position, which is the base
/// then.
pub(crate) fn take_changes<S: Servant + Drop, K: Keeper>(
    alloc: Global,
    log: &Log<K>,
    replica: &mut Replica<S>,
    host: HostNo,
) -> GroupAnswer
    requires { (c : Common) × (h : Host) × CanTake S.machine c h c.style log.now replica.old }
    ensures given { (c : Common) (h : Host) → CanTake S.machine c h c.style log.now replica.old →
        IsGiven S.machine c h (λ fails. update_taken (S.machine c.kind) c h host.0) result log.now replica.old replica.new }
    ensures wrote { WroteFor (events.SendUpdate host) result log.now log.now }
{
    logs_tell();
    let from = replica.base();
    let position = replica.position();
    let Ok(out) = updates_out(alloc, log.newest(), host, replica) else {
        return GroupAnswer::NoMemory;
    };
    if let Err(NoMemory) = take_update(alloc, replica, 0) {
        return GroupAnswer::NoMemory;
    }
    GroupAnswer::Taken {
        from,
        position,
        out,
    }
}
