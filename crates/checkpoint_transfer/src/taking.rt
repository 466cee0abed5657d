ghost use Rattle.std.specs.Prelude.{◌≡◌, true, IfOk, OnErr};
ghost use Rattle.message_log.specs.Calls.{IsCheckpointed};
ghost use Rattle.group_model.specs.Plain.{Common, Place};
ghost use Rattle.group_stands.specs.Stands.{LogStands, ReplicaStands, IsCaughtUp};
ghost use Rattle.checkpoint_transfer.specs.Taking.{IsStateTaken, IsUpdateTaken, written};

use crate::lists::BytesList;
use ft_base::{NoMemory, Servant, Tick, Version};
use ft_outside::Keeper;
use ft_replica::Replica;
use group_stands::{logs_go_on, repeats_are_answered, replicas_give, replicas_go_on};
use message_log::{Log, LogFault};
use std::alloc::Global;

/// Takes a checkpoint of a replica that has caught up, by a writer that knows the newest version, and
/// gives its state so many times.
///
/// All memory is taken before the log is written. Where the checkpoint's own record can't be written,
/// it counts for nothing: the replica's next update leads on from where it led before. Where only the
/// view that is written behind it, or the cut, fails, it counts all the same.
#[tactic(auto, using(crate::proofs::Takes::state_taken, crate::proofs::Takes::left_standing))]
pub fn take_state<S: Servant + Drop, K: Keeper>(
    alloc: Global,
    log: &mut Log<K>,
    replica: &mut Replica<S>,
    version: Version,
    clock: Tick,
    copies: u8,
) -> Result<BytesList, LogFault>
    requires stands { (c : Common) × (place : Place) × LogStands S.machine c log.old × ReplicaStands S.machine c replica.old place × IsCaughtUp c place }
    requires newest { version.0 ≡ log.old.newest.version.0 }
    ensures taken { IfOk result (λ given. (c : Common) (place : Place) → LogStands S.machine c log.old → ReplicaStands S.machine c replica.old place → IsCaughtUp c place →
        IsStateTaken S.machine c place clock.0 copies given log.new replica.new) }
    ensures refused { OnErr result ((c : Common) → LogStands S.machine c log.old → LogStands S.machine c log.new) }
    ensures left { OnErr result (replica.new ≡ replica.old) }
    ensures written { IsCheckpointed log.old clock replica.old.state (written result) log.new }
{
    logs_go_on();
    replicas_go_on();
    repeats_are_answered();
    let state = replica.state(alloc)?;
    let given = BytesList::copies(alloc, &state, copies)?;
    let copied = replica.copy_servant(alloc)?;
    match log.checkpoint(alloc, version, clock, &state) {
        Err(fault) => Err(fault),
        Ok(()) => {
            replica.rebase_on(copied);
            Ok(given)
        }
    }
}

/// Gives the update from a replica's base to its position so many times; then its position is the
/// base.
#[tactic(auto, using(crate::proofs::Takes::update_taken))]
pub fn take_update<S: Servant + Drop>(
    alloc: Global,
    replica: &mut Replica<S>,
    copies: u8,
) -> Result<BytesList, NoMemory>
    requires { replica.old.loaded ≡ true }
    ensures taken { IfOk result (λ given. (c : Common) (place : Place) → ReplicaStands S.machine c replica.old place →
        IsUpdateTaken S.machine c place copies given replica.new) }
    ensures left { OnErr result (replica.new ≡ replica.old) }
{
    replicas_give();
    let update = replica.delta(alloc)?;
    let given = BytesList::copies(alloc, &update, copies)?;
    replica.rebase(alloc)?;
    Ok(given)
}
