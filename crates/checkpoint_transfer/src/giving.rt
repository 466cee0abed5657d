ghost use Rattle.std.specs.Prelude.{◌≡◌};
ghost use Rattle.group_model.specs.Agreeing.{IsSoundCommon};
ghost use Rattle.group_model.specs.Plain.{Common, Host};
ghost use Rattle.group_model.specs.Transfers.{on_state, on_update};
ghost use Rattle.group_stands.specs.Giving.{IsStateAt, IsUpdateBetween};
ghost use Rattle.group_stands.specs.Stands.{ReplicaStands};
ghost use Rattle.checkpoint_transfer.specs.Giving.{IsGiven, IsLeft};

use ft_base::{Bytes, Ignored, Servant, StateFault, UpdateFault};
use ft_replica::Replica;
use group_stands::given_states_stand;
use std::alloc::Global;

/// What a member made of what it was given.
#[derive(Clone, Copy, Debug, PartialEq, Eq)]
pub enum Given {
    /// Its replica is now at this position.
    Applied(u32),
    /// It doesn't take its replica on.
    Ignored(Ignored),
    NoMemory,
}

/// Takes over the state after the first `position` entries, where that takes the replica on.
#[tactic(auto, using(crate::proofs::Gives::state_loaded, crate::proofs::Gives::state_ignored))]
pub fn give_state<S: Servant + Drop>(
    alloc: Global,
    replica: &mut Replica<S>,
    position: u32,
    state: &Bytes,
) -> Given
    requires { (c : Common) × (h : Host) × IsSoundCommon (S.machine c.kind) c × ReplicaStands S.machine c replica.old h.place × IsStateAt (S.machine c.kind) c position state.now }
    ensures given { (c : Common) (h : Host) → IsSoundCommon (S.machine c.kind) c → ReplicaStands S.machine c replica.old h.place → IsStateAt (S.machine c.kind) c position state.now →
        IsGiven S.machine c (on_state c h position) result replica.new }
    ensures left { IsLeft result replica.old replica.new }
{
    given_states_stand();
    let at = replica.position();
    if replica.is_loaded() && position <= at {
        return Given::Ignored(Ignored::Position { sent: position, at });
    }
    match replica.load(alloc, position, state) {
        Ok(()) => Given::Applied(position),
        Err(StateFault::NoMemory) => Given::NoMemory,
        Err(StateFault::InvalidState) => unreachable!(),
    }
}

/// Applies the update between the states after the first `from` and the first `to` entries, where the
/// replica is at `from`.
#[tactic(auto, using(crate::proofs::Gives::update_applied, crate::proofs::Gives::update_ignored, crate::proofs::Gives::not_loaded))]
pub fn give_update<S: Servant + Drop>(
    alloc: Global,
    replica: &mut Replica<S>,
    from: u32,
    to: u32,
    update: &Bytes,
) -> Given
    requires { (c : Common) × (h : Host) × IsSoundCommon (S.machine c.kind) c × ReplicaStands S.machine c replica.old h.place × IsUpdateBetween (S.machine c.kind) c from to update.now }
    ensures given { (c : Common) (h : Host) → IsSoundCommon (S.machine c.kind) c → ReplicaStands S.machine c replica.old h.place → IsUpdateBetween (S.machine c.kind) c from to update.now →
        IsGiven S.machine c (on_update c h from to) result replica.new }
    ensures left { IsLeft result replica.old replica.new }
{
    given_states_stand();
    if !replica.is_loaded() {
        return Given::Ignored(Ignored::NotLoaded);
    }
    let at = replica.position();
    if at != from {
        return Given::Ignored(Ignored::From { from, at });
    }
    match replica.update(alloc, from, to, update) {
        Ok(()) => Given::Applied(to),
        Err(UpdateFault::NoMemory) => Given::NoMemory,
        Err(UpdateFault::InvalidUpdate) => unreachable!(),
    }
}
