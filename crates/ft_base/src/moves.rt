ghost use Rattle.std.specs.Prelude.{◌≡◌, OnOk, OnErr};
ghost use Rattle.ft_base.specs.Servants.{IsReached};

use crate::memory::NoMemory;
use crate::servants::{Servant, StateFault, UpdateFault};
use std::alloc::Global;

/// Sets a servant to the state of another of its kind.
pub fn move_state<S: Servant>(alloc: Global, from: &S, to: &mut S) -> Result<(), NoMemory>
    requires { S.kind from.now ≡ S.kind to.old }
    ensures kind { S.kind to.new ≡ S.kind to.old }
    ensures moved { OnOk result (S.state to.new ≡ S.state from.now) }
    ensures left { OnErr result (S.state to.new ≡ S.state to.old) }
{
    let state = from.get_state(alloc)?;
    match to.set_state(alloc, &state) {
        Ok(()) => Ok(()),
        Err(StateFault::NoMemory) => Err(NoMemory),
        Err(StateFault::InvalidState) => unreachable!(),
    }
}

/// Brings a servant that is in the state of `base` to the state that `from` has reached since, by
/// the update between the two.
pub fn move_update<S: Servant>(
    alloc: Global,
    from: &S,
    base: &S,
    to: &mut S,
) -> Result<(), NoMemory>
    requires base_kind { S.kind base.now ≡ S.kind from.now }
    requires to_kind { S.kind to.old ≡ S.kind from.now }
    requires begins { S.state to.old ≡ S.state base.now }
    requires reached { IsReached (S.machine (S.kind from.now)) (S.state base.now) (S.state from.now) }
    ensures kind { S.kind to.new ≡ S.kind to.old }
    ensures moved { OnOk result (S.state to.new ≡ S.state from.now) }
    ensures left { OnErr result (S.state to.new ≡ S.state to.old) }
{
    let update = from.get_update(alloc, base)?;
    match to.set_update(alloc, &update) {
        Ok(()) => Ok(()),
        Err(UpdateFault::NoMemory) => Err(NoMemory),
        Err(UpdateFault::InvalidUpdate) => unreachable!(),
    }
}
