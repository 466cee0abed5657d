//! Groups of three members.
ghost use Rattle.std.specs.Prelude.{◌≡◌, ◌∷◌, [], IfOk};
ghost use Rattle.hist_lock.specs.Passes.{IsOf};
ghost use Rattle.group_core.specs.Trying.{IsSome};

use ft_base::{GroupId, HostNo, Members, Name, NoMemory, Servant, Style};
use ft_outside::Keeper;
use group_core::GroupCore;
use host_ports::all_ports;
use shared_group::{Pass, SharedGroup};
use std::alloc::Global;

fn three() -> Members
    ensures { result ≡ 0 ∷ 1 ∷ 2 ∷ [] }
{
    let mut members = Members::new();
    members.join(HostNo(0));
    members.join(HostNo(1));
    members.join(HostNo(2));
    members
}

/// The core of a group of this style, of which nothing was asked yet.
#[tactic(auto, using(crate::proofs::Going::three_there))]
pub fn open_core<S: Servant + Drop, K: Keeper + Drop>(
    alloc: Global,
    style: Style,
    opening: S,
    keeper: K,
) -> Result<GroupCore<S, K>, NoMemory>
    requires { K.records keeper ≡ [] }
    ensures { IfOk result (λ core. IsSome S.machine core) }
{
    let members = three();
    match GroupCore::new(alloc, GroupId(1), style, opening, members, keeper) {
        Ok(core) => Ok(core),
        Err(_) => Err(NoMemory),
    }
}

/// The group behind a lock, and its first pass.
pub fn open_group<S: Servant + Drop, K: Keeper + Drop>(
    alloc: Global,
    style: Style,
    opening: S,
    keeper: K,
) -> Result<(SharedGroup<S, K>, Pass<S, K>), NoMemory>
    requires { K.records keeper ≡ [] }
    ensures { IfOk result (λ made. IsOf made.0.lock made.1) }
{
    let core = open_core(alloc, style, opening, keeper)?;
    let ports = all_ports(alloc)?;
    match Name::of(alloc, b"IDL:ftc/Account:1.0") {
        Ok(type_id) => SharedGroup::new(alloc, core, type_id, ports),
        Err(_) => Err(NoMemory),
    }
}
