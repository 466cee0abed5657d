//! What is kept of members, by their groups and hosts.
ghost use Rattle.std.specs.Prelude.{◌≡◌, Some, None, true, is_some, OnOk, OnErr};
ghost use Rattle.fault_monitor.specs.Keeping.{kept_at, IsPut};

use crate::members::Member;
use ft_base::{GroupId, HostNo, NoMemory};
use std::collections::BTreeMap;

pub(crate) type Places = BTreeMap<(u64, u8), Member>;

pub(crate) fn member_at(places: &Places, group: GroupId, host: HostNo) -> Option<Member>
    ensures { result ≡ kept_at places.now.entries group.0 host.0 }
{
    places.get(&(group.0, host.0)).copied()
}

/// A member in place of what is there.
#[tactic(auto, using(crate::proofs::Placing::put_by_order))]
pub(crate) fn put(
    places: &mut Places,
    group: GroupId,
    host: HostNo,
    member: Member,
) -> Result<(), NoMemory>
    ensures put { OnOk result (IsPut group.0 host.0 (Some member) places.old.entries places.new.entries) }
    ensures left { OnErr result (places.new.entries ≡ places.old.entries) }
{
    places.insert((group.0, host.0), member)?;
    Ok(())
}

/// A member in place of the one that is there. It takes no memory.
#[tactic(auto, using(crate::proofs::Placing::put_by_order))]
pub(crate) fn change(places: &mut Places, group: GroupId, host: HostNo, member: Member)
    requires { is_some (kept_at places.old.entries group.0 host.0) ≡ true }
    ensures { IsPut group.0 host.0 (Some member) places.old.entries places.new.entries }
{
    if let Some(place) = places.get_mut(&(group.0, host.0)) {
        *place = member;
    }
}

#[tactic(auto, using(crate::proofs::Placing::put_by_order))]
pub(crate) fn take_out(places: &mut Places, group: GroupId, host: HostNo)
    ensures { IsPut group.0 host.0 None places.old.entries places.new.entries }
{
    let _ = places.remove(&(group.0, host.0));
}
