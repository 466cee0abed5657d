//! The group is opened.
ghost use Rattle.std.specs.Prelude.{◌≡◌, ◌<◌, ◌≤◌, [], length, IfOk};
ghost use Rattle.std.specs.List.{AllByRecursion};
ghost use Rattle.std.specs.Arc.{arc_value};
ghost use Rattle.ft_base.specs.declared.limits.TheConstants.{HOST_LIMIT};
ghost use Rattle.ft_base.specs.declared.views.TheConstants.{MEMBER_LIMIT};
ghost use Rattle.ft_outside.specs.Keeping.{plan_after};
ghost use Rattle.hist_lock.specs.Passes.{first_pass};
ghost use Rattle.group_model.specs.Openings.{first_view};
ghost use Rattle.group_model.specs.Plain.{Group};
ghost use Rattle.group_model.specs.Views.{newest_view};
ghost use Rattle.group_core.specs.Cores.{Stands};
ghost use Rattle.live_group.specs.Opening.{first_hosts, live_opening};

use ft_base::{GroupId, HostNo, Members, Name, NoMemory, Servant, Style, View};
use ft_outside::Keeper;
use group_core::{GroupCore, cores_tell};
use iogr_reference::Ports;
use shared_group::{Pass, SharedGroup};
use std::alloc::Global;
use std::sync::Arc;

/// A group that its hosts can share, the run's own pass, and the group's first view.
#[derive(Drop)]
pub struct OpenGroup<S: Servant + Drop, K: Keeper + Drop> {
    pub group: Arc<SharedGroup<S, K>, Global>,
    pub main: Pass<S, K>,
    pub view: View,
}

/// The number of a run's one group.
pub const GROUP: GroupId = GroupId(1);

// So many hosts, from 0 on.
fn first_hosts(count: u8) -> Members
    requires { count ≤ MEMBER_LIMIT }
    ensures { result ≡ first_hosts count }
{
    let mut members = Members::new();
    for host in 0..count {
        members.join(HostNo(host));
    }
    members
}

// The group's core, of which nothing was asked yet.
fn open_core<S: Servant + Drop, K: Keeper + Drop>(
    alloc: Global,
    style: Style,
    hosts: u8,
    servant: S,
    keeper: K,
) -> Result<GroupCore<S, K>, NoMemory>
    requires few { hosts ≤ MEMBER_LIMIT }
    requires empty { K.records keeper ≡ [] }
    ensures stands { IfOk result (λ core. Stands S.machine core (live_opening style (S.kind servant) (S.state servant) hosts)) }
    ensures plan { IfOk result (λ core. core.log.plan ≡ plan_after (K.plan keeper)) }
{
    let members = first_hosts(hosts);
    match GroupCore::new(alloc, GROUP, style, servant, members, keeper) {
        Ok(core) => Ok(core),
        Err(_) => Err(NoMemory),
    }
}

// The newest view of a group that was just opened.
fn opened_view<S: Servant + Drop, K: Keeper>(core: &GroupCore<S, K>) -> View
    requires { (g : Group) × Stands S.machine core.now g }
    ensures { (g : Group) → Stands S.machine core.now g → result ≡ newest_view g.common }
{
    cores_tell();
    core.log().newest().copy()
}

/// Opens a group of so many hosts with this servant, whose log goes to an empty keeper, and puts it behind a lock. Its
/// references have this type id and these ports.
pub fn open_group<S: Servant + Drop, K: Keeper + Drop>(
    alloc: Global,
    style: Style,
    hosts: u8,
    servant: S,
    keeper: K,
    type_id: Name,
    ports: Ports,
) -> Result<OpenGroup<S, K>, NoMemory>
    requires few { hosts ≤ MEMBER_LIMIT }
    requires empty { K.records keeper ≡ [] }
    requires ports { HOST_LIMIT ≤ length ports }
    ensures stands { IfOk result (λ made. Stands S.machine (arc_value made.group).lock.opening.core (live_opening style (S.kind servant) (S.state servant) hosts)) }
    ensures plan { IfOk result (λ made. (arc_value made.group).lock.opening.core.log.plan ≡ plan_after (K.plan keeper)) }
    ensures pass { IfOk result (λ made. made.main ≡ first_pass (arc_value made.group).lock) }
    ensures name { IfOk result (λ made. (arc_value made.group).type_id ≡ type_id) }
    ensures view { IfOk result (λ made. made.view ≡ first_view style (first_hosts hosts)) }
    ensures hosts { IfOk result (λ made. AllByRecursion (λ host. host < HOST_LIMIT) made.view.members) }
{
    let core = match open_core(alloc, style, hosts, servant, keeper) {
        Ok(core) => core,
        Err(NoMemory) => return Err(NoMemory),
    };
    let view = opened_view(&core);
    let (group, main) = match SharedGroup::new(alloc, core, type_id, ports) {
        Ok(made) => made,
        Err(NoMemory) => return Err(NoMemory),
    };
    match Arc::new(alloc, group) {
        Ok(group) => Ok(OpenGroup { group, main, view }),
        Err(_) => Err(NoMemory),
    }
}
