//! `update G`.
ghost use Rattle.std.specs.Prelude.{◌≡◌, ℕ, ◌<◌, Some, length, slice_get};
ghost use Rattle.std.specs.List.{AllByRecursion};
ghost use Rattle.ft_base.specs.declared.limits.TheConstants.{HOST_LIMIT};
ghost use Rattle.group_model.specs.Sending.{sent_by};
ghost use Rattle.script_groups.specs.Groups.{ScriptGroup as Group, placed};
ghost use Rattle.script_groups.specs.Takers.{update_taker};
ghost use Rattle.script_world.specs.Sound.{IsKeptWorld, IsOnItsWay};
ghost use Rattle.script_world.specs.World.{carried};
ghost use Rattle.world_transfers.specs.Transfers.{update_by, update_line, updated};
ghost use Rattle.world_turns.specs.Answers.{Acts, Does};

use fault_script::LineFault;
use ft_base::{HostNo, Name, NoMemory, Steps};
use ft_report::{ReportLine, ReportLines};
use group_model::{Event, GroupAnswer};
use script_groups::takers_may_take;
use script_world::World;
use std::sync::ledger::Ledger;
use world_turns::{Named, gone, group_called, one_line, send_all};

// What the group at this place, which has had the event, made of it.
fn updated(
    world: &mut World,
    place: usize,
    host: HostNo,
    answer: GroupAnswer,
) -> Result<ReportLines, NoMemory>
    requires within { place < length world.old.groups }
    requires kept { IsKeptWorld world.old }
    requires sent { (g : Group) → slice_get world.old.groups place ≡ Some g → AllByRecursion (λ o. IsOnItsWay world.old.groups (carried g.id o)) (sent_by answer) }
    ensures { (g : Group) (calls : ℕ) → slice_get world.old.groups place ≡ Some g → Does (updated world.old host g answer) result world.new calls calls }
{
    let alloc = world.alloc();
    let name = world.group(place).name().copy(alloc)?;
    match answer {
        GroupAnswer::Taken {
            from: base,
            position,
            out,
        } => {
            let id = world.group(place).id();
            let group = name.copy(alloc)?;
            let line = ReportLine::Updated {
                group,
                host,
                base,
                position,
            };
            let mut report = one_line(alloc, line)?;
            send_all(world, &mut report, id, &name, host, out)?;
            Ok(report)
        }
        _ => one_line(alloc, ReportLine::UpdateNone { group: name }),
    }
}

// This host sends an update of the group at this place.
fn update_at<L: Ledger>(
    world: &mut World,
    place: usize,
    host: HostNo,
    steps: &mut Steps<L>,
) -> Result<ReportLines, NoMemory>
    requires within { place < length world.old.groups }
    requires host { host.0 < HOST_LIMIT }
    requires takes { (g : Group) → slice_get world.old.groups place ≡ Some g → update_taker g ≡ Some host }
    requires kept { IsKeptWorld world.old }
    ensures { (g : Group) → slice_get world.old.groups place ≡ Some g →
        Does (update_by world.old (placed place g) (Some host)) result world.new steps.old steps.new }
{
    takers_may_take();
    world.group(place).is_sound();
    let event = Event::SendUpdate(host);
    match world.event_at(place, event, steps) {
        GroupAnswer::NoMemory => Err(NoMemory),
        answer => updated(world, place, host, answer),
    }
}

// The group at this place sends an update, if it has who does.
fn update<L: Ledger>(
    world: &mut World,
    place: usize,
    steps: &mut Steps<L>,
) -> Result<ReportLines, NoMemory>
    requires within { place < length world.old.groups }
    requires kept { IsKeptWorld world.old }
    ensures { (g : Group) → slice_get world.old.groups place ≡ Some g →
        Does (update_by world.old (placed place g) (update_taker g)) result world.new steps.old steps.new }
{
    takers_may_take();
    let group = world.group(place);
    group.is_sound();
    if let Some(host) = group.update_taker() {
        return update_at(world, place, host, steps);
    }
    let group = world.group(place).name().copy(world.alloc())?;
    one_line(world.alloc(), ReportLine::UpdateNone { group })
}

/// `update G`
pub fn update_line<L: Ledger>(
    world: &mut World,
    name: &Name,
    steps: &mut Steps<L>,
) -> Result<ReportLines, LineFault>
    requires { IsKeptWorld world.old }
    ensures { Acts (update_line world.old name.now) result world.old world.new steps.old steps.new }
{
    let place = match group_called(world, name) {
        Named::There(place) => place,
        Named::Deleted(_) => return gone(world),
        Named::Never => return Err(LineFault::Unknown),
    };
    match update(world, place, steps) {
        Ok(report) => Ok(report),
        Err(NoMemory) => Err(LineFault::NoMemory),
    }
}
