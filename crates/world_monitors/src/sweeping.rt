//! `sweep`: members that are overdue are reported.
ghost use Rattle.std.specs.Prelude.{◌≡◌, ℕ, ◌<◌, Some, length, slice_get};
ghost use Rattle.std.specs.List.{AllByRecursion};
ghost use Rattle.ft_base.specs.declared.limits.TheConstants.{HOST_LIMIT};
ghost use Rattle.script_groups.specs.Groups.{ScriptGroup as Group, placed};
ghost use Rattle.script_world.specs.Sound.{IsKeptWorld};
ghost use Rattle.world_monitors.specs.Sweeping.{reports_all, sweep_line, swept};
ghost use Rattle.world_turns.specs.Answers.{Acts, Does, DoesMore};

use crate::monitoring::overdue;
use fault_script::LineFault;
use ft_base::{HostNo, Name, NoMemory, Steps};
use ft_report::{ReportLine, ReportLines};
use script_world::World;
use std::sync::ledger::Ledger;
use world_management::push_report;
use world_turns::{Named, gone, group_called, one_line};

// Each of these members of the group at this place is reported.
fn report_all<L: Ledger>(
    world: &mut World,
    place: usize,
    hosts: &[u8],
    steps: &mut Steps<L>,
) -> Result<ReportLines, NoMemory>
    requires within { place < length world.old.groups }
    requires kept { IsKeptWorld world.old }
    requires hosts { AllByRecursion (λ host. host < HOST_LIMIT) hosts.now }
    ensures { (g : Group) → slice_get world.old.groups place ≡ Some g →
        Does (reports_all world.old (placed place g) hosts.now) result world.new steps.old steps.new }
{
    let mut report = ReportLines::new(world.alloc());
    for host in hosts {
        match push_report(world, &mut report, place, HostNo(*host), steps) {
            Ok(()) => {}
            Err(NoMemory) => return Err(NoMemory),
        }
    }
    Ok(report)
}

// The group at this place is swept.
fn sweep<L: Ledger>(
    world: &mut World,
    place: usize,
    steps: &mut Steps<L>,
) -> Result<ReportLines, NoMemory>
    requires within { place < length world.old.groups }
    requires kept { IsKeptWorld world.old }
    ensures { (g : Group) → slice_get world.old.groups place ≡ Some g → Does (swept world.old (placed place g)) result world.new steps.old steps.new }
{
    world.group(place).is_sound();
    let hosts = overdue(world, place)?;
    if hosts.is_empty() {
        let group = world.group(place).name().copy(world.alloc())?;
        return one_line(world.alloc(), ReportLine::SweepNone { group });
    }
    report_all(world, place, hosts.as_slice(), steps)
}

/// `sweep G`
pub fn sweep_line<L: Ledger>(
    world: &mut World,
    name: &Name,
    steps: &mut Steps<L>,
) -> Result<ReportLines, LineFault>
    requires { IsKeptWorld world.old }
    ensures { Acts (sweep_line world.old name.now) result world.old world.new steps.old steps.new }
{
    let place = match group_called(world, name) {
        Named::There(place) => place,
        Named::Deleted(_) => return gone(world),
        Named::Never => return Err(LineFault::Unknown),
    };
    match sweep(world, place, steps) {
        Ok(report) => Ok(report),
        Err(NoMemory) => Err(LineFault::NoMemory),
    }
}
