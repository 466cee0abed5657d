//! Groups by their names and numbers, also those that were deleted.
ghost use Rattle.std.specs.Prelude.{◌≡◌, ℕ, ◌<◌, Some, length, slice_get};
ghost use Rattle.script_groups.specs.Groups.{ScriptGroup as Group, placed};
ghost use Rattle.world_turns.specs.Answers.{Acts};
ghost use Rattle.world_turns.specs.Turns.{goes};
ghost use Rattle.world_turns.specs.Naming.{IsNamed, gone, group_called, group_with_number, late_line, naming_of};

use crate::lines::one_line;
use fault_script::LineFault;
use ft_base::{GroupId, HostNo, Name, NoMemory};
use ft_report::{ReportLine, ReportLines};
use group_model::ManageFault;
use script_world::World;

/// What a group's name or its number stands for, with the group's place among all that were made.
#[derive(Clone, Copy, Debug, PartialEq, Eq)]
pub enum Named {
    /// No group was made with it.
    Never,
    /// The group was deleted.
    Deleted(usize),
    /// The group is there.
    There(usize),
}

fn standing(world: &World, place: usize) -> Named
    requires { place < length world.now.groups }
    ensures { (g : Group) → slice_get world.now.groups place ≡ Some g → IsNamed (naming_of world.now (Some (placed place g))) world.now.groups result }
{
    if world.is_deleted(place) {
        Named::Deleted(place)
    } else {
        Named::There(place)
    }
}

/// What a group's name stands for.
pub fn group_called(world: &World, name: &Name) -> Named
    ensures { IsNamed (group_called world.now name.now) world.now.groups result }
{
    match world.group_place(name) {
        None => Named::Never,
        Some(place) => standing(world, place),
    }
}

/// What a group's number stands for.
pub fn group_with_number(world: &World, group: GroupId) -> Named
    ensures { IsNamed (group_with_number world.now group.0) world.now.groups result }
{
    match world.numbered_place(group) {
        None => Named::Never,
        Some(place) => standing(world, place),
    }
}

/// What is printed where a message comes to a host for a group that was deleted.
pub fn late_line(world: &World, number: u64, to: HostNo) -> ReportLine
    ensures { result ≡ late_line world.now number to }
{
    if world.is_up(to) {
        ReportLine::IgnoredDeleted { message: number }
    } else {
        ReportLine::Lost { message: number }
    }
}

/// What a line does that is about a group that was deleted.
pub fn gone(world: &World) -> Result<ReportLines, LineFault>
    ensures { (calls : ℕ) → Acts (goes (gone world.now)) result world.now world.now calls calls }
{
    match one_line(
        world.alloc(),
        ReportLine::Refused(ManageFault::ObjectGroupNotFound),
    ) {
        Ok(report) => Ok(report),
        Err(NoMemory) => Err(LineFault::NoMemory),
    }
}
