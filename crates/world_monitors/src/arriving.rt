//! The monitor's messages as they come.
ghost use Rattle.std.specs.Prelude.{◌≡◌, ℕ, ◌<◌, Some, length, slice_get};
ghost use Rattle.script_groups.specs.Groups.{ScriptGroup as Group};
ghost use Rattle.world_monitors.specs.Arriving.{ping_comes, pinged, pong_comes, ponged};
ghost use Rattle.world_turns.specs.Answers.{Does};

use ft_base::{GroupId, HostNo, NoMemory};
use ft_report::{ReportLine, ReportLines};
use script_world::{Message, World};
use world_turns::{Named, group_with_number, late_line, one_line};

// A ping for the group at this place comes to its host.
fn ping_at(
    world: &mut World,
    number: u64,
    place: usize,
    host: HostNo,
) -> Result<ReportLines, NoMemory>
    requires { place < length world.old.groups }
    ensures { (g : Group) (calls : ℕ) → slice_get world.old.groups place ≡ Some g → Does (pinged world.old number g host) result world.new calls calls }
{
    if !world.is_up(host) {
        return one_line(world.alloc(), ReportLine::Lost { message: number });
    }
    let message = world.message_count() as u64 + 1;
    let id = world.group(place).id();
    let group = world.group(place).name().copy(world.alloc())?;
    let report = one_line(
        world.alloc(),
        ReportLine::Pong {
            message,
            host,
            group,
        },
    )?;
    world.send(Message::Pong { group: id, host })?;
    Ok(report)
}

/// A ping comes to its host.
pub fn ping_comes(
    world: &mut World,
    number: u64,
    group: GroupId,
    host: HostNo,
) -> Result<ReportLines, NoMemory>
    ensures { (calls : ℕ) → Does (ping_comes world.old number group host) result world.new calls calls }
{
    match group_with_number(world, group) {
        Named::Never => Ok(ReportLines::new(world.alloc())),
        Named::Deleted(_) => one_line(world.alloc(), late_line(world, number, host)),
        Named::There(place) => ping_at(world, number, place, host),
    }
}

// A host's answer for the group at this place comes to the monitor.
fn pong_at(
    world: &mut World,
    number: u64,
    place: usize,
    host: HostNo,
) -> Result<ReportLines, NoMemory>
    requires { place < length world.old.groups }
    ensures { (g : Group) (calls : ℕ) → slice_get world.old.groups place ≡ Some g → Does (ponged world.old number g host) result world.new calls calls }
{
    let id = world.group(place).id();
    let group = world.group(place).name().copy(world.alloc())?;
    let line = if world.hear_alive(id, host) {
        ReportLine::Alive { group, host }
    } else {
        ReportLine::IgnoredUnwatched { message: number }
    };
    one_line(world.alloc(), line)
}

/// A host's answer comes to the monitor.
pub fn pong_comes(
    world: &mut World,
    number: u64,
    group: GroupId,
    host: HostNo,
) -> Result<ReportLines, NoMemory>
    ensures { (calls : ℕ) → Does (pong_comes world.old number group host) result world.new calls calls }
{
    match group_with_number(world, group) {
        Named::Never => Ok(ReportLines::new(world.alloc())),
        Named::Deleted(_) => one_line(
            world.alloc(),
            ReportLine::IgnoredDeleted { message: number },
        ),
        Named::There(place) => pong_at(world, number, place, host),
    }
}
