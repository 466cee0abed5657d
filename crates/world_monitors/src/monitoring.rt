//! How a group is monitored.
ghost use Rattle.std.specs.Prelude.{◌≡◌, ◌<◌, Some, length, slice_get, IfOk, OnOk};
ghost use Rattle.ft_base.specs.declared.limits.TheConstants.{HOST_LIMIT};
ghost use Rattle.script_groups.specs.Groups.{ScriptGroup as Group};
ghost use Rattle.script_world.specs.Sound.{IsKeptWorld};
ghost use Rattle.script_world.specs.World.{with_watch};
ghost use Rattle.world_monitors.specs.Monitoring.{due, monitored, overdue, watched_at};
ghost use Rattle.world_monitors.specs.Polling.{watched_members};

use ft_base::{GroupId, HOST_LIMIT, HostNo, Members, NoMemory};
use property_manager::{
    FaultMonitoringStyle, IntervalAndTimeout, PropertyName, interval_and_timeout,
};
use script_world::World;

/// The interval and the timeout of the group at this place, where its style is PULL.
fn monitored(world: &World, place: usize) -> Option<IntervalAndTimeout>
    requires { place < length world.now.groups }
    ensures { (g : Group) → slice_get world.now.groups place ≡ Some g → result ≡ monitored world.now g }
{
    let group = world.group(place).id();
    let properties = world.properties();
    let style = properties.value(group, PropertyName::FaultMonitoringStyle)?;
    let numbers = properties.value(group, PropertyName::FaultMonitoringIntervalAndTimeout)?;
    match FaultMonitoringStyle::of(style) {
        Some(FaultMonitoringStyle::Pull) => interval_and_timeout(numbers),
        _ => None,
    }
}

// A member is watched by these numbers, and no other host is.
fn watch_host(
    world: &mut World,
    group: GroupId,
    host: HostNo,
    members: &Members,
    numbers: Option<IntervalAndTimeout>,
) -> Result<(), NoMemory>
    ensures { OnOk result (world.new ≡ with_watch world.old (watched_at world.old.watch group.0 members.now numbers host.0)) }
{
    match numbers {
        Some(numbers) if members.has(host) => {
            world.watch(group, host, numbers.interval, numbers.timeout)
        }
        _ => {
            world.unwatch(group, host);
            Ok(())
        }
    }
}

/// The members of the group at this place are watched, and no other of its hosts.
pub(crate) fn watch_members(world: &mut World, place: usize) -> Result<(), NoMemory>
    requires within { place < length world.old.groups }
    requires kept { IsKeptWorld world.old }
    ensures watched { (g : Group) → slice_get world.old.groups place ≡ Some g → OnOk result (world.new ≡ watched_members world.old g) }
    ensures groups { OnOk result (world.new.groups ≡ world.old.groups) }
{
    let group = world.group(place).id();
    let members = world.group(place).newest().members.copy();
    let numbers = monitored(world, place);
    for host in 0..HOST_LIMIT as u8 {
        watch_host(world, group, HostNo(host), &members, numbers)?;
    }
    Ok(())
}

/// The members of the group at this place that are to be asked, in order of joining.
pub(crate) fn due(world: &World, place: usize) -> Result<Vec<u8>, NoMemory>
    requires within { place < length world.now.groups }
    requires kept { IsKeptWorld world.now }
    ensures { (g : Group) → slice_get world.now.groups place ≡ Some g → IfOk result (λ hosts. hosts.items ≡ due world.now g) }
{
    let group = world.group(place).id();
    let view = world.group(place).newest();
    let mut due = Vec::new(world.alloc());
    for host in view.members.hosts() {
        if world.is_due(group, HostNo(*host)) {
            due.push(*host)?;
        }
    }
    Ok(due)
}

/// The members of the group at this place that haven't answered in time, in order of joining.
pub(crate) fn overdue(world: &World, place: usize) -> Result<Vec<u8>, NoMemory>
    requires within { place < length world.now.groups }
    requires kept { IsKeptWorld world.now }
    ensures { (g : Group) → slice_get world.now.groups place ≡ Some g → IfOk result (λ hosts. hosts.items ≡ overdue world.now g) }
{
    let group = world.group(place).id();
    let mut overdue = Vec::new(world.alloc());
    for host in world.group(place).newest().members.hosts() {
        if world.is_overdue(group, HostNo(*host)) {
            overdue.push(*host)?;
        }
    }
    Ok(overdue)
}
