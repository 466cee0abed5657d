//! `poll`: members are asked whether they are alive.
ghost use Rattle.std.specs.Prelude.{◌≡◌, ℕ, ◌+◌, ◌<◌, [], ◌∷◌, ◌++◌, Some, length, slice_get, OnOk};
ghost use Rattle.fault_monitor.specs.Watching.{asked};
ghost use Rattle.group_model.specs.Views.{host_no};
ghost use Rattle.script_groups.specs.Groups.{ScriptGroup as Group};
ghost use Rattle.script_monitor.specs.Watches.{told};
ghost use Rattle.script_world.specs.Sound.{IsKeptWorld};
ghost use Rattle.script_world.specs.World.{with_messages, with_watch};
ghost use Rattle.world_monitors.specs.Monitoring.{due};
ghost use Rattle.world_monitors.specs.Polling.{asks, asks_all, ping, poll_line, polled};
ghost use Rattle.world_turns.specs.Answers.{Acts, Does};

use crate::monitoring::{due, watch_members};
use fault_script::LineFault;
use ft_base::{GroupId, HostNo, Name, NoMemory};
use ft_report::{ReportLine, ReportLines};
use script_world::{Message, World};
use world_turns::{Named, gone, group_called, one_line};

// One member is asked now.
fn ask(
    world: &mut World,
    report: &mut ReportLines,
    group: GroupId,
    name: &Name,
    host: u8,
) -> Result<(), NoMemory>
    ensures world { OnOk result (world.new ≡ with_messages
        (with_watch world.old (told world.old.watch group.0 host (asked world.old.clock))) (ping group host ∷ [])) }
    ensures report { OnOk result (report.new ≡ report.old ++ ReportLine.Ping (length world.old.messages + 1) (host_no host) name.now ∷ []) }
{
    let host = HostNo(host);
    let message = world.message_count() as u64 + 1;
    let line = ReportLine::Ping {
        message,
        host,
        group: name.copy(world.alloc())?,
    };
    report.push(line)?;
    world.ask(group, host);
    world.send(Message::Ping { group, host })
}

// Each of these members is asked now.
fn ask_all(
    world: &mut World,
    group: GroupId,
    name: &Name,
    hosts: &[u8],
) -> Result<ReportLines, NoMemory>
    ensures { (calls : ℕ) → Does (asks_all world.old group name.now hosts.now) result world.new calls calls }
{
    let mut report = ReportLines::new(world.alloc());
    for host in hosts {
        ask(world, &mut report, group, name, *host)?;
    }
    Ok(report)
}

// The members of the group at this place that are due are asked now.
fn ask_due(world: &mut World, place: usize) -> Result<ReportLines, NoMemory>
    requires within { place < length world.old.groups }
    requires kept { IsKeptWorld world.old }
    ensures { (g : Group) (calls : ℕ) → slice_get world.old.groups place ≡ Some g → Does (asks world.old g (due world.old g)) result world.new calls calls }
{
    let hosts = due(world, place)?;
    let name = world.group(place).name().copy(world.alloc())?;
    if hosts.is_empty() {
        return one_line(world.alloc(), ReportLine::PollNone { group: name });
    }
    let group = world.group(place).id();
    ask_all(world, group, &name, hosts.as_slice())
}

// The group at this place is polled.
fn poll(world: &mut World, place: usize) -> Result<ReportLines, NoMemory>
    requires within { place < length world.old.groups }
    requires kept { IsKeptWorld world.old }
    ensures { (g : Group) (calls : ℕ) → slice_get world.old.groups place ≡ Some g → Does (polled world.old g) result world.new calls calls }
{
    watch_members(world, place)?;
    ask_due(world, place)
}

/// `poll G`
pub fn poll_line(world: &mut World, name: &Name) -> Result<ReportLines, LineFault>
    requires { IsKeptWorld world.old }
    ensures { (calls : ℕ) → Acts (poll_line world.old name.now) result world.old world.new calls calls }
{
    let place = match group_called(world, name) {
        Named::There(place) => place,
        Named::Deleted(_) => return gone(world),
        Named::Never => return Err(LineFault::Unknown),
    };
    match poll(world, place) {
        Ok(report) => Ok(report),
        Err(NoMemory) => Err(LineFault::NoMemory),
    }
}
