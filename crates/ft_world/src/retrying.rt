//! Clients that are bound to a group's newest reference, and attempts that get no reply.
ghost use Rattle.std.specs.Prelude.{◌≡◌, ℕ, ◌<◌, None, Some, length, slice_get};
ghost use Rattle.script_clients.specs.Clients.{Client};
ghost use Rattle.script_groups.specs.Groups.{ScriptGroup as Group, placed};
ghost use Rattle.script_world.specs.Sound.{IsKeptWorld};
ghost use Rattle.ft_world.specs.Retrying.{bind_line, bind_to, bound, timed_out, timeout_line};
ghost use Rattle.world_turns.specs.Answers.{Acts, Does};
ghost use Rattle.world_turns.specs.Naming.{There};

use crate::calls::does;
use fault_script::LineFault;
use ft_base::{Name, NoMemory};
use ft_report::{ReportLine, ReportLines};
use script_world::World;
use world_turns::{Named, gone, group_called, one_line};

// The client at this place goes by the newest reference of the group at this place.
fn bind(world: &mut World, client: usize, group: usize) -> Result<ReportLines, NoMemory>
    requires client { client < length world.old.clients }
    requires group { group < length world.old.groups }
    requires idle { (c : Client) → slice_get world.old.clients client ≡ Some c → c.call ≡ None }
    requires kept { IsKeptWorld world.old }
    ensures { (c : Client) (g : Group) (calls : ℕ) → slice_get world.old.clients client ≡ Some c → slice_get world.old.groups group ≡ Some g →
        Does (bound world.old (placed client c) g) result world.new calls calls }
{
    let alloc = world.alloc();
    let reference = world.group(group).newest_reference(alloc, world.ports())?;
    let client_name = world.client_at(client).name().copy(alloc)?;
    let group_name = world.group(group).name().copy(alloc)?;
    let report = one_line(
        alloc,
        ReportLine::Bound {
            client: client_name,
            group: group_name,
            version: reference.version,
        },
    )?;
    world.bind_at(client, reference)?;
    Ok(report)
}

// The client at this place is to go by the newest reference of the group at this place.
fn bind_there(world: &mut World, client: usize, group: usize) -> Result<ReportLines, LineFault>
    requires client { client < length world.old.clients }
    requires group { group < length world.old.groups }
    requires kept { IsKeptWorld world.old }
    ensures { (c : Client) (g : Group) (calls : ℕ) → slice_get world.old.clients client ≡ Some c → slice_get world.old.groups group ≡ Some g →
        Acts (bind_to world.old (placed client c) (There (placed group g))) result world.old world.new calls calls }
{
    if world.is_busy(client) {
        let client = world.client_at(client).name().copy(world.alloc())?;
        let report = one_line(world.alloc(), ReportLine::Busy { client })?;
        return Ok(report);
    }
    match bind(world, client, group) {
        Ok(report) => Ok(report),
        Err(NoMemory) => Err(LineFault::NoMemory),
    }
}

/// `bind C G`
pub(crate) fn bind_line(
    world: &mut World,
    client: &Name,
    group: &Name,
) -> Result<ReportLines, LineFault>
    requires { IsKeptWorld world.old }
    ensures { (calls : ℕ) → Acts (bind_line world.old client.now group.now) result world.old world.new calls calls }
{
    let place = match world.client_place(client) {
        Some(place) => place,
        None => return Err(LineFault::Unknown),
    };
    match group_called(world, group) {
        Named::Never => Err(LineFault::Unknown),
        Named::Deleted(_) => gone(world),
        Named::There(group) => bind_there(world, place, group),
    }
}

// The last attempt of the client at this place gets no reply.
fn time_out(world: &mut World, client: usize) -> Result<ReportLines, NoMemory>
    requires { client < length world.old.clients }
    ensures { (c : Client) (calls : ℕ) → slice_get world.old.clients client ≡ Some c →
        Does (timed_out world.old (placed client c)) result world.new calls calls }
{
    let alloc = world.alloc();
    let name = world.client_at(client).name().copy(alloc)?;
    let client_name = name.copy(alloc)?;
    let idle = ReportLine::Idle {
        client: client_name,
    };
    let told = world.fail_at(client)?;
    does(world, client, &name, None, Some(idle), told)
}

/// `timeout C`
pub(crate) fn timeout_line(world: &mut World, client: &Name) -> Result<ReportLines, LineFault>
    ensures { (calls : ℕ) → Acts (timeout_line world.old client.now) result world.old world.new calls calls }
{
    let place = match world.client_place(client) {
        Some(place) => place,
        None => return Err(LineFault::Unknown),
    };
    match time_out(world, place) {
        Ok(report) => Ok(report),
        Err(NoMemory) => Err(LineFault::NoMemory),
    }
}
