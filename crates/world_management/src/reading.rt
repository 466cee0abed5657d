//! Lines that only read a group.
ghost use Rattle.std.specs.Prelude.{◌≡◌, ℕ, ◌<◌, Some, length, slice_get};
ghost use Rattle.script_groups.specs.Groups.{ScriptGroup as Group, placed};
ghost use Rattle.world_turns.specs.Answers.{Acts};
ghost use Rattle.world_management.specs.Reading.{id_line, locations_line, member_line, member_of, ref_line};
ghost use Rattle.world_turns.specs.Naming.{There};
ghost use Rattle.script_world.specs.Sound.{IsKeptWorld};

use crate::hosts::gone_at;
use fault_script::LineFault;
use ft_base::{Name, NoMemory};
use ft_report::ReportLines;
use script_world::World;
use world_turns::{Named, gone, group_called, one_line};

/// `locations G`
pub fn locations_line(world: &World, name: &Name) -> Result<ReportLines, LineFault>
    requires { IsKeptWorld world.now }
    ensures { (calls : ℕ) → Acts (locations_line world.now name.now) result world.now world.now calls calls }
{
    let place = match group_called(world, name) {
        Named::There(place) => place,
        Named::Deleted(_) => return gone(world),
        Named::Never => return Err(LineFault::Unknown),
    };
    let line = match world.group(place).located(world.alloc()) {
        Ok(line) => line,
        Err(NoMemory) => return Err(LineFault::NoMemory),
    };
    match one_line(world.alloc(), line) {
        Ok(report) => Ok(report),
        Err(NoMemory) => Err(LineFault::NoMemory),
    }
}

/// `id G`
pub fn id_line(world: &World, name: &Name) -> Result<ReportLines, LineFault>
    requires { IsKeptWorld world.now }
    ensures { (calls : ℕ) → Acts (id_line world.now name.now) result world.now world.now calls calls }
{
    let place = match group_called(world, name) {
        Named::There(place) => place,
        Named::Deleted(_) => return gone(world),
        Named::Never => return Err(LineFault::Unknown),
    };
    let line = match world.group(place).identified(world.alloc()) {
        Ok(line) => line,
        Err(NoMemory) => return Err(LineFault::NoMemory),
    };
    match one_line(world.alloc(), line) {
        Ok(report) => Ok(report),
        Err(NoMemory) => Err(LineFault::NoMemory),
    }
}

/// `ref G`
pub fn ref_line(world: &World, name: &Name) -> Result<ReportLines, LineFault>
    requires { IsKeptWorld world.now }
    ensures { (calls : ℕ) → Acts (ref_line world.now name.now) result world.now world.now calls calls }
{
    let place = match group_called(world, name) {
        Named::There(place) => place,
        Named::Deleted(_) => return gone(world),
        Named::Never => return Err(LineFault::Unknown),
    };
    let line = match world.group(place).referred(world.alloc(), world.ports()) {
        Ok(line) => line,
        Err(NoMemory) => return Err(LineFault::NoMemory),
    };
    match one_line(world.alloc(), line) {
        Ok(report) => Ok(report),
        Err(NoMemory) => Err(LineFault::NoMemory),
    }
}

// The plain reference of the member on a host of the group at this place.
fn member_at(world: &World, place: usize, number: u64) -> Result<ReportLines, LineFault>
    requires within { place < length world.now.groups }
    requires kept { IsKeptWorld world.now }
    ensures { (g : Group) (calls : ℕ) → slice_get world.now.groups place ≡ Some g →
        Acts (member_of world.now (There (placed place g)) number) result world.now world.now calls calls }
{
    let host = match world.host(number) {
        Some(host) => host,
        None => return Err(LineFault::Unknown),
    };
    let line = match world
        .group(place)
        .member_referred(world.alloc(), host, world.ports())
    {
        Ok(line) => line,
        Err(NoMemory) => return Err(LineFault::NoMemory),
    };
    match one_line(world.alloc(), line) {
        Ok(report) => Ok(report),
        Err(NoMemory) => Err(LineFault::NoMemory),
    }
}

/// `member G H`
pub fn member_line(world: &World, name: &Name, number: u64) -> Result<ReportLines, LineFault>
    requires { IsKeptWorld world.now }
    ensures { (calls : ℕ) → Acts (member_line world.now name.now number) result world.now world.now calls calls }
{
    match group_called(world, name) {
        Named::Never => Err(LineFault::Unknown),
        Named::Deleted(_) => gone_at(world, number),
        Named::There(place) => member_at(world, place, number),
    }
}
