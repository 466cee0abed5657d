//! Hosts that stop and start, and members that change.
ghost use Rattle.std.specs.Prelude.{◌≡◌, ℕ, ◌<◌, [], ◌∷◌, IfOk, OnOk, Some, length, slice_get};
ghost use Rattle.std.specs.List.{AllByRecursion};
ghost use Rattle.world_turns.specs.Answers.{Acts, Does, DoesMore};
ghost use Rattle.world_management.specs.Hosts.{change_line, change_of, change_to, changes_members, crash_line, fault_of, on_host, reported_by, restart_line, show_line, with_told};
ghost use Rattle.world_management.specs.Membership.{report_of};
ghost use Rattle.world_turns.specs.Naming.{There, gone};
ghost use Rattle.ft_base.specs.declared.limits.TheConstants.{HOST_LIMIT};
ghost use Rattle.script_world.specs.Sound.{IsKeptWorld};
ghost use Rattle.group_model.specs.Changes.{host_of_change, spares_of};
ghost use Rattle.script_groups.specs.Groups.{ScriptGroup as Group, placed};

use crate::membership::report_of;
use fault_notifier::FaultEvent;
use fault_script::{LineFault, MemberChange};
use ft_base::{GroupId, HostNo, Name, NoMemory, Steps};
use ft_report::{ReportLine, ReportLines};
use group_model::{Change, Event, GroupAnswer};
use iogr_reference::DOMAIN;
use script_world::World;
use shipped_servants::Kind;
use std::alloc::Global;
use std::sync::ledger::Ledger;
use world_turns::{Named, gone, group_called, one_line, push_view, send_all};

// What is asked of the group at this place.
fn change_of(world: &World, place: usize, change: MemberChange, host: HostNo) -> Change
    requires within { place < length world.now.groups }
    requires kept { IsKeptWorld world.now }
    ensures value { (g : Group) → slice_get world.now.groups place ≡ Some g → result ≡ change_of world.now g change host }
    ensures host { host_of_change result ≡ host }
    ensures spares { AllByRecursion (λ spare. spare < HOST_LIMIT) (spares_of result) }
{
    match change {
        MemberChange::Add => Change::Add(host),
        MemberChange::Remove => Change::Remove(host),
        MemberChange::Primary => Change::Primary(host),
        MemberChange::Report => report_of(world, place, host),
    }
}

/// `crash H`
pub fn crash_line<L: Ledger>(
    world: &mut World,
    number: u64,
    steps: &mut Steps<L>,
) -> Result<ReportLines, LineFault>
    requires { IsKeptWorld world.old }
    ensures { Acts (crash_line world.old number) result world.old world.new steps.old steps.new }
{
    let host = match world.host(number) {
        Some(host) => host,
        None => return Err(LineFault::Unknown),
    };
    let report = one_line(world.alloc(), ReportLine::Down { host })?;
    if world.is_up(host) {
        if let Err(NoMemory) = world.set_power(host, false, steps) {
            return Err(LineFault::NoMemory);
        }
    }
    Ok(report)
}

/// `restart H`
pub fn restart_line<L: Ledger>(
    world: &mut World,
    number: u64,
    steps: &mut Steps<L>,
) -> Result<ReportLines, LineFault>
    requires { IsKeptWorld world.old }
    ensures { Acts (restart_line world.old number) result world.old world.new steps.old steps.new }
{
    let host = match world.host(number) {
        Some(host) => host,
        None => return Err(LineFault::Unknown),
    };
    let report = one_line(world.alloc(), ReportLine::Up { host })?;
    if !world.is_up(host) {
        if let Err(NoMemory) = world.set_power(host, true, steps) {
            return Err(LineFault::NoMemory);
        }
    }
    Ok(report)
}

// The fault of a group's member, as subscribers are told of it.
fn fault_of(alloc: Global, kind: Kind, group: GroupId, host: HostNo) -> Result<FaultEvent, NoMemory>
    ensures { IfOk result (λ event. event ≡ fault_of kind group host) }
{
    let domain = match Name::of(alloc, DOMAIN.as_slice()) {
        Ok(domain) => domain,
        Err(_) => return Err(NoMemory),
    };
    let type_id = kind.type_name(alloc)?;
    Ok(FaultEvent {
        domain,
        host,
        type_id,
        group,
    })
}

// The host that a change reports as faulty.
fn reported_by(change: &Change) -> Option<HostNo>
    ensures { result ≡ reported_by change.now }
{
    match change {
        Change::Report(host) => Some(*host),
        Change::Replace { host, .. } => Some(*host),
        _ => None,
    }
}

// A report that was accepted is a fault; no other change is.
fn tell_reported(
    world: &mut World,
    kind: Kind,
    group: GroupId,
    reported: Option<HostNo>,
) -> Result<(), NoMemory>
    ensures { OnOk result (world.new ≡ with_told world.old kind group reported) }
{
    match reported {
        None => Ok(()),
        Some(host) => {
            let event = fault_of(world.alloc(), kind, group, host)?;
            world.tell_fault(event)
        }
    }
}

// The group at this place has its members changed, and all who are concerned are told; it is printed behind
// what the report has.
fn push_change<L: Ledger>(
    world: &mut World,
    report: &mut ReportLines,
    place: usize,
    change: Change,
    host: HostNo,
    steps: &mut Steps<L>,
) -> Result<(), NoMemory>
    requires within { place < length world.old.groups }
    requires host { host.0 < HOST_LIMIT }
    requires named { host_of_change change ≡ host }
    requires spares { AllByRecursion (λ spare. spare < HOST_LIMIT) (spares_of change) }
    requires kept { IsKeptWorld world.old }
    ensures did { (g : Group) → slice_get world.old.groups place ≡ Some g →
        DoesMore (changes_members world.old (placed place g) change host) result report.old report.new world.new steps.old steps.new }
    ensures kept { OnOk result (IsKeptWorld world.new) }
{
    let alloc = world.alloc();
    let name = world.group(place).name().copy(alloc)?;
    let group = world.group(place).id();
    let kind = world.group(place).kind();
    let reported = reported_by(&change);
    match world.event_at(place, Event::Manage(change), steps) {
        GroupAnswer::Changed { view, out } => {
            push_view(alloc, report, &name, view)?;
            send_all(world, report, group, &name, host, out)?;
            tell_reported(world, kind, group, reported)
        }
        GroupAnswer::Refused(why) => report.push(ReportLine::Refused(why)),
        GroupAnswer::NoMemory => Err(NoMemory),
        _ => Ok(()),
    }
}

/// A host is reported faulty to the group at this place, and all who are concerned are told; it is printed behind
/// what the report has.
pub fn push_report<L: Ledger>(
    world: &mut World,
    report: &mut ReportLines,
    place: usize,
    host: HostNo,
    steps: &mut Steps<L>,
) -> Result<(), NoMemory>
    requires within { place < length world.old.groups }
    requires host { host.0 < HOST_LIMIT }
    requires kept { IsKeptWorld world.old }
    ensures did { (g : Group) → slice_get world.old.groups place ≡ Some g →
        DoesMore (changes_members world.old (placed place g) (report_of world.old g host) host) result report.old report.new world.new steps.old steps.new }
    ensures kept { OnOk result (IsKeptWorld world.new) }
{
    let change = report_of(world, place, host);
    push_change(world, report, place, change, host, steps)
}

// The group at this place has its members changed, and all who are concerned are told.
pub(crate) fn change_members<L: Ledger>(
    world: &mut World,
    place: usize,
    change: Change,
    host: HostNo,
    steps: &mut Steps<L>,
) -> Result<ReportLines, NoMemory>
    requires within { place < length world.old.groups }
    requires host { host.0 < HOST_LIMIT }
    requires named { host_of_change change ≡ host }
    requires spares { AllByRecursion (λ spare. spare < HOST_LIMIT) (spares_of change) }
    requires kept { IsKeptWorld world.old }
    ensures { (g : Group) → slice_get world.old.groups place ≡ Some g →
        Does (changes_members world.old (placed place g) change host) result world.new steps.old steps.new }
{
    let mut report = ReportLines::new(world.alloc());
    push_change(world, &mut report, place, change, host, steps)?;
    Ok(report)
}

// What a line about a host prints of a group that was deleted.
pub(crate) fn gone_at(world: &World, number: u64) -> Result<ReportLines, LineFault>
    ensures { (calls : ℕ) → Acts (on_host world.now number (gone world.now)) result world.now world.now calls calls }
{
    match world.host(number) {
        Some(_) => gone(world),
        None => Err(LineFault::Unknown),
    }
}

// The group at this place has its members changed.
fn change_at<L: Ledger>(
    world: &mut World,
    place: usize,
    change: MemberChange,
    number: u64,
    steps: &mut Steps<L>,
) -> Result<ReportLines, LineFault>
    requires within { place < length world.old.groups }
    requires kept { IsKeptWorld world.old }
    ensures { (g : Group) → slice_get world.old.groups place ≡ Some g →
        Acts (change_to world.old (There (placed place g)) change number) result world.old world.new steps.old steps.new }
{
    let host = match world.host(number) {
        Some(host) => host,
        None => return Err(LineFault::Unknown),
    };
    let change = change_of(world, place, change, host);
    match change_members(world, place, change, host, steps) {
        Ok(report) => Ok(report),
        Err(NoMemory) => Err(LineFault::NoMemory),
    }
}

/// `add G H`, `remove G H`, `primary G H`, `report G H`
pub fn change_line<L: Ledger>(
    world: &mut World,
    change: MemberChange,
    group: &Name,
    number: u64,
    steps: &mut Steps<L>,
) -> Result<ReportLines, LineFault>
    requires { IsKeptWorld world.old }
    ensures { Acts (change_line world.old change group.now number) result world.old world.new steps.old steps.new }
{
    match group_called(world, group) {
        Named::Never => Err(LineFault::Unknown),
        Named::Deleted(_) => gone_at(world, number),
        Named::There(place) => change_at(world, place, change, number, steps),
    }
}

/// `show G`
pub fn show_line(world: &World, name: &Name) -> Result<ReportLines, LineFault>
    requires { IsKeptWorld world.now }
    ensures { (calls : ℕ) → Acts (show_line world.now name.now) result world.now world.now calls calls }
{
    let place = match group_called(world, name) {
        Named::There(place) => place,
        Named::Deleted(_) => return gone(world),
        Named::Never => return Err(LineFault::Unknown),
    };
    match world.group(place).shown(world.alloc()) {
        Ok(report) => Ok(report),
        Err(NoMemory) => Err(LineFault::NoMemory),
    }
}
