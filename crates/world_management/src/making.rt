//! Lines that make hosts, groups and clients, and let time pass.
ghost use Rattle.std.specs.Prelude.{◌≡◌, ◌==◌, ℕ, nat_lt, ◌<◌, ◌≤◌, ◌^◌, true, false, [], ◌∷◌, None, IfOk, OnOk, length};
ghost use Rattle.std.specs.List.{AllByRecursion, list_all, list_any};
ghost use Rattle.ft_base.specs.Members.{AreDifferent};
ghost use Rattle.ft_base.specs.declared.limits.TheConstants.{HOST_LIMIT};
ghost use Rattle.ft_base.specs.declared.views.TheConstants.{MEMBER_LIMIT};
ghost use Rattle.group_model.specs.Views.{newest_view};
ghost use Rattle.script_groups.specs.Acting.{IsKept};
ghost use Rattle.script_groups.specs.Groups.{common_of};
ghost use Rattle.script_world.specs.World.{is_there, is_up};
ghost use Rattle.script_world.specs.declared.limits.TheConstants.{GROUP_LIMIT};
ghost use Rattle.world_turns.specs.Answers.{Acts, Does};
ghost use Rattle.property_manager.specs.Judging.{refusal};
ghost use Rattle.world_management.specs.Making.{client_line, group_causes, group_line, group_lines, hosts_line, kind_of, made_group, stands_twice, stopped_from, stopped_if, style_criteria, style_text, tick_line};
ghost use Rattle.world_turns.specs.Turns.{first_cause};

use fault_script::{HostNumbers, KindWord, LimitName, LineFault};
use ft_base::{
    Bytes, GroupId, HOST_LIMIT, HostNo, MEMBER_LIMIT, Members, Name, NoMemory, Steps, Style,
};
use ft_report::{ReportLine, ReportLines};
use group_model::{Event, GroupAnswer};
use property_manager::{Property, PropertyName, PropertyValue};
use script_clients::ScriptClient;
use script_groups::ScriptGroup;
use script_world::{CLIENT_LIMIT, GROUP_LIMIT, World};
use shipped_servants::Kind;
use std::alloc::Global;
use std::sync::ledger::Ledger;

pub(crate) fn kind_of(kind: KindWord) -> Kind
    ensures { result ≡ kind_of kind }
{
    match kind {
        KindWord::Account => Kind::Account,
        KindWord::Store => Kind::Store,
        KindWord::Queue => Kind::Queue,
    }
}

// Whether all of these are less than a number.
fn are_below(numbers: &[u64], count: usize) -> bool
    ensures { result ≡ list_all (λ number. nat_lt number count) numbers.now }
{
    numbers.iter().all(|number| (*number as usize) < count)
}

// Whether all of these hosts are there.
fn are_there(world: &World, numbers: &[u64]) -> bool
    ensures there { result ≡ list_all (is_there world.now) numbers.now }
    ensures limit { result ≡ true → AllByRecursion (λ number. number < HOST_LIMIT) numbers.now }
{
    are_below(numbers, world.host_count())
}

// Whether a number is one of these.
fn is_among(number: u64, others: &[u64]) -> bool
    ensures { result ≡ list_any (λ other. other == number) others.now }
{
    others.iter().any(|other| *other == number)
}

// Whether one of them stands twice.
fn stands_twice(numbers: &[u64]) -> bool
    ensures { result ≡ stands_twice numbers.now }
{
    match numbers.split_first() {
        None => false,
        Some((first, rest)) => is_among(*first, rest) || stands_twice(rest),
    }
}

// The members with these numbers.
fn members_of(numbers: &[u64]) -> Members
    requires there { AllByRecursion (λ number. number < HOST_LIMIT) numbers.now }
    requires different { stands_twice numbers.now ≡ false }
    requires few { length numbers.now ≤ MEMBER_LIMIT }
    ensures { result ≡ numbers.now }
{
    let mut members = Members::new();
    for number in numbers {
        members.join(HostNo(*number as u8));
    }
    members
}

// What is printed where a group is made.
fn group_report(alloc: Global, id: GroupId, group: &ScriptGroup) -> Result<ReportLines, NoMemory>
    requires { IsKept group.now }
    ensures { IfOk result (λ report. report ≡ group_lines id group.now.name (newest_view (common_of group.now))) }
{
    let mut report = ReportLines::new(alloc);
    let name = group.name().copy(alloc)?;
    report.push(ReportLine::Group { name, id })?;
    let name = group.name().copy(alloc)?;
    let view = group.newest().copy();
    report.push(ReportLine::View {
        group: name,
        version: view.version,
        members: view.members,
        primary: view.primary,
    })?;
    Ok(report)
}

/// `hosts N`
pub fn hosts_line(world: &mut World, count: u64) -> Result<ReportLines, LineFault>
    ensures { (calls : ℕ) → Acts (hosts_line world.old count) result world.old world.new calls calls }
{
    if world.has_hosts() {
        return Err(LineFault::Again);
    }
    if count > HOST_LIMIT as u64 {
        return Err(LineFault::Limit(LimitName::Hosts));
    }
    world.make_hosts(count as u8)?;
    Ok(ReportLines::new(world.alloc()))
}

// The first cause for which no such group is made.
fn refuses_group(world: &World, name: &Name, members: &[u64]) -> Option<LineFault>
    ensures why { result ≡ first_cause (group_causes world.now name.now members.now) }
    ensures there { result ≡ None → AllByRecursion (λ number. number < HOST_LIMIT) members.now }
{
    if !are_there(world, members) {
        return Some(LineFault::Unknown);
    }
    if world.is_named(name) || stands_twice(members) {
        return Some(LineFault::Again);
    }
    if world.group_count() >= GROUP_LIMIT {
        return Some(LineFault::Limit(LimitName::Groups));
    }
    if members.len() > MEMBER_LIMIT {
        return Some(LineFault::Limit(LimitName::Members));
    }
    None
}

// A host stops in the group, if it is down; no servant is called.
fn stop_in<L: Ledger>(
    world: &World,
    group: &mut ScriptGroup,
    host: HostNo,
    steps: &mut Steps<L>,
) -> Result<(), NoMemory>
    requires kept { IsKept group.old }
    requires host { host.0 < HOST_LIMIT }
    ensures group { OnOk result (group.new ≡ stopped_if (is_up world.now host.0) group.old host.0) }
    ensures steps { OnOk result (steps.new ≡ steps.old) }
    ensures within { steps.new ≤ steps.old }
{
    if world.is_up(host) {
        return Ok(());
    }
    match group.act(world.alloc(), Event::Crash(host), steps) {
        GroupAnswer::NoMemory => Err(NoMemory),
        _ => Ok(()),
    }
}

// The hosts that are down stop in the group.
fn stopped_in<L: Ledger>(
    world: &World,
    group: &mut ScriptGroup,
    steps: &mut Steps<L>,
) -> Result<(), NoMemory>
    requires { IsKept group.old }
    ensures group { OnOk result (group.new ≡ stopped_from 0 world.now.hosts group.old) }
    ensures steps { OnOk result (steps.new ≡ steps.old) }
    ensures within { steps.new ≤ steps.old }
{
    for number in 0..world.host_count() as u8 {
        match stop_in(world, group, HostNo(number), steps) {
            Ok(()) => {}
            Err(NoMemory) => return Err(NoMemory),
        }
    }
    Ok(())
}

/// A group is made with these members, by these criteria.
pub(crate) fn make_group<L: Ledger>(
    world: &mut World,
    name: Name,
    kind: Kind,
    style: Style,
    members: Members,
    criteria: &[Property],
    steps: &mut Steps<L>,
) -> Result<ReportLines, NoMemory>
    requires room { length world.old.groups < GROUP_LIMIT }
    requires hosts { AllByRecursion (λ host. host < HOST_LIMIT) members }
    requires different { AreDifferent members }
    requires few { length criteria.now ≤ 2 ^ 32 }
    requires taken { refusal false criteria.now ≡ None }
    ensures { Does (made_group world.old name kind style members criteria.now) result world.new steps.old steps.new }
{
    let alloc = world.alloc();
    let id = GroupId(world.group_count() as u64 + 1);
    let mut group = ScriptGroup::new(alloc, id, name, kind, style, members)?;
    let report = group_report(alloc, id, &group)?;
    stopped_in(world, &mut group, steps)?;
    group.is_sound();
    world.add_group(group, criteria)?;
    Ok(report)
}

fn style_text(style: Style) -> &'static [u8]
    ensures { result.now ≡ style_text style }
{
    match style {
        Style::Cold => b"COLD_PASSIVE",
        Style::Warm => b"WARM_PASSIVE",
        Style::Active => b"ACTIVE",
    }
}

// The one criterion of a group that is made with its members.
fn style_criterion(alloc: Global, style: Style) -> Result<Property, NoMemory>
    ensures { IfOk result (λ property. property ∷ [] ≡ style_criteria style) }
{
    let name = match Name::of(alloc, PropertyName::ReplicationStyle.text()) {
        Ok(name) => name,
        Err(_) => return Err(NoMemory),
    };
    let text = Bytes::of(alloc, style_text(style))?;
    Ok(Property {
        name,
        value: PropertyValue(text),
    })
}

/// `group G KIND STYLE H..`
pub fn group_line<L: Ledger>(
    world: &mut World,
    name: Name,
    kind: KindWord,
    style: Style,
    members: &HostNumbers,
    steps: &mut Steps<L>,
) -> Result<ReportLines, LineFault>
    ensures { Acts (group_line world.old name kind style members.now) result world.old world.new steps.old steps.new }
{
    if let Some(why) = refuses_group(world, &name, members.as_slice()) {
        return Err(why);
    }
    let members = members_of(members.as_slice());
    let criterion = style_criterion(world.alloc(), style)?;
    let kind = kind_of(kind);
    match make_group(world, name, kind, style, members, &[criterion], steps) {
        Ok(report) => Ok(report),
        Err(NoMemory) => Err(LineFault::NoMemory),
    }
}

/// `client C`
pub fn client_line(world: &mut World, name: Name) -> Result<ReportLines, LineFault>
    ensures { (calls : ℕ) → Acts (client_line world.old name) result world.old world.new calls calls }
{
    if world.is_named(&name) {
        return Err(LineFault::Again);
    }
    if world.client_count() >= CLIENT_LIMIT {
        return Err(LineFault::Limit(LimitName::Clients));
    }
    world.add_client(ScriptClient::new(name, world.alloc()))?;
    Ok(ReportLines::new(world.alloc()))
}

/// `tick N`
pub fn tick_line(world: &mut World, ticks: u32) -> Result<ReportLines, LineFault>
    requires { world.old.clock ≤ 2 ^ 63 }
    ensures { (calls : ℕ) → Acts (tick_line world.old ticks) result world.old world.new calls calls }
{
    world.pass(ticks);
    Ok(ReportLines::new(world.alloc()))
}
