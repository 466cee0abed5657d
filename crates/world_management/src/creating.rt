//! Groups that are made by criteria, members that hosts' factories make, and groups that are deleted. (Chapter 23,
//! GenericFactory.)
ghost use Rattle.std.specs.Prelude.{◌≡◌, ℕ, ◌<◌, ◌≤◌, ◌^◌, ◌++◌, [], ◌∷◌, false, None, IfOk, OnOk, Some, length, slice_get};
ghost use Rattle.generic_factory.specs.Creating.{refusal};
ghost use Rattle.group_model.specs.Changes.{host_of_change, spares_of};
ghost use Rattle.property_manager.specs.Hosts.{factories};
ghost use Rattle.property_manager.specs.Levels.{has_name};
ghost use Rattle.script_groups.specs.Groups.{ScriptGroup as Group, placed};
ghost use Rattle.script_world.specs.Sound.{IsKeptWorld};
ghost use Rattle.script_world.specs.declared.limits.TheConstants.{GROUP_LIMIT};
ghost use Rattle.shipped_servants.specs.Kinds.{type_id};
ghost use Rattle.world_management.specs.Creating.{create_causes, create_line, created, creation, creation_refused, delete_line, grow_line, grow_to, in_full, is_listed, lacking, style_in, values_of_kind};
ghost use Rattle.world_management.specs.Membership.{fit};
ghost use Rattle.world_management.specs.Making.{kind_of};
ghost use Rattle.world_turns.specs.Answers.{Acts, Does};
ghost use Rattle.world_turns.specs.Naming.{There};
ghost use Rattle.world_turns.specs.Turns.{first_cause};

use crate::hosts::{change_members, gone_at};
use crate::making::{kind_of, make_group};
use crate::membership::{can_make, first_members, fit, value_of};
use fault_script::{Criteria, KindWord, LimitName, LineFault};
use ft_base::{HostNo, Members, Name, NoMemory, Steps, Style};
use ft_report::{ReportLine, ReportLines, SettingFault};
use generic_factory::{CreateFault, Factory};
use group_model::Change;
use property_manager::{
    Properties, Property, PropertyName, ReplicationStyle, effective_in, factories, has_name,
    push_copies,
};
use script_world::{GROUP_LIMIT, World};
use shipped_servants::Kind;
use std::alloc::Global;
use std::sync::ledger::Ledger;
use world_turns::{Named, gone, group_called, one_line};

/// More properties than a line can say.
const CRITERIA_ROOM: usize = 65_536;

// The first cause for which no group of this name is made.
fn refuses_creation(world: &World, name: &Name) -> Option<LineFault>
    ensures { result ≡ first_cause (create_causes world.now name.now) }
{
    if world.is_named(name) {
        return Some(LineFault::Again);
    }
    if world.group_count() >= GROUP_LIMIT {
        return Some(LineFault::Limit(LimitName::Groups));
    }
    None
}

// A copy of a property that a list lacks.
#[tactic(auto, using(crate::proofs::CreatingLemmas::lacked, crate::proofs::CreatingLemmas::not_lacked))]
fn push_lacked(
    alloc: Global,
    list: &mut Vec<Property>,
    criteria: &[Property],
    property: &Property,
) -> Result<(), NoMemory>
    ensures { OnOk result (list.new.items ≡ list.old.items ++ lacking criteria.now (property.now ∷ [])) }
{
    if !has_name(criteria, &property.name) {
        let copy = property.copy(alloc)?;
        list.push(copy)?;
    }
    Ok(())
}

// Copies of those that a list lacks.
#[tactic(auto, unfolding(crate::specs::Creating::lacking))]
fn push_lacking(
    alloc: Global,
    list: &mut Vec<Property>,
    criteria: &[Property],
    properties: &[Property],
) -> Result<(), NoMemory>
    ensures { OnOk result (list.new.items ≡ list.old.items ++ lacking criteria.now properties.now) }
{
    for property in properties {
        push_lacked(alloc, list, criteria, property)?;
    }
    Ok(())
}

/// All ten properties as they are for groups of a kind that are made now.
pub(crate) fn values_of_kind(world: &World, kind: Kind) -> Result<Properties, NoMemory>
    ensures { IfOk result (λ values. values ≡ values_of_kind world.now.settings kind) }
{
    let alloc = world.alloc();
    let type_id = kind.type_name(alloc)?;
    match world.properties().get_type_properties(alloc, &type_id) {
        Ok(values) => Ok(values),
        Err(_) => Err(NoMemory),
    }
}

// The criteria, and each property that they lack as it is for the kind.
fn in_full(world: &World, kind: Kind, criteria: &[Property]) -> Result<Vec<Property>, NoMemory>
    ensures { IfOk result (λ full. full.items ≡ in_full world.now.settings kind criteria.now) }
{
    let alloc = world.alloc();
    let values = values_of_kind(world, kind)?;
    let mut full = Vec::new(alloc);
    push_copies(alloc, &mut full, criteria)?;
    push_lacking(alloc, &mut full, criteria, values.all())?;
    Ok(full)
}

// Why a factory that has made nothing makes no object by these criteria.
fn refusal(
    alloc: Global,
    kind: Kind,
    full: &[Property],
    fit: &Members,
) -> Result<Option<CreateFault>, NoMemory>
    requires { length full.now ≤ 2 ^ 32 }
    ensures { IfOk result (λ why. why ≡ refusal full.now fit.now []) }
{
    let type_id = kind.type_name(alloc)?;
    let mut factory = Factory::new(alloc);
    match factory.create_object(alloc, &type_id, full, fit) {
        Ok(_made) => Ok(None),
        Err(CreateFault::NoMemory) => Err(NoMemory),
        Err(why) => Ok(Some(why)),
    }
}

// How the members of a group that is made so are to share its work.
#[tactic(auto, unfolding(crate::specs::Creating::style_in))]
fn style_in(full: &[Property]) -> Style
    ensures { result ≡ style_in full.now }
{
    let style = ReplicationStyle::of(effective_in(full, PropertyName::ReplicationStyle));
    match style {
        None => Style::Cold,
        Some(style) => match style.supported() {
            Some(style) => style,
            None => Style::Cold,
        },
    }
}

fn creation_refused(alloc: Global, why: CreateFault) -> Result<ReportLines, NoMemory>
    ensures { IfOk result (λ report. report ≡ creation_refused why) }
{
    let why = match why {
        CreateFault::InvalidCriteria(place) => SettingFault::InvalidCriteria(place),
        CreateFault::UnsupportedProperty(place) => SettingFault::UnsupportedProperty(place),
        CreateFault::CannotMeetCriteria { initial, minimum } => {
            SettingFault::CannotMeetCriteria { initial, minimum }
        }
        CreateFault::TooFew { fit, minimum } => SettingFault::TooFew { fit, minimum },
        _ => return Ok(ReportLines::new(alloc)),
    };
    one_line(alloc, ReportLine::RefusedSetting(why))
}

// A group is made by these criteria, unless they are refused.
fn create<L: Ledger>(
    world: &mut World,
    name: Name,
    kind: Kind,
    criteria: &[Property],
    steps: &mut Steps<L>,
) -> Result<ReportLines, NoMemory>
    requires room { length world.old.groups < GROUP_LIMIT }
    requires kept { IsKeptWorld world.old }
    ensures { Does (created world.old name kind criteria.now) result world.new steps.old steps.new }
{
    let alloc = world.alloc();
    let full = in_full(world, kind, criteria)?;
    // no line is that long
    if full.len() > CRITERIA_ROOM {
        return Err(NoMemory);
    }
    let fit = fit(world, full.as_slice());
    match refusal(alloc, kind, full.as_slice(), &fit)? {
        Some(why) => creation_refused(alloc, why),
        None => {
            let style = style_in(full.as_slice());
            let members = first_members(world, full.as_slice());
            make_group(world, name, kind, style, members, criteria, steps)
        }
    }
}

/// `create G KIND P=V..`
pub fn create_line<L: Ledger>(
    world: &mut World,
    name: Name,
    kind: KindWord,
    criteria: &Criteria,
    steps: &mut Steps<L>,
) -> Result<ReportLines, LineFault>
    requires { IsKeptWorld world.old }
    ensures { Acts (create_line world.old name kind criteria.now) result world.old world.new steps.old steps.new }
{
    if let Some(why) = refuses_creation(world, &name) {
        return Err(why);
    }
    match create(world, name, kind_of(kind), criteria.as_slice(), steps) {
        Ok(report) => Ok(report),
        Err(NoMemory) => Err(LineFault::NoMemory),
    }
}

// Whether the group's property Factories lists the host.
fn is_listed(world: &World, place: usize, host: HostNo) -> bool
    requires { place < length world.now.groups }
    ensures { (g : Group) → slice_get world.now.groups place ≡ Some g → result ≡ is_listed world.now g host.0 }
{
    match factories(value_of(world, place, PropertyName::Factories)) {
        None => false,
        Some(hosts) => hosts.has(host),
    }
}

// What is asked of the group at this place where the host is to make a member of it.
fn creation(world: &World, place: usize, host: HostNo) -> Change
    requires within { place < length world.now.groups }
    requires kept { IsKeptWorld world.now }
    ensures value { (g : Group) → slice_get world.now.groups place ≡ Some g → result ≡ creation world.now g host.0 }
    ensures host { host_of_change result ≡ host }
    ensures alone { spares_of result ≡ [] }
{
    let listed = is_listed(world, place, host);
    let made = can_make(world, host);
    Change::Create { host, listed, made }
}

// The host makes a member of the group at this place.
fn grow<L: Ledger>(
    world: &mut World,
    place: usize,
    number: u64,
    steps: &mut Steps<L>,
) -> Result<ReportLines, LineFault>
    requires within { place < length world.old.groups }
    requires kept { IsKeptWorld world.old }
    ensures { (g : Group) → slice_get world.old.groups place ≡ Some g →
        Acts (grow_to world.old (There (placed place g)) number) result world.old world.new steps.old steps.new }
{
    let host = match world.host(number) {
        Some(host) => host,
        None => return Err(LineFault::Unknown),
    };
    let change = creation(world, place, host);
    match change_members(world, place, change, host, steps) {
        Ok(report) => Ok(report),
        Err(NoMemory) => Err(LineFault::NoMemory),
    }
}

/// `grow G H`
pub fn grow_line<L: Ledger>(
    world: &mut World,
    group: &Name,
    number: u64,
    steps: &mut Steps<L>,
) -> Result<ReportLines, LineFault>
    requires { IsKeptWorld world.old }
    ensures { Acts (grow_line world.old group.now number) result world.old world.new steps.old steps.new }
{
    match group_called(world, group) {
        Named::Never => Err(LineFault::Unknown),
        Named::Deleted(_) => gone_at(world, number),
        Named::There(place) => grow(world, place, number, steps),
    }
}

/// `delete G`
pub fn delete_line(world: &mut World, name: &Name) -> Result<ReportLines, LineFault>
    ensures { (calls : ℕ) → Acts (delete_line world.old name.now) result world.old world.new calls calls }
{
    let place = match group_called(world, name) {
        Named::There(place) => place,
        Named::Deleted(_) => return gone(world),
        Named::Never => return Err(LineFault::Unknown),
    };
    let group = world.group(place).name().copy(world.alloc())?;
    let report = one_line(world.alloc(), ReportLine::Deleted { group })?;
    world.delete_group(place);
    Ok(report)
}
