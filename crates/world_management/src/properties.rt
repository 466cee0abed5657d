//! Lines that set and read properties. (Chapter 23, PropertyManager.)
ghost use Rattle.std.specs.Prelude.{◌≡◌, ℕ, ◌<◌, [], ◌∷◌, IfOk, Some, length, option_copied, slice_get};
ghost use Rattle.std.specs.List.{find};
ghost use Rattle.std.specs.Str.{bytes_eq};
ghost use Rattle.property_manager.specs.Groups.{group_of};
ghost use Rattle.script_groups.specs.Groups.{ScriptGroup as Group, placed};
ghost use Rattle.fault_script.specs.declared.lines.Level.TheVariants as levels;
ghost use Rattle.world_management.specs.Properties.{IsTold, get_group_line, get_line, got_of, property_called, property_line, property_refused, set_group_line, set_in, set_line, unset_line, values_at};
ghost use Rattle.world_turns.specs.Answers.{Acts};
ghost use Rattle.world_turns.specs.Turns.{goes};

use crate::creating::values_of_kind;
use crate::making::kind_of;
use fault_script::{KindWord, Level, LineFault};
use ft_base::{Name, NoMemory};
use ft_report::{ReportLine, ReportLines, SettingFault};
use group_model::ManageFault;
use property_manager::{Properties, Property, PropertyFault};
use script_world::World;
use std::alloc::Global;
use world_turns::one_line;

// ---- what is set

fn property_refused(alloc: Global, why: PropertyFault) -> Result<ReportLines, NoMemory>
    ensures { IfOk result (λ report. report ≡ property_refused why) }
{
    let line = match why {
        PropertyFault::InvalidProperty { place } => {
            ReportLine::RefusedSetting(SettingFault::InvalidProperty(place))
        }
        PropertyFault::UnsupportedProperty { place } => {
            ReportLine::RefusedSetting(SettingFault::UnsupportedProperty(place))
        }
        PropertyFault::ObjectGroupNotFound(_) => {
            ReportLine::Refused(ManageFault::ObjectGroupNotFound)
        }
        PropertyFault::NoMemory => return Ok(ReportLines::new(alloc)),
    };
    one_line(alloc, line)
}

// What is printed where properties were to be set.
fn told(alloc: Global, set: Result<(), PropertyFault>) -> Result<ReportLines, LineFault>
    ensures { IsTold set result }
{
    match set {
        Ok(()) => Ok(ReportLines::new(alloc)),
        Err(PropertyFault::NoMemory) => Err(LineFault::NoMemory),
        Err(why) => match property_refused(alloc, why) {
            Ok(report) => Ok(report),
            Err(NoMemory) => Err(LineFault::NoMemory),
        },
    }
}

#[tactic(auto, using(crate::proofs::SettingLemmas::set_acts))]
fn set_default(world: &mut World, property: Property) -> Result<ReportLines, LineFault>
    ensures { (calls : ℕ) → Acts (set_line world.old levels.Default property) result world.old world.new calls calls }
{
    let set = world.set_defaults(&[property]);
    told(world.alloc(), set)
}

#[tactic(auto, using(crate::proofs::SettingLemmas::set_acts))]
fn set_type(world: &mut World, kind: KindWord, property: Property) -> Result<ReportLines, LineFault>
    ensures { (calls : ℕ) → Acts (set_line world.old (levels.Type kind) property) result world.old world.new calls calls }
{
    let set = world.set_type(kind_of(kind), &[property]);
    told(world.alloc(), set)
}

/// `set default P V`, `set type KIND P V`
pub fn set_line(
    world: &mut World,
    level: Level,
    property: Property,
) -> Result<ReportLines, LineFault>
    ensures { (calls : ℕ) → Acts (set_line world.old level property) result world.old world.new calls calls }
{
    match level {
        Level::Default => set_default(world, property),
        Level::Type(kind) => set_type(world, kind, property),
    }
}

#[tactic(auto, using(crate::proofs::SettingLemmas::set_acts))]
fn unset_default(world: &mut World, name: Name) -> Result<ReportLines, LineFault>
    ensures { (calls : ℕ) → Acts (unset_line world.old levels.Default name) result world.old world.new calls calls }
{
    let set = world.remove_defaults(&[name]);
    told(world.alloc(), set)
}

#[tactic(auto, using(crate::proofs::SettingLemmas::set_acts))]
fn unset_type(world: &mut World, kind: KindWord, name: Name) -> Result<ReportLines, LineFault>
    ensures { (calls : ℕ) → Acts (unset_line world.old (levels.Type kind) name) result world.old world.new calls calls }
{
    let set = world.remove_type(kind_of(kind), &[name]);
    told(world.alloc(), set)
}

/// `unset default P`, `unset type KIND P`
pub fn unset_line(world: &mut World, level: Level, name: Name) -> Result<ReportLines, LineFault>
    ensures { (calls : ℕ) → Acts (unset_line world.old level name) result world.old world.new calls calls }
{
    match level {
        Level::Default => unset_default(world, name),
        Level::Type(kind) => unset_type(world, kind, name),
    }
}

// A property of the group at this place is set.
#[tactic(auto, using(crate::proofs::SettingLemmas::set_in_acts))]
fn set_in(world: &mut World, place: usize, property: Property) -> Result<ReportLines, LineFault>
    requires { place < length world.old.groups }
    ensures { (g : Group) (calls : ℕ) → slice_get world.old.groups place ≡ Some g →
        Acts (goes (set_in world.old g property (group_of world.old.settings.groups g.id.0))) result world.old world.new calls calls }
{
    let set = world.set_in_group(place, &[property]);
    told(world.alloc(), set)
}

/// `set group G P V`
pub fn set_group_line(
    world: &mut World,
    group: &Name,
    property: Property,
) -> Result<ReportLines, LineFault>
    ensures { (calls : ℕ) → Acts (set_group_line world.old group.now property) result world.old world.new calls calls }
{
    match world.group_place(group) {
        Some(place) => set_in(world, place, property),
        None => Err(LineFault::Unknown),
    }
}

// ---- what is read

fn found<'a>(properties: &'a [Property], name: &Name) -> Option<&'a Property>
    ensures { option_copied result ≡ find (λ p. bytes_eq p.name name.now) properties.now }
{
    properties.iter().find(|property| property.name.is(name))
}

// The property of a name among others, as it is printed.
#[tactic(auto, unfolding(crate::specs::Properties::property_called))]
fn property_called(
    alloc: Global,
    name: &Name,
    properties: &[Property],
) -> Result<ReportLine, NoMemory>
    ensures { IfOk result (λ line. line ≡ property_called name.now properties.now) }
{
    match found(properties, name) {
        None => Ok(ReportLine::RefusedSetting(SettingFault::InvalidProperty(0))),
        Some(property) => {
            let name = property.name.copy(alloc)?;
            let value = property.value.0.copy(alloc)?;
            Ok(ReportLine::Property { name, value })
        }
    }
}

fn default_values(world: &World) -> Result<Properties, NoMemory>
    ensures { IfOk result (λ values. values ≡ values_at world.now.settings levels.Default) }
{
    match world.properties().get_default_properties(world.alloc()) {
        Ok(values) => Ok(values),
        Err(_) => Err(NoMemory),
    }
}

// All ten properties as they are for groups that are made now.
fn values_at(world: &World, level: Level) -> Result<Properties, NoMemory>
    ensures { IfOk result (λ values. values ≡ values_at world.now.settings level) }
{
    match level {
        Level::Default => default_values(world),
        Level::Type(kind) => values_of_kind(world, kind_of(kind)),
    }
}

fn got_at(world: &World, level: Level, name: &Name) -> Result<ReportLine, NoMemory>
    ensures { IfOk result (λ line. line ≡ property_called name.now (values_at world.now.settings level)) }
{
    let values = values_at(world, level)?;
    property_called(world.alloc(), name, values.all())
}

/// `get default P`, `get type KIND P`
pub fn get_line(world: &World, level: Level, name: &Name) -> Result<ReportLines, LineFault>
    ensures { (calls : ℕ) → Acts (get_line world.now level name.now) result world.now world.now calls calls }
{
    let line = match got_at(world, level, name) {
        Ok(line) => line,
        Err(NoMemory) => return Err(LineFault::NoMemory),
    };
    match one_line(world.alloc(), line) {
        Ok(report) => Ok(report),
        Err(NoMemory) => Err(LineFault::NoMemory),
    }
}

// The property of a name as the group at this place has it.
#[tactic(auto, using(crate::proofs::SettingLemmas::got_values, crate::proofs::SettingLemmas::got_none))]
fn got_in(world: &World, place: usize, name: &Name) -> Result<ReportLine, NoMemory>
    requires { place < length world.now.groups }
    ensures { (g : Group) → slice_get world.now.groups place ≡ Some g → IfOk result (λ line. line ≡ got_of name.now (group_of world.now.settings.groups g.id.0)) }
{
    let group = world.group(place).id();
    match world.properties().get_properties(world.alloc(), group) {
        Ok(values) => property_called(world.alloc(), name, values.all()),
        Err(PropertyFault::ObjectGroupNotFound(_)) => {
            Ok(ReportLine::Refused(ManageFault::ObjectGroupNotFound))
        }
        Err(_) => Err(NoMemory),
    }
}

/// `get group G P`
pub fn get_group_line(world: &World, group: &Name, name: &Name) -> Result<ReportLines, LineFault>
    ensures { (calls : ℕ) → Acts (get_group_line world.now group.now name.now) result world.now world.now calls calls }
{
    let place = match world.group_place(group) {
        Some(place) => place,
        None => return Err(LineFault::Unknown),
    };
    let line = match got_in(world, place, name) {
        Ok(line) => line,
        Err(NoMemory) => return Err(LineFault::NoMemory),
    };
    match one_line(world.alloc(), line) {
        Ok(report) => Ok(report),
        Err(NoMemory) => Err(LineFault::NoMemory),
    }
}
