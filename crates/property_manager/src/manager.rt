ghost use Rattle.std.specs.Prelude.{◌≡◌, ◌≤◌, ◌^◌, ◌∷◌, [], None, Some, Err, false, true, is_some, length, option_map, IfOk, IfErr};
ghost use Rattle.property_manager.specs.declared.effective.Levels.{Levels as Kept};
ghost use Rattle.property_manager.specs.declared.faults.PropertyFault.{PropertyFault as Fault};
ghost use Rattle.property_manager.specs.Groups.{dropped, group_of, level_of, levels_of, nothing_set, put_group, put_level, taken, IsGot, IsSet, IsSetFor};
ghost use Rattle.property_manager.specs.Judging.{refusal, refusal_of_names};
ghost use Rattle.property_manager.specs.Levels.{all_effective, effective, settled, without};

use crate::effective::{Levels, all_effective};
use crate::faults::PropertyFault;
use crate::judging::{judge, judge_names};
use crate::levels::Properties;
use crate::names::PropertyName;
use crate::settings::Property;
use crate::tables::{GroupLevels, Types, drop_group, group_of, level_of, put_group, put_level};
use ft_base::{GroupId, Name, NoMemory};
use indexmap::IndexMap;
use std::alloc::Global;
use std::marker::Model;

/// What is set for all groups, by type, and for each group (chapter 23, PropertyManager).
#[derive(Drop)]
pub struct PropertyManager {
    defaults: Properties,
    types: Types,
    groups: GroupLevels,
}

impl Model for PropertyManager {
    ghost use Rattle.property_manager.specs.Groups.{Settings, types_of};

    ghost Value = { Settings };

    ghost view = { λ m. record { defaults = m.defaults; by_type = types_of m.types.entries; groups = m.groups.entries } };
}

impl PropertyManager {
    /// A manager where nothing is set.
    pub fn new(alloc: Global) -> PropertyManager
        ensures { result ≡ nothing_set }
    {
        PropertyManager {
            defaults: Properties::none(alloc),
            types: IndexMap::new(alloc),
            groups: IndexMap::new(alloc),
        }
    }

    /// Sets properties for all groups that are made from now on.
    pub fn set_default_properties(
        &mut self,
        alloc: Global,
        properties: &[Property],
    ) -> Result<(), PropertyFault>
        requires { length properties.now ≤ 2 ^ 32 }
        ensures set { IsSet (refusal false properties.now) self.old (record self.old { defaults = settled self.old.defaults properties.now }) result self.new }
        ensures groups { self.new.groups ≡ self.old.groups }
        ensures refused { (why : Fault) → refusal false properties.now ≡ Some why → result ≡ Err why }
    {
        if let Err(fault) = judge(properties, false) {
            return Err(fault);
        }
        match self.settled_defaults(alloc, properties) {
            Err(NoMemory) => Err(PropertyFault::NoMemory),
            Ok(defaults) => {
                self.defaults = defaults;
                Ok(())
            }
        }
    }

    fn settled_defaults(
        &self,
        alloc: Global,
        properties: &[Property],
    ) -> Result<Properties, NoMemory>
        ensures { IfOk result (λ level. level ≡ settled self.now.defaults properties.now) }
    {
        let level = self.defaults.copy(alloc)?;
        level.settled(alloc, properties)
    }

    /// All ten properties as the defaults have them.
    #[tactic(auto, using(crate::proofs::EffectiveLemmas::of_defaults))]
    pub fn get_default_properties(&self, alloc: Global) -> Result<Properties, PropertyFault>
        ensures value { IfOk result (λ ps. ps ≡ all_effective (self.now.defaults ∷ [])) }
        ensures refused { IfErr result (λ fault. fault ≡ PropertyFault.NoMemory) }
    {
        let none = Properties::none(alloc);
        match all_effective(
            alloc,
            self.defaults.all(),
            none.all(),
            none.all(),
            none.all(),
        ) {
            Ok(properties) => Ok(properties),
            Err(NoMemory) => Err(PropertyFault::NoMemory),
        }
    }

    /// Lets go of what is set by some names for all groups that are made from now on.
    pub fn remove_default_properties(
        &mut self,
        alloc: Global,
        names: &[Name],
    ) -> Result<(), PropertyFault>
        requires { length names.now ≤ 2 ^ 32 }
        ensures set { IsSet (refusal_of_names names.now) self.old (record self.old { defaults = without names.now self.old.defaults }) result self.new }
        ensures groups { self.new.groups ≡ self.old.groups }
        ensures refused { (why : Fault) → refusal_of_names names.now ≡ Some why → result ≡ Err why }
    {
        if let Err(fault) = judge_names(names) {
            return Err(fault);
        }
        match self.defaults.copy(alloc) {
            Err(NoMemory) => Err(PropertyFault::NoMemory),
            Ok(defaults) => {
                self.defaults = defaults.without(names);
                Ok(())
            }
        }
    }

    /// Sets properties for all groups of a type that are made from now on.
    pub fn set_type_properties(
        &mut self,
        alloc: Global,
        type_id: &Name,
        properties: &[Property],
    ) -> Result<(), PropertyFault>
        requires { length properties.now ≤ 2 ^ 32 }
        ensures set { IsSet (refusal false properties.now) self.old (record self.old { by_type = put_level self.old.by_type type_id.now (settled (level_of self.old.by_type type_id.now) properties.now) }) result self.new }
        ensures groups { self.new.groups ≡ self.old.groups }
        ensures refused { (why : Fault) → refusal false properties.now ≡ Some why → result ≡ Err why }
    {
        if let Err(fault) = judge(properties, false) {
            return Err(fault);
        }
        match self.settled_type(alloc, type_id, properties) {
            Err(NoMemory) => Err(PropertyFault::NoMemory),
            Ok(level) => match put_level(alloc, &mut self.types, type_id, level) {
                Err(NoMemory) => Err(PropertyFault::NoMemory),
                Ok(()) => Ok(()),
            },
        }
    }

    fn settled_type(
        &self,
        alloc: Global,
        type_id: &Name,
        properties: &[Property],
    ) -> Result<Properties, NoMemory>
        ensures { IfOk result (λ level. level ≡ settled (level_of self.now.by_type type_id.now) properties.now) }
    {
        let level = level_of(alloc, &self.types, type_id)?;
        level.settled(alloc, properties)
    }

    /// All ten properties as a type has them.
    #[tactic(auto, using(crate::proofs::EffectiveLemmas::of_type))]
    pub fn get_type_properties(
        &self,
        alloc: Global,
        type_id: &Name,
    ) -> Result<Properties, PropertyFault>
        ensures value { IfOk result (λ ps. ps ≡ all_effective (self.now.defaults ∷ level_of self.now.by_type type_id.now ∷ [])) }
        ensures refused { IfErr result (λ fault. fault ≡ PropertyFault.NoMemory) }
    {
        let Ok(level) = level_of(alloc, &self.types, type_id) else {
            return Err(PropertyFault::NoMemory);
        };
        let none = Properties::none(alloc);
        match all_effective(
            alloc,
            self.defaults.all(),
            level.all(),
            none.all(),
            none.all(),
        ) {
            Ok(properties) => Ok(properties),
            Err(NoMemory) => Err(PropertyFault::NoMemory),
        }
    }

    /// Lets go of what is set by some names for all groups of a type that are made from now on.
    pub fn remove_type_properties(
        &mut self,
        alloc: Global,
        type_id: &Name,
        names: &[Name],
    ) -> Result<(), PropertyFault>
        requires { length names.now ≤ 2 ^ 32 }
        ensures set { IsSet (refusal_of_names names.now) self.old (record self.old { by_type = put_level self.old.by_type type_id.now (without names.now (level_of self.old.by_type type_id.now)) }) result self.new }
        ensures groups { self.new.groups ≡ self.old.groups }
        ensures refused { (why : Fault) → refusal_of_names names.now ≡ Some why → result ≡ Err why }
    {
        if let Err(fault) = judge_names(names) {
            return Err(fault);
        }
        match level_of(alloc, &self.types, type_id) {
            Err(NoMemory) => Err(PropertyFault::NoMemory),
            Ok(level) => {
                match put_level(alloc, &mut self.types, type_id, level.without(names)) {
                    Err(NoMemory) => Err(PropertyFault::NoMemory),
                    Ok(()) => Ok(()),
                }
            }
        }
    }

    /// A new group takes what is set for all and for its type, and its criteria.
    pub fn adopt(
        &mut self,
        alloc: Global,
        group: GroupId,
        type_id: &Name,
        criteria: &[Property],
    ) -> Result<(), PropertyFault>
        requires new { group_of self.old.groups group.0 ≡ None }
        requires few { length criteria.now ≤ 2 ^ 32 }
        ensures set { IsSet (refusal false criteria.now) self.old (record self.old { groups = put_group self.old.groups group.0 (taken self.old type_id.now criteria.now) }) result self.new }
        ensures refused { (why : Fault) → refusal false criteria.now ≡ Some why → result ≡ Err why }
    {
        if let Err(fault) = judge(criteria, false) {
            return Err(fault);
        }
        match self.taken(alloc, type_id, criteria) {
            Err(NoMemory) => Err(PropertyFault::NoMemory),
            Ok(levels) => match put_group(&mut self.groups, group, levels) {
                Err(NoMemory) => Err(PropertyFault::NoMemory),
                Ok(()) => Ok(()),
            },
        }
    }

    fn taken(
        &self,
        alloc: Global,
        type_id: &Name,
        criteria: &[Property],
    ) -> Result<Levels, NoMemory>
        ensures { IfOk result (λ levels. levels ≡ taken self.now type_id.now criteria.now) }
    {
        Ok(Levels {
            defaults: self.defaults.copy(alloc)?,
            by_type: level_of(alloc, &self.types, type_id)?,
            criteria: Properties::copied(alloc, criteria)?,
            dynamic: Properties::none(alloc),
        })
    }

    /// Sets properties of a group that runs. Its styles and its initial number can't be set then.
    pub fn set_properties_dynamically(
        &mut self,
        alloc: Global,
        group: GroupId,
        properties: &[Property],
    ) -> Result<(), PropertyFault>
        requires { length properties.now ≤ 2 ^ 32 }
        ensures set { IsSetFor group properties.now (group_of self.old.groups group.0) self.old result self.new }
        ensures refused { (levels : Kept) → group_of self.old.groups group.0 ≡ Some levels → (why : Fault) → refusal true properties.now ≡ Some why → result ≡ Err why }
    {
        let Some(levels) = group_of(&self.groups, group) else {
            return Err(PropertyFault::ObjectGroupNotFound(group));
        };
        if let Err(fault) = judge(properties, true) {
            return Err(fault);
        }
        match levels.with_dynamic(alloc, properties) {
            Err(NoMemory) => Err(PropertyFault::NoMemory),
            Ok(levels) => match put_group(&mut self.groups, group, levels) {
                Err(NoMemory) => Err(PropertyFault::NoMemory),
                Ok(()) => Ok(()),
            },
        }
    }

    /// All ten properties as a group has them.
    pub fn get_properties(&self, alloc: Global, group: GroupId) -> Result<Properties, PropertyFault>
        ensures { IsGot group (group_of self.now.groups group.0) result }
    {
        match group_of(&self.groups, group) {
            None => Err(PropertyFault::ObjectGroupNotFound(group)),
            Some(levels) => match levels.values(alloc) {
                Ok(properties) => Ok(properties),
                Err(NoMemory) => Err(PropertyFault::NoMemory),
            },
        }
    }

    /// Whether the group is there.
    pub fn has(&self, group: GroupId) -> bool
        ensures { result ≡ is_some (group_of self.now.groups group.0) }
    {
        group_of(&self.groups, group).is_some()
    }

    /// One property as a group has it. It takes no memory.
    pub fn value(&self, group: GroupId, name: PropertyName) -> Option<&[u8]>
        ensures { option_map (λ value. value.now) result ≡ option_map (λ levels. effective (levels_of levels) name) (group_of self.now.groups group.0) }
    {
        match group_of(&self.groups, group) {
            None => None,
            Some(levels) => Some(levels.value(name)),
        }
    }

    /// Forgets a group. It takes no memory.
    pub fn drop_group(&mut self, group: GroupId)
        ensures { self.new ≡ record self.old { groups = dropped self.old.groups group.0 } }
    {
        drop_group(&mut self.groups, group);
    }
}
