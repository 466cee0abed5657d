//! The groups that are made and deleted, and their properties.
ghost use Rattle.std.specs.Prelude.{◌≡◌, ◌+◌, ◌<◌, ◌≤◌, ◌^◌, None, Some, false, true, length, slice_get, OnOk};
ghost use Rattle.property_manager.specs.Groups.{group_of};
ghost use Rattle.property_manager.specs.Judging.{refusal, refusal_of_names};
ghost use Rattle.script_groups.specs.Acting.{IsSoundGroup};
ghost use Rattle.script_groups.specs.Groups.{ScriptGroup as Group};
ghost use Rattle.script_world.specs.Settings.{Settles, SettlesFor, default_settings, type_settings, without_defaults, without_type};
ghost use Rattle.script_world.specs.World.{is_deleted, with_group, without_group};
ghost use Rattle.shipped_servants.specs.Kinds.{type_id};

use crate::limits::GROUP_LIMIT;
use crate::worlds::World;
use ft_base::{Name, NoMemory};
use property_manager::{Property, PropertyFault, PropertyManager};
use script_groups::ScriptGroup;
use shipped_servants::Kind;

impl World {
    /// What is set for all groups, by type, and for each group that is there.
    pub fn properties(&self) -> &PropertyManager
        ensures { result.now ≡ self.now.settings }
    {
        &self.settings
    }

    /// Whether the group at this place was deleted.
    pub fn is_deleted(&self, place: usize) -> bool
        requires { place < length self.now.groups }
        ensures { (g : Group) → slice_get self.now.groups place ≡ Some g → result ≡ is_deleted self.now g }
    {
        !self.settings.has(self.group(place).id())
    }

    /// One more group, with its criteria.
    pub fn add_group(&mut self, group: ScriptGroup, criteria: &[Property]) -> Result<(), NoMemory>
        requires room { length self.old.groups < GROUP_LIMIT }
        requires sound { IsSoundGroup group }
        requires numbered { group.id.0 ≡ length self.old.groups + 1 }
        requires few { length criteria.now ≤ 2 ^ 32 }
        requires taken { refusal false criteria.now ≡ None }
        ensures { OnOk result (self.new ≡ with_group self.old group criteria.now) }
    {
        let alloc = self.alloc();
        let type_id = group.kind().type_name(alloc)?;
        self.groups.reserve_one(alloc, group.name())?;
        match self.settings.adopt(alloc, group.id(), &type_id, criteria) {
            Err(_) => Err(NoMemory),
            Ok(()) => {
                self.groups.push(group);
                Ok(())
            }
        }
    }

    /// The group at this place is there no more. It takes no memory.
    pub fn delete_group(&mut self, place: usize)
        requires within { place < length self.old.groups }
        ensures left { (g : Group) → slice_get self.old.groups place ≡ Some g → self.new ≡ without_group self.old g }
        ensures gone { (g : Group) → slice_get self.old.groups place ≡ Some g → is_deleted self.new g ≡ true }
    {
        let deleted = self.group(place).id();
        self.settings.drop_group(deleted);
    }

    /// Sets properties for all groups that are made from now on.
    pub fn set_defaults(&mut self, properties: &[Property]) -> Result<(), PropertyFault>
        requires { length properties.now ≤ 2 ^ 32 }
        ensures { Settles (refusal false properties.now) self.old (default_settings self.old.settings properties.now) result self.new }
    {
        let alloc = self.alloc();
        self.settings.set_default_properties(alloc, properties)
    }

    /// Lets go of what is set by some names for all groups that are made from now on.
    pub fn remove_defaults(&mut self, names: &[Name]) -> Result<(), PropertyFault>
        requires { length names.now ≤ 2 ^ 32 }
        ensures { Settles (refusal_of_names names.now) self.old (without_defaults self.old.settings names.now) result self.new }
    {
        let alloc = self.alloc();
        self.settings.remove_default_properties(alloc, names)
    }

    /// Sets properties for all groups of a kind that are made from now on.
    pub fn set_type(&mut self, kind: Kind, properties: &[Property]) -> Result<(), PropertyFault>
        requires { length properties.now ≤ 2 ^ 32 }
        ensures { Settles (refusal false properties.now) self.old (type_settings self.old.settings kind properties.now) result self.new }
    {
        let alloc = self.alloc();
        let Ok(type_id) = kind.type_name(alloc) else {
            return Err(PropertyFault::NoMemory);
        };
        self.settings
            .set_type_properties(alloc, &type_id, properties)
    }

    /// Lets go of what is set by some names for all groups of a kind that are made from now on.
    pub fn remove_type(&mut self, kind: Kind, names: &[Name]) -> Result<(), PropertyFault>
        requires { length names.now ≤ 2 ^ 32 }
        ensures { Settles (refusal_of_names names.now) self.old (without_type self.old.settings kind names.now) result self.new }
    {
        let alloc = self.alloc();
        let Ok(type_id) = kind.type_name(alloc) else {
            return Err(PropertyFault::NoMemory);
        };
        self.settings.remove_type_properties(alloc, &type_id, names)
    }

    /// Sets properties of the group at this place while it runs.
    pub fn set_in_group(
        &mut self,
        place: usize,
        properties: &[Property],
    ) -> Result<(), PropertyFault>
        requires within { place < length self.old.groups }
        requires few { length properties.now ≤ 2 ^ 32 }
        ensures { (g : Group) → slice_get self.old.groups place ≡ Some g →
            SettlesFor g.id properties.now (group_of self.old.settings.groups g.id.0) self.old result self.new }
    {
        let alloc = self.alloc();
        let id = self.group(place).id();
        self.settings
            .set_properties_dynamically(alloc, id, properties)
    }
}
