ghost use Rattle.std.specs.Prelude.{◌≡◌, ◌++◌, [], not, option_copied, option_map, IfOk, OnOk};
ghost use Rattle.std.specs.List.{filter, find};
ghost use Rattle.std.specs.Str.{bytes_eq};
ghost use Rattle.property_manager.specs.Levels.{has_name, is_among, over, settled, without};

use crate::names::PropertyName;
use crate::settings::{Property, has_name, is_among};
use ft_base::{Name, NoMemory};
use std::alloc::Global;
use std::marker::Model;

/// A list of properties.
#[derive(Debug, Drop)]
pub struct Properties {
    list: Vec<Property>,
}

impl Model for Properties {
    ghost use Rattle.std.specs.Prelude.{List};
    ghost use Rattle.property_manager.specs.declared.settings.Property.{Property};

    ghost Value = { List Property };

    ghost view = { λ p. p.list.items };
}

impl Properties {
    pub(crate) fn none(alloc: Global) -> Properties
        ensures { result ≡ [] }
    {
        Properties {
            list: Vec::new(alloc),
        }
    }

    pub(crate) fn from_vec(list: Vec<Property>) -> Properties
        ensures { result ≡ list.items }
    {
        Properties { list }
    }

    /// The properties, in order.
    pub fn all(&self) -> &[Property]
        ensures { result.now ≡ self.now }
    {
        self.list.as_slice()
    }

    /// Equal properties.
    pub fn copy(&self, alloc: Global) -> Result<Properties, NoMemory>
        ensures { IfOk result (λ copy. copy ≡ self.now) }
    {
        Properties::copied(alloc, self.all())
    }

    pub(crate) fn copied(alloc: Global, properties: &[Property]) -> Result<Properties, NoMemory>
        ensures { IfOk result (λ copy. copy ≡ properties.now) }
    {
        let mut list = Vec::new(alloc);
        push_copies(alloc, &mut list, properties)?;
        Ok(Properties { list })
    }

    /// These settings, with a list of others set over them.
    pub(crate) fn settled(
        self,
        alloc: Global,
        properties: &[Property],
    ) -> Result<Properties, NoMemory>
        ensures { IfOk result (λ more. more ≡ settled self properties.now) }
    {
        let mut list = self.list;
        drop_set(&mut list, properties);
        push_copies(alloc, &mut list, properties)?;
        Ok(Properties { list })
    }

    /// These settings without those of some names.
    pub(crate) fn without(self, names: &[Name]) -> Properties
        ensures { result ≡ without names.now self }
    {
        let mut list = self.list;
        drop_named(&mut list, names);
        Properties { list }
    }
}

/// Adds copies of properties to a list.
pub fn push_copies(
    alloc: Global,
    list: &mut Vec<Property>,
    properties: &[Property],
) -> Result<(), NoMemory>
    ensures { OnOk result (list.new.items ≡ list.old.items ++ properties.now) }
{
    for property in properties {
        let copy = property.copy(alloc)?;
        list.push(copy)?;
    }
    Ok(())
}

/// Lets go of what is set again.
fn drop_set(list: &mut Vec<Property>, properties: &[Property])
    ensures { list.new.items ≡ filter (λ p. not (has_name p.name properties.now)) list.old.items }
{
    list.retain(|property| !has_name(properties, &property.name));
}

/// Lets go of what is set by these names.
fn drop_named(list: &mut Vec<Property>, names: &[Name])
    ensures { list.new.items ≡ without names.now list.old.items }
{
    list.retain(|property| !is_among(names, &property.name));
}

fn found<'a>(properties: &'a [Property], name: &[u8]) -> Option<&'a Property>
    ensures { option_copied result ≡ find (λ p. bytes_eq p.name name.now) properties.now }
{
    properties
        .iter()
        .find(|property| property.name.bytes() == name)
}

/// The value that a list has for a property, else the one below.
#[tactic(auto, unfolding(crate::specs::Levels::over))]
pub(crate) fn over<'a>(below: &'a [u8], properties: &'a [Property], name: PropertyName) -> &'a [u8]
    ensures { result.now ≡ over name below.now properties.now }
{
    match found(properties, name.text()) {
        None => below,
        Some(property) => property.value.0.bytes(),
    }
}
