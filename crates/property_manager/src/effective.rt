//! The effective value of each property.
ghost use Rattle.std.specs.Prelude.{◌≡◌, ◌∷◌, ◌++◌, [], IfOk, OnOk};
ghost use Rattle.property_manager.specs.Names.{text_of};
ghost use Rattle.property_manager.specs.Levels.{all_effective, effective, valued};
ghost use Rattle.property_manager.specs.Groups.{levels_of, with_dynamic};

use crate::levels::{Properties, over};
use crate::names::PropertyName;
use crate::settings::{Property, PropertyValue};
use ft_base::{Bytes, Name, NameFault, NoMemory};
use std::alloc::Global;

/// What is set for a group: what it took at its creation, and what was set while it ran.
#[derive(Drop)]
pub(crate) struct Levels {
    pub(crate) defaults: Properties,
    pub(crate) by_type: Properties,
    pub(crate) criteria: Properties,
    pub(crate) dynamic: Properties,
}

/// The effective value of a property that a list sets over the values built in.
pub fn effective_in<'a>(criteria: &'a [Property], name: PropertyName) -> &'a [u8]
    ensures { result.now ≡ effective (criteria.now ∷ []) name }
{
    over(name.built_in(), criteria, name)
}

/// The effective value of a property.
pub(crate) fn effective<'a>(
    defaults: &'a [Property],
    by_type: &'a [Property],
    criteria: &'a [Property],
    dynamic: &'a [Property],
    name: PropertyName,
) -> &'a [u8]
    ensures { result.now ≡ effective (defaults.now ∷ by_type.now ∷ criteria.now ∷ dynamic.now ∷ []) name }
{
    let by_default = over(name.built_in(), defaults, name);
    let of_type = over(by_default, by_type, name);
    let at_creation = over(of_type, criteria, name);
    over(at_creation, dynamic, name)
}

fn name_of(alloc: Global, name: PropertyName) -> Result<Name, NoMemory>
    ensures { IfOk result (λ n. n ≡ text_of name) }
{
    match Name::of(alloc, name.text()) {
        Ok(name) => Ok(name),
        Err(NameFault::NoMemory) => Err(NoMemory),
        Err(_) => unreachable!(),
    }
}

fn valued(alloc: Global, name: PropertyName, value: &[u8]) -> Result<Property, NoMemory>
    ensures { IfOk result (λ p. p ≡ valued name value.now) }
{
    Ok(Property {
        name: name_of(alloc, name)?,
        value: PropertyValue(Bytes::of(alloc, value)?),
    })
}

/// All ten properties with their effective values.
pub(crate) fn all_effective(
    alloc: Global,
    defaults: &[Property],
    by_type: &[Property],
    criteria: &[Property],
    dynamic: &[Property],
) -> Result<Properties, NoMemory>
    ensures { IfOk result (λ ps. ps ≡ all_effective (defaults.now ∷ by_type.now ∷ criteria.now ∷ dynamic.now ∷ [])) }
{
    let names = PropertyName::all();
    let mut list = Vec::new(alloc);
    for name in names.as_slice() {
        let value = effective(defaults, by_type, criteria, dynamic, *name);
        let property = valued(alloc, *name, value)?;
        list.push(property)?;
    }
    Ok(Properties::from_vec(list))
}

impl Levels {
    /// The effective value of a property.
    pub(crate) fn value(&self, name: PropertyName) -> &[u8]
        ensures { result.now ≡ effective (levels_of self.now) name }
    {
        effective(
            self.defaults.all(),
            self.by_type.all(),
            self.criteria.all(),
            self.dynamic.all(),
            name,
        )
    }

    /// All ten properties with their effective values.
    pub(crate) fn values(&self, alloc: Global) -> Result<Properties, NoMemory>
        ensures { IfOk result (λ ps. ps ≡ all_effective (levels_of self.now)) }
    {
        all_effective(
            alloc,
            self.defaults.all(),
            self.by_type.all(),
            self.criteria.all(),
            self.dynamic.all(),
        )
    }

    /// These levels, with a list set while the group runs.
    pub(crate) fn with_dynamic(
        &self,
        alloc: Global,
        properties: &[Property],
    ) -> Result<Levels, NoMemory>
        ensures { IfOk result (λ levels. levels ≡ with_dynamic self.now properties.now) }
    {
        Ok(Levels {
            defaults: self.defaults.copy(alloc)?,
            by_type: self.by_type.copy(alloc)?,
            criteria: self.criteria.copy(alloc)?,
            dynamic: self.dynamic.copy(alloc)?.settled(alloc, properties)?,
        })
    }
}
