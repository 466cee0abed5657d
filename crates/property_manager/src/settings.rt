ghost use Rattle.std.specs.Prelude.{◌≡◌, IfOk};
ghost use Rattle.std.specs.List.{list_any};
ghost use Rattle.property_manager.specs.Levels.{has_name, is_among};

use ft_base::{Bytes, Name, NoMemory};
use std::alloc::Global;

/// A property's value: its text, as it was set.
#[derive(Debug, Drop)]
pub struct PropertyValue(pub Bytes);

/// A property by its name, and its value (chapter 23, `Property`).
#[derive(Debug, Drop)]
pub struct Property {
    pub name: Name,
    pub value: PropertyValue,
}

impl Property {
    /// An equal property.
    pub fn copy(&self, alloc: Global) -> Result<Property, NoMemory>
        ensures { IfOk result (λ property. property ≡ self.now) }
    {
        Ok(Property {
            name: self.name.copy(alloc)?,
            value: PropertyValue(self.value.0.copy(alloc)?),
        })
    }
}

/// Whether one of these properties has a name.
pub fn has_name(properties: &[Property], name: &Name) -> bool
    ensures { result ≡ has_name name.now properties.now }
{
    properties.iter().any(|property| property.name.is(name))
}

/// Whether a name is one of these.
pub(crate) fn is_among(names: &[Name], name: &Name) -> bool
    ensures { result ≡ is_among name.now names.now }
{
    names.iter().any(|other| other.is(name))
}
