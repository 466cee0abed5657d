//! What is set by type and for each group, by the bytes of a type's id and by a group's number.
ghost use Rattle.std.specs.Prelude.{◌≡◌, ◌∷◌, [], option_copied, IfOk, OnOk, OnErr};
ghost use Rattle.property_manager.specs.Groups.{dropped, group_of, level_of, put_group, put_level, types_of};

use crate::effective::Levels;
use crate::levels::Properties;
use ft_base::{GroupId, Name, NoMemory};
use indexmap::IndexMap;
use std::alloc::Global;

pub(crate) type Types = IndexMap<Vec<u8>, Properties>;

pub(crate) type GroupLevels = IndexMap<u64, Levels>;

/// What is set for a type.
pub(crate) fn level_of(alloc: Global, types: &Types, type_id: &Name) -> Result<Properties, NoMemory>
    ensures { IfOk result (λ level. level ≡ level_of (types_of types.now.entries) type_id.now) }
{
    match types.get(type_id.bytes()) {
        None => Ok(Properties::none(alloc)),
        Some(level) => {
            let copy = level.copy(alloc)?;
            Ok(copy)
        }
    }
}

/// The level of one type is another now.
pub(crate) fn put_level(
    alloc: Global,
    types: &mut Types,
    type_id: &Name,
    level: Properties,
) -> Result<(), NoMemory>
    ensures put { OnOk result (types_of types.new.entries ≡ put_level (types_of types.old.entries) type_id.now level) }
    ensures left { OnErr result (types.new.entries ≡ types.old.entries) }
{
    let id = Vec::from_slice(alloc, type_id.bytes())?;
    match types.insert(id, level) {
        Ok(_) => Ok(()),
        Err(_) => Err(NoMemory),
    }
}

pub(crate) fn group_of(groups: &GroupLevels, group: GroupId) -> Option<&Levels>
    ensures { option_copied result ≡ group_of groups.now.entries group.0 }
{
    groups.get(&group.0)
}

pub(crate) fn put_group(
    groups: &mut GroupLevels,
    group: GroupId,
    levels: Levels,
) -> Result<(), NoMemory>
    ensures put { OnOk result (groups.new.entries ≡ put_group groups.old.entries group.0 levels) }
    ensures left { OnErr result (groups.new.entries ≡ groups.old.entries) }
{
    match groups.insert(group.0, levels) {
        Ok(_) => Ok(()),
        Err(_) => Err(NoMemory),
    }
}

pub(crate) fn drop_group(groups: &mut GroupLevels, group: GroupId)
    ensures { groups.new.entries ≡ dropped groups.old.entries group.0 }
{
    groups.shift_remove(&group.0);
}
