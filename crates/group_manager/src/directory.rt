//! The directory of all groups.
ghost use Rattle.std.specs.Prelude.{◌≡◌, ◌≢◌, ◌≤◌, ℕ, ◌+◌, ◌-◌, [], ◌∷◌, ◌++◌, length, None, Some, IsSome, slice_set, option_copied, IfOk, OnOk, OnErr, MatchResult};
ghost use Rattle.group_manager.specs.Directory.{info_of, place_of};

use ft_base::{GroupId, Name, NoMemory, Style};
use group_model::ManageFault;
use std::alloc::Global;
use std::marker::Model;

/// What the directory has of a group: the repository id of its type, and how its members share its work.
#[derive(Drop)]
pub struct GroupInfo {
    pub type_id: Name,
    pub style: Style,
}

/// The directory of groups. It is seen as the list of all that were ever made, the first of which is
/// group 1; a deleted one is none. So no number is used again.
#[derive(Drop)]
pub struct Groups {
    groups: Vec<Option<GroupInfo>>,
}

impl Model for Groups {
    ghost use Rattle.std.specs.Prelude.{List, Option};
    ghost use Rattle.group_manager.specs.declared.directory.GroupInfo.{GroupInfo};

    ghost Value = { List (Option GroupInfo) };

    ghost view = { λ g. g.groups.items };
}

/// The place of a group's number, where one can be made.
fn place_of(group: GroupId) -> Option<usize>
    ensures { result ≡ place_of group.0 }
{
    if group.0 == 0 {
        return None;
    }
    Some((group.0 - 1) as usize)
}

impl Groups {
    /// No groups. It takes no memory.
    pub fn new(alloc: Global) -> Groups
        ensures { result ≡ [] }
    {
        Groups {
            groups: Vec::new(alloc),
        }
    }

    /// A new group.
    pub fn add(&mut self, type_id: Name, style: Style) -> Result<GroupId, NoMemory>
        ensures number { IfOk result (λ group. group.0 ≡ length self.old + 1) }
        ensures added { OnOk result (self.new ≡ self.old ++ Some (record { type_id = type_id; style = style }) ∷ []) }
        ensures left { OnErr result (self.new ≡ self.old) }
        ensures others { OnOk result ((number : ℕ) → number ≤ length self.old → info_of self.new number ≡ info_of self.old number) }
    {
        let number = self.groups.len() as u64 + 1;
        self.groups.push(Some(GroupInfo { type_id, style }))?;
        Ok(GroupId(number))
    }

    /// What the directory has of a group.
    pub fn find(&self, group: GroupId) -> Result<&GroupInfo, ManageFault>
        ensures { MatchResult result
            (λ info. info_of self.now group.0 ≡ Some info.now)
            (λ fault. (fault ≡ ManageFault.ObjectGroupNotFound) × (info_of self.now group.0 ≡ None)) }
    {
        let Some(place) = place_of(group) else {
            return Err(ManageFault::ObjectGroupNotFound);
        };
        match self.groups.get(place) {
            Some(Some(info)) => Ok(info),
            Some(None) => Err(ManageFault::ObjectGroupNotFound),
            None => Err(ManageFault::ObjectGroupNotFound),
        }
    }

    /// A group is gone, and never found again.
    pub fn delete(&mut self, group: GroupId) -> Result<(), ManageFault>
        ensures deleted { MatchResult result
            (λ done. IsSome (info_of self.old group.0) × (self.new ≡ slice_set self.old (group.0 - 1) None))
            (λ fault. (fault ≡ ManageFault.ObjectGroupNotFound) × (info_of self.old group.0 ≡ None) × (self.new ≡ self.old)) }
        ensures gone { info_of self.new group.0 ≡ None }
        ensures others { (number : ℕ) → number ≢ group.0 → info_of self.new number ≡ info_of self.old number }
    {
        if let Err(fault) = self.find(group) {
            return Err(fault);
        }
        let Some(place) = place_of(group) else {
            unreachable!()
        };
        self.groups[place] = None;
        Ok(())
    }
}
