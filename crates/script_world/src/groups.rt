//! The groups of a world, found by their names in a map, and how many requests they have accepted together.
ghost use Rattle.std.specs.Prelude.{◌≡◌, ◌+◌, ◌*◌, ◌<◌, ◌≤◌, ◌++◌, ◌∷◌, [], Some, length, slice_get, slice_set, IfSome, OnErr, OnOk};
ghost use Rattle.std.specs.List.{AllByRecursion, list_any};
ghost use Rattle.std.specs.Str.{bytes_eq};
ghost use Rattle.ft_base.specs.declared.limits.TheConstants.{HOST_LIMIT, JOURNAL_LIMIT};
ghost use Rattle.script_groups.specs.Acting.{AreKept, IsKept, IsSoundGroup, MayCome, poisoned};
ghost use Rattle.script_groups.specs.Groups.{ScriptGroup as Group, acted, all_acted, common_of, entries_of, failing, group_named};
ghost use Rattle.script_world.specs.Counting.{IsActedAt};
ghost use Rattle.script_world.specs.Worlds.{AreOrHave, IsMade, IsPlace, power_event};

use crate::limits::GROUP_LIMIT;
use ft_base::{HOST_LIMIT, HostNo, Name, NoMemory, Steps};
use group_model::{Event, GroupAnswer};
use name_places::NamePlaces;
use script_groups::{ScriptGroup, failures_come_once};
use std::alloc::Global;
use std::marker::Model;
use std::sync::ledger::Ledger;

/// The groups of a world, in the order in which they were made, with a map of their names, and how many requests
/// they have accepted together, where that is counted.
///
/// That number is asked for after each line of a script. An event changes what one group has accepted, so the
/// count goes on by that group alone, and no other is looked at.
#[derive(Drop)]
pub(crate) struct Groups {
    items: Vec<ScriptGroup>,
    entries: Option<u64>,
    places: NamePlaces,
}

impl Model for Groups {
    ghost use Rattle.std.specs.Prelude.{◌≡◌, IfSome, vec_capacity};
    ghost use Rattle.name_places.specs.Places.{ArePlaces};
    ghost use Rattle.script_groups.specs.Groups.{entries_of};
    ghost use Rattle.script_world.specs.Counting.{GroupList};
    ghost use Rattle.script_world.specs.Names.{group_names};

    ghost Value = { GroupList };

    ghost view = { λ a. record { items = a.items.items; room = vec_capacity a.items; next = a.places.next } };

    ghost invariant = { λ a. IfSome a.entries (λ n. n ≡ entries_of a.items.items) × ArePlaces a.places (group_names a.items.items) };
}

// How many requests these groups have accepted.
fn entries_of(groups: &[ScriptGroup]) -> u64
    requires few { length groups.now ≤ GROUP_LIMIT }
    requires kept { AreKept groups.now }
    ensures { result ≡ entries_of groups.now }
{
    let mut total = 0u64;
    for group in groups {
        total += u64::from(group.entries());
    }
    total
}

// How many requests there are with those of a group that gave this answer; none where memory was wanted, since
// then nothing is read of the group.
fn count_with(others: u64, group: &ScriptGroup, answer: &GroupAnswer) -> Option<u64>
    requires few { others ≤ GROUP_LIMIT * JOURNAL_LIMIT }
    requires kept { IsMade answer.now (IsKept group.now) }
    ensures { IfSome result (λ n. n ≡ others + length (common_of group.now).journal) }
{
    match answer {
        GroupAnswer::NoMemory => None,
        _ => Some(others + u64::from(group.entries())),
    }
}

fn power_event(up: bool, host: HostNo) -> Event
    ensures { result ≡ power_event up host }
{
    if up {
        Event::Restart(host)
    } else {
        Event::Crash(host)
    }
}

// A host that stops or starts again is so for one group; no servant is called.
fn power_one<L: Ledger>(
    alloc: Global,
    group: &mut ScriptGroup,
    host: HostNo,
    up: bool,
    steps: &mut Steps<L>,
) -> Result<(), NoMemory>
    requires kept { IsKept group.old }
    requires host { host.0 < HOST_LIMIT }
    ensures acted { OnOk result (group.new ≡ acted group.old (power_event up host)) }
    ensures short { OnErr result (group.new ≡ poisoned group.old) }
    ensures steps { OnOk result (steps.new ≡ steps.old) }
    ensures within { steps.new ≤ steps.old }
{
    match group.act(alloc, power_event(up, host), steps) {
        GroupAnswer::NoMemory => Err(NoMemory),
        _ => Ok(()),
    }
}

// The same event at each group: what a host that stops or starts again is to all of them.
fn power<L: Ledger>(
    alloc: Global,
    groups: &mut Vec<ScriptGroup>,
    host: HostNo,
    up: bool,
    steps: &mut Steps<L>,
) -> Result<(), NoMemory>
    requires kept { AreKept groups.old.items }
    requires host { host.0 < HOST_LIMIT }
    ensures acted { OnOk result (groups.new.items ≡ all_acted (power_event up host) groups.old.items) }
    ensures partly { OnErr result (AreOrHave groups.old.items (power_event up host) groups.new.items) }
    ensures steps { OnOk result (steps.new ≡ steps.old) }
    ensures within { steps.new ≤ steps.old }
{
    for group in groups.iter_mut() {
        match power_one(alloc, group, host, up, steps) {
            Ok(()) => {}
            Err(NoMemory) => return Err(NoMemory),
        }
    }
    Ok(())
}

impl Groups {
    /// No groups.
    pub(crate) fn new(alloc: Global) -> Groups
        ensures { result.items ≡ [] }
    {
        Groups {
            items: Vec::new(alloc),
            entries: Some(0),
            places: NamePlaces::new(alloc),
        }
    }

    pub(crate) fn as_slice(&self) -> &[ScriptGroup]
        ensures { result.now ≡ self.now.items }
    {
        self.items.as_slice()
    }

    pub(crate) fn len(&self) -> usize
        ensures { result ≡ length self.now.items }
    {
        self.items.len()
    }

    /// The group at this place.
    pub(crate) fn at(&self, place: usize) -> &ScriptGroup
        requires { place < length self.now.items }
        ensures { slice_get self.now.items place ≡ Some result.now }
    {
        &self.items[place]
    }

    /// The place of the group with this name.
    pub(crate) fn place(&self, name: &Name) -> Option<usize>
        ensures { IsPlace (group_named self.now.items name.now) self.now.items result }
    {
        self.places.place(name)
    }

    pub(crate) fn has(&self, name: &Name) -> bool
        ensures { result ≡ list_any (λ (g : Group). bytes_eq g.name name.now) self.now.items }
    {
        self.place(name).is_some()
    }

    /// Makes room for one more, of this name.
    pub(crate) fn reserve_one(&mut self, alloc: Global, name: &Name) -> Result<(), NoMemory>
        ensures same { self.new.items ≡ self.old.items }
        ensures room { OnOk result (length self.new.items < self.new.room) }
        ensures ready { OnOk result (self.new.next ≡ Some name.now) }
    {
        self.items.reserve(1)?;
        self.places.reserve(alloc, name)
    }

    /// One more group, for which there is room. What all have accepted is summed up at the next event.
    pub(crate) fn push(&mut self, group: ScriptGroup)
        requires room { length self.old.items < self.old.room }
        requires ready { self.old.next ≡ Some group.name }
        ensures { self.new.items ≡ self.old.items ++ group ∷ [] }
    {
        self.entries = None;
        self.places.add_reserved(self.items.len());
        self.items.push(group).unwrap();
    }

    /// How many requests they have accepted together.
    pub(crate) fn entries(&self) -> u64
        requires few { length self.now.items ≤ GROUP_LIMIT }
        requires kept { AreKept self.now.items }
        ensures { result ≡ entries_of self.now.items }
    {
        match self.entries {
            Some(entries) => entries,
            None => entries_of(self.items.as_slice()),
        }
    }

    // How many requests all but the group at this place have accepted.
    fn others(&self, place: usize) -> u64
        requires within { place < length self.now.items }
        requires few { length self.now.items ≤ GROUP_LIMIT }
        requires kept { AreKept self.now.items }
        requires sound { AllByRecursion IsSoundGroup self.now.items }
        ensures sum { (g : Group) → slice_get self.now.items place ≡ Some g →
            result + length (common_of g).journal ≡ entries_of self.now.items }
        ensures limit { result ≤ GROUP_LIMIT * JOURNAL_LIMIT }
    {
        self.entries() - u64::from(self.items[place].entries())
    }

    /// Acts an event at the group at this place.
    #[inline(always)]
    pub(crate) fn act_at<L: Ledger>(
        &mut self,
        alloc: Global,
        place: usize,
        event: Event,
        steps: &mut Steps<L>,
    ) -> GroupAnswer
        requires within { place < length self.old.items }
        requires few { length self.old.items ≤ GROUP_LIMIT }
        requires kept { AreKept self.old.items }
        requires sound { AllByRecursion IsSoundGroup self.old.items }
        requires may { (g : Group) → slice_get self.old.items place ≡ Some g → MayCome g event }
        ensures acted { IsActedAt self.old.items place event result self.new.items steps.old steps.new }
        ensures kept { IsMade result (AreKept self.new.items) }
    {
        let others = self.others(place);
        let group = &mut self.items[place];
        let answer = group.act(alloc, event, steps);
        let entries = count_with(others, group, &answer);
        self.entries = entries;
        answer
    }

    /// The next write of the log of the group at this place fails.
    pub(crate) fn fail_log_at(&mut self, place: usize) -> Result<(), NoMemory>
        requires within { place < length self.old.items }
        requires kept { AreKept self.old.items }
        ensures failing { (g : Group) → slice_get self.old.items place ≡ Some g → OnOk result (self.new.items ≡ slice_set self.old.items place (failing g)) }
        ensures left { OnErr result (self.new.items ≡ self.old.items) }
    {
        failures_come_once();
        self.items[place].fail_next()
    }

    /// A host stops or starts again, and each group hears of it. All are at hand then, and are counted anew.
    pub(crate) fn power<L: Ledger>(
        &mut self,
        alloc: Global,
        host: HostNo,
        up: bool,
        steps: &mut Steps<L>,
    ) -> Result<(), NoMemory>
        requires few { length self.old.items ≤ GROUP_LIMIT }
        requires kept { AreKept self.old.items }
        requires host { host.0 < HOST_LIMIT }
        ensures acted { OnOk result (self.new.items ≡ all_acted (power_event up host) self.old.items) }
        ensures partly { OnErr result (AreOrHave self.old.items (power_event up host) self.new.items) }
        ensures steps { OnOk result (steps.new ≡ steps.old) }
        ensures within { steps.new ≤ steps.old }
    {
        self.entries = None;
        match power(alloc, &mut self.items, host, up, steps) {
            Ok(()) => {
                self.entries = Some(entries_of(self.items.as_slice()));
                Ok(())
            }
            Err(NoMemory) => Err(NoMemory),
        }
    }
}
