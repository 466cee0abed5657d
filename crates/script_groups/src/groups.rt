ghost use Rattle.std.specs.Prelude.{◌≡◌, ◌<◌, Some, IfOk, OnErr, OnOk, option_copied, length};
ghost use Rattle.std.specs.List.{AllByRecursion};
ghost use Rattle.ft_base.specs.Members.{AreDifferent};
ghost use Rattle.ft_base.specs.declared.limits.TheConstants.{HOST_LIMIT};
ghost use Rattle.group_model.specs.Views.{newest_view};
ghost use Rattle.script_groups.specs.Acting.{MayCome, IsActed, IsKept, IsSoundGroup};
ghost use Rattle.script_groups.specs.Groups.{common_of, failing, opened, signature_of};
ghost use Rattle.group_core.specs.Telling.{shown_view};
ghost use Rattle.script_groups.specs.Standing.{IsStanding};
ghost use Rattle.script_groups.specs.declared.happenings.Happening.TheVariants as happenings;

use crate::happenings::Happening;
use ft_base::{GroupId, Members, Name, NoMemory, Signature, Steps, Style, Tick, Version, View};
use ft_outside::MemKeeper;
use group_core::{GroupCore, cores_tell, is_short, turns_are_as_foretold};
use group_model::{Event, GroupAnswer, groups_grow};
use past_events::PastEvents;
use shipped_servants::{Kind, Shipped};
use std::alloc::Global;
use std::marker::Model;
use std::snapshot::Snapshot;
use std::sync::ledger::Ledger;

/// A group of a script. Contracts see it as how it opened and what has happened to it since; the core stands for
/// the plain group that this makes.
///
/// Where memory is wanted in an event the group is poisoned: what its core holds is no longer that of its
/// history.
#[derive(Drop)]
pub struct ScriptGroup {
    id: GroupId,
    name: Name,
    kind: Kind,
    style: Style,
    members: Members,
    history: PastEvents<Happening>,
    poisoned: bool,
    core: GroupCore<Shipped, MemKeeper>,
}

impl Model for ScriptGroup {
    ghost use Rattle.script_groups.specs.Groups.{ScriptGroup as Seen};
    ghost use Rattle.script_groups.specs.Viewing.{seen};
    ghost use Rattle.script_groups.specs.Standing.{StandsUnlessPoisoned};

    ghost Value = { Seen };

    ghost view = { seen };

    ghost invariant = { λ g. StandsUnlessPoisoned g.core (seen g) };
}

/// An event as what happens, and the event.
fn happening_of(event: Event) -> (Snapshot<Happening>, Event)
    ensures happening { result.0.value ≡ happenings.Event event }
    ensures event { result.1 ≡ event }
{
    let happening = Happening::Event(event);
    let past = Snapshot::of(&happening);
    match happening {
        Happening::Event(event) => (past, event),
        Happening::FailNext => unreachable!(),
    }
}

impl ScriptGroup {
    /// A group at its opening, with its first view; all hosts are up.
    pub fn new(
        alloc: Global,
        id: GroupId,
        name: Name,
        kind: Kind,
        style: Style,
        members: Members,
    ) -> Result<ScriptGroup, NoMemory>
        requires hosts { AllByRecursion (λ host. host < HOST_LIMIT) members }
        requires different { AreDifferent members }
        ensures { IfOk result (λ group. group ≡ opened id name kind style members) }
    {
        let opening = Shipped::open(alloc, kind)?;
        let keeper = MemKeeper::new(alloc, &[])?;
        let first = members.copy();
        match GroupCore::new(alloc, id, style, opening, members, keeper) {
            Ok(core) => Ok(ScriptGroup {
                id,
                name,
                kind,
                style,
                members: first,
                history: PastEvents::new(),
                poisoned: false,
                core,
            }),
            // no write of a fresh keeper fails
            Err(_) => Err(NoMemory),
        }
    }

    /// Its number.
    pub fn id(&self) -> GroupId
        ensures { result ≡ self.now.id }
    {
        self.id
    }

    /// Its name.
    pub fn name(&self) -> &Name
        ensures { result.now ≡ self.now.name }
    {
        &self.name
    }

    /// The kind of its servant.
    pub fn kind(&self) -> Kind
        ensures { result ≡ self.now.kind }
    {
        self.kind
    }

    /// What its servant says of an operation.
    pub fn signature(&self, op: &Name) -> Option<Signature>
        requires { IsKept self.now }
        ensures { result ≡ signature_of self.now op.now }
    {
        cores_tell();
        self.core.signature(op)
    }

    /// Its newest view.
    pub fn newest(&self) -> &View
        requires { IsKept self.now }
        ensures { result.now ≡ newest_view (common_of self.now) }
    {
        cores_tell();
        self.core.log().newest()
    }

    /// Its view of a version; none exactly where it has had no such view.
    pub fn view(&self, version: Version) -> Option<&View>
        requires { IsKept self.now }
        ensures { option_copied result ≡ shown_view (common_of self.now) version.0 }
    {
        cores_tell();
        self.core.view(version)
    }

    /// How many requests it has accepted.
    pub fn entries(&self) -> u32
        requires { IsKept self.now }
        ensures { result ≡ length (common_of self.now).journal }
    {
        cores_tell();
        self.core.log().length()
    }

    /// The greatest tick of an acceptance or a checkpoint.
    pub fn time(&self) -> Tick
        requires { IsKept self.now }
        ensures { result.0 ≡ (common_of self.now).time }
    {
        cores_tell();
        self.core.log().time()
    }

    /// How its members share its work.
    pub fn style(&self) -> Style
        requires { IsKept self.now }
        ensures { result ≡ (common_of self.now).style }
    {
        cores_tell();
        self.core.style()
    }

    /// Its core, for what is read of hosts.
    pub(crate) fn core(&self) -> &GroupCore<Shipped, MemKeeper>
        requires { IsKept self.now }
        ensures { IsStanding result.now self.now }
    {
        &self.core
    }

    /// Its plain group is sound. The function does nothing.
    pub fn is_sound(&self)
        requires { IsKept self.now }
        ensures { IsSoundGroup self.now }
    {
        let _style = self.style;
    }

    /// Acts an event that may come to the group.
    pub fn act<L: Ledger>(
        &mut self,
        alloc: Global,
        event: Event,
        steps: &mut Steps<L>,
    ) -> GroupAnswer
        requires kept { IsKept self.old }
        requires may { MayCome self.old event }
        ensures { IsActed self.old event result self.new steps.old steps.new }
    {
        turns_are_as_foretold();
        groups_grow();
        let (past, event) = happening_of(event);
        let answer = self.core.act(alloc, event, steps);
        if is_short(&answer) {
            self.poisoned = true;
            return answer;
        }
        self.history.push(past);
        answer
    }

    /// Makes its log's next write fail.
    pub fn fail_next(&mut self) -> Result<(), NoMemory>
        requires { IsKept self.old }
        ensures failing { OnOk result (self.new ≡ failing self.old) }
        ensures left { OnErr result (self.new ≡ self.old) }
    {
        match self.core.fail_next() {
            Ok(()) => {
                self.history.push(Snapshot::of(&Happening::FailNext));
                Ok(())
            }
            Err(NoMemory) => Err(NoMemory),
        }
    }
}
