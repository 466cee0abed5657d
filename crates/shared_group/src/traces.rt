//! A core with all that it has acted.
ghost use Rattle.std.specs.Prelude.{◌≡◌, [], ◌∷◌, ◌++◌, ℕ};
ghost use Rattle.group_model.specs.Agreeing.{Agrees};
ghost use Rattle.group_model.specs.Events.{shows_fault};
ghost use Rattle.group_model.specs.Plain.{Group};
ghost use Rattle.group_model.specs.Steps.{IsStep};
ghost use Rattle.group_core.specs.Cores.{Stands};
ghost use Rattle.shared_group.specs.Books.{CountsFaults};

use ft_base::{Servant, Steps};
use ft_outside::Keeper;
use group_core::{GroupCore, acts_are_steps, log_faults_are_counted};
use group_model::{Event, GroupAnswer};
use past_events::PastEvents;
use std::alloc::Global;
use std::marker::{Brand, Model};
use std::snapshot::Snapshot;
use std::sync::ledger::{Blank, Ledger};

/// An event that a core has acted, and its answer, for contracts alone.
#[derive(Drop)]
pub struct Entry {
    pub event: Snapshot<Event>,
    pub answer: Snapshot<GroupAnswer>,
}

/// A group's core with all that it has acted, which takes no memory.
#[derive(Drop)]
pub struct TracedCore<S: Servant, K: Keeper> {
    core: GroupCore<S, K>,
    past: PastEvents<Entry>,
}

impl<S: Servant, K: Keeper> Model for TracedCore<S, K> {
    ghost use Rattle.shared_group.specs.Books.{Traced, acts_of};

    ghost Value = { Traced };

    ghost view = { λ t. record { core = t.core; acts = acts_of t.past } };
}

// Acts an event, and counts the servant's calls in a ledger of their own.
fn act_counted<S: Servant + Drop, K: Keeper, L: Ledger>(
    alloc: Global,
    core: &mut GroupCore<S, K>,
    event: Event,
    blank: Blank,
) -> GroupAnswer
    requires name { blank.name ≡ L.name }
    requires parts { blank.parts ≡ L.parts }
    requires some { blank.parts ≡ 1 }
    requires may { (g : Group) × Stands S.machine core.old g × Agrees (S.machine g.common.kind) event g }
    ensures acted { (g : Group) → Stands S.machine core.old g → Agrees (S.machine g.common.kind) event g
        → (after : Group) × IsStep (S.machine g.common.kind) g event result after × Stands S.machine core.new after }
    ensures counts { CountsFaults (shows_fault result) core.old.log core.new.log }
{
    acts_are_steps();
    log_faults_are_counted();
    let mut steps = Steps::<L>::new(blank);
    core.act(alloc, event, &mut steps)
}

impl<S: Servant + Drop, K: Keeper> TracedCore<S, K> {
    /// A core that has acted nothing yet.
    pub fn new(core: GroupCore<S, K>) -> TracedCore<S, K>
        ensures { result ≡ record { core = core; acts = [] } }
    {
        TracedCore {
            core,
            past: PastEvents::new(),
        }
    }

    /// Acts an event that agrees with the group, and adds an entry.
    pub fn act(&mut self, alloc: Global, event: Event) -> GroupAnswer
        requires { (g : Group) × Stands S.machine self.old.core g × Agrees (S.machine g.common.kind) event g }
        ensures acted { (g : Group) → Stands S.machine self.old.core g → Agrees (S.machine g.common.kind) event g
            → (after : Group) × IsStep (S.machine g.common.kind) g event result after × Stands S.machine self.new.core after }
        ensures counts { CountsFaults (shows_fault result) self.old.core.log self.new.core.log }
        ensures entry { self.new.acts ≡ self.old.acts ++ record { event = event; answer = result } ∷ [] }
    {
        let asked = Snapshot::of(&event);
        let answer = act_counted::<S, K, Brand>(alloc, &mut self.core, event, Blank::new(1));
        let entry = Entry {
            event: asked,
            answer: Snapshot::of(&answer),
        };
        self.past.push(Snapshot::of(&entry));
        answer
    }

    /// The core.
    pub fn core(&self) -> &GroupCore<S, K>
        ensures { result.now ≡ self.now.core }
    {
        &self.core
    }

    /// The core, once nothing more is acted.
    pub fn into_core(self) -> GroupCore<S, K>
        ensures { result ≡ self.core }
    {
        let TracedCore { core, past: _past } = self;
        core
    }
}
