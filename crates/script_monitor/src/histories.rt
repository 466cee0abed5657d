//! What a monitor was told, for proofs alone.
ghost use Rattle.std.specs.Prelude.{◌≡◌};
ghost use Rattle.script_monitor.specs.Watches.{nobody};
ghost use Rattle.script_monitor.specs.Happenings.{happened};

use crate::happenings::Happening;
use past_events::PastEvents;
use std::marker::Model;
use std::snapshot::Snapshot;

/// The watched members that all that a monitor was told makes.
#[derive(Drop)]
pub(crate) struct History {
    past: PastEvents<Happening>,
}

impl Model for History {
    ghost use Rattle.script_monitor.specs.Happenings.{watches_after};
    ghost use Rattle.script_monitor.specs.Watches.{Watches};

    ghost Value = { Watches };

    ghost view = { λ h. watches_after h.past };
}

impl History {
    /// It was told nothing.
    pub(crate) fn new() -> History
        ensures { result ≡ nobody }
    {
        History {
            past: PastEvents::new(),
        }
    }

    /// It is told this too.
    pub(crate) fn push(&mut self, happening: &Happening)
        ensures { self.new ≡ happened self.old happening.now }
    {
        self.past.push(Snapshot::of(happening));
    }
}
