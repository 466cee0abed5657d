//! What has happened to a client, for proofs alone.
ghost use Rattle.std.specs.Prelude.{◌≡◌};
ghost use Rattle.script_clients.specs.Clients.{new_client};
ghost use Rattle.script_clients.specs.Happenings.{happened};

use crate::happenings::Happening;
use ft_base::Name;
use past_events::PastEvents;
use std::marker::Model;
use std::snapshot::Snapshot;

/// The plain client that all that has happened to a client makes.
#[derive(Drop)]
pub(crate) struct History {
    name: Snapshot<Name>,
    past: PastEvents<Happening>,
}

impl Model for History {
    ghost use Rattle.script_clients.specs.Clients.{Client};
    ghost use Rattle.script_clients.specs.Happenings.{client_after};

    ghost Value = { Client };

    ghost view = { λ h. client_after h.name.value h.past };
}

impl History {
    /// Nothing has happened to a client with this name.
    pub(crate) fn new(name: &Name) -> History
        ensures { result ≡ new_client name.now }
    {
        History {
            name: Snapshot::of(name),
            past: PastEvents::new(),
        }
    }

    /// This has happened too.
    pub(crate) fn push(&mut self, happening: Snapshot<Happening>)
        ensures { self.new ≡ happened self.old happening.value }
    {
        self.past.push(happening);
    }
}
