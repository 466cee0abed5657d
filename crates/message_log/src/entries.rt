ghost use Rattle.std.specs.Prelude.{◌≡◌};

use ft_base::{Request, Tick};
use std::marker::Model;

/// An entry of the journal: an accepted request, and when it was accepted.
#[derive(Drop)]
pub(crate) struct Entry {
    at: Tick,
    request: Request,
}

impl Model for Entry {
    ghost use Rattle.ft_base.specs.Journal.{Entry as Accepted};

    ghost Value = { Accepted };

    ghost view = { λ e. record { at = e.at.0; request = e.request } };
}

impl Entry {
    pub(crate) fn new(at: Tick, request: Request) -> Entry
        ensures { result ≡ record { at = at.0; request = request } }
    {
        Entry { at, request }
    }

    pub(crate) fn request(&self) -> &Request
        ensures { result.now ≡ self.now.request }
    {
        &self.request
    }
}
