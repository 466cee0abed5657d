ghost use Rattle.std.specs.Prelude.{◌≡◌};

use ft_base::{Bytes, Request, Tick, Version, View};
use reply_table::Retained;
use std::marker::Model;

/// An accepted request, as its record tells it.
#[derive(Drop)]
pub struct Accepted {
    /// Its place in the journal.
    pub position: u32,
    /// The version that its writer knew.
    pub version: Version,
    /// When it was accepted.
    pub at: Tick,
    pub request: Request,
}

/// A checkpoint: what makes the entries before its mark needless.
#[derive(Drop)]
pub struct Checkpoint {
    /// How many entries the journal had.
    pub mark: u32,
    pub time: Tick,
    /// The servant's state after the entries before the mark.
    pub state: Bytes,
    /// The replies that had not expired, in order of position.
    pub retained: RetainedList,
}

/// A record of a log.
#[derive(Drop)]
pub enum Record {
    Entry(Accepted),
    View(View),
    Checkpoint(Checkpoint),
}

/// Retained entries, in order of position.
#[derive(Drop)]
pub struct RetainedList {
    entries: Vec<Retained>,
}

impl Model for RetainedList {
    ghost use Rattle.std.specs.Prelude.{List};
    ghost use Rattle.reply_table.specs.declared.entries.Retained.{Retained};

    ghost Value = { List Retained };

    ghost view = { λ l. l.entries.items };
}

impl RetainedList {
    /// The entries of a vector. It takes no memory.
    pub fn from_vec(entries: Vec<Retained>) -> RetainedList
        ensures { result ≡ entries.items }
    {
        RetainedList { entries }
    }

    /// The entries as a vector. It takes no memory.
    pub fn into_vec(self) -> Vec<Retained>
        ensures { result.items ≡ self }
    {
        let RetainedList { entries } = self;
        entries
    }
}
