//! What the failed calls of a log would have made. It has no bytes: it stands in contracts alone.
ghost use Rattle.std.specs.Prelude.{◌≡◌, [], ◌∷◌, ◌++◌, drop};

use ft_base::Bytes;
use std::collections::VecDeque;
use std::marker::Model;
use std::mem::replace;
use std::snapshot::Snapshot;

/// The calls that failed, the latest first: the records at each, and what it was to add or to drop.
#[derive(Drop)]
pub enum Failures {
    None,
    Append(Snapshot<Failures>, Snapshot<VecDeque<Bytes>>, Snapshot<Bytes>),
    Cut(Snapshot<Failures>, Snapshot<VecDeque<Bytes>>, u64),
}

/// The lists of records that the failed calls would have made, the latest first.
#[derive(Drop)]
pub struct Failed {
    calls: Snapshot<Failures>,
}

impl Model for Failed {
    ghost use Rattle.std.specs.Prelude.{List, ℕ};

    ghost Value = { List (List (List ℕ)) };

    ghost use Rattle.disk_log.specs.Failures.{made};

    ghost view = { λ f. made f.calls.value };
}

impl Failed {
    /// No call has failed.
    pub fn none() -> Failed
        ensures { result ≡ [] }
    {
        Failed {
            calls: Snapshot::of(&Failures::None),
        }
    }

    /// Nor did this one succeed, which was to add a record.
    pub fn note_append(&mut self, records: &VecDeque<Bytes>, piece: &Bytes)
        ensures { self.new ≡ (records.now.items ++ piece.now ∷ []) ∷ self.old }
    {
        let earlier = replace(&mut self.calls, Snapshot::of(&Failures::None));
        let failures = Failures::Append(earlier, Snapshot::of(records), Snapshot::of(piece));
        self.calls = Snapshot::of(&failures);
    }

    /// Nor did this one, which was to drop so many records.
    pub fn note_cut(&mut self, records: &VecDeque<Bytes>, first: u64)
        ensures { self.new ≡ drop first records.now.items ∷ self.old }
    {
        let earlier = replace(&mut self.calls, Snapshot::of(&Failures::None));
        let failures = Failures::Cut(earlier, Snapshot::of(records), first);
        self.calls = Snapshot::of(&failures);
    }
}
