use ft_base::{Bytes, NoMemory};
use std::alloc::Global;

/// Whether a writing call was done.
#[derive(Clone, Copy, Debug, PartialEq, Eq)]
pub enum Kept {
    Done,
    /// It left the records as they were.
    Failed,
}

/// Where records are kept, in order, so that they outlive their writers: the stable storage of a
/// group's log (chapter 23, Logging Mechanism).
///
/// Its writing calls are `append` and `cut`. They take no memory: `spare` is the number of records
/// that are sure to find room. `faults` is the number of its faults, which never falls and ends at
/// 2^64 - 1. `plan`, where a keeper tells it, says of the next writing calls, in order, whether each
/// is to fail.
pub trait Keeper {
    ghost use Rattle.std.specs.Prelude.{◌≡◌, ℕ, ◌+◌, ◌<◌, ◌≤◌, Bool, List, [], ◌∷◌, ◌++◌, length, drop, slice_get, Option, option_copied, OnOk};
    ghost use Rattle.ft_outside.specs.Keeping.{has_failed, records_after, IsCounted, plan_after, IsForetold};

    ghost records: { Self → List (List ℕ) };

    ghost spare: { Self → ℕ };

    ghost plan: { Self → Option (List Bool) };

    ghost faults: { Self → ℕ };

    /// Makes room for so many records.
    fn reserve(&mut self, alloc: Global, pieces: u32) -> Result<(), NoMemory>
        ensures room { OnOk result (pieces ≤ spare self.new) }
        ensures kept { spare self.old ≤ spare self.new }
        ensures records { records self.new ≡ records self.old }
        ensures plan { plan self.new ≡ plan self.old }
        ensures faults { faults self.new ≡ faults self.old };

    /// Adds a record behind the others. It uses one place of the room.
    fn append(&mut self, piece: Bytes) -> Kept
        requires { 0 < spare self.old }
        ensures room { spare self.new + 1 ≡ spare self.old }
        ensures records { records self.new ≡ records_after result (records self.old ++ piece ∷ []) (records self.old) }
        ensures plan { plan self.new ≡ plan_after (plan self.old) }
        ensures foretold { IsForetold (plan self.old) (has_failed result) }
        ensures faults { IsCounted result (faults self.old) (faults self.new) };

    /// Drops the first records, so many.
    fn cut(&mut self, first: u64) -> Kept
        requires { first ≤ length (records self.old) }
        ensures room { spare self.new ≡ spare self.old }
        ensures records { records self.new ≡ records_after result (drop first (records self.old)) (records self.old) }
        ensures plan { plan self.new ≡ plan_after (plan self.old) }
        ensures foretold { IsForetold (plan self.old) (has_failed result) }
        ensures faults { IsCounted result (faults self.old) (faults self.new) };

    /// How many records there are.
    fn count(&self) -> u64
        ensures { result ≡ length (records self.now) };

    /// The record with this number, from 0.
    fn read(&self, index: u64) -> Option<&Bytes>
        ensures { option_copied result ≡ slice_get (records self.now) index };
}
