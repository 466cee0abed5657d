//! A disk as a log sees it.
ghost use Rattle.std.specs.Prelude.{◌≡◌, ◌≤◌, ◌<◌, ◌+◌, ◌^◌, List, ℕ, length, take, drop, max};
ghost use Rattle.ft_outside.specs.Keeping.{IsCounted};
ghost use Rattle.disk_log.specs.Disk.{IsWritten, Torn, Follows, NoOthers, Each, Elapses, OnDone};

use ft_outside::Kept;

/// A disk: bytes that outlive their writers, as far as they were synced. A disk that tells nothing of its bytes gives
/// no list and has no image; its size and its faults are known all the same.
pub trait Disk {
    /// What a read gives.
    ghost gives: { Self → List ℕ → Type 0 };

    /// The images: what a crash at this moment may leave.
    ghost images: { Self → List ℕ → Type 0 };

    /// How many bytes it has.
    ghost size: { Self → ℕ };

    /// The clock: a number that doesn't fall.
    ghost moment: { Self → ℕ };

    /// What a crash at some moment from that one on may have left, during a call or between two.
    ghost since: { Self → ℕ → List ℕ → Type 0 };

    /// How often the disk has failed.
    ghost faults: { Self → ℕ };

    /// How many bytes it has.
    fn length(&self) -> u64
        ensures size { result ≡ size self.now }
        ensures all { Each (gives self.now) (λ r. length r ≡ result) };

    /// Reads bytes at a place.
    fn read_at(&mut self, at: u64, into: &mut [u8]) -> Kept
        requires { at + length into.old ≤ size self.old }
        ensures given { OnDone result (Each (gives self.old) (λ r. into.new ≡ take (length into.old) (drop at r))) }
        ensures gives { NoOthers (gives self.old) (gives self.new) }
        ensures keeps { NoOthers (gives self.new) (gives self.old) }
        ensures images { NoOthers (images self.old) (images self.new) }
        ensures size { size self.new ≡ size self.old }
        ensures time { Elapses (moment self.old) (moment self.new) (since self.old) (since self.new) (images self.new) }
        ensures faults { IsCounted result (faults self.old) (faults self.new) };

    /// Writes over what is there, and past the end. Until a sync a crash may leave any bytes in the range. A call that
    /// failed may have done any part of its work.
    fn write_at(&mut self, at: u64, piece: &[u8]) -> Kept
        requires { at ≤ size self.old }
        ensures written { OnDone result (Follows (IsWritten at piece.now) (gives self.old) (gives self.new)) }
        ensures torn { Follows (Torn at (length piece.now)) (gives self.old) (gives self.new) }
        ensures images { Follows (Torn at (length piece.now)) (images self.old) (images self.new) }
        ensures size { OnDone result (size self.new ≡ max (size self.old) (at + length piece.now)) }
        ensures no_shorter { size self.old ≤ size self.new }
        ensures fits { OnDone result (at + length piece.now < 2 ^ 64) }
        ensures time { Elapses (moment self.old) (moment self.new) (since self.old) (since self.new) (images self.new) }
        ensures faults { IsCounted result (faults self.old) (faults self.new) };

    /// After it, where it was done, a crash leaves what a read gives.
    fn sync(&mut self) -> Kept
        ensures durable { OnDone result (NoOthers (gives self.new) (images self.new)) }
        ensures gives { NoOthers (gives self.old) (gives self.new) }
        ensures keeps { NoOthers (gives self.new) (gives self.old) }
        ensures images { NoOthers (images self.old) (images self.new) }
        ensures size { size self.new ≡ size self.old }
        ensures time { Elapses (moment self.old) (moment self.new) (since self.old) (since self.new) (images self.new) }
        ensures faults { IsCounted result (faults self.old) (faults self.new) };

    /// What it gives now is one of its images.
    ghost gives_now: { (disk : Self) → NoOthers (images disk) (gives disk) };

    /// This moment is one of those since an earlier one.
    ghost counts_now: { (disk : Self) (t : ℕ) (c : List ℕ) → t ≤ moment disk → images disk c → since disk t c };

    /// Since this moment there is no other.
    ghost only_now: { (disk : Self) (c : List ℕ) → since disk (moment disk) c → images disk c };
}
