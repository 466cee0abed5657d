/// What a write took: so many bytes at the front of the piece, at least one; or a fault.
#[derive(Clone, Copy, Debug, PartialEq, Eq)]
pub enum Put {
    Took(usize),
    Failed,
}

/// What a flush did: nothing waits any more; or a fault.
#[derive(Clone, Copy, Debug, PartialEq, Eq)]
pub enum Flush {
    Done,
    Failed,
}

/// Where bytes go to. What a sink has taken may wait in it until it is flushed.
///
/// `holds` is all that a sink has taken, where it tells that, whether or not it waits. `count` is its
/// number of faults: each fault adds one, up to its end at 2^64 - 1, and nothing else changes it.
pub trait Sink {
    ghost use Rattle.std.specs.Prelude.{ℕ, ◌<◌, List, length, Option};
    ghost use Rattle.ft_outside.specs.Outside.{IsFlushed, IsWritten};

    ghost holds: { Self → Option (List ℕ) };

    ghost count: { Self → ℕ };

    /// Writes some bytes at the front of a piece. A sink that takes none of them has failed.
    fn write(&mut self, piece: &[u8]) -> Put
        requires { 0 < length piece.now }
        ensures { IsWritten (holds self.old) (holds self.new) (count self.old) (count self.new) piece.now result };

    /// Hands on what waits. After `Done` nothing waits.
    fn flush(&mut self) -> Flush
        ensures { IsFlushed (holds self.old) (holds self.new) (count self.old) (count self.new) result };
}
