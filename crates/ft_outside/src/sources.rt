/// What a read gave: so many bytes at the front of the slice, at least one; the end; or a fault.
#[derive(Clone, Copy, Debug, PartialEq, Eq)]
pub enum Got {
    Bytes(usize),
    End,
    Failed,
}

/// Where bytes come from.
///
/// `left` is what a source has left, where it tells that, and `count` its number of faults: each
/// fault adds one, up to its end at 2^64 - 1, and nothing else changes it.
pub trait Source {
    ghost use Rattle.std.specs.Prelude.{ℕ, ◌<◌, List, length, Option};
    ghost use Rattle.ft_outside.specs.Outside.{IsRead};

    ghost left: { Self → Option (List ℕ) };

    ghost count: { Self → ℕ };

    /// Reads some bytes into the front of a slice. What the slice has behind them is left open.
    fn read(&mut self, into: &mut [u8]) -> Got
        requires { 0 < length into.old }
        ensures { IsRead (left self.old) (left self.new) (count self.old) (count self.new) into.new result };
}
