ghost use Rattle.std.specs.Prelude.{◌≡◌, ℕ, ◌+◌, ◌-◌, ◌^◌, ◌<◌, min};
ghost use Rattle.ft_base.specs.Counting.{IsCounted};

use std::marker::Model;
use std::sync::ledger::{Blank, Book, Ledger, Share};

/// The number of servant calls so far. Contracts see it whole, so that they can say how often a
/// servant was called; what a program can print of it ends at the last number of a `u64`.
#[derive(Drop)]
pub struct Steps<L: Ledger> {
    book: Book<L>,
    share: Share<L>,
    told: u64,
}

impl<L: Ledger> Model for Steps<L> {
    ghost Value = { ℕ };

    ghost view = { λ s. s.book.total };

    ghost invariant = { λ s. IsCounted s.share.parts s.book.total s.told };
}

impl<L: Ledger> Steps<L> {
    /// A counter at 0, for a ledger that nothing else counts in.
    pub fn new(blank: Blank) -> Steps<L>
        requires name { blank.name ≡ L.name }
        requires parts { blank.parts ≡ L.parts }
        requires some { 0 < blank.parts }
        ensures { result ≡ 0 }
    {
        let (book, share) = blank.open::<L>();
        Steps {
            book,
            share,
            told: 0,
        }
    }

    /// Counts one servant call.
    pub fn tick(&mut self)
        ensures { self.new ≡ self.old + 1 }
    {
        self.book.add(&mut self.share, 1);
        self.told = self.told.saturating_add(1);
    }

    /// The number itself, or the greatest one that is told.
    pub fn count(&self) -> u64
        ensures { result ≡ min self.now (2 ^ 64 - 1) }
    {
        self.told
    }
}
