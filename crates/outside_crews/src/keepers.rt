ghost use Rattle.std.specs.Prelude.{◌≡◌, []};

use ft_base::{Bytes, NoMemory};
use ft_outside::{Keeper, Kept, MemKeeper};
use std::alloc::Global;
use std::marker::Model;

/// A keeper in memory that never fails: where a running host's group keeps its log.
///
/// Its plan of failing calls is always empty, so by the clauses of `Keeper` each writing call is done.
#[derive(Drop)]
pub struct CalmKeeper {
    keeper: MemKeeper,
}

impl Model for CalmKeeper {
    ghost use Rattle.std.specs.Prelude.{◌≡◌, []};
    ghost use Rattle.ft_outside.specs.Keeping.{Shelf};

    ghost Value = { Shelf };

    ghost view = { λ k. k.keeper };

    ghost invariant = { λ k. (k.keeper.plan ≡ []) × (k.keeper.faults ≡ 0) };
}

impl CalmKeeper {
    /// A keeper without records. It takes no memory.
    pub fn new(alloc: Global) -> CalmKeeper
        ensures { result ≡ record { records = []; spare = 0; plan = []; faults = 0 } }
    {
        let keeper = MemKeeper::new(alloc, &[]).unwrap();
        CalmKeeper { keeper }
    }
}

impl Keeper for CalmKeeper {
    ghost use Rattle.std.specs.Prelude.{Some, []};

    ghost records = { λ keeper. keeper.records };

    ghost spare = { λ keeper. keeper.spare };

    ghost plan = { λ keeper. Some [] };

    ghost faults = { λ keeper. 0 };

    fn reserve(&mut self, alloc: Global, pieces: u32) -> Result<(), NoMemory> {
        self.keeper.reserve(alloc, pieces)
    }

    fn append(&mut self, piece: Bytes) -> Kept {
        self.keeper.append(piece)
    }

    fn cut(&mut self, first: u64) -> Kept {
        self.keeper.cut(first)
    }

    fn count(&self) -> u64 {
        self.keeper.count()
    }

    fn read(&self, index: u64) -> Option<&Bytes> {
        self.keeper.read(index)
    }
}
