ghost use Rattle.std.specs.Prelude.{◌≡◌, [], ◌∷◌, ◌++◌};

use std::marker::Model;
use std::snapshot::Snapshot;

/// Events in order: after others, or those of two chains. What it follows is what a `PastEvents` holds.
#[derive(Drop)]
enum Chain<E> {
    Nothing,
    Then(Snapshot<Snapshot<Chain<E>>>, Snapshot<E>),
    Joined(Snapshot<Snapshot<Chain<E>>>, Snapshot<Snapshot<Chain<E>>>),
}

/// The events that there have been, oldest first.
#[derive(Drop)]
pub struct PastEvents<E> {
    chain: Snapshot<Chain<E>>,
}

impl<E> Model for PastEvents<E> {
    ghost use Rattle.std.specs.Prelude.{List};
    ghost use Rattle.past_events.specs.Chains.{listed};

    ghost Value = { List E };

    ghost view = { λ p. listed p.chain.value };
}

impl<E> PastEvents<E> {
    /// Nothing has happened.
    pub fn new() -> PastEvents<E>
        ensures { result ≡ [] }
    {
        PastEvents {
            chain: Snapshot::of(&Chain::Nothing),
        }
    }

    /// This has happened too, last.
    pub fn push(&mut self, event: Snapshot<E>)
        ensures { self.new ≡ self.old ++ event.value ∷ [] }
    {
        let chain = Chain::Then(Snapshot::of(&self.chain), event);
        self.chain = Snapshot::of(&chain);
    }

    /// Others have happened too, after them.
    pub fn append(&mut self, others: &PastEvents<E>)
        ensures { self.new ≡ self.old ++ others.now }
    {
        let chain = Chain::Joined(Snapshot::of(&self.chain), Snapshot::of(&others.chain));
        self.chain = Snapshot::of(&chain);
    }
}
