ghost use Rattle.std.specs.Prelude.{◌≡◌, ◌+◌, ◌<◌, ◌^◌, true, Some, IfOk, OnOk, OnErr};
ghost use Rattle.ft_base.specs.Machine.{Fits};
ghost use Rattle.ft_base.specs.Servants.{JudgesState, JudgesUpdate};
ghost use Rattle.ft_replica.specs.Picture.{opened, one_further, settled, rebased, blanked};

use ft_base::{Bytes, NoMemory, Outcome, Request, Servant, StateFault, Steps, UpdateFault};
use std::alloc::Global;
use std::marker::Model;
use std::sync::ledger::Ledger;

/// A servant that has run the first `position` entries of a group's journal, with a copy of it as it
/// was after the first `base` of them.
///
/// It is loaded or blank; a blank one keeps its servant, whose state counts for nothing.
#[derive(Drop)]
pub struct Replica<S: Servant> {
    loaded: bool,
    position: u32,
    base: u32,
    servant: S,
    copied: S,
}

impl<S: Servant> Model for Replica<S> {
    ghost use Rattle.std.specs.Prelude.{◌≡◌};
    ghost use Rattle.ft_replica.specs.Picture.{Picture};

    ghost Value = { Picture };

    ghost view = { λ r. record { kind = S.kind r.servant; loaded = r.loaded; position = r.position; base = r.base; state = S.state r.servant; copied = S.state r.copied } };

    ghost invariant = { λ r. S.kind r.copied ≡ S.kind r.servant };
}

impl<S: Servant + Drop> Replica<S> {
    /// A replica at position 0 with the group's opening state.
    pub fn new(alloc: Global, opening: S) -> Result<Replica<S>, NoMemory>
        ensures { IfOk result (λ replica. replica ≡ opened (S.kind opening) (S.state opening)) }
    {
        let copied = opening.copy(alloc)?;
        Ok(Replica {
            loaded: true,
            position: 0,
            base: 0,
            servant: opening,
            copied,
        })
    }

    /// Whether it has a state.
    pub fn is_loaded(&self) -> bool
        ensures { result ≡ self.now.loaded }
    {
        self.loaded
    }

    /// How many entries of the journal it has run, or taken over in a state.
    pub fn position(&self) -> u32
        ensures { result ≡ self.now.position }
    {
        self.position
    }

    /// The position from which its next update leads.
    pub fn base(&self) -> u32
        ensures { result ≡ self.now.base }
    {
        self.base
    }

    /// The servant.
    pub fn servant(&self) -> &S
        ensures kind { S.kind result.now ≡ self.now.kind }
        ensures state { S.state result.now ≡ self.now.state }
    {
        &self.servant
    }

    /// The servant's state.
    pub fn state(&self, alloc: Global) -> Result<Bytes, NoMemory>
        ensures { IfOk result (λ bytes. bytes ≡ self.now.state) }
    {
        self.servant.get_state(alloc)
    }

    /// The update that leads from the state at the base to the state at the position.
    pub fn delta(&self, alloc: Global) -> Result<Bytes, NoMemory>
        ensures { IfOk result (λ bytes. bytes ≡ (S.machine self.now.kind).delta self.now.copied self.now.state) }
    {
        self.servant.get_update(alloc, &self.copied)
    }

    /// Runs the request of the entry at its position.
    pub fn apply<L: Ledger>(
        &mut self,
        alloc: Global,
        request: &Request,
        steps: &mut Steps<L>,
    ) -> Result<Outcome, NoMemory>
        requires loaded { self.old.loaded ≡ true }
        requires fits { Fits (S.machine self.old.kind) request.now }
        requires room { self.old.position + 1 < 2 ^ 32 }
        ensures ran { OnOk result (self.new ≡ one_further (S.machine self.old.kind) request.now self.old) }
        ensures outcome { IfOk result (λ outcome.
            outcome ≡ ((S.machine self.old.kind).step self.old.state request.now).1) }
        ensures left { OnErr result (self.new ≡ self.old) }
        ensures counted { steps.new ≡ steps.old + 1 }
    {
        let outcome = self.servant.invoke(alloc, request, steps)?;
        self.position += 1;
        Ok(outcome)
    }

    /// Takes over a state, which is the one at this position.
    pub fn load(&mut self, alloc: Global, position: u32, state: &Bytes) -> Result<(), StateFault>
        ensures taken { OnOk result (self.new ≡ settled position state.now self.old) }
        ensures judged { JudgesState ((S.machine self.old.kind).is_state state.now) result }
        ensures left { OnErr result (self.new ≡ self.old) }
    {
        let mut servant = self.servant.copy(alloc)?;
        servant.set_state(alloc, state)?;
        let copied = servant.copy(alloc)?;
        self.servant = servant;
        self.copied = copied;
        self.loaded = true;
        self.position = position;
        self.base = position;
        Ok(())
    }

    /// Takes an update of the state at its position `from`, which leads to the position `to`.
    pub fn update(
        &mut self,
        alloc: Global,
        from: u32,
        to: u32,
        update: &Bytes,
    ) -> Result<(), UpdateFault>
        requires loaded { self.old.loaded ≡ true }
        requires here { self.old.position ≡ from }
        ensures taken { OnOk result (self.new ≡ settled to self.new.state self.old) }
        ensures applied { OnOk result ((S.machine self.old.kind).applied self.old.state update.now ≡ Some self.new.state) }
        ensures judged { JudgesUpdate ((S.machine self.old.kind).applied self.old.state update.now) result }
        ensures left { OnErr result (self.new ≡ self.old) }
    {
        prove!(self.position == from);
        let mut servant = self.servant.copy(alloc)?;
        servant.set_update(alloc, update)?;
        let copied = servant.copy(alloc)?;
        self.servant = servant;
        self.copied = copied;
        self.position = to;
        self.base = to;
        Ok(())
    }

    /// Makes its position the base.
    pub fn rebase(&mut self, alloc: Global) -> Result<(), NoMemory>
        ensures rebased { OnOk result (self.new ≡ rebased self.old) }
        ensures left { OnErr result (self.new ≡ self.old) }
    {
        let copied = self.servant.copy(alloc)?;
        self.rebase_on(copied);
        Ok(())
    }

    /// A copy of the servant, for a new base.
    pub fn copy_servant(&self, alloc: Global) -> Result<S, NoMemory>
        ensures kind { IfOk result (λ servant. S.kind servant ≡ self.now.kind) }
        ensures state { IfOk result (λ servant. S.state servant ≡ self.now.state) }
    {
        self.servant.copy(alloc)
    }

    /// Makes its position the base, with a copy that was made before. It takes no memory.
    pub fn rebase_on(&mut self, copied: S)
        requires kind { S.kind copied ≡ self.old.kind }
        requires state { S.state copied ≡ self.old.state }
        ensures { self.new ≡ rebased self.old }
    {
        self.copied = copied;
        self.base = self.position;
    }

    /// Lets go of what it has run.
    pub fn blank(&mut self)
        ensures { self.new ≡ blanked self.old }
    {
        self.loaded = false;
        self.position = 0;
        self.base = 0;
    }

    /// The servant alone.
    pub fn into_servant(self) -> S
        ensures kind { S.kind result ≡ self.kind }
        ensures state { S.state result ≡ self.state }
    {
        let Replica {
            loaded: _,
            position: _,
            base: _,
            servant,
            copied: _copied,
        } = self;
        servant
    }
}
