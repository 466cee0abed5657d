ghost use Rattle.std.specs.Prelude.{◌≡◌, true, Some, option_map, IfOk, OnOk, OnErr};
ghost use Rattle.ft_base.specs.Coding.{Coding, IsCoding, machine_of, state_of, value_in};
ghost use Rattle.ft_base.specs.CodingLaws as codings;
ghost use Rattle.ft_base.specs.Machine.{FitsAs};
ghost use Rattle.ft_base.specs.Servants.{JudgesUpdate};

use crate::counter::Steps;
use crate::memory::NoMemory;
use crate::requests::{Outcome, Request, Signature};
use crate::servants::{Servant, StateFault, UpdateFault};
use crate::text::{Bytes, Name};
use std::alloc::Global;
use std::marker::Model;
use std::sync::ledger::Ledger;

/// A servant of one kind, seen as a value: the bytes of its state are the value's spelling, and
/// requests and updates are functions of values. A [`ValueServant`] is the servant with such a value.
pub trait Coded: Sized {
    ghost coding: { Coding Self };

    ghost leads: { Self → Self → Type 0 };

    /// Does nothing. Its contract says that the value is one that a servant may have.
    fn is_sound(&self)
        ensures { coding.valid self.now ≡ true };

    /// The parameters and the result of an operation; none where there is no such operation.
    fn signature_of(op: &Name) -> Option<Signature>
        ensures { result ≡ coding.signature op.now };

    /// Runs a request.
    fn run(&mut self, alloc: Global, request: &Request) -> Result<Outcome, NoMemory>
        requires { FitsAs (coding.signature request.now.op) request.now.args }
        ensures ran { IfOk result (λ outcome. coding.step self.old request.now ≡ (self.new, outcome)) }
        ensures left { OnErr result (self.new ≡ self.old) };

    /// The value's spelling.
    fn spell(&self, alloc: Global) -> Result<Bytes, NoMemory>
        ensures { IfOk result (λ bytes. bytes ≡ coding.spelled self.now) };

    /// The value whose spelling the bytes are, where they are one.
    fn read(alloc: Global, bytes: &Bytes) -> Result<Option<Self>, NoMemory>
        ensures { IfOk result (λ value. value ≡ value_in coding bytes.now) };

    /// The update that leads from the value of `base` to this one.
    fn spell_update(&self, alloc: Global, base: &Self) -> Result<Bytes, NoMemory>
        ensures { IfOk result (λ update. update ≡ coding.delta base.now self.now) };

    /// Takes an update, as `spell_update` gives it.
    fn take_update(&mut self, alloc: Global, update: &Bytes) -> Result<(), UpdateFault>
        ensures set { OnOk result (coding.applied self.old update.now ≡ Some self.new) }
        ensures judged { JudgesUpdate (option_map coding.spelled (coding.applied self.old update.now)) result }
        ensures left { OnErr result (self.new ≡ self.old) };

    /// An equal value.
    fn equal(&self, alloc: Global) -> Result<Self, NoMemory>
        ensures { IfOk result (λ value. value ≡ self.now) };

    ghost owes: { IsCoding coding leads };
}

/// A servant whose state is the spelling of its value. Contracts see it as the value.
#[derive(Drop)]
pub struct ValueServant<V> {
    value: V,
}

impl<V> Model for ValueServant<V> {
    ghost Value = { V };

    ghost view = { λ s. s.value };
}

impl<V: Coded + Drop> ValueServant<V> {
    /// A servant with this value.
    pub fn new(value: V) -> ValueServant<V>
        ensures { result ≡ value }
    {
        ValueServant { value }
    }
}

impl<V: Coded + Drop> Servant for ValueServant<V> {
    ghost machine = { λ _. machine_of V.coding };

    ghost kind = { λ _. 0 };

    ghost state = { state_of V.coding };

    fn signature(&self, op: &Name) -> Option<Signature> {
        V::signature_of(op)
    }

    fn invoke<L: Ledger>(
        &mut self,
        alloc: Global,
        request: &Request,
        steps: &mut Steps<L>,
    ) -> Result<Outcome, NoMemory> {
        steps.tick();
        self.value.is_sound();
        let outcome = self.value.run(alloc, request)?;
        self.value.is_sound();
        Ok(outcome)
    }

    fn get_state(&self, alloc: Global) -> Result<Bytes, NoMemory> {
        self.value.is_sound();
        let bytes = self.value.spell(alloc)?;
        Ok(bytes)
    }

    fn set_state(&mut self, alloc: Global, bytes: &Bytes) -> Result<(), StateFault> {
        match V::read(alloc, bytes) {
            Ok(Some(value)) => {
                self.value = value;
                Ok(())
            }
            Ok(None) => Err(StateFault::InvalidState),
            Err(NoMemory) => Err(StateFault::NoMemory),
        }
    }

    fn get_update(&self, alloc: Global, base: &ValueServant<V>) -> Result<Bytes, NoMemory> {
        self.value.is_sound();
        base.value.is_sound();
        let update = self.value.spell_update(alloc, &base.value)?;
        Ok(update)
    }

    fn set_update(&mut self, alloc: Global, update: &Bytes) -> Result<(), UpdateFault> {
        self.value.is_sound();
        if let Err(fault) = self.value.take_update(alloc, update) {
            return Err(fault);
        }
        Ok(())
    }

    fn copy(&self, alloc: Global) -> Result<ValueServant<V>, NoMemory> {
        let value = self.value.equal(alloc)?;
        Ok(ValueServant { value })
    }

    ghost has_state = { codings.has_state V.owes };

    ghost stays = { λ k. codings.stays V.owes };

    ghost gives = { λ k. codings.gives V.owes };

    ghost sized = { λ k. codings.sized V.owes };

    ghost update_sized = { λ k. codings.update_sized V.owes };

    ghost update_stays = { λ k. codings.update_stays V.owes };

    ghost updates = { λ k. codings.updates V.owes };
}
