ghost use Rattle.std.specs.Prelude.{◌≡◌, [], length, Some, option_map, IfOk, OnOk, OnErr};
ghost use Rattle.ft_base.specs.Machine.{FitsAs};
ghost use Rattle.ft_base.specs.Servants.{JudgesUpdate};
ghost use Rattle.servant_store.specs.Laws.{owes};
ghost use Rattle.servant_store.specs.Operations.{signature_of};
ghost use Rattle.servant_store.specs.Store.{IsStore, advanced, getting, pairs_said, putting, ran, removing, since, spelled, spelled_change, store};

use crate::arguments::{key_in, pair_in};
use crate::changes::{Change, STORE_LIMIT, map_of, spell, update_between};
use crate::maps::{Map, copied, has, set, take_out, value_at};
use crate::operations::{Operation, tell_flag, tell_nothing, tell_size, tell_value};
use crate::pieces::{VALUE_LIMIT, is_key};
use ft_base::{Bytes, Coded, Name, NoMemory, Outcome, Request, Signature, UpdateFault};
use std::alloc::Global;
use std::collections::BTreeMap;
use std::marker::Model;

/// A store (`IDL:ftc/Store:1.0`). It is seen as its keys in ascending order with their values: at most
/// 256 keys of 1 to 64 bytes, and values of at most 256 bytes.
#[derive(Drop)]
pub struct Store {
    pairs: Map,
}

impl Model for Store {
    ghost use Rattle.servant_store.specs.Store.{Pairs, IsStore};
    ghost use Rattle.servant_store.specs.Views.{pairs_of};

    ghost Value = { Pairs };

    ghost view = { λ s. pairs_of s.pairs.entries };

    ghost invariant = { λ s. IsStore (pairs_of s.pairs.entries) };
}

impl Store {
    /// An empty store.
    pub fn new(alloc: Global) -> Store
        ensures { result ≡ [] }
    {
        Store {
            pairs: BTreeMap::new(alloc),
        }
    }

    /// The store whose state bytes these are.
    fn from_bytes(alloc: Global, bytes: &[u8]) -> Result<Option<Store>, NoMemory>
        ensures { IfOk result (λ store. store ≡ pairs_said bytes.now) }
    {
        match map_of(alloc, bytes)? {
            Some(pairs) => Ok(Some(Store { pairs })),
            None => Ok(None),
        }
    }

    fn put(&mut self, alloc: Global, key: &[u8], value: &[u8]) -> Result<Outcome, NoMemory>
        ensures ran { IfOk result (λ outcome. (self.new, outcome) ≡ putting self.old key.now value.now) }
        ensures left { OnErr result (self.new ≡ self.old) }
        ensures before { IsStore self.old }
        ensures after { IsStore self.new }
    {
        let known = has(&self.pairs, key);
        if !is_key(key) {
            let outcome = Outcome::user(alloc, b"BadKey")?;
            return Ok(outcome);
        }
        if value.len() > VALUE_LIMIT {
            let outcome = Outcome::user(alloc, b"BadValue")?;
            return Ok(outcome);
        }
        if !known && self.pairs.len() >= STORE_LIMIT {
            let outcome = Outcome::user(alloc, b"StoreFull")?;
            return Ok(outcome);
        }
        let outcome = tell_flag(alloc, !known)?;
        set(alloc, &mut self.pairs, key, value)?;
        Ok(outcome)
    }

    fn get(&self, alloc: Global, key: &[u8]) -> Result<Outcome, NoMemory>
        ensures ran { IfOk result (λ outcome. outcome ≡ getting self.now key.now) }
        ensures sound { IsStore self.now }
    {
        let found = value_at(&self.pairs, key);
        if !is_key(key) {
            let outcome = Outcome::user(alloc, b"BadKey")?;
            return Ok(outcome);
        }
        match found {
            Some(value) => tell_value(alloc, value.as_slice()),
            None => Outcome::user(alloc, b"NoKey"),
        }
    }

    fn remove(&mut self, alloc: Global, key: &[u8]) -> Result<Outcome, NoMemory>
        ensures ran { IfOk result (λ outcome. (self.new, outcome) ≡ removing self.old key.now) }
        ensures left { OnErr result (self.new ≡ self.old) }
        ensures before { IsStore self.old }
        ensures after { IsStore self.new }
    {
        let known = has(&self.pairs, key);
        if !is_key(key) {
            let outcome = Outcome::user(alloc, b"BadKey")?;
            return Ok(outcome);
        }
        if !known {
            let outcome = Outcome::user(alloc, b"NoKey")?;
            return Ok(outcome);
        }
        take_out(&mut self.pairs, key);
        Ok(tell_nothing(alloc))
    }

    fn size(&self) -> u32
        ensures value { result ≡ length self.now }
        ensures sound { IsStore self.now }
    {
        self.pairs.len() as u32
    }

    fn perform(
        &mut self,
        alloc: Global,
        operation: Operation,
        args: &Bytes,
    ) -> Result<Outcome, NoMemory>
        requires { FitsAs (Some (signature_of operation)) args.now }
        ensures ran { IfOk result (λ outcome. (self.new, outcome) ≡ ran (Some operation) self.old args.now) }
        ensures left { OnErr result (self.new ≡ self.old) }
        ensures before { IsStore self.old }
        ensures after { IsStore self.new }
    {
        let size = self.size();
        match operation {
            Operation::Put => {
                let (key, value) = pair_in(alloc, args)?;
                self.put(alloc, key.bytes(), value.bytes())
            }
            Operation::Get => {
                let key = key_in(alloc, args)?;
                self.get(alloc, key.bytes())
            }
            Operation::Remove => {
                let key = key_in(alloc, args)?;
                self.remove(alloc, key.bytes())
            }
            Operation::Size => tell_size(alloc, size),
        }
    }

    fn bytes(&self, alloc: Global) -> Result<Bytes, NoMemory>
        ensures spelled { IfOk result (λ bytes. bytes ≡ spelled self.now) }
        ensures sound { IsStore self.now }
    {
        spell(alloc, &self.pairs)
    }

    fn update_from(&self, alloc: Global, base: &Store) -> Result<Bytes, NoMemory>
        ensures spelled { IfOk result (λ bytes. bytes ≡ spelled_change (since base.now self.now)) }
        ensures sound { IsStore self.now }
        ensures base { IsStore base.now }
    {
        update_between(alloc, &base.pairs, &self.pairs)
    }

    /// Takes a change over.
    fn take_over(&mut self, alloc: Global, change: &Change) -> Result<(), UpdateFault>
        ensures changed { OnOk result (advanced self.old (Some change.now) ≡ Some self.new) }
        ensures judged { JudgesUpdate (option_map spelled (advanced self.old (Some change.now))) result }
        ensures left { OnErr result (self.new ≡ self.old) }
        ensures before { IsStore self.old }
    {
        match change.applied(alloc, &self.pairs) {
            Ok(Some(pairs)) => {
                self.pairs = pairs;
                Ok(())
            }
            Ok(None) => Err(UpdateFault::InvalidUpdate),
            Err(NoMemory) => Err(UpdateFault::NoMemory),
        }
    }
}

/// A put of a value, a look at it, its removal, and a look at how many keys there are. They are refused
/// with `BadKey` where the key has 0 or more than 64 bytes; then a put with `BadValue` where the value
/// has more than 256, and with `StoreFull` where the key is new beside 256; the other two with
/// `NoKey`. A refusal changes nothing. An update has the keys that are gone, and the pairs that are
/// new or changed.
impl Coded for Store {
    ghost coding = { store };

    ghost leads = { λ _ _. Unit {0} };

    #[tactic(auto, using(crate::proofs::States::good))]
    fn is_sound(&self) {
        let _count = self.pairs.len();
    }

    #[tactic(auto, unfolding(crate::specs::Store::store))]
    fn signature_of(op: &Name) -> Option<Signature> {
        match Operation::named(op) {
            Some(operation) => Some(operation.signature()),
            None => None,
        }
    }

    #[tactic(auto, unfolding(crate::specs::Store::store))]
    fn run(&mut self, alloc: Global, request: &Request) -> Result<Outcome, NoMemory> {
        match Operation::named(&request.op) {
            Some(operation) => self.perform(alloc, operation, &request.args),
            None => unreachable!(),
        }
    }

    #[tactic(auto, unfolding(crate::specs::Store::store))]
    fn spell(&self, alloc: Global) -> Result<Bytes, NoMemory> {
        self.bytes(alloc)
    }

    #[tactic(auto, using(crate::proofs::States::value_is))]
    fn read(alloc: Global, bytes: &Bytes) -> Result<Option<Store>, NoMemory> {
        Store::from_bytes(alloc, bytes.bytes())
    }

    #[tactic(auto, unfolding(crate::specs::Store::store))]
    fn spell_update(&self, alloc: Global, base: &Store) -> Result<Bytes, NoMemory> {
        self.update_from(alloc, base)
    }

    #[tactic(auto, unfolding(crate::specs::Store::store))]
    fn take_update(&mut self, alloc: Global, update: &Bytes) -> Result<(), UpdateFault> {
        match Change::from_bytes(alloc, update.bytes()) {
            Ok(Some(change)) => self.take_over(alloc, &change),
            Ok(None) => Err(UpdateFault::InvalidUpdate),
            Err(NoMemory) => Err(UpdateFault::NoMemory),
        }
    }

    fn equal(&self, alloc: Global) -> Result<Store, NoMemory> {
        let pairs = copied(alloc, &self.pairs)?;
        Ok(Store { pairs })
    }

    ghost owes = { owes };
}
