//! Subscriptions by the names of their subscribers.
ghost use Rattle.std.specs.Prelude.{◌≡◌, ◌<◌, ◌++◌, ◌∷◌, [], ℕ, List, length, Some, None, IfSome, OnOk, OnErr};
ghost use Rattle.std.specs.List.{list_any, position};
ghost use Rattle.std.specs.Str.{bytes_eq};
ghost use Rattle.name_places.specs.Places.{first_place};
ghost use Rattle.script_subscribers.specs.Filing.{IsReadyFor, empty_file, names_of, ready_for};
ghost use Rattle.script_subscribers.specs.Firsts.{has, first_sub, change_first, without_sub};

use fault_notifier::Sub;
use ft_base::{Name, NoMemory};
use name_places::NamePlaces;
use std::alloc::Global;
use std::marker::Model;

/// Somebody who subscribed, with the subscription until it ends.
#[derive(Drop)]
pub(crate) struct Named {
    pub(crate) name: Name,
    pub(crate) sub: Option<Sub>,
}

impl Named {
    /// Whether it listens, and has this name.
    fn is_by(&self, name: &Name) -> bool
        ensures { result ≡ has name.now self.now }
    {
        self.sub.is_some() && self.name.is(name)
    }
}

fn place_among(named: &[Named], name: &Name) -> Option<usize>
    ensures place { result ≡ position (has name.now) named.now }
    ensures within { IfSome result (λ place. place < length named.now) }
{
    named.iter().position(|one| one.is_by(name))
}

/// All who ever subscribed, in order, with a map of their names: each line that names one looks it up.
#[derive(Drop)]
pub(crate) struct NameFile {
    alloc: Global,
    items: Vec<Named>,
    places: NamePlaces,
    /// The name that there is room for.
    next: Option<Name>,
}

impl Model for NameFile {
    ghost use Rattle.std.specs.Prelude.{vec_len, vec_capacity};
    ghost use Rattle.name_places.specs.Places.{ArePlaces};
    ghost use Rattle.script_subscribers.specs.Filing.{Filed, HasRoom, names_of};

    ghost Value = { Filed };

    ghost view = { λ f. record { all = f.items.items; next = f.next } };

    ghost invariant = { λ f. ArePlaces f.places (names_of f.items.items) × HasRoom f.next f.places (vec_len f.items) (vec_capacity f.items) };
}

impl NameFile {
    pub(crate) fn new(alloc: Global) -> NameFile
        ensures { result ≡ empty_file }
    {
        NameFile {
            alloc,
            items: Vec::new(alloc),
            places: NamePlaces::new(alloc),
            next: None,
        }
    }

    /// The first place of a name, if somebody has it.
    fn first_place(&self, name: &Name) -> Option<usize>
        ensures place { result ≡ first_place name.now (names_of self.now.all) }
        ensures within { IfSome result (λ place. place < length self.now.all) }
    {
        self.places.place(name)
    }

    /// Whether somebody has this name.
    pub(crate) fn has(&self, name: &Name) -> bool
        ensures { result ≡ list_any (λ z. bytes_eq z.name name.now) self.now.all }
    {
        self.first_place(name).is_some()
    }

    /// The place of the first who listens by this name. In a script no name is free again, so that it is the name's first
    /// place.
    fn place_of(&self, name: &Name) -> Option<usize>
        ensures place { result ≡ position (has name.now) self.now.all }
        ensures within { IfSome result (λ place. place < length self.now.all) }
    {
        let first = self.first_place(name)?;
        if self.items[first].is_by(name) {
            Some(first)
        } else {
            place_among(self.items.as_slice(), name)
        }
    }

    /// The subscription of the first who listens by this name.
    pub(crate) fn sub_of(&self, name: &Name) -> Option<Sub>
        ensures { result ≡ first_sub name.now self.now.all }
    {
        let place = self.place_of(name)?;
        self.items[place].sub
    }

    /// The first who listens by this name listens no more.
    pub(crate) fn leave(&mut self, name: &Name)
        ensures { self.new.all ≡ change_first without_sub name.now self.old.all }
    {
        if let Some(place) = self.place_of(name) {
            self.items[place].sub = None;
        }
    }

    /// Makes room for one more, of this name. Only this may want memory.
    pub(crate) fn reserve(&mut self, name: Name) -> Result<(), NoMemory>
        ensures ready { OnOk result (self.new ≡ ready_for self.old name) }
        ensures left { OnErr result (self.new ≡ self.old) }
    {
        self.items.reserve(1)?;
        self.places.reserve(self.alloc, &name)?;
        self.next = Some(name);
        Ok(())
    }

    /// The one that there is room for, behind all others, listens by this subscription.
    pub(crate) fn add_reserved(&mut self, sub: Sub)
        requires { (name : List ℕ) × IsReadyFor self.old name }
        ensures { (name : List ℕ) → IsReadyFor self.old name → self.new.all ≡ self.old.all ++ record { name = name; sub = Some sub } ∷ [] }
    {
        let Some(name) = self.next.take() else {
            unreachable!()
        };
        let sub = Some(sub);
        self.places.add_reserved(self.items.len());
        self.items.push(Named { name, sub }).unwrap();
    }
}
