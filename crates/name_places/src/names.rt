ghost use Rattle.std.specs.Prelude.{◌≡◌, ◌<◌, ◌∷◌, ◌++◌, [], ℕ, List, Some, None, length, IfOk, OnErr, OnOk};
ghost use Rattle.indexmap.specs.IndexMap.{spare};
ghost use Rattle.name_places.specs.Places.{AreFiled, ArePlaces, IsReadyFor, filed, first_place, ready_for};

use ft_base::{Name, NoMemory};
use indexmap::IndexMap;
use std::alloc::Global;
use std::marker::Model;

type Rows = IndexMap<Vec<u8>, usize>;

/// At which place of a list each name stands first, for those who keep such a list. Contracts see it by
/// one relation, that its places are those of a list.
#[derive(Drop)]
pub struct NamePlaces {
    rows: Rows,
    /// The next name, in memory of its own.
    next: Option<Vec<u8>>,
}

impl Model for NamePlaces {
    ghost use Rattle.name_places.specs.Places.{Places, filed, text_of};
    ghost use Rattle.name_places.specs.Rooms.{HasRoom};
    ghost use Rattle.indexmap.specs.IndexMap.{spare};

    ghost Value = { Places };

    ghost view = { λ p. record { rows = filed p.rows.entries; next = text_of p.next } };

    ghost invariant = { λ p. HasRoom p.next (spare p.rows) };
}

// The place that is filed by a name.
fn place_of(rows: &Rows, name: &[u8]) -> Option<usize>
    ensures { (names : List (List ℕ)) → AreFiled (filed rows.now.entries) names → result ≡ first_place name.now names }
{
    rows.get(name).copied()
}

// Files a name that stands behind all others, unless it is filed already.
fn file(rows: &mut Rows, name: Vec<u8>, place: usize)
    requires { 0 < spare rows.old }
    ensures { (names : List (List ℕ)) → AreFiled (filed rows.old.entries) names → place ≡ length names →
        AreFiled (filed rows.new.entries) (names ++ name.items ∷ []) }
{
    if rows.get(name.as_slice()).is_none() {
        rows.insert(name, place).unwrap();
    }
}

// A name's text, in memory of its own.
fn text_of(alloc: Global, name: &Name) -> Result<Vec<u8>, NoMemory>
    ensures { IfOk result (λ text. text.items ≡ name.now) }
{
    let mut text = Vec::new(alloc);
    text.extend_from_slice(name.bytes())?;
    Ok(text)
}

impl NamePlaces {
    /// The places of an empty list. It takes no memory.
    pub fn new(alloc: Global) -> NamePlaces
        ensures { ArePlaces result [] }
    {
        NamePlaces {
            rows: IndexMap::new(alloc),
            next: None,
        }
    }

    /// The first place of a name, if it stands in the list. It takes no memory.
    pub fn place(&self, name: &Name) -> Option<usize>
        ensures { (names : List (List ℕ)) → ArePlaces self.now names → result ≡ first_place name.now names }
    {
        place_of(&self.rows, name.bytes())
    }

    /// Makes room for one more name. Only this may want memory, so whoever changes other things too can ask for it
    /// before any of them.
    pub fn reserve(&mut self, alloc: Global, name: &Name) -> Result<(), NoMemory>
        ensures ready { OnOk result (self.new ≡ ready_for self.old name.now) }
        ensures left { OnErr result (self.new ≡ self.old) }
    {
        self.rows.reserve(1)?;
        let next = text_of(alloc, name)?;
        self.next = Some(next);
        Ok(())
    }

    /// The name that there is room for stands at this place, behind all others. Where it stands already, its
    /// first place stays. It takes no memory.
    pub fn add_reserved(&mut self, place: usize)
        requires { (name : List ℕ) × IsReadyFor self.old name }
        ensures { (name : List ℕ) (names : List (List ℕ)) → IsReadyFor self.old name → ArePlaces self.old names → place ≡ length names →
            ArePlaces self.new (names ++ name ∷ []) }
    {
        let Some(name) = self.next.take() else {
            unreachable!()
        };
        file(&mut self.rows, name, place);
    }
}
