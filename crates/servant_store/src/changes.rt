//! States and updates as bytes.
ghost use Rattle.std.specs.Prelude.{◌≡◌, ◌<◌, ◌&&◌, Some, not, is_some, length, option_map, true, IfOk, IfSome};
ghost use Rattle.std.specs.FinMap.{find};
ghost use Rattle.std.specs.List.{list_all};
ghost use Rattle.std.specs.Str.{bytes_eq};
ghost use Rattle.servant_store.specs.Store as words;
ghost use Rattle.servant_store.specs.Views.{pairs_of, keys_of};

use crate::maps::{
    Map, all_keys, all_of, all_pairs, append_keys, append_pairs, copied, gone_between, keys_in,
    map_in, none_of, rises, set_all, set_between, take_all_out,
};
use crate::pieces::{behind, number_of_2, number_of_4};
use ft_base::{Bytes, NoMemory};
use std::alloc::Global;
use std::marker::Model;

/// The most keys that a store has.
pub const STORE_LIMIT: usize = 256;

/// What an update says: the keys that are gone, and the pairs that are new or changed.
#[derive(Drop)]
pub struct Change {
    gone: Vec<Vec<u8>>,
    set: Map,
}

impl Model for Change {
    ghost use Rattle.servant_store.specs.Store as words;
    ghost use Rattle.servant_store.specs.Views.{pairs_of, keys_of};

    ghost Value = { words.Change };

    ghost view = { λ c. record { gone = keys_of c.gone.items; set = pairs_of c.set.entries } };

    ghost invariant = { λ c. words.IsChange (record { gone = keys_of c.gone.items; set = pairs_of c.set.entries }) };
}

fn is_same(bytes: &[u8], other: &[u8]) -> bool
    ensures { result ≡ bytes_eq bytes.now other.now }
{
    bytes == other
}

/// The bytes of a state.
#[tactic(auto, using(crate::proofs::MapLaws::length_pairs))]
pub fn spell(alloc: Global, map: &Map) -> Result<Bytes, NoMemory>
    requires few { length map.now.entries < 65536 }
    requires sound { list_all words.is_pair (pairs_of map.now.entries) ≡ true }
    ensures { IfOk result (λ bytes. bytes ≡ words.spelled (pairs_of map.now.entries)) }
{
    let mut text = Vec::new(alloc);
    text.extend_from_slice(&(map.len() as u32).to_be_bytes())?;
    append_pairs(&mut text, map)?;
    Ok(Bytes::from_vec(text))
}

/// The bytes of an update.
#[tactic(auto, using(crate::proofs::MapLaws::length_pairs, crate::proofs::MapLaws::length_keys))]
pub fn spell_change(alloc: Global, gone: &[Vec<u8>], set: &Map) -> Result<Bytes, NoMemory>
    requires keys { list_all words.is_key (keys_of gone.now) ≡ true }
    requires few { length gone.now < 65536 }
    requires few_set { length set.now.entries < 65536 }
    requires sound { list_all words.is_pair (pairs_of set.now.entries) ≡ true }
    ensures { IfOk result (λ bytes. bytes ≡ words.spelled_change (record { gone = keys_of gone.now; set = pairs_of set.now.entries })) }
{
    let mut text = Vec::new(alloc);
    text.extend_from_slice(&(gone.len() as u16).to_be_bytes())?;
    append_keys(&mut text, gone)?;
    text.extend_from_slice(&(set.len() as u16).to_be_bytes())?;
    append_pairs(&mut text, set)?;
    Ok(Bytes::from_vec(text))
}

/// The pairs that bytes spell: those that are read from them, if they are spelled so.
pub fn map_of(alloc: Global, bytes: &[u8]) -> Result<Option<Map>, NoMemory>
    ensures said { IfOk result (λ found. option_map (λ map. pairs_of map.entries) found ≡ words.pairs_said bytes.now) }
    ensures sound { IfOk result (λ found. IfSome found (λ map. words.IsStore (pairs_of map.entries))) }
{
    let count = number_of_4(bytes);
    if count > STORE_LIMIT {
        return Ok(None);
    }
    let (map, _) = map_in(alloc, behind(bytes, 4), count)?;
    if map.len() != count {
        return Ok(None);
    }
    if !all_pairs(&map) {
        return Ok(None);
    }
    let again = spell(alloc, &map)?;
    if !is_same(again.bytes(), bytes) {
        return Ok(None);
    }
    Ok(Some(map))
}

/// The keys and pairs that an update's bytes hold, if they are in form.
fn parts_of(alloc: Global, bytes: &[u8]) -> Result<Option<(Vec<Vec<u8>>, Map)>, NoMemory>
    ensures said { IfOk result (λ found. option_map (λ p. record { gone = keys_of p.0.items; set = pairs_of p.1.entries }) found ≡ words.change_said bytes.now) }
    ensures sound { IfOk result (λ found. IfSome found (λ p. words.IsChange (record { gone = keys_of p.0.items; set = pairs_of p.1.entries }))) }
{
    let count = number_of_2(bytes);
    if count > STORE_LIMIT {
        return Ok(None);
    }
    let (gone, rest) = keys_in(alloc, behind(bytes, 2), count)?;
    let pairs = number_of_2(rest);
    if pairs > STORE_LIMIT {
        return Ok(None);
    }
    let (set, _) = map_in(alloc, behind(rest, 2), pairs)?;
    if set.len() != pairs {
        return Ok(None);
    }
    if !is_in_form(gone.as_slice(), &set) {
        return Ok(None);
    }
    let again = spell_change(alloc, gone.as_slice(), &set)?;
    if !is_same(again.bytes(), bytes) {
        return Ok(None);
    }
    Ok(Some((gone, set)))
}

/// Whether keys that are gone, and pairs, are those of an update.
fn is_in_form(gone: &[Vec<u8>], set: &Map) -> bool
    ensures { result ≡ ((words.rises (keys_of gone.now) && list_all words.is_key (keys_of gone.now)) && list_all words.is_pair (pairs_of set.now.entries)) && list_all (λ key. not (is_some (find words.order key (pairs_of set.now.entries)))) (keys_of gone.now) }
{
    rises(gone) && all_keys(gone) && all_pairs(set) && none_of(set, gone)
}

impl Change {
    /// The change that an update's bytes spell.
    pub fn from_bytes(alloc: Global, bytes: &[u8]) -> Result<Option<Change>, NoMemory>
        ensures { IfOk result (λ change. change ≡ words.change_said bytes.now) }
    {
        match parts_of(alloc, bytes)? {
            Some((gone, set)) => Ok(Some(Change { gone, set })),
            None => Ok(None),
        }
    }

    /// The pairs after the change: none where a key that is gone isn't there, and where there would be
    /// too many.
    pub fn applied(&self, alloc: Global, base: &Map) -> Result<Option<Map>, NoMemory>
        requires { words.IsStore (pairs_of base.now.entries) }
        ensures said { IfOk result (λ found. option_map (λ map. pairs_of map.entries) found ≡ words.advanced (pairs_of base.now.entries) (Some self.now)) }
        ensures sound { IfOk result (λ found. IfSome found (λ map. words.IsStore (pairs_of map.entries))) }
    {
        applied(alloc, base, self.gone.as_slice(), &self.set)
    }
}

fn applied(alloc: Global, base: &Map, gone: &[Vec<u8>], set: &Map) -> Result<Option<Map>, NoMemory>
    requires base { words.IsStore (pairs_of base.now.entries) }
    requires change { words.IsChange (record { gone = keys_of gone.now; set = pairs_of set.now.entries }) }
    ensures said { IfOk result (λ found. option_map (λ map. pairs_of map.entries) found
        ≡ words.advanced (pairs_of base.now.entries) (Some (record { gone = keys_of gone.now; set = pairs_of set.now.entries }))) }
    ensures sound { IfOk result (λ found. IfSome found (λ map. words.IsStore (pairs_of map.entries))) }
{
    if !all_of(base, gone) {
        return Ok(None);
    }
    let mut map = copied(alloc, base)?;
    take_all_out(&mut map, gone);
    set_all(alloc, &mut map, set)?;
    if map.len() > STORE_LIMIT {
        return Ok(None);
    }
    Ok(Some(map))
}

/// The bytes of the update from a map to a later one.
pub fn update_between(alloc: Global, base: &Map, later: &Map) -> Result<Bytes, NoMemory>
    requires base { words.IsStore (pairs_of base.now.entries) }
    requires later { words.IsStore (pairs_of later.now.entries) }
    ensures { IfOk result (λ bytes. bytes ≡ words.spelled_change (words.since (pairs_of base.now.entries) (pairs_of later.now.entries))) }
{
    let gone = gone_between(alloc, base, later)?;
    let set = set_between(alloc, base, later)?;
    let bytes = spell_change(alloc, gone.as_slice(), &set)?;
    Ok(bytes)
}
