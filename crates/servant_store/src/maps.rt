//! Maps from keys to values, as lists of pairs in the keys' order.
ghost use Rattle.std.specs.Prelude.{◌≡◌, ◌≤◌, ◌<◌, ◌++◌, [], length, map, IfOk, OnOk, OnErr, option_map, is_some, not, true};
ghost use Rattle.std.specs.FinMap.{find, put, is_sorted};
ghost use Rattle.std.specs.List.{flat_map, list_all};
ghost use Rattle.servant_store.specs.Store as words;
ghost use Rattle.servant_store.specs.Views.{pairs_of, keys_of, put_all, out_all};

use crate::pieces::{
    append_key, append_pair, behind_key, behind_value, comes_before, is_key, is_pair, key_in,
    value_in,
};
use ft_base::NoMemory;
use std::alloc::Global;
use std::collections::BTreeMap;

/// Values by their keys.
pub type Map = BTreeMap<Vec<u8>, Vec<u8>>;

/// A key's value.
pub fn value_at<'a>(map: &'a Map, key: &[u8]) -> Option<&'a Vec<u8>>
    ensures { option_map (λ value. value.now.items) result ≡ find words.order key.now (pairs_of map.now.entries) }
{
    map.get(key)
}

/// Whether a key has a value.
pub fn has(map: &Map, key: &[u8]) -> bool
    ensures { result ≡ is_some (find words.order key.now (pairs_of map.now.entries)) }
{
    map.contains_key(key)
}

/// Gives a key a value.
pub fn set(alloc: Global, map: &mut Map, key: &[u8], value: &[u8]) -> Result<(), NoMemory>
    ensures set { OnOk result (pairs_of map.new.entries ≡ put words.order key.now value.now (pairs_of map.old.entries)) }
    ensures left { OnErr result (pairs_of map.new.entries ≡ pairs_of map.old.entries) }
{
    let key = Vec::from_slice(alloc, key)?;
    let value = Vec::from_slice(alloc, value)?;
    map.insert(key, value)?;
    Ok(())
}

/// Takes a key out, with its value.
pub fn take_out(map: &mut Map, key: &[u8])
    requires { is_sorted words.order (pairs_of map.old.entries) ≡ true }
    ensures out { pairs_of map.new.entries ≡ words.without_key key.now (pairs_of map.old.entries) }
    ensures sorted { is_sorted words.order (pairs_of map.new.entries) ≡ true }
{
    let _ = map.remove(key);
}

/// The pairs in bytes, one behind the other, each given to a map in turn; and the bytes behind them.
pub fn map_in(alloc: Global, bytes: &[u8], count: usize) -> Result<(Map, &[u8]), NoMemory>
    ensures map { IfOk result (λ found. pairs_of found.0.entries ≡ put_all (words.pairs_in count bytes.now).0 []) }
    ensures rest { IfOk result (λ found. found.1.now ≡ (words.pairs_in count bytes.now).1) }
{
    let mut map = BTreeMap::new(alloc);
    let mut rest = bytes;
    for _ in 0..count {
        let behind = behind_key(rest);
        set(alloc, &mut map, key_in(rest), value_in(behind))?;
        rest = behind_value(behind);
    }
    Ok((map, rest))
}

/// The keys in bytes, one behind the other, and the bytes behind them.
pub fn keys_in(alloc: Global, bytes: &[u8], count: usize) -> Result<(Vec<Vec<u8>>, &[u8]), NoMemory>
    ensures keys { IfOk result (λ found. keys_of found.0.items ≡ (words.keys_in count bytes.now).0) }
    ensures rest { IfOk result (λ found. found.1.now ≡ (words.keys_in count bytes.now).1) }
{
    let mut keys = Vec::new(alloc);
    let mut rest = bytes;
    for _ in 0..count {
        let key = Vec::from_slice(alloc, key_in(rest))?;
        keys.push(key)?;
        rest = behind_key(rest);
    }
    Ok((keys, rest))
}

/// Whether each is a key and a value.
pub fn all_pairs(map: &Map) -> bool
    ensures { result ≡ list_all words.is_pair (pairs_of map.now.entries) }
{
    for (key, value) in map {
        if !is_pair(key.as_slice(), value.as_slice()) {
            return false;
        }
    }
    true
}

/// Whether each is a key.
pub fn all_keys(keys: &[Vec<u8>]) -> bool
    ensures { result ≡ list_all words.is_key (keys_of keys.now) }
{
    for key in keys {
        if !is_key(key.as_slice()) {
            return false;
        }
    }
    true
}

/// Whether keys are in ascending order.
pub fn rises(keys: &[Vec<u8>]) -> bool
    ensures { result ≡ words.rises (keys_of keys.now) }
{
    for i in 1..keys.len() {
        if !comes_before(keys[i - 1].as_slice(), keys[i].as_slice()) {
            return false;
        }
    }
    true
}

/// Whether none of these keys has a value.
pub fn none_of(map: &Map, keys: &[Vec<u8>]) -> bool
    ensures { result ≡ list_all (λ key. not (is_some (find words.order key (pairs_of map.now.entries)))) (keys_of keys.now) }
{
    for key in keys {
        if has(map, key.as_slice()) {
            return false;
        }
    }
    true
}

/// Whether each of these keys has a value.
pub fn all_of(map: &Map, keys: &[Vec<u8>]) -> bool
    ensures { result ≡ list_all (λ key. is_some (find words.order key (pairs_of map.now.entries))) (keys_of keys.now) }
{
    for key in keys {
        if !has(map, key.as_slice()) {
            return false;
        }
    }
    true
}

/// Appends all pairs.
pub fn append_pairs(text: &mut Vec<u8>, map: &Map) -> Result<(), NoMemory>
    requires { list_all words.is_pair (pairs_of map.now.entries) ≡ true }
    ensures { OnOk result (text.new.items ≡ text.old.items ++ flat_map words.spelled_pair (pairs_of map.now.entries)) }
{
    for (key, value) in map {
        append_pair(text, key.as_slice(), value.as_slice())?;
    }
    Ok(())
}

/// Appends all keys.
pub fn append_keys(text: &mut Vec<u8>, keys: &[Vec<u8>]) -> Result<(), NoMemory>
    requires { list_all words.is_key (keys_of keys.now) ≡ true }
    ensures { OnOk result (text.new.items ≡ text.old.items ++ flat_map words.spelled_key (keys_of keys.now)) }
{
    for key in keys {
        append_key(text, key.as_slice())?;
    }
    Ok(())
}

/// An equal map.
pub fn copied(alloc: Global, map: &Map) -> Result<Map, NoMemory>
    ensures { IfOk result (λ copy. pairs_of copy.entries ≡ put_all (pairs_of map.now.entries) []) }
{
    let mut copy = BTreeMap::new(alloc);
    for (key, value) in map {
        set(alloc, &mut copy, key.as_slice(), value.as_slice())?;
    }
    Ok(copy)
}

/// Gives keys the values that they have in another map.
pub fn set_all(alloc: Global, map: &mut Map, more: &Map) -> Result<(), NoMemory>
    ensures { OnOk result (pairs_of map.new.entries ≡ put_all (pairs_of more.now.entries) (pairs_of map.old.entries)) }
{
    for (key, value) in more {
        set(alloc, map, key.as_slice(), value.as_slice())?;
    }
    Ok(())
}

/// Takes keys out.
pub fn take_all_out(map: &mut Map, keys: &[Vec<u8>])
    requires { is_sorted words.order (pairs_of map.old.entries) ≡ true }
    ensures { pairs_of map.new.entries ≡ out_all (keys_of keys.now) (pairs_of map.old.entries) }
{
    for key in keys {
        take_out(map, key.as_slice());
    }
}

/// The keys of a map that another one hasn't.
pub fn gone_between(alloc: Global, base: &Map, later: &Map) -> Result<Vec<Vec<u8>>, NoMemory>
    ensures { IfOk result (λ keys. keys_of keys.items ≡ (words.since (pairs_of base.now.entries) (pairs_of later.now.entries)).gone) }
{
    let mut keys = Vec::new(alloc);
    for (key, _) in base {
        if !has(later, key.as_slice()) {
            let key = Vec::from_slice(alloc, key.as_slice())?;
            keys.push(key)?;
        }
    }
    Ok(keys)
}

fn differs(base: &Map, key: &[u8], value: &[u8]) -> bool
    ensures { result ≡ not (words.is_same value.now (find words.order key.now (pairs_of base.now.entries))) }
{
    match value_at(base, key) {
        Some(old) => old.as_slice() != value,
        None => true,
    }
}

/// The pairs of a map that another one, before, hadn't.
pub fn set_between(alloc: Global, base: &Map, later: &Map) -> Result<Map, NoMemory>
    ensures { IfOk result (λ map. pairs_of map.entries ≡ put_all (words.since (pairs_of base.now.entries) (pairs_of later.now.entries)).set []) }
{
    let mut map = BTreeMap::new(alloc);
    for (key, value) in later {
        if differs(base, key.as_slice(), value.as_slice()) {
            set(alloc, &mut map, key.as_slice(), value.as_slice())?;
        }
    }
    Ok(map)
}
