//! The pieces of which states and updates are made: keys and values with their lengths.
ghost use Rattle.std.specs.Prelude.{◌≡◌, ◌≤◌, ◌<◌, ◌^◌, ◌++◌, length, take, drop, slice_index, is_some, OnOk};
ghost use Rattle.std.specs.Ordering.{is_lt};
ghost use Rattle.ft_base.specs.Text.{zero_place};
ghost use Rattle.byteorder.specs.Endian.{big_number};
ghost use Rattle.servant_store.specs.Store as words;

use ft_base::{NoMemory, first_zero};
use std::cmp::Ordering;

/// The octet at a place; 0 past the end.
fn octet(bytes: &[u8], place: usize) -> u8
    ensures { result ≡ slice_index bytes.now place }
{
    if place < bytes.len() { bytes[place] } else { 0 }
}

/// The first bytes; all where there are fewer.
fn front(bytes: &[u8], count: usize) -> &[u8]
    ensures { result.now ≡ take count bytes.now }
{
    if count < bytes.len() {
        &bytes[..count]
    } else {
        bytes
    }
}

/// The bytes behind the first ones; none where there are fewer.
pub fn behind(bytes: &[u8], count: usize) -> &[u8]
    ensures { result.now ≡ drop count bytes.now }
{
    if count < bytes.len() {
        &bytes[count..]
    } else {
        &[]
    }
}

/// The number in two bytes.
pub fn number_of_2(bytes: &[u8]) -> usize
    ensures { result ≡ big_number 2 bytes.now }
{
    octet(bytes, 0) as usize * 256 + octet(bytes, 1) as usize
}

/// The number in four bytes.
pub fn number_of_4(bytes: &[u8]) -> usize
    ensures { result ≡ big_number 4 bytes.now }
{
    octet(bytes, 0) as usize * 16_777_216
        + octet(bytes, 1) as usize * 65_536
        + octet(bytes, 2) as usize * 256
        + octet(bytes, 3) as usize
}

/// The key at the front.
pub fn key_in(bytes: &[u8]) -> &[u8]
    ensures { result.now ≡ words.key_in bytes.now }
{
    front(behind(bytes, 1), octet(bytes, 0) as usize)
}

/// What is behind the key at the front.
pub fn behind_key(bytes: &[u8]) -> &[u8]
    ensures { result.now ≡ words.behind_key bytes.now }
{
    behind(behind(bytes, 1), octet(bytes, 0) as usize)
}

/// The value at the front.
pub fn value_in(bytes: &[u8]) -> &[u8]
    ensures { result.now ≡ words.value_in bytes.now }
{
    front(behind(bytes, 2), number_of_2(bytes))
}

/// What is behind the value at the front.
pub fn behind_value(bytes: &[u8]) -> &[u8]
    ensures { result.now ≡ words.behind_value bytes.now }
{
    behind(behind(bytes, 2), number_of_2(bytes))
}

/// Appends a key.
pub fn append_key(text: &mut Vec<u8>, key: &[u8]) -> Result<(), NoMemory>
    requires { length key.now ≤ 64 }
    ensures { OnOk result (text.new.items ≡ text.old.items ++ words.spelled_key key.now) }
{
    text.push(key.len() as u8)?;
    text.extend_from_slice(key)?;
    Ok(())
}

/// Appends a key and its value.
pub fn append_pair(text: &mut Vec<u8>, key: &[u8], value: &[u8]) -> Result<(), NoMemory>
    requires key { length key.now ≤ 64 }
    requires value { length value.now ≤ 256 }
    ensures { OnOk result (text.new.items ≡ text.old.items ++ words.spelled_pair (key.now, value.now)) }
{
    append_key(text, key)?;
    text.extend_from_slice(&(value.len() as u16).to_be_bytes())?;
    text.extend_from_slice(value)?;
    Ok(())
}

/// Whether these bytes are a key.
pub fn is_key(key: &[u8]) -> bool
    ensures { result ≡ words.is_key key.now }
{
    !key.is_empty() && key.len() <= KEY_LIMIT && !has_zero(key)
}

/// The longest key.
pub const KEY_LIMIT: usize = 64;

/// The longest value.
pub const VALUE_LIMIT: usize = 256;

fn has_zero(text: &[u8]) -> bool
    ensures { result ≡ is_some (zero_place text.now) }
{
    match first_zero(text) {
        Some(_) => true,
        None => false,
    }
}

/// Whether these are a key and a value.
pub fn is_pair(key: &[u8], value: &[u8]) -> bool
    ensures { result ≡ words.is_pair (key.now, value.now) }
{
    is_key(key) && value.len() <= VALUE_LIMIT
}

/// Whether a key comes before another.
pub fn comes_before(key: &[u8], other: &[u8]) -> bool
    ensures { result ≡ is_lt (words.order key.now other.now) }
{
    match Ord::cmp(&key, &other) {
        Ordering::Less => true,
        _ => false,
    }
}
