ghost use Rattle.std.specs.Prelude.{◌≡◌, ◌≤◌, ◌<◌, ◌+◌, ◌*◌, ◌^◌, ◌++◌, ℕ, length, take, drop, option_map, IfSome, IfOk, OnOk, OnErr};
ghost use Rattle.std.specs.List.{concat};
ghost use Rattle.byteorder.specs.Endian.{big_bytes, big_number};
ghost use Rattle.servant_queue.specs.Queue as words;

use byteorder::{BigEndian, ByteOrder};
use ft_base::{Bytes, NoMemory};
use std::alloc::Global;
use std::collections::VecDeque;

/// The size of an item.
pub const ITEM_SIZE: usize = 16;

/// The most items that a queue has.
pub const ITEM_LIMIT: usize = 4096;

/// The most items that are popped from a queue.
pub const POPPED_LIMIT: u64 = 0x8000_0000_0000_0000;

/// An item of 16 bytes.
pub type Item = [u8; ITEM_SIZE];

/// Appends the items from a place on.
fn append_items(text: &mut Vec<u8>, items: &VecDeque<Item>, first: usize) -> Result<(), NoMemory>
    requires { first ≤ length items.now.items }
    ensures { OnOk result (text.new.items ≡ text.old.items ++ concat (drop first items.now.items)) }
{
    for i in first..items.len() {
        text.extend_from_slice(items[i].as_slice())?;
    }
    Ok(())
}

/// The item that begins at a place.
fn item_at(bytes: &[u8], place: usize) -> Item
    requires { place + 16 ≤ length bytes.now }
    ensures { result ≡ take 16 (drop place bytes.now) }
{
    let mut item = [0; ITEM_SIZE];
    item.copy_from_slice(&bytes[place..][..ITEM_SIZE]);
    item
}

fn behind(bytes: &[u8], count: usize) -> &[u8]
    requires { count ≤ length bytes.now }
    ensures { result.now ≡ drop count bytes.now }
{
    &bytes[count..]
}

/// The items in bytes, one behind the other.
pub fn items_in(alloc: Global, bytes: &[u8], count: usize) -> Result<VecDeque<Item>, NoMemory>
    requires many { length bytes.now ≡ 16 * count }
    requires few { count ≤ 4096 }
    ensures { IfOk result (λ items. items.items ≡ words.items_in count bytes.now) }
{
    let mut items = VecDeque::with_capacity(alloc, count)?;
    for i in 0..count {
        items.push_back(item_at(bytes, ITEM_SIZE * i))?;
    }
    Ok(items)
}

/// The bytes of the number popped and of the items from a place on.
pub fn spell(
    alloc: Global,
    popped: u64,
    items: &VecDeque<Item>,
    first: usize,
) -> Result<Bytes, NoMemory>
    requires place { first ≤ length items.now.items }
    requires few { length items.now.items ≤ 4096 }
    ensures { IfOk result (λ bytes. bytes ≡ words.spelled (record { popped = popped; items = drop first items.now.items })) }
{
    let count = items.len() - first;
    let mut text = Vec::with_capacity(alloc, 10 + ITEM_SIZE * count)?;
    text.extend_from_slice(&popped.to_be_bytes())?;
    text.extend_from_slice(&(count as u16).to_be_bytes())?;
    append_items(&mut text, items, first)?;
    Ok(Bytes::from_vec(text))
}

/// The number popped and the items that bytes spell.
pub fn contents_of(alloc: Global, bytes: &[u8]) -> Result<Option<(u64, VecDeque<Item>)>, NoMemory>
    ensures said { IfOk result (λ found. option_map (λ q. record { popped = q.0; items = q.1.items }) found ≡ words.contents_in bytes.now) }
    ensures sound { IfOk result (λ found. IfSome found (λ q. words.IsContents (record { popped = q.0; items = q.1.items }))) }
{
    if bytes.len() < 10 {
        return Ok(None);
    }
    let popped = BigEndian::read_u64(bytes);
    let count = BigEndian::read_u16(behind(bytes, 8)) as usize;
    let rest = behind(bytes, 10);
    if popped > POPPED_LIMIT {
        return Ok(None);
    }
    if count > ITEM_LIMIT {
        return Ok(None);
    }
    if rest.len() != ITEM_SIZE * count {
        return Ok(None);
    }
    let items = items_in(alloc, rest, count)?;
    Ok(Some((popped, items)))
}

/// Takes away the first items, and moves others behind the last.
pub fn advance(
    items: &mut VecDeque<Item>,
    gone: usize,
    later: &mut VecDeque<Item>,
) -> Result<(), NoMemory>
    requires { gone ≤ length items.old.items }
    ensures ok { OnOk result (items.new.items ≡ drop gone items.old.items ++ later.old.items) }
    ensures left { OnErr result (items.new.items ≡ items.old.items) }
{
    items.append(later)?;
    items.rotate_left(gone);
    items.truncate(items.len() - gone);
    Ok(())
}

/// Equal items.
pub fn copied(alloc: Global, items: &VecDeque<Item>) -> Result<VecDeque<Item>, NoMemory>
    ensures { IfOk result (λ copy. copy.items ≡ items.now.items) }
{
    let mut copy = VecDeque::with_capacity(alloc, items.len())?;
    for i in 0..items.len() {
        copy.push_back(items[i])?;
    }
    Ok(copy)
}
