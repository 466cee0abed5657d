//! The map that the entries stand in.
ghost use Rattle.std.specs.Prelude.{◌≡◌, ◌<◌, ◌≤◌, ℕ, None, not, slice_get, option_copied, option_map, MatchOption, Some, IfSome, vec_len, vec_capacity};
ghost use Rattle.std.specs.Map.{values_of};
ghost use Rattle.std.specs.List.{filter};
ghost use Rattle.indexmap.specs.IndexMap.{spare, index_map_len};
ghost use Rattle.ft_base.specs.Journal.{is_call, is_unexpired};
ghost use Rattle.reply_table.specs.Entries.{holder, without, unexpired, entry_at, joined, with_reply, AreInOrder, IsAfter};
ghost use Rattle.reply_table.specs.Ids.{AreFiled, IsFiledBy, IsAnsweredAt};

use crate::entries::{Retained, answer_entry, is_unexpired};
use crate::ids::{ID_LIMIT, put_id};
use arrayvec::ArrayVec;
use ft_base::{Key, Outcome, Tick};
use indexmap::IndexMap;

pub(crate) type Rows = IndexMap<Vec<u8>, Retained>;

/// The entry that holds a key's retention id.
pub(crate) fn holder<'a>(rows: &'a Rows, key: &Key, now: Tick) -> Option<&'a Retained>
    requires { AreFiled rows.now.entries }
    ensures { option_copied result ≡ holder (values_of rows.now.entries) key.now now.0 }
{
    // The length is what says that the ids in the map differ.
    let _count = rows.len();
    let mut id = ArrayVec::new();
    put_id(key, &mut id);
    match rows.get(id.as_slice()) {
        Some(entry) if is_unexpired(now, &entry.request.key) => Some(entry),
        _ => None,
    }
}

/// The index of the entry at a position.
pub(crate) fn index_at(rows: &Rows, position: u32) -> Option<usize>
    requires { AreInOrder (values_of rows.now.entries) }
    ensures within { IfSome result (λ i. i < index_map_len rows.now) }
    ensures entry { MatchOption result (entry_at (values_of rows.now.entries) position ≡ None) (λ i. slice_get (values_of rows.now.entries) i ≡ entry_at (values_of rows.now.entries) position) }
{
    rows.binary_search_by_key(
        &position,
        |_id: &Vec<u8>, entry: &Retained| -> u32
            ensures { result ≡ entry.now.position }
        { entry.position },
    )
    .ok()
}

/// Lets go of the entries whose expiration has come.
pub(crate) fn purge(rows: &mut Rows, time: Tick)
    requires filed { AreFiled rows.old.entries }
    requires ordered { AreInOrder (values_of rows.old.entries) }
    ensures values { values_of rows.new.entries ≡ unexpired time.0 (values_of rows.old.entries) }
    ensures filed { AreFiled rows.new.entries }
    ensures ordered { AreInOrder (values_of rows.new.entries) }
    ensures room { spare rows.old ≤ spare rows.new }
{
    rows.retain(
        |_id: &Vec<u8>, entry: &mut Retained| -> bool
            ensures { (result ≡ is_unexpired time.0 entry.old.request.key) × (entry.new ≡ entry.old) }
        { is_unexpired(time, &entry.request.key) },
    );
}

/// Lets go of the entry of a key's retention id.
pub(crate) fn forget(rows: &mut Rows, key: &Key)
    requires { AreFiled rows.old.entries }
    ensures values { values_of rows.new.entries ≡ without key.now (values_of rows.old.entries) }
    ensures filtered { rows.new.entries ≡ filter (λ e. not (is_call key.now e.1.request.key)) rows.old.entries }
    ensures room { spare rows.old ≤ spare rows.new }
{
    let _count = rows.len();
    let mut id = ArrayVec::new();
    put_id(key, &mut id);
    rows.shift_remove(id.as_slice());
}

/// Gives an id its bytes, in the memory that it has, and gives back what it doesn't need.
fn file(id: Vec<u8>, key: &Key) -> Vec<u8>
    requires empty { vec_len id ≡ 0 }
    requires room { ID_LIMIT ≤ vec_capacity id }
    ensures { IsFiledBy result.items key.now }
{
    let mut id = id;
    let mut bytes = ArrayVec::new();
    put_id(key, &mut bytes);
    id.clear();
    id.extend_from_slice(bytes.as_slice()).unwrap();
    id.shrink_to_fit();
    id
}

/// Adds an entry as the last, in place of one of the same retention id; one without a key isn't added.
pub(crate) fn join(rows: &mut Rows, id: Vec<u8>, entry: Retained)
    requires empty { vec_len id ≡ 0 }
    requires memory { ID_LIMIT ≤ vec_capacity id }
    requires room { 0 < spare rows.old }
    requires filed { AreFiled rows.old.entries }
    requires ordered { AreInOrder (values_of rows.old.entries) }
    requires later { IsAfter entry.position (values_of rows.old.entries) }
    ensures values { values_of rows.new.entries ≡ joined (values_of rows.old.entries) entry entry.request.key }
    ensures filed { AreFiled rows.new.entries }
    ensures ordered { AreInOrder (values_of rows.new.entries) }
{
    let Some(key) = &entry.request.key else {
        return;
    };
    let id = file(id, key);
    forget(rows, key);
    rows.insert(id, entry).unwrap();
}

/// Gives the entry at an index its reply, where it has none.
fn answer_at(rows: &mut Rows, index: usize, outcome: Outcome)
    requires { index < index_map_len rows.old }
    ensures entries { IsAnsweredAt rows.old.entries rows.new.entries index outcome }
    ensures room { spare rows.new ≡ spare rows.old }
{
    let (_id, entry) = rows.pair_mut(index);
    answer_entry(entry, outcome);
}

/// Gives the entry at a position its reply, where there is such an entry and it has none.
pub(crate) fn answer(rows: &mut Rows, position: u32, outcome: Outcome)
    requires filed { AreFiled rows.old.entries }
    requires ordered { AreInOrder (values_of rows.old.entries) }
    ensures values { values_of rows.new.entries ≡ with_reply (values_of rows.old.entries) position outcome }
    ensures filed { AreFiled rows.new.entries }
    ensures ordered { AreInOrder (values_of rows.new.entries) }
    ensures room { spare rows.new ≡ spare rows.old }
{
    if let Some(index) = index_at(rows, position) {
        answer_at(rows, index, outcome);
    }
}
