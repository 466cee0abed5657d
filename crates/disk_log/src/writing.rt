//! What a log writes on its disk. No function makes more than four calls of it.
ghost use Rattle.std.specs.Prelude.{◌≡◌, ◌⊎◌, ◌≤◌, ◌<◌, ◌+◌, ◌^◌, List, ℕ, [], ◌∷◌, ◌++◌, length, drop, slice_get, Some, None, IfSome};
ghost use Rattle.std.specs.Int.{to_be_bytes, w32};
ghost use Rattle.ft_outside.specs.Keeping.{IsCounted};
ghost use Rattle.ft_outside.specs.Outside.{next_count};
ghost use Rattle.disk_log.specs.Disk.{Each, LeavesOnly, OnDone, OnFailed};
ghost use Rattle.disk_log.specs.Image.{Step, Add, rest, stepped, MayStep, HoldsOneOf};
ghost use Rattle.disk_log.specs.Standing.{Begins, Gated, Stands, Calm, StandsClosed, StandsAfter, AreShort, IsLaid};

use crate::disks::Disk;
use ft_base::Bytes;
use ft_outside::Kept;
use std::collections::VecDeque;

/// Writes a piece. What stands before it stays in each image.
fn put<D: Disk>(disk: &mut D, at: u64, piece: &[u8]) -> Kept
    requires { at ≤ D.size disk.old }
    ensures keeps { (front : List ℕ) → length front ≤ at → Each (D.images disk.old) (Begins front)
        → Each (D.images disk.new) (Begins front) × LeavesOnly D.moment D.since disk.old disk.new (Begins front) }
    ensures written { OnDone result ((front : List ℕ) → length front ≡ at → Each (D.gives disk.old) (Begins front) → Each (D.gives disk.new) (Begins (front ++ piece.now))) }
    ensures room { OnDone result (at + length piece.now ≤ D.size disk.new) }
    ensures no_shorter { D.size disk.old ≤ D.size disk.new }
    ensures fits { OnDone result (at + length piece.now < 2 ^ 64) }
    ensures faults { IsCounted result (D.faults disk.old) (D.faults disk.new) }
{
    disk.write_at(at, piece)
}

/// Writes a record behind its mark, and the next mark, closed. The record's own mark stays as it is.
fn write_rest<D: Disk>(disk: &mut D, at: u64, head: &[u8], content: &[u8]) -> Kept
    requires { at ≤ D.size disk.old }
    ensures keeps { (front : List ℕ) → length front ≡ at → Each (D.images disk.old) (Begins front)
        → Each (D.images disk.new) (Begins front) × LeavesOnly D.moment D.since disk.old disk.new (Begins front) }
    ensures written { OnDone result ((front : List ℕ) → length front ≡ at → Each (D.gives disk.old) (Begins front)
        → Each (D.images disk.new) (Begins (front ++ head.now ++ content.now ++ 0 ∷ []))) }
    ensures room { OnDone result (at + length head.now + length content.now + 1 ≤ D.size disk.new) }
    ensures no_shorter { D.size disk.old ≤ D.size disk.new }
    ensures fits { OnDone result (at + length head.now + length content.now + 1 < 2 ^ 64) }
    ensures faults { IsCounted result (D.faults disk.old) (D.faults disk.new) }
{
    match put(disk, at, head) {
        Kept::Failed => return Kept::Failed,
        Kept::Done => {}
    }
    let behind = at + head.len() as u64;
    match put(disk, behind, content) {
        Kept::Failed => return Kept::Failed,
        Kept::Done => {}
    }
    match put(disk, behind + content.len() as u64, &[0]) {
        Kept::Failed => return Kept::Failed,
        Kept::Done => {}
    }
    disk.sync()
}

/// Writes one byte, which is a mark, and syncs.
fn set_mark<D: Disk>(disk: &mut D, at: u64, mark: u8) -> Kept
    requires { at ≤ D.size disk.old }
    ensures keeps { (front behind : List ℕ) → length front ≡ at → Each (D.images disk.old) (Gated front behind)
        → Each (D.images disk.new) (Gated front behind) × LeavesOnly D.moment D.since disk.old disk.new (Gated front behind) }
    ensures written { OnDone result ((front behind : List ℕ) → length front ≡ at → Each (D.images disk.old) (Gated front behind)
        → Each (D.images disk.new) (Begins (front ++ mark ∷ behind))) }
    ensures no_shorter { D.size disk.old ≤ D.size disk.new }
    ensures faults { IsCounted result (D.faults disk.old) (D.faults disk.new) }
{
    match disk.write_at(at, &[mark]) {
        Kept::Failed => return Kept::Failed,
        Kept::Done => {}
    }
    disk.sync()
}

/// Closes a mark again which a failed call may have left open.
fn close_again<D: Disk>(disk: &mut D, end: u64, doubt: &mut bool) -> Kept
    requires { end ≤ D.size disk.old }
    ensures closed { (records : List (List ℕ)) (failed : List (List (List ℕ))) → Stands doubt.old (D.images disk.old) end records failed
        → LeavesOnly D.moment D.since disk.old disk.new (HoldsOneOf (records ∷ failed))
        × StandsClosed result doubt.new (D.images disk.new) end records failed }
    ensures no_shorter { D.size disk.old ≤ D.size disk.new }
    ensures faults { IsCounted result (D.faults disk.old) (D.faults disk.new) }
{
    if !*doubt {
        return Kept::Done;
    }
    match set_mark(disk, end, 0) {
        Kept::Failed => Kept::Failed,
        Kept::Done => {
            *doubt = false;
            Kept::Done
        }
    }
}

/// Adds a marked record: behind its closed mark first, and then it opens the mark.
pub(crate) fn mark_record<D: Disk>(
    disk: &mut D,
    end: u64,
    doubt: &mut bool,
    head: &[u8],
    content: &[u8],
) -> Kept
    requires within { end + 1 ≤ D.size disk.old }
    requires fits { end + 1 < 2 ^ 64 }
    ensures marked { (records : List (List ℕ)) (failed : List (List (List ℕ))) (step : Step)
        → Stands doubt.old (D.images disk.old) end records failed → MayStep records step → rest step ≡ head.now ++ content.now
        → LeavesOnly D.moment D.since disk.old disk.new (HoldsOneOf (records ∷ stepped records step ∷ failed))
        × StandsAfter result doubt.new (D.images disk.new) end (end + 1 + length head.now + length content.now) records (stepped records step) failed }
    ensures room { OnDone result (end + 1 + length head.now + length content.now + 1 ≤ D.size disk.new) }
    ensures no_shorter { D.size disk.old ≤ D.size disk.new }
    ensures fits { OnDone result (end + 1 + length head.now + length content.now + 1 < 2 ^ 64) }
    ensures faults { IsCounted result (D.faults disk.old) (D.faults disk.new) }
{
    match close_again(disk, end, doubt) {
        Kept::Failed => return Kept::Failed,
        Kept::Done => {}
    }
    match write_rest(disk, end + 1, head, content) {
        Kept::Failed => return Kept::Failed,
        Kept::Done => {}
    }
    match set_mark(disk, end, 1) {
        Kept::Failed => {
            *doubt = true;
            Kept::Failed
        }
        Kept::Done => Kept::Done,
    }
}

/// What stands between a mark and a record's content.
fn head_of(kind: u8, size: u32) -> [u8; 5]
    ensures { result ≡ kind ∷ to_be_bytes w32 size }
{
    let size = size.to_be_bytes();
    [kind, size[0], size[1], size[2], size[3]]
}

const MAX_RECORD: usize = 1 << 32;

/// Adds a record, and moves the end behind it.
pub(crate) fn add_record<D: Disk>(
    disk: &mut D,
    end: &mut u64,
    doubt: &mut bool,
    content: &[u8],
) -> Kept
    requires within { end.old + 1 ≤ D.size disk.old }
    requires fits { end.old + 1 < 2 ^ 64 }
    ensures added { (records : List (List ℕ)) (failed : List (List (List ℕ))) → Stands doubt.old (D.images disk.old) end.old records failed
        → LeavesOnly D.moment D.since disk.old disk.new (HoldsOneOf (records ∷ (records ++ content.now ∷ []) ∷ failed))
        × StandsAfter result doubt.new (D.images disk.new) end.new end.new records (records ++ content.now ∷ []) failed }
    ensures within { end.new + 1 ≤ D.size disk.new }
    ensures fits { end.new + 1 < 2 ^ 64 }
    ensures cause { OnFailed result ((D.faults disk.new ≡ next_count (D.faults disk.old)) ⊎ (2 ^ 32 ≤ length content.now)) }
    ensures done { OnDone result (D.faults disk.new ≡ D.faults disk.old) }
{
    if content.len() >= MAX_RECORD {
        return Kept::Failed;
    }
    let head = head_of(0, content.len() as u32);
    match mark_record(disk, *end, doubt, &head, content) {
        Kept::Failed => Kept::Failed,
        Kept::Done => {
            *end = *end + 6 + content.len() as u64;
            Kept::Done
        }
    }
}

/// Drops the first records, and moves the end behind what says so.
pub(crate) fn cut_records<D: Disk>(
    disk: &mut D,
    end: &mut u64,
    doubt: &mut bool,
    first: u64,
) -> Kept
    requires within { end.old + 1 ≤ D.size disk.old }
    requires fits { end.old + 1 < 2 ^ 64 }
    ensures dropped { (records : List (List ℕ)) (failed : List (List (List ℕ))) → first ≤ length records → Stands doubt.old (D.images disk.old) end.old records failed
        → LeavesOnly D.moment D.since disk.old disk.new (HoldsOneOf (records ∷ drop first records ∷ failed))
        × StandsAfter result doubt.new (D.images disk.new) end.new end.new records (drop first records) failed }
    ensures within { end.new + 1 ≤ D.size disk.new }
    ensures fits { end.new + 1 < 2 ^ 64 }
    ensures faults { IsCounted result (D.faults disk.old) (D.faults disk.new) }
{
    let head = head_of(1, 8);
    let number = first.to_be_bytes();
    match mark_record(disk, *end, doubt, &head, &number) {
        Kept::Failed => Kept::Failed,
        Kept::Done => {
            *end = *end + 14;
            Kept::Done
        }
    }
}

/// An open mark, and what stands between it and a record's content.
fn marked_head_of(kind: u8, size: u32) -> [u8; 6]
    ensures { result ≡ 1 ∷ kind ∷ to_be_bytes w32 size }
{
    let size = size.to_be_bytes();
    [1, kind, size[0], size[1], size[2], size[3]]
}

/// Adds a record with an open mark, where the last one ends.
fn put_record<D: Disk>(disk: &mut D, at: u64, content: &[u8]) -> Kept
    requires within { at ≤ D.size disk.old }
    requires short { length content.now < 2 ^ 32 }
    ensures written { OnDone result ((front : List ℕ) → length front ≡ at → Each (D.gives disk.old) (Begins front)
        → Each (D.gives disk.new) (Begins (front ++ (1 ∷ rest (Add content.now))))) }
    ensures room { OnDone result (at + 6 + length content.now ≤ D.size disk.new) }
    ensures fits { OnDone result (at + 6 + length content.now < 2 ^ 64) }
    ensures faults { IsCounted result (D.faults disk.old) (D.faults disk.new) }
{
    let head = marked_head_of(0, content.len() as u32);
    match put(disk, at, &head) {
        Kept::Failed => return Kept::Failed,
        Kept::Done => {}
    }
    put(disk, at + 6, content)
}

fn content_of(records: &VecDeque<Bytes>, index: usize) -> &[u8]
    requires { index < length records.now.items }
    ensures { slice_get records.now.items index ≡ Some result.now }
{
    let Some(record) = records.get(index) else {
        unreachable!()
    };
    record.bytes()
}

// The name of a log's image.
const NAME: [u8; 8] = [70, 84, 76, 79, 71, 48, 49, 0];

/// Writes the name of a log and these records. It answers where the last one ends; nothing where a call failed.
fn put_records<D: Disk>(disk: &mut D, records: &VecDeque<Bytes>) -> Option<u64>
    requires { AreShort records.now.items }
    ensures written { IfSome result (λ end. IsLaid (D.gives disk.new) records.now.items end) }
    ensures room { IfSome result (λ end. end ≤ D.size disk.new) }
    ensures fits { IfSome result (λ end. end < 2 ^ 64) }
    ensures done { IfSome result (λ _. D.faults disk.new ≡ D.faults disk.old) }
    ensures failed { result ≡ None → D.faults disk.new ≡ next_count (D.faults disk.old) }
{
    match put(disk, 0, &NAME) {
        Kept::Failed => return None,
        Kept::Done => {}
    }
    let mut end = 8;
    for index in 0..records.len() {
        let content = content_of(records, index);
        match put_record(disk, end, content) {
            Kept::Failed => return None,
            Kept::Done => {}
        }
        end += 6 + content.len() as u64;
    }
    Some(end)
}

/// Makes the image of a log with these records on an empty disk: it writes all of it, and syncs once. It answers the
/// place of the last mark; nothing where a call failed.
pub(crate) fn write_image<D: Disk>(disk: &mut D, records: &VecDeque<Bytes>) -> Option<u64>
    requires { AreShort records.now.items }
    ensures calm { IfSome result (λ end. Calm (D.images disk.new) end records.now.items) }
    ensures within { IfSome result (λ end. end + 1 ≤ D.size disk.new) }
    ensures fits { IfSome result (λ end. end + 1 < 2 ^ 64) }
    ensures done { IfSome result (λ _. D.faults disk.new ≡ D.faults disk.old) }
    ensures failed { result ≡ None → D.faults disk.new ≡ next_count (D.faults disk.old) }
{
    let Some(end) = put_records(disk, records) else {
        return None;
    };
    match put(disk, end, &[0]) {
        Kept::Failed => return None,
        Kept::Done => {}
    }
    match disk.sync() {
        Kept::Failed => None,
        Kept::Done => Some(end),
    }
}
