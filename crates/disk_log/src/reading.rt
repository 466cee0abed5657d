//! What the image of a log says.
ghost use Rattle.std.specs.Prelude.{◌≡◌, ◌≢◌, ◌≤◌, ◌<◌, ◌+◌, ◌^◌, List, ℕ, [], ◌∷◌, ◌++◌, length, take, drop, true, false, None, IfOk, IfErr, IfSome};
ghost use Rattle.std.specs.Int.{to_be_bytes, from_be_bytes, w32, w64};
ghost use Rattle.std.specs.VecDeque.{deque_len, deque_capacity};
ghost use Rattle.disk_log.specs.Image.{Step, rest, stepped, MayStep, magic};
ghost use Rattle.disk_log.specs.Refusals.{IsNotRead};
ghost use Rattle.disk_log.specs.Standing.{IsRead, IsStep, CannotStep};

use ft_base::{Bytes, NoMemory};
use std::alloc::Global;
use std::collections::VecDeque;

/// What was read of an image: its records, and the place of the closed mark behind them.
#[derive(Drop)]
pub(crate) struct Opened {
    pub(crate) records: VecDeque<Bytes>,
    pub(crate) end: usize,
}

/// Why an image isn't read.
#[derive(Clone, Copy, Debug, PartialEq, Eq)]
pub(crate) enum ImageFault {
    NotALog(usize),
    NoMemory,
}

impl From<NoMemory> for ImageFault {
    ghost use Rattle.disk_log.specs.declared.reading.ImageFault.TheVariants as faults;

    ghost from_gives = { λ _ e. e ≡ faults.NoMemory };

    fn from(_error: NoMemory) -> ImageFault {
        ImageFault::NoMemory
    }
}

/// The size of a record's content, where all of it is there.
fn content_size(after: &[u8]) -> Option<usize>
    ensures some { IfSome result (λ size. (5 + size ≤ length after.now) × (size < 2 ^ 32) × (to_be_bytes w32 size ≡ take 4 (drop 1 after.now))) }
    ensures none { result ≡ None → length after.now < 5 + from_be_bytes w32 (take 4 (drop 1 after.now)) }
{
    match after {
        [_, a, b, c, d, more @ ..] => {
            let size = u32::from_be_bytes([*a, *b, *c, *d]) as usize;
            if size <= more.len() { Some(size) } else { None }
        }
        _ => None,
    }
}

fn number_of(content: &[u8]) -> Option<u64>
    ensures some { IfSome result (λ n. (length content.now ≡ 8) × (n < 2 ^ 64) × (to_be_bytes w64 n ≡ content.now)) }
    ensures none { result ≡ None → length content.now ≢ 8 }
{
    match content {
        [a, b, c, d, e, f, g, h] => { Some(u64::from_be_bytes([*a, *b, *c, *d, *e, *f, *g, *h])) }
        _ => None,
    }
}

pub(crate) fn drop_first(records: &mut VecDeque<Bytes>, number: u64)
    requires { number ≤ deque_len records.old }
    ensures items { records.new.items ≡ drop number records.old.items }
    ensures len { deque_len records.new + number ≡ deque_len records.old }
    ensures room { deque_capacity records.new ≡ deque_capacity records.old }
{
    drop(records.drain(..number as usize));
}

/// Does what a marked record says, if it may stand there.
fn take_step(
    alloc: Global,
    records: &mut VecDeque<Bytes>,
    kind: u8,
    content: &[u8],
) -> Result<bool, NoMemory>
    requires { length content.now < 2 ^ 32 }
    ensures stepped { IfOk result (λ may. may ≡ true → IsStep kind content.now records.old.items records.new.items) }
    ensures refused { IfOk result (λ may. may ≡ false → CannotStep kind content.now records.old.items) }
{
    if kind == 0 {
        let record = Bytes::of(alloc, content)?;
        records.push_back(record)?;
        return Ok(true);
    }
    if kind != 1 {
        return Ok(false);
    }
    let Some(number) = number_of(content) else {
        return Ok(false);
    };
    if number > records.len() as u64 {
        return Ok(false);
    }
    drop_first(records, number);
    Ok(true)
}

fn is_named(bytes: &[u8]) -> bool
    ensures named { result ≡ true → take 8 bytes.now ≡ magic }
    ensures unnamed { result ≡ false → take 8 bytes.now ≢ magic }
{
    matches!(bytes, [70, 84, 76, 79, 71, 48, 49, 0, ..])
}

/// Reads an image.
pub(crate) fn read_image(alloc: Global, bytes: &[u8]) -> Result<Opened, ImageFault>
    ensures read { IfOk result (λ opened. IsRead bytes.now opened.records.items opened.end) }
    ensures unread { IfErr result (λ fault. IsNotRead fault bytes.now) }
{
    if !is_named(bytes) {
        return Err(ImageFault::NotALog(0));
    }
    let mut records = VecDeque::new(alloc);
    let mut place = 8;
    while place < bytes.len() && bytes[place] == 1 {
        let after = &bytes[place + 1..];
        let Some(size) = content_size(after) else {
            return Err(ImageFault::NotALog(place));
        };
        if !take_step(alloc, &mut records, after[0], &after[5..5 + size])? {
            return Err(ImageFault::NotALog(place));
        }
        place += 6 + size;
    }
    if place >= bytes.len() {
        return Err(ImageFault::NotALog(place));
    }
    Ok(Opened {
        records,
        end: place,
    })
}
