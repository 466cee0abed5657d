//! A disk in memory, which keeps all its calls and so tells the images of every moment.
ghost use Rattle.std.specs.Prelude.{◌≡◌, ◌≤◌, ◌<◌, ◌+◌, ◌^◌, true, [], ◌∷◌, length, take, drop, IfOk, vec_len, vec_capacity};
ghost use Rattle.ft_outside.specs.Keeping.{has_failed};
ghost use Rattle.ft_outside.specs.Schedules.{schedule_of, is_failing};
ghost use Rattle.disk_log.specs.Disk.{IsWritten, OnDone};
ghost use Rattle.disk_log.specs.Calls.{Wrote, Synced, has_room, is_refused, answered, wrote, synced, content};

use crate::disks::Disk;
use ft_base::NoMemory;
use ft_outside::{Kept, Schedule, vec_of};
use std::alloc::Global;
use std::collections::VecDeque;
use std::marker::Model;

/// A call that changed what a crash may leave: a write at a place, of so many bytes, or a sync.
#[derive(Clone, Copy, Drop)]
pub enum Call {
    Write(u64, usize),
    Sync,
}

/// A disk in memory, which fails past its room and where it was told to: a write has then done its work all the same, and
/// a sync none of it. Its calls take no memory.
#[derive(Drop)]
pub struct MemDisk {
    first: Vec<u8>,
    bytes: Vec<u8>,
    /// The latest first.
    calls: VecDeque<Call>,
    /// The bytes of all writes, the latest last.
    pieces: Vec<u8>,
    room: usize,
    schedule: Schedule,
}

impl Model for MemDisk {
    ghost use Rattle.std.specs.Prelude.{vec_capacity};
    ghost use Rattle.std.specs.VecDeque.{deque_len, deque_capacity};
    ghost use Rattle.disk_log.specs.Calls.{Memory, IsStored, changes_of};

    ghost Value = { Memory };

    ghost view = { λ m. record { first = m.first.items; changes = changes_of m.calls.items m.pieces.items; room = m.room; schedule = m.schedule } };

    ghost invariant = { λ m. IsStored m.first.items m.bytes.items m.pieces.items (changes_of m.calls.items m.pieces.items) m.room (deque_len m.calls) (vec_capacity m.bytes) (vec_capacity m.pieces) (deque_capacity m.calls) };
}

/// Writes over what is there, and past the end.
fn write_over(bytes: &mut Vec<u8>, at: usize, piece: &[u8])
    requires within { at ≤ vec_len bytes.old }
    requires room { at + length piece.now ≤ vec_capacity bytes.old }
    ensures written { IsWritten at piece.now bytes.old.items bytes.new.items }
    ensures room { vec_capacity bytes.old ≤ vec_capacity bytes.new }
{
    let over = piece.len().min(bytes.len() - at);
    bytes.as_mut_slice()[at..at + over].copy_from_slice(&piece[..over]);
    bytes.extend_from_slice(&piece[over..]).unwrap();
}

impl MemDisk {
    /// A disk with these bytes, all of them synced. It keeps at most so many calls as `room` says, and so many bytes of
    /// its writes. `fails` are the numbers, from 1, of the calls that are to fail.
    pub fn new(alloc: Global, bytes: &[u8], room: usize, fails: &[u64]) -> Result<MemDisk, NoMemory>
        ensures { IfOk result (λ disk. disk ≡ record { first = bytes.now; changes = []; room = room; schedule = schedule_of fails.now }) }
    {
        let first = vec_of(alloc, bytes)?;
        let mut bytes = vec_of(alloc, bytes)?;
        bytes.reserve(room)?;
        let mut calls = VecDeque::new(alloc);
        calls.reserve(room)?;
        Ok(MemDisk {
            first,
            bytes,
            calls,
            pieces: Vec::with_capacity(alloc, room)?,
            room,
            schedule: Schedule::new(alloc, fails)?,
        })
    }

    /// Whether there is room for one more change, of so many bytes.
    fn has_room(&self, size: usize) -> bool
        ensures { result ≡ has_room self.now size }
    {
        self.calls.len() < self.room && size <= self.room - self.pieces.len()
    }

    /// Keeps a write for which there is room.
    fn store(&mut self, at: u64, piece: &[u8])
        requires within { at ≤ length (content self.old.first self.old.changes) }
        requires room { has_room self.old (length piece.now) ≡ true }
        ensures fits { at + length piece.now < 2 ^ 64 }
        ensures wrote { self.new ≡ record self.old { changes = Wrote at piece.now ∷ self.old.changes } }
    {
        write_over(&mut self.bytes, at as usize, piece);
        self.pieces.extend_from_slice(piece).unwrap();
        self.calls.push_front_reserved(Call::Write(at, piece.len()));
    }

    /// Keeps a sync for which there is room.
    fn settle(&mut self)
        requires { has_room self.old 0 ≡ true }
        ensures { self.new ≡ record self.old { changes = Synced ∷ self.old.changes } }
    {
        self.calls.push_front_reserved(Call::Sync);
    }

    /// Keeps a write, if there is room, and says so.
    fn keep(&mut self, at: u64, piece: &[u8]) -> bool
        requires { at ≤ length (content self.old.first self.old.changes) }
        ensures room { result ≡ has_room self.old (length piece.now) }
        ensures fits { result ≡ true → at + length piece.now < 2 ^ 64 }
        ensures wrote { self.new ≡ record self.old { changes = wrote self.old at piece.now } }
    {
        if !self.has_room(piece.len()) {
            return false;
        }
        self.store(at, piece);
        true
    }

    /// Counts a call, which fails without room and where it was told to.
    fn answer(&mut self, room: bool) -> Kept
        ensures fails { has_failed result ≡ is_refused self.old room }
        ensures room { OnDone result (room ≡ true) }
        ensures kept { self.new ≡ record self.old { schedule = answered result self.old.schedule } }
    {
        if !room || self.schedule.is_failing() {
            self.schedule.fail();
            return Kept::Failed;
        }
        self.schedule.pass();
        Kept::Done
    }

    /// What it gives.
    fn bytes(&self) -> &[u8]
        ensures { result.now ≡ content self.now.first self.now.changes }
    {
        self.bytes.as_slice()
    }

    fn read(&mut self, at: u64, into: &mut [u8]) -> Kept
        requires { at + length into.old ≤ length (content self.old.first self.old.changes) }
        ensures fails { has_failed result ≡ is_failing self.old.schedule }
        ensures given { OnDone result (into.new ≡ take (length into.old) (drop at (content self.old.first self.old.changes))) }
        ensures kept { self.new ≡ record self.old { schedule = answered result self.old.schedule } }
    {
        let kept = self.answer(true);
        if kept == Kept::Done {
            let at = at as usize;
            into.copy_from_slice(&self.bytes()[at..at + into.len()]);
        }
        kept
    }

    fn write(&mut self, at: u64, piece: &[u8]) -> Kept
        requires { at ≤ length (content self.old.first self.old.changes) }
        ensures fails { has_failed result ≡ is_refused self.old (has_room self.old (length piece.now)) }
        ensures room { OnDone result (has_room self.old (length piece.now) ≡ true) }
        ensures fits { OnDone result (at + length piece.now < 2 ^ 64) }
        ensures kept { self.new ≡ record self.old { changes = wrote self.old at piece.now; schedule = answered result self.old.schedule } }
    {
        let room = self.keep(at, piece);
        self.answer(room)
    }

    fn flush(&mut self) -> Kept
        ensures fails { has_failed result ≡ is_refused self.old (has_room self.old 0) }
        ensures kept { self.new ≡ record self.old { changes = synced result self.old.changes; schedule = answered result self.old.schedule } }
    {
        let room = self.has_room(0);
        match self.answer(room) {
            Kept::Failed => Kept::Failed,
            Kept::Done => {
                self.settle();
                Kept::Done
            }
        }
    }
}

impl MemDisk {
    /// How many of its calls changed what a crash may leave.
    pub fn moment(&self) -> usize
        ensures { result ≡ length self.now.changes }
    {
        self.calls.len()
    }

    /// What a crash after so many of these calls may leave, for tests. Of each write that wasn't synced by then a digit of
    /// the pattern, to the base 4 and the lowest first, says what became of it: nothing, all, its first half, or other
    /// bytes in its range.
    pub fn image_at(
        &self,
        alloc: Global,
        moment: usize,
        pattern: u32,
    ) -> Result<Vec<u8>, NoMemory> {
        let synced = self.synced_before(moment);
        let mut image = vec_of(alloc, self.first.as_slice())?;
        let mut digits = pattern;
        let mut from: usize = 0;
        for index in 0..moment {
            if let Some(Call::Write(at, size)) = self.call(index) {
                let how = if index < synced { 1 } else { digits % 4 };
                if index >= synced {
                    digits /= 4;
                }
                let piece = self
                    .pieces
                    .get(from..from.saturating_add(size))
                    .unwrap_or(&[]);
                tear(alloc, &mut image, at as usize, piece, how)?;
                from = from.saturating_add(size);
            }
        }
        Ok(image)
    }

    /// The call with this number, from 0, the first of all first.
    fn call(&self, index: usize) -> Option<Call> {
        let behind = self.calls.len().checked_sub(index)?.checked_sub(1)?;
        self.calls.get(behind).copied()
    }

    /// How many of the writes among so many calls aren't synced by then.
    pub fn unsynced(&self, moment: usize) -> u32 {
        let mut count: u32 = 0;
        for index in 0..moment {
            match self.call(index) {
                Some(Call::Sync) => count = 0,
                Some(Call::Write(_, _)) => count = count.saturating_add(1),
                None => {}
            }
        }
        count
    }

    /// The number of the last sync among the first calls.
    fn synced_before(&self, moment: usize) -> usize {
        let mut synced = 0;
        for index in 0..moment {
            if let Some(Call::Sync) = self.call(index) {
                synced = index;
            }
        }
        synced
    }
}

/// What a crash left of a write: all (1), the first half (2), other bytes (3) or nothing.
fn tear(
    alloc: Global,
    image: &mut Vec<u8>,
    at: usize,
    piece: &[u8],
    how: u32,
) -> Result<(), NoMemory> {
    let mut left = vec_of(alloc, piece)?;
    match how {
        1 => {}
        2 => left.truncate(piece.len() / 2),
        3 => left.fill(1),
        _ => left.clear(),
    }
    if at > image.len() {
        return Ok(());
    }
    image.reserve(left.len())?;
    write_over(image, at, left.as_slice());
    Ok(())
}

impl Disk for MemDisk {
    ghost use Rattle.std.specs.Prelude.{◌≡◌, length};
    ghost use Rattle.disk_log.specs.Calls.{content, IsImage, IsImageSince, gives_now, counts_now, only_now};

    ghost gives = { λ m r. r ≡ content m.first m.changes };

    ghost images = { λ m c. IsImage m.first m.changes c };

    ghost size = { λ m. length (content m.first m.changes) };

    ghost moment = { λ m. length m.changes };

    ghost since = { λ m t c. IsImageSince m.first m.changes t c };

    ghost faults = { λ m. m.schedule.faults };

    ghost gives_now = { λ m r is. gives_now m.first m.changes r is };

    ghost counts_now = { λ m t c le now. counts_now m.first m.changes t c now };

    ghost only_now = { λ m c left. only_now m.first m.changes c left };

    fn length(&self) -> u64 {
        self.bytes().len() as u64
    }

    fn read_at(&mut self, at: u64, into: &mut [u8]) -> Kept {
        self.read(at, into)
    }

    fn write_at(&mut self, at: u64, piece: &[u8]) -> Kept {
        self.write(at, piece)
    }

    fn sync(&mut self) -> Kept {
        self.flush()
    }
}
