ghost use Rattle.std.specs.Prelude.{◌≡◌, ◌+◌, ◌<◌, IfOk, OnErr, Some, length, [], false};
ghost use Rattle.ft_outside.specs.Outside.{IsFlushed, IsRead, IsWritten};
ghost use Rattle.ft_outside.specs.Schedules.{schedule_of};
ghost use Rattle.outside_links.specs.Wires.{IsReceived, IsSent, shut};

use crate::links::Link;
use ft_base::NoMemory;
use ft_outside::{Flush, Got, Put, Schedule, Sink, Source, vec_of};
use std::alloc::Global;
use std::marker::Model;

/// A link in memory, which fails where it was told to, once it is closed, and where a write is past its room. No call
/// takes memory.
#[derive(Drop)]
pub struct MemLink {
    bytes: Vec<u8>,
    start: usize,
    held: Vec<u8>,
    room: u64,
    is_closed: bool,
    schedule: Schedule,
}

impl Model for MemLink {
    ghost use Rattle.std.specs.Prelude.{◌≤◌, drop, vec_len, vec_capacity};
    ghost use Rattle.outside_links.specs.Wires.{Wire};

    ghost Value = { Wire };

    ghost view = { λ s. record { left = drop s.start s.bytes.items; held = s.held.items; room = s.room; closed = s.is_closed; schedule = s.schedule } };

    ghost invariant = { λ s. (s.start ≤ vec_len s.bytes) × (vec_len s.held ≤ s.room) × (s.room ≤ vec_capacity s.held) };
}

impl MemLink {
    /// An open link with these bytes left and room for so many. `fails` are the numbers, from 1, of the reads and
    /// writes, counted together, that are to fail.
    pub fn new(alloc: Global, left: &[u8], room: u64, fails: &[u64]) -> Result<MemLink, NoMemory>
        ensures value { IfOk result (λ link. link ≡
            record { left = left.now; held = []; room = room; closed = false; schedule = schedule_of fails.now }) }
        ensures some { OnErr result (0 < length left.now + room + length fails.now) }
    {
        let bytes = vec_of(alloc, left)?;
        let held = Vec::with_capacity(alloc, room as usize)?;
        let schedule = Schedule::new(alloc, fails)?;
        Ok(MemLink {
            bytes,
            start: 0,
            held,
            room,
            is_closed: false,
            schedule,
        })
    }

    /// All that was written.
    pub fn held(&self) -> &[u8]
        ensures { result.now ≡ self.now.held }
    {
        self.held.as_slice()
    }

    /// Closed, which is no fault where it was closed already.
    pub(crate) fn shut(&mut self)
        ensures { self.new ≡ shut self.old }
    {
        self.is_closed = true;
    }

    /// How many faults there were.
    pub fn faults(&self) -> u64
        ensures { result ≡ self.now.schedule.faults }
    {
        self.schedule.faults()
    }

    #[tactic(auto, using(std::proofs::lemmas::List::nil_from_length))]
    fn take_in(&mut self, into: &mut [u8]) -> Got
        requires { 0 < length into.old }
        ensures { IsReceived self.old self.new into.new result }
    {
        if self.is_closed || self.schedule.is_failing() {
            self.schedule.fail();
            return Got::Failed;
        }
        self.schedule.pass();
        let left = &self.bytes.as_slice()[self.start..];
        if left.is_empty() {
            return Got::End;
        }
        let count = left.len().min(into.len());
        into[..count].copy_from_slice(&left[..count]);
        self.start += count;
        Got::Bytes(count)
    }

    fn put_out(&mut self, piece: &[u8]) -> Put
        requires { 0 < length piece.now }
        ensures { IsSent self.old self.new piece.now result }
    {
        let free = self.room as usize - self.held.len();
        if self.is_closed || self.schedule.is_failing() || free < piece.len() {
            self.schedule.fail();
            return Put::Failed;
        }
        self.schedule.pass();
        self.held.extend_from_slice(piece).unwrap();
        Put::Took(piece.len())
    }
}

impl Source for MemLink {
    ghost use Rattle.std.specs.Prelude.{Some};

    ghost left = { λ link. Some link.left };

    ghost count = { λ link. link.schedule.faults };

    #[tactic(auto, using(crate::proofs::Wires::received_reads))]
    fn read(&mut self, into: &mut [u8]) -> Got
        requires { 0 < length into.old }
        ensures read { IsRead (Some self.old.left) (Some self.new.left) self.old.schedule.faults self.new.schedule.faults into.new result }
        ensures exact { IsReceived self.old self.new into.new result }
    {
        self.take_in(into)
    }
}

impl Sink for MemLink {
    ghost use Rattle.std.specs.Prelude.{Some};

    ghost holds = { λ link. Some link.held };

    ghost count = { λ link. link.schedule.faults };

    #[tactic(auto, using(crate::proofs::Wires::sent_writes))]
    fn write(&mut self, piece: &[u8]) -> Put
        requires { 0 < length piece.now }
        ensures written { IsWritten (Some self.old.held) (Some self.new.held) self.old.schedule.faults self.new.schedule.faults piece.now result }
        ensures exact { IsSent self.old self.new piece.now result }
    {
        self.put_out(piece)
    }

    // nothing waits in a link
    fn flush(&mut self) -> Flush
        ensures flushed { IsFlushed (Some self.old.held) (Some self.new.held) self.old.schedule.faults self.new.schedule.faults result }
        ensures exact { self.new ≡ self.old }
        ensures done { result ≡ Flush.Done }
    {
        Flush::Done
    }
}

impl Link for MemLink {
    ghost use Rattle.std.specs.Prelude.{refl};

    ghost faults = { λ link. link.schedule.faults };

    ghost closed = { λ link. link.closed };

    ghost read_faults = { λ _. refl };

    ghost write_faults = { λ _. refl };

    #[tactic(auto, using(crate::proofs::Wires::received_reads, crate::proofs::Wires::received_holds, crate::proofs::Wires::received_closed, crate::proofs::Wires::received_shut))]
    fn receive(&mut self, into: &mut [u8]) -> Got {
        self.take_in(into)
    }

    #[tactic(auto, using(crate::proofs::Wires::sent_writes, crate::proofs::Wires::sent_left, crate::proofs::Wires::sent_closed, crate::proofs::Wires::sent_shut))]
    fn send(&mut self, piece: &[u8]) -> Put {
        self.put_out(piece)
    }

    fn close(&mut self) {
        if self.is_closed {
            self.schedule.stray();
        }
        self.is_closed = true;
    }
}
