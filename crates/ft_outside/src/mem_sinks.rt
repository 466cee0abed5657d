ghost use Rattle.std.specs.Prelude.{◌≡◌, ℕ, ◌+◌, ◌<◌, Some, IfOk, OnErr, [], length};
ghost use Rattle.ft_outside.specs.Outside.{IsFlushed, IsWritten};
ghost use Rattle.ft_outside.specs.Schedules.{schedule_of};
ghost use Rattle.ft_outside.specs.Memory.{IsWriteToStore};

use crate::schedules::Schedule;
use crate::sinks::{Flush, Put, Sink};
use ft_base::NoMemory;
use std::alloc::Global;
use std::marker::Model;

/// A sink in memory with room for a stated number of bytes, which fails past it and where it was
/// told to. A write takes no memory. Nothing ever waits in it.
#[derive(Debug, Drop)]
pub struct MemSink {
    bytes: Vec<u8>,
    room: u64,
    schedule: Schedule,
}

impl Model for MemSink {
    ghost use Rattle.std.specs.Prelude.{◌≤◌, vec_len, vec_capacity};
    ghost use Rattle.ft_outside.specs.Memory.{Store};

    ghost Value = { Store };

    ghost view = { λ s. record { held = s.bytes.items; room = s.room; schedule = s.schedule } };

    ghost invariant = { λ s. (vec_len s.bytes ≤ s.room) × (s.room ≤ vec_capacity s.bytes) };
}

impl MemSink {
    /// An empty sink. `fails` are the numbers, from 1, of the writes that are to fail.
    pub fn new(alloc: Global, room: u64, fails: &[u64]) -> Result<MemSink, NoMemory>
        ensures value { IfOk result (λ sink. sink ≡ record { held = []; room = room; schedule = schedule_of fails.now }) }
        ensures some { OnErr result (0 < room + length fails.now) }
    {
        let bytes = Vec::with_capacity(alloc, room as usize)?;
        let schedule = Schedule::new(alloc, fails)?;
        Ok(MemSink {
            bytes,
            room,
            schedule,
        })
    }

    /// All that was written.
    pub fn bytes(&self) -> &[u8]
        ensures { result.now ≡ self.now.held }
    {
        self.bytes.as_slice()
    }

    fn store(&mut self, piece: &[u8]) -> Put
        requires { 0 < length piece.now }
        ensures { IsWriteToStore self.old self.new piece.now result }
    {
        let free = self.room as usize - self.bytes.len();
        if self.schedule.is_failing() || free < piece.len() {
            self.schedule.fail();
            return Put::Failed;
        }
        self.schedule.pass();
        self.bytes.extend_from_slice(piece).unwrap();
        Put::Took(piece.len())
    }
}

impl Sink for MemSink {
    ghost use Rattle.std.specs.Prelude.{Some};

    ghost holds = { λ sink. Some sink.held };

    ghost count = { λ sink. sink.schedule.faults };

    #[tactic(auto, using(crate::proofs::Memories::write_to_store))]
    fn write(&mut self, piece: &[u8]) -> Put
        requires { 0 < length piece.now }
        ensures written { IsWritten (Some self.old.held) (Some self.new.held) self.old.schedule.faults self.new.schedule.faults piece.now result }
        ensures exact { IsWriteToStore self.old self.new piece.now result }
    {
        self.store(piece)
    }

    // It is no call that a schedule counts.
    fn flush(&mut self) -> Flush
        ensures flushed { IsFlushed (Some self.old.held) (Some self.new.held) self.old.schedule.faults self.new.schedule.faults result }
        ensures exact { self.new ≡ self.old }
        ensures done { result ≡ Flush.Done }
    {
        Flush::Done
    }
}
