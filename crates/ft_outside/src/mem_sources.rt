ghost use Rattle.std.specs.Prelude.{◌≡◌, ℕ, ◌+◌, ◌<◌, Some, IfOk, OnErr, length};
ghost use Rattle.ft_outside.specs.Outside.{IsRead};
ghost use Rattle.ft_outside.specs.Schedules.{schedule_of};
ghost use Rattle.ft_outside.specs.Memory.{IsReadOfFeed};

use crate::copies::vec_of;
use crate::schedules::Schedule;
use crate::sources::{Got, Source};
use ft_base::NoMemory;
use std::alloc::Global;
use std::marker::Model;

/// A source in memory, which fails where it was told to. A read takes no memory.
#[derive(Debug, Drop)]
pub struct MemSource {
    bytes: Vec<u8>,
    start: usize,
    schedule: Schedule,
}

impl Model for MemSource {
    ghost use Rattle.std.specs.Prelude.{◌≤◌, drop, vec_len};
    ghost use Rattle.ft_outside.specs.Memory.{Feed};

    ghost Value = { Feed };

    ghost view = { λ s. record { left = drop s.start s.bytes.items; schedule = s.schedule } };

    ghost invariant = { λ s. s.start ≤ vec_len s.bytes };
}

impl MemSource {
    /// A source of these bytes. `fails` are the numbers, from 1, of the reads that are to fail.
    pub fn new(alloc: Global, left: &[u8], fails: &[u64]) -> Result<MemSource, NoMemory>
        ensures value { IfOk result (λ source. source ≡ record { left = left.now; schedule = schedule_of fails.now }) }
        ensures some { OnErr result (0 < length left.now + length fails.now) }
    {
        let bytes = vec_of(alloc, left)?;
        let schedule = Schedule::new(alloc, fails)?;
        Ok(MemSource {
            bytes,
            start: 0,
            schedule,
        })
    }

    #[tactic(auto, using(std::proofs::lemmas::List::nil_from_length))]
    fn feed(&mut self, into: &mut [u8]) -> Got
        requires { 0 < length into.old }
        ensures { IsReadOfFeed self.old self.new into.new result }
    {
        if self.schedule.is_failing() {
            self.schedule.fail();
            return Got::Failed;
        }
        self.schedule.pass();
        let left = &self.bytes.as_slice()[self.start..];
        if left.is_empty() {
            return Got::End;
        }
        let count = left.len().min(into.len());
        into[..count].copy_from_slice(&left[..count]);
        self.start += count;
        Got::Bytes(count)
    }
}

impl Source for MemSource {
    ghost use Rattle.std.specs.Prelude.{Some};

    ghost left = { λ source. Some source.left };

    ghost count = { λ source. source.schedule.faults };

    #[tactic(auto, using(crate::proofs::Memories::read_of_feed))]
    fn read(&mut self, into: &mut [u8]) -> Got
        requires { 0 < length into.old }
        ensures read { IsRead (Some self.old.left) (Some self.new.left) self.old.schedule.faults self.new.schedule.faults into.new result }
        ensures exact { IsReadOfFeed self.old self.new into.new result }
    {
        self.feed(into)
    }
}
