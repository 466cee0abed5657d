ghost use Rattle.std.specs.Prelude.{◌≡◌, ℕ, ◌<◌, [], length, IfOk, OnErr};
ghost use Rattle.ft_outside.specs.Outside.{next_count, added};
ghost use Rattle.ft_outside.specs.Schedules.{schedule_of, is_failing, after_call, after_fault, after_stray};

use crate::copies::vec_of;
use ft_base::NoMemory;
use std::alloc::Global;
use std::marker::Model;

/// Which calls of a form in memory are to fail, and how many faults there were. Calls are numbered from 1.
#[derive(Debug, Drop)]
pub struct Schedule {
    calls: u64,
    fails: Vec<u64>,
    faults: u64,
}

impl Model for Schedule {
    ghost use Rattle.ft_outside.specs.Schedules.{Schedule};

    ghost Value = { Schedule };

    ghost view = { λ s. record { calls = s.calls; fails = s.fails.items; faults = s.faults } };
}

/// One more, but at the end of 64 bits.
pub fn next_count(count: u64) -> u64
    ensures { result ≡ next_count count }
{
    count.saturating_add(1)
}

/// Two counts together, as far as the end of 64 bits.
pub fn add_counts(one: u64, other: u64) -> u64
    ensures { result ≡ added one other }
{
    one.saturating_add(other)
}

impl Schedule {
    /// The calls with these numbers are to fail. It takes memory only where there are such.
    pub fn new(alloc: Global, fails: &[u64]) -> Result<Schedule, NoMemory>
        ensures value { IfOk result (λ s. s ≡ schedule_of fails.now) }
        ensures some { OnErr result (0 < length fails.now) }
    {
        let fails = vec_of(alloc, fails)?;
        Ok(Schedule {
            calls: 0,
            fails,
            faults: 0,
        })
    }

    /// No call is to fail.
    pub fn never(alloc: Global) -> Schedule
        ensures { result ≡ schedule_of [] }
    {
        Schedule {
            calls: 0,
            fails: Vec::new(alloc),
            faults: 0,
        }
    }

    /// Whether the next call is to fail.
    pub fn is_failing(&self) -> bool
        ensures { result ≡ is_failing self.now }
    {
        let number = next_count(self.calls);
        self.fails.as_slice().contains(&number)
    }

    /// How many faults there were.
    pub fn faults(&self) -> u64
        ensures { result ≡ self.now.faults }
    {
        self.faults
    }

    /// Counts a call.
    pub fn pass(&mut self)
        ensures { self.new ≡ after_call self.old }
    {
        self.calls = next_count(self.calls);
    }

    /// Counts a call that failed.
    pub fn fail(&mut self)
        ensures { self.new ≡ after_fault self.old }
    {
        self.calls = next_count(self.calls);
        self.faults = next_count(self.faults);
    }

    /// Counts a fault that is no call with a number.
    pub fn stray(&mut self)
        ensures { self.new ≡ after_stray self.old }
    {
        self.faults = next_count(self.faults);
    }
}
