ghost use Rattle.std.specs.Prelude.{◌≡◌, ◌<◌, [], length, IfOk, OnErr};
ghost use Rattle.ft_outside.specs.Schedules.{schedule_of};
ghost use Rattle.outside_crews.specs.Starts.{IsStarted};

use crate::jobs::{Job, Running, start_thread};
use ft_base::NoMemory;
use ft_outside::Schedule;
use std::alloc::Global;
use std::marker::Model;
use std::thread::Threads;

/// What a start gave: a job that runs, or a refusal, in which the job was let go.
#[derive(Drop)]
pub enum Started<J: Job> {
    Running(Running<J>),
    Refused,
}

/// What starts jobs in threads of the system. A start is refused where the crew was told to refuse it, or where the
/// system gives no thread.
///
/// Contracts see it as its schedule, in which each refused start is one fault, up to the count's end at 2^64 - 1.
#[derive(Drop)]
pub struct Crew<R: Threads + Drop> {
    rt: R,
    schedule: Schedule,
}

impl<R: Threads + Drop> Model for Crew<R> {
    ghost use Rattle.ft_outside.specs.Schedules.{Schedule};

    ghost Value = { Schedule };

    ghost view = { λ crew. crew.schedule };
}

impl<R: Threads + Drop> Crew<R> {
    /// A crew that refuses only where the system gives no thread.
    pub fn new(rt: R, alloc: Global) -> Crew<R>
        ensures { result ≡ schedule_of [] }
    {
        Crew {
            rt,
            schedule: Schedule::never(alloc),
        }
    }

    /// A crew for tests. `fails` are the numbers, from 1, of the starts that it is to refuse.
    pub fn refusing(rt: R, alloc: Global, fails: &[u64]) -> Result<Crew<R>, NoMemory>
        ensures schedule { IfOk result (λ crew. crew ≡ schedule_of fails.now) }
        ensures some { OnErr result (0 < length fails.now) }
    {
        let schedule = Schedule::new(alloc, fails)?;
        Ok(Crew { rt, schedule })
    }

    /// How many starts were refused.
    pub fn faults(&self) -> u64
        ensures { result ≡ self.now.faults }
    {
        self.schedule.faults()
    }

    pub fn start<J: Job + 'static>(&mut self, job: J) -> Started<J>
        requires { J.ready job }
        ensures { IsStarted job self.old self.new result }
    {
        if self.schedule.is_failing() {
            self.schedule.fail();
            return Started::Refused;
        }
        match start_thread(&self.rt, job) {
            Some(running) => {
                self.schedule.pass();
                Started::Running(running)
            }
            None => {
                self.schedule.fail();
                Started::Refused
            }
        }
    }
}
