ghost use Rattle.std.specs.Prelude.{◌≡◌, Some, IfSome};

use std::marker::Model;
use std::snapshot::Snapshot;
use std::thread;
use std::thread::{Promise, PromisedHandle, Threads};

/// What is run in a thread of its own. A job that waits keeps its own handle for that.
pub trait Job: Send + Drop {
    type Gives: Send + Drop + 'static;

    /// When it may be run.
    ghost ready: { Self → Type 0 };

    /// What it owes about what it gives.
    ghost owes: { Self → Self.Gives → Type 0 };

    fn run(self) -> Self::Gives
        requires { ready self }
        ensures { owes self result };
}

/// The promise that a thread's result is owed by the job that was started in it.
#[derive(Drop)]
pub struct Owed<J>(pub Snapshot<J>);

impl<J: Job> Promise<J::Gives> for Owed<J> {
    ghost kept_by = { λ promise gives. J.owes promise.0.value gives };
}

/// A job that runs in a thread. One that is let go runs on by itself, and what it gives is lost.
///
/// Contracts see it as the job that was started.
#[derive(Drop)]
pub struct Running<J: Job> {
    handle: PromisedHandle<J::Gives, Owed<J>>,
}

impl<J: Job> Model for Running<J> {
    ghost Value = { J };

    ghost view = { λ running. running.handle.promise.0.value };
}

impl<J: Job + 'static> Running<J> {
    /// Waits for its end. This is never refused.
    pub fn join<R: Threads>(self, rt: &R) -> J::Gives
        ensures { J.owes self result }
    {
        let Running { handle } = self;
        handle.join(rt)
    }
}

/// Waits for the end of two jobs.
pub fn join_both<J: Job + 'static, R: Threads>(
    rt: &R,
    one: Running<J>,
    other: Running<J>,
) -> (J::Gives, J::Gives)
    ensures one { J.owes one result.0 }
    ensures other { J.owes other result.1 }
{
    let first = one.join(rt);
    let second = other.join(rt);
    (first, second)
}

// Starts a job in a thread of its own, if the system gives one.
pub fn start_thread<J: Job + 'static, R: Threads>(rt: &R, job: J) -> Option<Running<J>>
    requires { J.ready job }
    ensures { IfSome result (λ running. running ≡ job) }
{
    let promise = Owed(Snapshot::of(&job));
    let closure = move || -> J::Gives
        requires { J.ready job }
        ensures { J.owes job result }
    { job.run() };
    match thread::spawn_with(rt, promise, closure) {
        Ok(handle) => Some(Running { handle }),
        Err(_) => None,
    }
}
