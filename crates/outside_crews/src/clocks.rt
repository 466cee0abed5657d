ghost use Rattle.std.specs.Prelude.{◌≡◌, ◌≤◌, max};
ghost use Rattle.std.specs.Time.{instant_nanos};
ghost use Rattle.outside_crews.specs.Moments.{millis_between};

use ft_base::Tick;
use std::time;
use std::time::Instant;

/// What tells the moment. `moment` is the clock's own one, where it tells that.
pub trait Clock {
    ghost use Rattle.std.specs.Prelude.{ℕ, Option};
    ghost use Rattle.outside_crews.specs.Moments.{IsMoment};

    ghost moment: { Self → Option ℕ };

    /// The moment now, and never one before `atleast`.
    fn now(&self, atleast: Tick) -> Tick
        ensures { IsMoment (moment self.now) atleast.0 result.0 };
}

/// A clock that stands still at the moment with which it was made.
#[derive(Clone, Copy, Debug)]
pub struct SetClock {
    moment: Tick,
}

impl SetClock {
    pub fn new(now: Tick) -> SetClock
        ensures { result.moment ≡ now }
    {
        SetClock { moment: now }
    }
}

impl Clock for SetClock {
    ghost use Rattle.std.specs.Prelude.{Some};

    ghost moment = { λ clock. Some clock.moment.0 };

    fn now(&self, atleast: Tick) -> Tick {
        Tick(self.moment.0.max(atleast.0))
    }
}

/// The system's clock, in milliseconds since it was made. Where it can't be read, or couldn't be when it was made, it
/// answers what it was asked for.
#[derive(Drop)]
pub struct StdClock<R: time::Clock + Drop> {
    rt: R,
    start: Option<Instant>,
}

// The whole milliseconds from one reading of the system's clock to another.
fn millis_between(start: Instant, now: Instant) -> u64
    ensures { result ≡ millis_between (instant_nanos start) (instant_nanos now) }
{
    let millis = now.duration_since(start).as_millis();
    u64::try_from(millis).unwrap_or(u64::MAX)
}

impl<R: time::Clock + Drop> StdClock<R> {
    pub fn new(rt: R) -> StdClock<R>
        ensures { result.rt ≡ rt }
    {
        let start = Instant::now(&rt).ok();
        StdClock { rt, start }
    }

    // How long ago it was made, as far as that can be told.
    fn age(&self) -> Option<u64> {
        let now = Instant::now(&self.rt).ok()?;
        Some(millis_between(self.start?, now))
    }
}

impl<R: time::Clock + Drop> Clock for StdClock<R> {
    ghost use Rattle.std.specs.Prelude.{None};

    ghost moment = { λ _. None };

    fn now(&self, atleast: Tick) -> Tick {
        Tick(self.age().unwrap_or(0).max(atleast.0))
    }
}
