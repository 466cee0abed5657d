ghost use Rattle.std.specs.Prelude.{◌≡◌};

use crate::{CalmKeeper, Clock, Crew, Job, SetClock, Started, StdClock, join_both};
use ft_base::{Bytes, NoMemory, Tick};
use ft_outside::{Keeper, Kept};
use std::thread;
use std::thread::Threads;
use std::time::Duration;

// Gives its number.
#[derive(Drop)]
struct Numbered {
    number: u64,
}

impl Job for Numbered {
    type Gives = u64;

    ghost use Rattle.std.specs.Prelude.{◌≡◌};

    ghost ready = { λ _. Unit {0} };

    ghost owes = { λ job gives. gives ≡ job.number };

    fn run(self) -> u64 {
        let Numbered { number } = self;
        number
    }
}

// What the job gives, or none where it is refused.
fn given<R: Threads + Drop>(rt: &R, crew: &mut Crew<R>, number: u64) -> Option<u64> {
    match crew.start(Numbered { number }) {
        Started::Running(running) => Some(running.join(rt)),
        Started::Refused => None,
    }
}

#[test]
fn a_crew_refuses_where_told(rt: HostRuntime) -> Result<(), NoMemory> {
    let mut crew = Crew::refusing(rt, rt.alloc(), &[2, 4])?;
    for (number, gives, faults) in [
        (1, Some(1), 0),
        (2, None, 1),
        (3, Some(3), 1),
        (4, None, 2),
        (5, Some(5), 2),
    ] {
        assert_eq!(rt; given(&rt, &mut crew, number), gives);
        assert_eq!(rt; crew.faults(), faults);
    }
    Ok(())
}

#[test]
fn threads_are_started_and_joined(rt: HostRuntime) {
    let mut crew = Crew::new(rt, rt.alloc());
    let one = crew.start(Numbered { number: 7 });
    let other = crew.start(Numbered { number: 8 });
    assert_eq!(rt; crew.faults(), 0);
    if let (Started::Running(one), Started::Running(other)) = (one, other) {
        assert_eq!(rt; join_both(&rt, one, other), (7, 8));
    }
}

#[test]
fn a_clock_is_never_before_what_is_asked(rt: HostRuntime) {
    let set = SetClock::new(Tick(5));
    assert_eq!(rt; set.now(Tick(3)), Tick(5));
    assert_eq!(rt; set.now(Tick(9)), Tick(9));
    assert_eq!(rt; StdClock::new(rt).now(Tick(u64::MAX)), Tick(u64::MAX));
}

#[test]
fn the_system_s_clock_counts_milliseconds_since_it_was_made(rt: HostRuntime) {
    let clock = StdClock::new(rt);
    thread::sleep(&rt, Duration::from_millis(20));
    let moment = clock.now(Tick(0)).0;
    assert!(rt; (20..60_000).contains(&moment), "{moment}");
}

#[test]
fn a_calm_keeper_keeps_all(rt: HostRuntime) -> Result<(), NoMemory> {
    let alloc = rt.alloc();
    let mut keeper = CalmKeeper::new(alloc);
    keeper.reserve(alloc, 2)?;
    assert_eq!(rt; keeper.append(Bytes::of(alloc, b"a")?), Kept::Done);
    assert_eq!(rt; keeper.append(Bytes::of(alloc, b"b")?), Kept::Done);
    assert_eq!(rt; keeper.cut(1), Kept::Done);
    assert_eq!(rt; keeper.count(), 1);
    assert!(rt; keeper.read(1).is_none());
    Ok(())
}
