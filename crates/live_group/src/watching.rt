//! The group is monitored while clients call.
ghost use Rattle.std.specs.Prelude.{◌≡◌};
ghost use Rattle.hist_lock.specs.Passes.{IsOf, own_turns};
ghost use Rattle.live_monitor.specs.Monitored.{IsMonitored, can_be_killed};

use ft_base::{NoMemory, Servant, Tick};
use ft_outside::Keeper;
use live_monitor::{RunMonitor, round};
use outside_crews::Clock;
use shared_group::{Pass, SharedGroup};
use std::alloc::Global;
use std::sync::atomic::{AtomicBool, Ordering};
use std::sync::{Arc, Wait};
use std::time::Duration;
use std::{thread, time};

/// Beyond this moment no clock of a group goes.
const CLOCK_LIMIT: u64 = 1 << 63;

/// From one round to the next.
const PAUSE: u64 = 1;

fn are_set(flags: &[Arc<AtomicBool, Global>]) -> bool {
    flags.iter().all(|flag| flag.load(Ordering::SeqCst))
}

/// Monitors the group in one round after another, a millisecond apart, until all flags are set. In the next round it does
/// what for want of memory it couldn't do in one.
pub fn watch<R: Wait + time::Clock, S: Servant + Drop, K: Keeper + Drop, C: Clock>(
    rt: &R,
    group: &SharedGroup<S, K>,
    main: &mut Pass<S, K>,
    monitor: &mut RunMonitor,
    clock: &C,
    flags: &[Arc<AtomicBool, Global>],
)
    requires own { IsOf group.now.lock main.old }
    requires kill { can_be_killed monitor.old.kill }
    requires so_far { IsMonitored monitor.old (own_turns main.old) }
    ensures own { IsOf group.now.lock main.new }
    ensures number { main.new.number ≡ main.old.number }
    ensures kill { monitor.new.kill ≡ monitor.old.kill }
    ensures so_far { IsMonitored monitor.new (own_turns main.new) }
{
    let mut moment = Tick(0);
    for _ in rt.forever() {
        if are_set(flags) {
            return;
        }
        moment = clock.now(moment);
        let now = Tick(moment.0.min(CLOCK_LIMIT));
        match round(rt, group, main, monitor, now) {
            Ok(()) | Err(NoMemory) => {}
        }
        thread::sleep(rt, Duration::from_millis(PAUSE));
    }
    unreachable!()
}
