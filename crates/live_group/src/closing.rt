//! The group's lock is closed.
ghost use Rattle.std.specs.Prelude.{◌≡◌, IfOk};
ghost use Rattle.std.specs.Arc.{arc_value};
ghost use Rattle.hist_lock.specs.Passes.{IsOf, own_turns};
ghost use Rattle.live_monitor.specs.Monitored.{IsMonitored, can_be_killed};
ghost use Rattle.live_group.specs.Closing.{IsClosed};

use ft_base::{NoMemory, Servant};
use ft_outside::Keeper;
use group_core::GroupCore;
use live_monitor::{RunMonitor, last_look};
use shared_group::{Pass, SharedGroup};
use std::alloc::Global;
use std::sync::{Arc, Wait};

// What is behind an `Arc`, once nobody else has a clone of it.
fn unshared<R: Wait, T: Drop>(rt: &R, shared: Arc<T, Global>) -> T
    ensures { result ≡ arc_value shared }
{
    let mut shared = shared;
    for _ in rt.forever() {
        match Arc::try_unwrap(shared) {
            Ok(value) => return value,
            Err(still) => shared = still,
        }
    }
    unreachable!()
}

/// Closes the lock of a group whose hosts have ended, makes the monitor's last look, and gives the group's core.
pub fn close_group<R: Wait, S: Servant + Drop, K: Keeper + Drop>(
    rt: &R,
    group: Arc<SharedGroup<S, K>, Global>,
    main: Pass<S, K>,
    monitor: RunMonitor,
) -> Result<GroupCore<S, K>, NoMemory>
    requires own { IsOf (arc_value group).lock main }
    requires kill { can_be_killed monitor.kill }
    requires so_far { IsMonitored monitor (own_turns main) }
    ensures { IfOk result (IsClosed S.machine (arc_value group).lock main monitor.kill) }
{
    let mut monitor = monitor;
    let mut book = unshared(rt, group).close(rt, main);
    match last_look(&mut book, &mut monitor) {
        Ok(()) => Ok(book.into_core()),
        Err(NoMemory) => Err(NoMemory),
    }
}
