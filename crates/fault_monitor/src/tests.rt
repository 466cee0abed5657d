use crate::Monitor;
use ft_base::{GroupId, HostNo, NoMemory, Tick};
use std::alloc::Global;

#[derive(Clone, Copy)]
enum Step {
    Watch(u64, u64),
    Unwatch,
    Ask(u64),
    /// An answer, and whether it counts.
    Answer(bool),
    /// Whether it is due and whether it is overdue at a tick.
    Is(u64, bool, bool),
}

const GROUP: GroupId = GroupId(7);

const HOST: HostNo = HostNo(3);

fn is_done(monitor: &mut Monitor, step: Step) -> Result<bool, NoMemory> {
    match step {
        Step::Watch(interval, timeout) => {
            monitor.watch(GROUP, HOST, Tick(interval), Tick(timeout))?;
            Ok(true)
        }
        Step::Unwatch => {
            monitor.unwatch(GROUP, HOST);
            Ok(true)
        }
        Step::Ask(now) => {
            monitor.asked(GROUP, HOST, Tick(now));
            Ok(true)
        }
        Step::Answer(counts) => Ok(monitor.answered(GROUP, HOST) == counts),
        Step::Is(now, due, overdue) => {
            let is_due = monitor.due(GROUP, HOST, Tick(now)) == due;
            let is_overdue = monitor.overdue(GROUP, HOST, Tick(now)) == overdue;
            Ok(is_due && is_overdue)
        }
    }
}

/// The first step that isn't as it should be.
fn first_wrong(alloc: Global, steps: &[Step]) -> Result<Option<usize>, NoMemory> {
    let mut monitor = Monitor::new(alloc);
    // another group's member at the host, and another host's of the group
    monitor.watch(GroupId(8), HOST, Tick(1), Tick(1))?;
    monitor.watch(GROUP, HostNo(4), Tick(1), Tick(1))?;
    monitor.asked(GroupId(8), HOST, Tick(0));
    monitor.asked(GROUP, HostNo(4), Tick(0));
    for at in 0..steps.len() {
        if !is_done(&mut monitor, steps[at])? {
            return Ok(Some(at));
        }
    }
    Ok(None)
}

#[test]
fn asks(rt: HostRuntime) -> Result<(), NoMemory> {
    let steps = [
        // nobody watches it
        Step::Is(0, false, false),
        Step::Ask(0),
        Step::Answer(false),
        Step::Is(99, false, false),
        // watched: due at once, and again an interval after its last ask
        Step::Watch(10, 5),
        Step::Is(0, true, false),
        Step::Ask(100),
        Step::Is(109, false, true),
        Step::Is(110, true, true),
        Step::Is(104, false, false),
        Step::Is(105, false, true),
        // what counts is the first ask without an answer, and the last ask
        Step::Ask(103),
        Step::Is(105, false, true),
        Step::Is(112, false, true),
        Step::Is(113, true, true),
        Step::Answer(true),
        Step::Is(112, false, false),
        Step::Is(500, true, false),
        // other numbers; what was heard stays
        Step::Ask(200),
        Step::Watch(20, 50),
        Step::Is(219, false, false),
        Step::Is(220, true, false),
        Step::Is(249, true, false),
        Step::Is(250, true, true),
        // an ask at a tick that is still to come, and numbers at their ends
        Step::Is(199, false, false),
        Step::Watch(u64::MAX, u64::MAX),
        Step::Is(u64::MAX, false, false),
        // forgotten, and watched anew
        Step::Unwatch,
        Step::Is(500, false, false),
        Step::Watch(10, 5),
        Step::Is(500, true, false),
    ];
    assert_eq!(rt; first_wrong(rt.alloc(), steps.as_slice())?, None);
    Ok(())
}
