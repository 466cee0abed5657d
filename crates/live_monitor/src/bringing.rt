//! What was sent is brought.
ghost use Rattle.std.specs.List.{AllByRecursion};
ghost use Rattle.hist_lock.specs.Histories.{calls};
ghost use Rattle.hist_lock.specs.Passes.{IsOf};
ghost use Rattle.group_model.specs.Sending.{brought};
ghost use Rattle.shared_group.specs.Books.{MayCall};
ghost use Rattle.live_monitor.specs.Monitored.{GoesOn};

use ft_base::Servant;
use ft_outside::Keeper;
use group_core::event_of;
use group_model::OutList;
use shared_group::{Call, Pass, SharedGroup, calls_stay_possible};
use std::sync::Wait;

/// Brings all that the monitor's own event sent, each in a turn of its own.
pub(crate) fn bring_all<R: Wait, S: Servant + Drop, K: Keeper + Drop>(
    rt: &R,
    group: &SharedGroup<S, K>,
    pass: &mut Pass<S, K>,
    sent: OutList,
)
    requires own { IsOf group.now.lock pass.old }
    requires may { AllByRecursion (λ out. MayCall S.machine group.now.lock.opening (calls pass.old.seen) (Call.Act (brought out))) sent }
    ensures own { IsOf group.now.lock pass.new }
    ensures goes_on { GoesOn pass.old pass.new }
{
    calls_stay_possible::<S, K>();
    for out in sent.into_vec() {
        group.event(rt, pass, event_of(out));
    }
}

/// Brings what waits in the group's queue, until that is empty.
pub(crate) fn carry_all<R: Wait, S: Servant + Drop, K: Keeper + Drop>(
    rt: &R,
    group: &SharedGroup<S, K>,
    pass: &mut Pass<S, K>,
)
    requires { IsOf group.now.lock pass.old }
    ensures own { IsOf group.now.lock pass.new }
    ensures goes_on { GoesOn pass.old pass.new }
{
    for _ in rt.forever() {
        if group.carry(rt, pass).is_none() {
            return;
        }
    }
    unreachable!()
}
