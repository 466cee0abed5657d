//! One round of the monitor.
ghost use Rattle.std.specs.Prelude.{◌≡◌};
ghost use Rattle.hist_lock.specs.Passes.{IsOf, own_turns};
ghost use Rattle.live_monitor.specs.Monitored.{HasLooked, IsMonitored, can_be_killed, is_worth};

use crate::bringing::carry_all;
use crate::looks::look;
use crate::members::attend_all;
use crate::states::RunMonitor;
use ft_base::{NoMemory, Servant, Tick};
use ft_outside::Keeper;
use group_looks::Figures;
use shared_group::{Pass, SharedGroup};
use std::sync::Wait;

// Whether a checkpoint is worth its cost.
fn is_worth(figures: &Figures) -> bool
    ensures { result ≡ is_worth figures.now }
{
    let entries = u64::from(figures.entries);
    let mark = u64::from(figures.mark);
    entries >= mark + 100 && entries >= 2 * mark
}

/// One round at this moment: a look, which may kill; the members asked and reported; what was sent brought; and a checkpoint
/// where it is worth its cost. Where memory is wanted the round ends there.
pub fn round<R: Wait, S: Servant + Drop, K: Keeper + Drop>(
    rt: &R,
    group: &SharedGroup<S, K>,
    pass: &mut Pass<S, K>,
    monitor: &mut RunMonitor,
    now: Tick,
) -> Result<(), NoMemory>
    requires own { IsOf group.now.lock pass.old }
    requires kill { can_be_killed monitor.old.kill }
    requires so_far { IsMonitored monitor.old (own_turns pass.old) }
    ensures own { IsOf group.now.lock pass.new }
    ensures number { pass.new.number ≡ pass.old.number }
    ensures kill { monitor.new.kill ≡ monitor.old.kill }
    ensures so_far { IsMonitored monitor.new (own_turns pass.new) }
    ensures looks { HasLooked (own_turns pass.old) (own_turns pass.new) }
{
    let figures = match look(rt, group, pass, monitor) {
        Ok(figures) => figures,
        Err(NoMemory) => return Err(NoMemory),
    };
    match attend_all(rt, group, pass, monitor, &figures, now) {
        Ok(()) => {}
        Err(NoMemory) => return Err(NoMemory),
    }
    carry_all(rt, group, pass);
    if !is_worth(&figures) {
        return Ok(());
    }
    group.checkpoint(rt, pass, now);
    Ok(())
}
