//! Members are asked, and reported.
ghost use Rattle.std.specs.Prelude.{◌≡◌, ◌<◌, false};
ghost use Rattle.std.specs.List.{AllByRecursion};
ghost use Rattle.ft_base.specs.declared.limits.TheConstants.{HOST_LIMIT};
ghost use Rattle.hist_lock.specs.Passes.{IsOf, own_turns};
ghost use Rattle.live_monitor.specs.Monitored.{AreShown, GoesOn, WasDown};

use crate::bringing::bring_all;
use crate::states::RunMonitor;
use ft_base::{HostNo, Members, NoMemory, Servant, Tick};
use ft_outside::Keeper;
use group_looks::{Figure, Figures};
use group_model::{Change, Event, GroupAnswer};
use shared_group::{Pass, SharedGroup, free_calls_may_be_made, sent_may_be_brought};
use std::sync::Wait;

// Reports a host, and brings the views that this sends.
fn report<R: Wait, S: Servant + Drop, K: Keeper + Drop>(
    rt: &R,
    group: &SharedGroup<S, K>,
    pass: &mut Pass<S, K>,
    host: HostNo,
)
    requires own { IsOf group.now.lock pass.old }
    requires host { host.0 < HOST_LIMIT }
    requires down { WasDown host.0 (own_turns pass.old) }
    ensures own { IsOf group.now.lock pass.new }
    ensures goes_on { GoesOn pass.old pass.new }
{
    free_calls_may_be_made::<S>();
    sent_may_be_brought::<S>();
    let answer = group.event(rt, pass, Event::Manage(Change::Report(host)));
    let GroupAnswer::Changed { view: _, out } = answer else {
        return;
    };
    bring_all(rt, group, pass, out);
}

// Asks a host that is a member where that is due, and reports it where its answer is overdue.
fn attend<R: Wait, S: Servant + Drop, K: Keeper + Drop>(
    rt: &R,
    group: &SharedGroup<S, K>,
    pass: &mut Pass<S, K>,
    monitor: &mut RunMonitor,
    members: &Members,
    figure: &Figure,
    now: Tick,
) -> Result<(), NoMemory>
    requires own { IsOf group.now.lock pass.old }
    requires hosts { AllByRecursion (λ host. host < HOST_LIMIT) members.now }
    requires down { figure.now.up ≡ false → WasDown figure.now.host.0 (own_turns pass.old) }
    ensures own { IsOf group.now.lock pass.new }
    ensures goes_on { GoesOn pass.old pass.new }
    ensures monitor { monitor.new ≡ monitor.old }
{
    if !members.has(figure.host) {
        return Ok(());
    }
    let late = match monitor.is_late(group.group(), figure, now) {
        Ok(late) => late,
        Err(NoMemory) => return Err(NoMemory),
    };
    if !late {
        return Ok(());
    }
    report(rt, group, pass, figure.host);
    Ok(())
}

/// Asks each member that is due, and reports each whose answer is overdue.
pub(crate) fn attend_all<R: Wait, S: Servant + Drop, K: Keeper + Drop>(
    rt: &R,
    group: &SharedGroup<S, K>,
    pass: &mut Pass<S, K>,
    monitor: &mut RunMonitor,
    figures: &Figures,
    now: Tick,
) -> Result<(), NoMemory>
    requires own { IsOf group.now.lock pass.old }
    requires shown { AreShown figures.now (own_turns pass.old) }
    ensures own { IsOf group.now.lock pass.new }
    ensures goes_on { GoesOn pass.old pass.new }
    ensures monitor { monitor.new ≡ monitor.old }
{
    let members = &figures.view.members;
    for figure in figures.hosts.as_slice() {
        match attend(rt, group, pass, monitor, members, figure, now) {
            Ok(()) => {}
            Err(NoMemory) => return Err(NoMemory),
        }
    }
    Ok(())
}
