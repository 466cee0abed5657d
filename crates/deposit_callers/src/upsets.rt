//! Hosts that stop and start again, and members that change.
ghost use Rattle.std.specs.Prelude.{◌<◌};
ghost use Rattle.std.specs.List.{AllByRecursion};
ghost use Rattle.hist_lock.specs.Histories.{calls};
ghost use Rattle.hist_lock.specs.Passes.{IsOf};
ghost use Rattle.group_model.specs.Sending.{brought};
ghost use Rattle.shared_group.specs.Books.{MayCall};
ghost use Rattle.shared_group.specs.Laws.{ComesFromOutside};

use ft_base::{HostNo, Servant, Tick};
use ft_outside::Keeper;
use group_core::event_of;
use group_model::{Change, Event, GroupAnswer, Out};
use shared_group::{
    Call, Pass, SharedGroup, calls_stay_possible, free_calls_may_be_made, sent_may_be_brought,
};
use std::sync::Wait;

/// The hosts that are asked, stopped and started again: 0 and those behind it, so many.
pub const HOST_COUNT: u8 = 4;

// Brings what an event sent to the hosts to which it goes.
fn bring<R: Wait, S: Servant + Drop, K: Keeper + Drop>(
    rt: &R,
    group: &SharedGroup<S, K>,
    pass: &mut Pass<S, K>,
    out: Vec<Out>,
)
    requires own { IsOf group.now.lock pass.old }
    requires may { AllByRecursion (λ out. MayCall S.machine group.now.lock.opening (calls pass.old.seen) (Call.Act (brought out))) out.items }
    ensures { IsOf group.now.lock pass.new }
{
    calls_stay_possible::<S, K>();
    for sent in out {
        group.event(rt, pass, event_of(sent));
    }
}

// Acts an event that comes from outside of the group, and brings what it sends.
fn act<R: Wait, S: Servant + Drop, K: Keeper + Drop>(
    rt: &R,
    group: &SharedGroup<S, K>,
    pass: &mut Pass<S, K>,
    event: Event,
)
    requires own { IsOf group.now.lock pass.old }
    requires outside { ComesFromOutside event }
    ensures { IsOf group.now.lock pass.new }
{
    free_calls_may_be_made::<S>();
    sent_may_be_brought::<S>();
    if let GroupAnswer::Changed { view: _view, out } = group.event(rt, pass, event) {
        bring(rt, group, pass, out.into_vec());
    }
}

/// What was sent arrives, as much of it.
pub fn carry_some<R: Wait, S: Servant + Drop, K: Keeper + Drop>(
    rt: &R,
    group: &SharedGroup<S, K>,
    pass: &mut Pass<S, K>,
    most: u32,
)
    requires { IsOf group.now.lock pass.old }
    ensures { IsOf group.now.lock pass.new }
{
    for _ in 0..most {
        if group.carry(rt, pass).is_none() {
            return;
        }
    }
}

/// A host stops, is reported, starts again and joins as the last member; the next one leads, and a checkpoint is taken.
pub fn upset<R: Wait, S: Servant + Drop, K: Keeper + Drop>(
    rt: &R,
    group: &SharedGroup<S, K>,
    pass: &mut Pass<S, K>,
    host: u8,
)
    requires own { IsOf group.now.lock pass.old }
    requires host { host < HOST_COUNT }
    ensures { IsOf group.now.lock pass.new }
{
    let next = (host + 1) % HOST_COUNT;
    act(rt, group, pass, Event::Crash(HostNo(host)));
    act(rt, group, pass, Event::Manage(Change::Report(HostNo(host))));
    act(rt, group, pass, Event::Restart(HostNo(host)));
    act(rt, group, pass, Event::Manage(Change::Add(HostNo(host))));
    act(
        rt,
        group,
        pass,
        Event::Manage(Change::Primary(HostNo(next))),
    );
    group.checkpoint(rt, pass, Tick(0));
    carry_some(rt, group, pass, 64);
}
