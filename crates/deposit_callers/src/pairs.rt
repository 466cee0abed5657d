//! Two passes that ask in turn.
ghost use Rattle.std.specs.Prelude.{◌≡◌, ◌<◌, Contains};
ghost use Rattle.ft_base.specs.declared.limits.TheConstants.{HOST_LIMIT};
ghost use Rattle.hist_lock.specs.Histories.{turn_by};
ghost use Rattle.hist_lock.specs.Passes.{IsOf};
ghost use Rattle.group_model.specs.Agreeing.{IsShortAsked};

use ft_base::{HostNo, Servant};
use ft_outside::Keeper;
use group_model::Asked;
use shared_group::{AskAnswer, Call, CallAnswer, Pass, SharedGroup};
use std::sync::Wait;

/// Two passes ask a host in turn, and one takes in the other. What each was told stands in the history that it has seen
/// then, under the number of the pass that asked.
pub fn ask_in_turn<R: Wait, S: Servant + Drop, K: Keeper + Drop>(
    rt: &R,
    group: &SharedGroup<S, K>,
    into: &mut Pass<S, K>,
    mut gone: Pass<S, K>,
    host: HostNo,
    asked: (Asked, Asked),
) -> (AskAnswer, AskAnswer)
    requires own { IsOf group.now.lock into.old × IsOf group.now.lock gone }
    requires host { host.0 < HOST_LIMIT }
    requires short { IsShortAsked asked.0 × IsShortAsked asked.1 }
    ensures own { IsOf group.now.lock into.new }
    ensures first { Contains into.new.seen (turn_by into.old.number (Call.Ask host asked.0) (CallAnswer.Ask result.0)) }
    ensures second { Contains into.new.seen (turn_by gone.number (Call.Ask host asked.1) (CallAnswer.Ask result.1)) }
{
    let first = group.ask(rt, into, host, asked.0);
    let second = group.ask(rt, &mut gone, host, asked.1);
    group.join(into, gone);
    (first, second)
}
