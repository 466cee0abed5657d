//! A list of events.
ghost use Rattle.std.specs.Prelude.{◌≡◌, ◌<◌, IfOk, OnErr};
ghost use Rattle.group_model.specs.Plain.{Group};
ghost use Rattle.group_core.specs.Cores.{Stands};
ghost use Rattle.group_core.specs.Running.{AlwaysAgree, GoesOn, HasRun, HasStopped, is_short, steps_of};

use crate::cores::GroupCore;
use ft_base::{NoMemory, Servant, Steps, push_within};
use ft_outside::Keeper;
use group_model::{Event, GroupAnswer, calls_are_counted, groups_grow, groups_stay_sound};
use std::alloc::Global;
use std::sync::ledger::Ledger;

/// Whether memory was wanted.
pub fn is_short(answer: &GroupAnswer) -> bool
    ensures { result ≡ is_short answer.now }
{
    match answer {
        GroupAnswer::NoMemory => true,
        _ => false,
    }
}

/// Acts these events, one after another, and gives their answers. It stops where memory is wanted.
pub fn run<S: Servant + Drop, K: Keeper, L: Ledger>(
    alloc: Global,
    core: &mut GroupCore<S, K>,
    events: Vec<Event>,
    steps: &mut Steps<L>,
) -> Result<Vec<GroupAnswer>, NoMemory>
    requires { (g : Group) × Stands S.machine core.old g × AlwaysAgree (S.machine g.common.kind) g events.items }
    ensures ran { IfOk result (λ answers. (g : Group) → Stands S.machine core.old g → AlwaysAgree (S.machine g.common.kind) g events.items →
        HasRun S.machine g events.items answers.items core.new steps.old steps.new) }
    ensures goes_on { IfOk result (λ answers. (g : Group) → Stands S.machine core.old g → AlwaysAgree (S.machine g.common.kind) g events.items →
        GoesOn (S.machine g.common.kind) g (steps_of events.items answers.items)) }
    ensures stopped { OnErr result ((g : Group) → Stands S.machine core.old g → AlwaysAgree (S.machine g.common.kind) g events.items →
        HasStopped S.machine g events.items core.new steps.old steps.new) }
{
    groups_stay_sound();
    groups_grow();
    calls_are_counted();
    let mut answers: Vec<GroupAnswer> = Vec::new(alloc);
    for event in events {
        if answers.reserve(1).is_err() {
            return Err(NoMemory);
        }
        let answer = core.act(alloc, event, steps);
        if is_short(&answer) {
            return Err(NoMemory);
        }
        push_within(&mut answers, answer);
    }
    Ok(answers)
}
