//! A request that is in the journal is run.
ghost use Rattle.std.specs.Prelude.{◌≡◌, ◌+◌, ℕ, IfOk, OnErr, length};
ghost use Rattle.ft_base.specs.declared.requests.Request.{Request as Asking};
ghost use Rattle.group_model.specs.Plain.{Common, Host, Place};
ghost use Rattle.group_stands.specs.Going.{HasRun};
ghost use Rattle.passive_dispatch.specs.Served.{seen, CanRun, HasJoined, IsRun, IsDecided};

use crate::serving::{Served, done};
use ft_base::{Decision, NoMemory, Outcome, Servant, Steps, Stop};
use ft_outside::Keeper;
use ft_replica::Replica;
use group_stands::{entries_run, logs_tell, replicas_go_on};
use message_log::Log;
use std::alloc::Global;
use std::sync::ledger::Ledger;
use sys_faults::Answer;

/// Runs the entry at the replica's position, sets its reply, and gives it.
#[inline(always)]
fn run_next<K: Keeper, S: Servant + Drop, L: Ledger>(
    alloc: Global,
    log: &mut Log<K>,
    replica: &mut Replica<S>,
    steps: &mut Steps<L>,
) -> Result<Outcome, NoMemory>
    requires { (c : Common) × (place : Place) × CanRun S.machine c place log.old replica.old }
    ensures run { IfOk result (λ outcome. (c : Common) (place : Place) → CanRun S.machine c place log.old replica.old →
        HasRun S.machine c place outcome log.new replica.new) }
    ensures left { OnErr result (log.new ≡ log.old) }
    ensures kind { replica.new.kind ≡ replica.old.kind }
    ensures counted { steps.new ≡ steps.old + 1 }
    ensures alone { log.new ≡ record log.old { table = log.new.table } }
{
    logs_tell();
    entries_run();
    let position = replica.position();
    let Some(request) = log.entry(position) else {
        unreachable!()
    };
    let outcome = match replica.apply(alloc, request, steps) {
        Ok(outcome) => outcome,
        Err(NoMemory) => return Err(NoMemory),
    };
    match outcome.copy(alloc) {
        Ok(told) => {
            log.set_reply(position, outcome);
            Ok(told)
        }
        Err(NoMemory) => Err(NoMemory),
    }
}

/// Runs the request that has just joined, unless the host stops before that. A host that stops, or
/// finds no memory, forgets what it ran.
#[inline(always)]
pub(crate) fn run_joined<K: Keeper, S: Servant + Drop, L: Ledger>(
    alloc: Global,
    log: &mut Log<K>,
    replica: &mut Replica<S>,
    position: u32,
    stop: Stop,
    steps: &mut Steps<L>,
) -> Served
    requires { (c : Common) × (place : Place) × (clock : ℕ) × (request : Asking) × HasJoined S.machine c place clock request (seen log.old replica.old steps.old) × (position ≡ length c.journal) }
    ensures run { (c : Common) (h : Host) (host clock : ℕ) (request : Asking) → HasJoined S.machine c h.place clock request (seen log.old replica.old steps.old) → position ≡ length c.journal →
        IsRun S.machine c h host clock request stop result (seen log.old replica.old steps.old) (seen log.new replica.new steps.new) }
    ensures decided { IsDecided (Decision.Append position) result }
    ensures alone { log.new ≡ record log.old { table = log.new.table } }
{
    replicas_go_on();
    let decision = Decision::Append(position);
    match stop {
        Stop::AfterAppend => {
            replica.blank();
            done(alloc, decision, None)
        }
        Stop::AfterExecute => {
            let ran = run_next(alloc, log, replica, steps);
            replica.blank();
            match ran {
                Ok(_outcome) => done(alloc, decision, None),
                Err(NoMemory) => Served::NoMemory,
            }
        }
        Stop::Never => match run_next(alloc, log, replica, steps) {
            Ok(outcome) => done(alloc, decision, Some(Answer::Done(outcome))),
            Err(NoMemory) => {
                replica.blank();
                Served::NoMemory
            }
        },
    }
}
