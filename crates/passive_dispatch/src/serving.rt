ghost use Rattle.std.specs.Prelude.{◌≡◌, ℕ, Some, max};
ghost use Rattle.ft_base.specs.declared.requests.Outcome.{Outcome};
ghost use Rattle.reply_table.specs.Entries.{reply_of};
ghost use Rattle.message_log.specs.Admission.{admitted};
ghost use Rattle.group_model.specs.Decisions.{refusal as refused};
ghost use Rattle.group_model.specs.Plain.{Common, Host, Place};
ghost use Rattle.passive_dispatch.specs.Served.{alone, seen, CanServe, IfNoMemory, IsServed, IsTold, IsWritten, TakesMemory};

use crate::running::run_joined;
use ft_base::{
    Admission, Decision, HostNo, JOURNAL_LIMIT, NoMemory, Request, Servant, Steps, Stop, Tick,
    Version,
};
use ft_outside::Keeper;
use ft_replica::Replica;
use group_model::OutList;
use group_stands::{logs_admit, logs_go_on, logs_tell, repeats_are_answered};
use message_log::{Admit, Appended, Log};
use std::alloc::Global;
use std::sync::ledger::Ledger;
use sys_faults::{Answer, Completed, SysFault, SysKind};

/// How a request comes to a host of its group: to which, what the host's clock shows, and where the host
/// stops in the middle of it.
#[derive(Clone, Copy)]
pub struct Arrival {
    pub host: HostNo,
    pub clock: Tick,
    pub stop: Stop,
}

/// What a request came to: what was decided and answered, and what the other members are sent. A host
/// that stopped has no answer, and sends nothing.
#[derive(Drop)]
pub struct Replied {
    pub decision: Decision,
    pub answer: Option<Answer>,
    pub out: OutList,
}

/// What came of a request.
#[derive(Drop)]
pub enum Served {
    Done(Replied),
    /// There was no memory. Nothing has changed; or the request was accepted, has no reply yet, and the
    /// replica is blank.
    NoMemory,
}

/// It was decided and answered so, and nothing is sent.
pub(crate) fn done(alloc: Global, decision: Decision, answer: Option<Answer>) -> Served
    ensures { result ≡ Served.Done (alone decision answer) }
{
    Served::Done(Replied {
        decision,
        answer,
        out: OutList::new(alloc),
    })
}

/// A system exception, of which nothing was completed.
fn refusal(kind: SysKind, minor: u32) -> Option<Answer>
    ensures { result ≡ Some (refused kind minor) }
{
    Some(Answer::System(SysFault {
        kind,
        minor,
        completed: Completed::No,
    }))
}

/// A request whose expiration has come by now.
fn expired(alloc: Global, expiration: Tick, now: Tick) -> Served
    ensures { result ≡ Served.Done (alone (Decision.Expired expiration now) (Some (refused SysKind.BadContext 1))) }
{
    let decision = Decision::Expired { expiration, now };
    done(alloc, decision, refusal(SysKind::BadContext, 1))
}

/// A repeat of the entry at a position is given that entry's reply.
fn repeat<K: Keeper>(alloc: Global, log: &Log<K>, position: u32) -> Served
    requires { (reply : Outcome) × (reply_of log.now.table position ≡ Some reply) }
    ensures { (reply : Outcome) → reply_of log.now.table position ≡ Some reply → IsTold (Decision.Repeat position) (Some (Answer.Done reply)) result }
{
    let Some(outcome) = log.table().reply(position) else {
        unreachable!()
    };
    match outcome.copy(alloc) {
        Ok(outcome) => {
            let answer = Some(Answer::Done(outcome));
            done(alloc, Decision::Repeat(position), answer)
        }
        Err(NoMemory) => Served::NoMemory,
    }
}

/// The log's write failed, so whether the request is in the journal isn't known.
fn unwritten(alloc: Global) -> Served
    ensures { result ≡ Served.Done (alone Decision.LogFault (Some (Answer.System (record { kind = SysKind.PersistStore; minor = 1; completed = Completed.Maybe })))) }
{
    let answer = Answer::System(SysFault {
        kind: SysKind::PersistStore,
        minor: 1,
        completed: Completed::Maybe,
    });
    done(alloc, Decision::LogFault, Some(answer))
}

/// Serves a request at a host whose replica has run the whole journal, for a writer that knows the
/// newest version; the request may be run by its servant, and its arguments aren't too long. What a host
/// of an active group sends to the others isn't added here.
#[inline(always)]
pub fn serve<K: Keeper, S: Servant + Drop, L: Ledger>(
    alloc: Global,
    log: &mut Log<K>,
    replica: &mut Replica<S>,
    version: Version,
    arrival: Arrival,
    request: Request,
    steps: &mut Steps<L>,
) -> Served
    requires { (c : Common) × (place : Place) × CanServe S.machine c place version.0 request (seen log.old replica.old steps.old) }
    ensures served { (c : Common) (h : Host) → CanServe S.machine c h.place version.0 request (seen log.old replica.old steps.old) →
        IsServed S.machine c h arrival.host.0 arrival.clock.0 request arrival.stop result (seen log.old replica.old steps.old) (seen log.new replica.new steps.new) }
    ensures written { IsWritten result log.old version arrival.clock request log.new }
    ensures short { IfNoMemory result (TakesMemory (admitted log.old version.0 arrival.clock.0 request)) }
{
    logs_tell();
    logs_go_on();
    logs_admit();
    repeats_are_answered();
    let Arrival { clock, stop, .. } = arrival;
    let Admit::Admission(admission) = log.admit(version, clock, &request) else {
        unreachable!()
    };
    match admission {
        Admission::Expired(expiration) => expired(
            alloc,
            expiration,
            Tick(clock.0.max(log.time().0)),
        ),
        Admission::Same(position) => repeat(alloc, log, position),
        Admission::Other(position) => {
            let answer = refusal(SysKind::BadContext, 2);
            done(alloc, Decision::Other(position), answer)
        }
        Admission::Full => {
            let answer = refusal(SysKind::NoResources, 1);
            done(alloc, Decision::Full(JOURNAL_LIMIT as u32), answer)
        }
        // Memory for the entry is taken before anything is written. This arm is no function of its own, since the
        // request would be moved into it right after it was made.
        Admission::New => {
            if let Err(NoMemory) = log.reserve(alloc, version, clock, &request) {
                return Served::NoMemory;
            }
            match log.append_reserved(version, clock, request) {
                Appended::Failed => unwritten(alloc),
                Appended::At(position) => run_joined(alloc, log, replica, position, stop, steps),
            }
        }
    }
}
