ghost use Rattle.std.specs.Prelude.{◌≡◌, IfOk};
ghost use Rattle.shown_ends.specs.Ends.{shown_end, shown_outcome};

use client_retry::End;
use ft_base::{NoMemory, Outcome, Par};
use ft_report::{CallEnd, ReportOutcome, worth_of};
use std::alloc::Global;

/// What a request came to; an outcome of an operation that gives this.
#[inline(always)]
pub fn shown_outcome(
    alloc: Global,
    gives: Option<Par>,
    outcome: &Outcome,
) -> Result<ReportOutcome, NoMemory>
    ensures { IfOk result (λ shown. shown ≡ shown_outcome gives outcome.now) }
{
    match outcome {
        Outcome::Value(value) => {
            let worth = worth_of(alloc, gives, value)?;
            Ok(ReportOutcome::Value(worth))
        }
        Outcome::User(name) => {
            let name = name.copy(alloc)?;
            Ok(ReportOutcome::User(name))
        }
    }
}

/// How an invocation ended; an outcome of an operation that gives this.
pub fn shown_end(alloc: Global, gives: Option<Par>, end: &End) -> Result<CallEnd, NoMemory>
    ensures { IfOk result (λ shown. shown ≡ shown_end gives end.now) }
{
    match end {
        End::Outcome(outcome) => {
            let shown = shown_outcome(alloc, gives, outcome)?;
            Ok(CallEnd::Shown(shown))
        }
        End::System(fault) => {
            let fault = fault.copy(alloc)?;
            Ok(CallEnd::Shown(ReportOutcome::System(fault)))
        }
        End::NoResponse { expiration, now } => Ok(CallEnd::NoResponse {
            expiration: *expiration,
            now: *now,
        }),
        End::Transient { faults, profiles } => Ok(CallEnd::Transient {
            faults: *faults,
            profiles: *profiles,
        }),
        End::IdsSpent => Ok(CallEnd::IdsSpent),
    }
}
