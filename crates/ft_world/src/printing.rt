//! Answers as they are printed.
ghost use Rattle.std.specs.Prelude.{◌≡◌, IfOk};
ghost use Rattle.ft_world.specs.Printed.{shown};

use ft_base::{Name, NoMemory, Par};
use ft_report::ReportOutcome;
use shown_ends::shown_outcome;
use std::alloc::Global;
use sys_faults::Answer;

/// A group's answer, with the group's name where it turns the client to a reference.
pub(crate) fn shown(
    alloc: Global,
    group: &Name,
    gives: Option<Par>,
    answer: &Answer,
) -> Result<ReportOutcome, NoMemory>
    ensures { IfOk result (λ printed. printed ≡ shown group.now gives answer.now) }
{
    match answer {
        Answer::Done(outcome) => shown_outcome(alloc, gives, outcome),
        Answer::System(fault) => {
            let fault = fault.copy(alloc)?;
            Ok(ReportOutcome::System(fault))
        }
        Answer::Forward(version) => {
            let group = group.copy(alloc)?;
            Ok(ReportOutcome::Forward {
                group,
                version: *version,
            })
        }
        Answer::ForwardPerm(version) => {
            let group = group.copy(alloc)?;
            Ok(ReportOutcome::ForwardPerm {
                group,
                version: *version,
            })
        }
    }
}
