//! What a reply means to the invocation that waits for it.
ghost use Rattle.std.specs.Prelude.{◌≡◌};
ghost use Rattle.client_retry.specs.Meanings.{is_failure, said, replied};

use crate::answers::{End, Heard};
use ft_base::Tick;
use iogr_reference::GroupRef;
use sys_faults::SysKind;

/// What came for an invocation, by what it makes of it.
#[derive(Drop)]
pub enum Meaning {
    /// It doesn't count.
    Unheard,
    /// At this moment: the member that was asked can't serve, or can't be understood, or says nothing.
    Fault(Tick),
    /// There is a newer reference.
    Newer(GroupRef),
    /// The invocation ends so.
    Final(End),
}

/// Whether another member might answer otherwise.
pub(crate) fn is_failure(kind: &SysKind) -> bool
    ensures { result ≡ is_failure kind.now }
{
    match kind {
        SysKind::CommFailure => true,
        SysKind::Transient => true,
        SysKind::NoResponse => true,
        SysKind::ObjAdapter => true,
        _ => false,
    }
}

/// What a reply that comes at this moment says to an invocation over this reference.
pub(crate) fn said(reference: &GroupRef, now: Tick, heard: Heard) -> Meaning
    ensures { result ≡ said reference.now now heard }
{
    match heard {
        Heard::Outcome(outcome) => Meaning::Final(End::Outcome(outcome)),
        Heard::System(fault) => {
            if is_failure(&fault.kind) {
                Meaning::Fault(now)
            } else {
                Meaning::Final(End::System(fault))
            }
        }
        Heard::Forward(other) => {
            if reference.version.0 < other.version.0 {
                Meaning::Newer(other)
            } else {
                Meaning::Fault(now)
            }
        }
        Heard::Unreadable => Meaning::Fault(now),
    }
}

/// The same of a reply by its id, with the first and the last id of the invocation.
pub(crate) fn replied(first: u32, last: u32, id: u32, said: Meaning) -> Meaning
    ensures { result ≡ replied first last id said }
{
    if id < first || last < id {
        return Meaning::Unheard;
    }
    match said {
        Meaning::Fault(_) if id < last => Meaning::Unheard,
        said => said,
    }
}
