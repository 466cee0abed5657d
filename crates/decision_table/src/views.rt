//! The rows that speak of views.
ghost use Rattle.std.specs.Prelude.{◌≡◌, ◌<◌, ◌≤◌};
ghost use Rattle.group_model.specs.Asking.{asked_version};
ghost use Rattle.group_model.specs.Decisions.{first_row, known_then, refusal, refused_as, view_rows};

use ft_base::{Decision, HostNo, Style, Version, View};
use group_model::Refusal;
use sys_faults::{Answer, Completed, SysFault, SysKind};

/// What a host knows once it is asked for a version: one that knows no view, or an older one than it
/// is asked for, looks up the newest.
pub fn known_then(newest: Version, known: Version, asked: Option<Version>) -> Version
    ensures value { result.0 ≡ known_then newest.0 known.0 asked }
    ensures some { 0 < newest.0 → 0 < result.0 }
    ensures few { known.0 ≤ newest.0 → result.0 ≤ newest.0 }
{
    if known.0 == 0 {
        return newest;
    }
    match asked {
        None => known,
        Some(asked) if known.0 < asked.0 => newest,
        Some(_) => known,
    }
}

/// The version that is asked for; without one, the one that the host knows.
pub(crate) fn asked_version(known: Version, asked: Option<Version>) -> Version
    ensures { result.0 ≡ asked_version known.0 asked }
{
    match asked {
        None => known,
        Some(asked) => asked,
    }
}

/// A refusal by a system exception, of which nothing was completed.
pub(crate) fn refused(decision: Decision, kind: SysKind, minor: u32, known: Version) -> Refusal
    ensures { result ≡ refused_as decision (refusal kind minor) known.0 }
{
    Refusal {
        decision,
        answer: Answer::System(SysFault {
            kind,
            minor,
            completed: Completed::No,
        }),
        known,
    }
}

/// A refusal that sends the client elsewhere.
fn sent_on(decision: Decision, answer: Answer, known: Version) -> Refusal
    ensures { result ≡ refused_as decision answer known.0 }
{
    Refusal {
        decision,
        answer,
        known,
    }
}

/// The row on views that refuses a request at a host, of which it asks for a version: the host knows
/// this version, whose view is `view`; `last` is the newest view.
pub(crate) fn refused_by_view(
    style: Style,
    host: HostNo,
    asked: Version,
    known: Version,
    view: &View,
    last: &View,
) -> Option<Refusal>
    ensures { result ≡ first_row (view_rows style host.0 asked.0 known.0 view.now last.now.version.0 last.now) }
{
    let newest = last.version;
    if known.0 < asked.0 {
        let newer = Decision::Newer {
            asked,
            newest: known,
        };
        return Some(refused(newer, SysKind::InvObjref, 1, known));
    }
    if view.members.is_empty() {
        return Some(refused(Decision::Empty(known), SysKind::Transient, 1, known));
    }
    if asked.0 < known.0 {
        let older = Decision::Older { asked, known };
        return Some(sent_on(older, Answer::ForwardPerm(known), known));
    }
    if !view.members.has(host) {
        return Some(refused(Decision::Stranger(known), SysKind::ObjectNotExist, 2, known));
    }
    if style.is_passive() && !view.is_led_by(host) {
        return Some(sent_on(Decision::Backup(known), Answer::Forward(known), known));
    }
    if known.0 >= newest.0 {
        return None;
    }
    if last.members.is_empty() {
        return Some(refused(Decision::Empty(newest), SysKind::Transient, 1, newest));
    }
    let deposed = Decision::Deposed { known, newest };
    Some(sent_on(deposed, Answer::ForwardPerm(newest), newest))
}
