ghost use Rattle.std.specs.Prelude.{◌≡◌, ◌+◌, ◌<◌, ◌^◌, length, Some};
ghost use Rattle.message_log.specs.Picture.{view_at};
ghost use Rattle.group_model.specs.Decisions.{request_in};
ghost use Rattle.group_model.specs.Plain.{Common};
ghost use Rattle.ft_base.specs.declared.views.View.{View as AView};
ghost use Rattle.decision_table.specs.Passing.{told_of, IsAsked, Passes, IfNoMemory, IfRequest, MayBeServed, TakesMemory};

use crate::arguments::{Unpassed, request_named};
use crate::views::{asked_version, refused_by_view};
use ft_base::{HostNo, Request, Servant, Style, Version, View};
use ft_outside::Keeper;
use group_model::{Asked, Refusal};
use group_stands::{logs_tell, views_are_shown};
use message_log::Log;
use std::alloc::Global;

/// What came of what was asked.
#[derive(Drop)]
pub enum Passed {
    /// No row refused it, and this is the request.
    Request(Request),
    /// The first row that stands refused it.
    Refused(Refusal),
    NoMemory,
}

fn told(passed: Result<Request, Unpassed>) -> Passed
    ensures { result ≡ told_of passed }
{
    match passed {
        Ok(request) => Passed::Request(request),
        Err(Unpassed::Refused(refusal)) => Passed::Refused(refusal),
        Err(Unpassed::NoMemory) => Passed::NoMemory,
    }
}

/// The view of a version that the log has.
fn view_of<K: Keeper>(log: &Log<K>, version: Version) -> &View
    requires { (view : AView) × (view_at log.now version.0 ≡ Some view) }
    ensures { view_at log.now version.0 ≡ Some result.now }
{
    let Some(view) = log.view(version) else {
        unreachable!()
    };
    view
}

/// What is asked of a host that knows a version, against the rows before its group's journal.
///
/// `known` is what `known_then` gives of what the host knew before.
pub fn pass<S: Servant, K: Keeper>(
    alloc: Global,
    log: &Log<K>,
    style: Style,
    servant: &S,
    host: HostNo,
    known: Version,
    asked: Asked,
) -> Passed
    requires stands { (c : Common) × IsAsked S.machine c log.now style (S.kind servant.now) known.0 }
    requires short { asked.body.align + length asked.body.bytes + 8 < 2 ^ 32 }
    ensures passed { (c : Common) → IsAsked S.machine c log.now style (S.kind servant.now) known.0 →
        Passes (request_in (S.machine c.kind) c host.0 known.0 asked) result }
    ensures served { (c : Common) → IsAsked S.machine c log.now style (S.kind servant.now) known.0 →
        IfRequest result (MayBeServed (S.machine c.kind) c known.0) }
    ensures unread { (c : Common) → IsAsked S.machine c log.now style (S.kind servant.now) known.0 →
        IfNoMemory result (TakesMemory (S.machine c.kind) c host.0 known.0 asked) }
{
    logs_tell();
    views_are_shown();
    let wanted = asked_version(known, asked.version);
    let view = view_of(log, known);
    if let Some(refusal) = refused_by_view(style, host, wanted, known, view, log.newest()) {
        return Passed::Refused(refusal);
    }
    told(request_named(alloc, servant, known, asked))
}
