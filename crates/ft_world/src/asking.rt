//! A request that comes to a group: by [`ask`], from whichever door.
ghost use Rattle.std.specs.Prelude.{◌≡◌, ◌<◌, IfOk, OnOk, Some, length, slice_get};
ghost use Rattle.cdr_codec.specs.declared.orders.Order.{Order as ByteOrder};
ghost use Rattle.ft_base.specs.declared.limits.TheConstants.{HOST_LIMIT};
ghost use Rattle.ft_base.specs.Machine.{gives_of};
ghost use Rattle.group_model.specs.Agreeing.{IsShortAsked};
ghost use Rattle.group_model.specs.Asking.{signature_asked};
ghost use Rattle.host_server.specs.Replies.{CanReply, IsReply};
ghost use Rattle.script_groups.specs.Groups.{ScriptGroup as Group, machine_of, placed};
ghost use Rattle.script_groups.specs.References.{ior_at};
ghost use Rattle.script_world.specs.Sound.{IsKeptWorld};
ghost use Rattle.ft_world.specs.Requests.{Asks, CanBeSaid, CanRedirect, CanRedirectIn, IsInForm, ask, forward_by, port_answer, redirect_of, said_by};

use ft_base::{Decision, HostNo, Name, NoMemory, Par, Steps, Stop, Version, gives_of};
use group_model::{Asked, Event, GroupAnswer, OutList};
use host_server::PortAnswer;
use iogr_reference::Ior;
use link_session::view_references_can_be_sent;
use script_groups::{answers_are_in_form, shown_are_views};
use script_world::World;
use std::sync::ledger::Ledger;
use sys_faults::Answer;

/// A host's reply to a request.
#[derive(Drop)]
pub struct HostReply {
    pub decision: Decision,
    pub answer: Answer,
    /// What the request's operation gives.
    pub gives: Option<Par>,
    /// The reference to which the answer redirects, where it does.
    pub redirect: Option<Ior>,
    /// What the host sends to other members behind its reply.
    pub out: OutList,
}

/// What a host says to a request.
#[derive(Drop)]
pub enum Said {
    Reply(HostReply),
    /// Nothing: it stopped at the request.
    Stopped(Decision),
    /// Nothing: it is down.
    Down,
}

// What the operation that is asked of the group at this place gives.
fn gives_asked(world: &World, place: usize, op: &Option<Name>) -> Option<Par>
    requires within { place < length world.now.groups }
    requires kept { IsKeptWorld world.now }
    ensures { (g : Group) → slice_get world.now.groups place ≡ Some g → result ≡ gives_of (signature_asked (machine_of g) op.now) }
{
    match op {
        None => None,
        Some(op) => gives_of(world.group(place).signature(op)),
    }
}

// Where the view of this version can be reached.
fn reference(world: &World, place: usize, version: Version) -> Result<Option<Ior>, NoMemory>
    requires within { place < length world.now.groups }
    requires kept { IsKeptWorld world.now }
    ensures value { (g : Group) → slice_get world.now.groups place ≡ Some g → IfOk result (λ redirect. redirect ≡ ior_at g version.0) }
    ensures can { IfOk result CanRedirect }
{
    view_references_can_be_sent();
    shown_are_views();
    let group = world.group(place);
    group.is_sound();
    match group.ior_at(world.alloc(), version, world.ports()) {
        Ok(redirect) => Ok(redirect),
        Err(NoMemory) => Err(NoMemory),
    }
}

// The reference to which an answer of the group at this place redirects.
fn redirect_of(world: &World, place: usize, answer: &Answer) -> Result<Option<Ior>, NoMemory>
    requires within { place < length world.now.groups }
    requires kept { IsKeptWorld world.now }
    ensures value { (g : Group) → slice_get world.now.groups place ≡ Some g → IfOk result (λ redirect. redirect ≡ redirect_of g answer.now) }
    ensures can { IfOk result CanRedirect }
{
    match answer {
        Answer::Done(_) | Answer::System(_) => Ok(None),
        Answer::Forward(version) => reference(world, place, *version),
        Answer::ForwardPerm(version) => reference(world, place, *version),
    }
}

// What the host says, where the group at this place has answered so.
fn said_by(
    world: &World,
    place: usize,
    gives: Option<Par>,
    answer: GroupAnswer,
) -> Result<Said, NoMemory>
    requires within { place < length world.now.groups }
    requires kept { IsKeptWorld world.now }
    ensures said { (g : Group) → slice_get world.now.groups place ≡ Some g → IfOk result (λ said. said ≡ said_by g gives answer) }
    ensures can { IfOk result CanRedirectIn }
{
    let GroupAnswer::Reply {
        decision,
        answer,
        out,
    } = answer
    else {
        return Ok(Said::Down);
    };
    let Some(answer) = answer else {
        return Ok(Said::Stopped(decision));
    };
    match redirect_of(world, place, &answer) {
        Ok(redirect) => Ok(Said::Reply(HostReply {
            decision,
            answer,
            gives,
            redirect,
            out,
        })),
        Err(NoMemory) => Err(NoMemory),
    }
}

/// A request comes to the group at this place. All requests to groups come by here; what is printed and sent of one is its
/// door's.
pub(crate) fn ask<L: Ledger>(
    world: &mut World,
    place: usize,
    host: HostNo,
    asked: Asked,
    stop: Stop,
    steps: &mut Steps<L>,
) -> Result<Said, NoMemory>
    requires within { place < length world.old.groups }
    requires host { host.0 < HOST_LIMIT }
    requires short { IsShortAsked asked }
    requires kept { IsKeptWorld world.old }
    ensures asks { (g : Group) → slice_get world.old.groups place ≡ Some g →
        Asks (ask world.old (placed place g) host asked stop) result world.new steps.old steps.new }
    ensures can { (g : Group) → slice_get world.old.groups place ≡ Some g → IfOk result (CanBeSaid world.new.groups g.id) }
    ensures kept { OnOk result (IsKeptWorld world.new) }
{
    answers_are_in_form();
    world.group(place).is_sound();
    // The operation is looked up by itself: where a part of a request is pointed at, all of it is written down first, and
    // then once more where it goes.
    let Asked {
        version,
        key,
        bad_context,
        op,
        body,
    } = asked;
    let gives = gives_asked(world, place, &op);
    let asked = Asked {
        version,
        key,
        bad_context,
        op,
        body,
    };
    let event = Event::Request {
        host,
        clock: world.host_clock(host),
        asked,
        stop,
    };
    match world.event_at(place, event, steps) {
        GroupAnswer::NoMemory => Err(NoMemory),
        answer => said_by(world, place, gives, answer),
    }
}

fn forward(perm: bool, redirect: Option<Ior>) -> PortAnswer
    requires { CanRedirect redirect }
    ensures is { result ≡ forward_by perm redirect }
    ensures reply { IsReply result }
    ensures can { (order : ByteOrder) → CanReply order result }
{
    match redirect {
        Some(body) => PortAnswer::Forward { perm, body },
        None => PortAnswer::NoGroup,
    }
}

/// A host's answer as it goes over a link.
pub(crate) fn port_answer(gives: Option<Par>, redirect: Option<Ior>, answer: Answer) -> PortAnswer
    requires form { IsInForm gives answer }
    requires redirect { CanRedirect redirect }
    ensures is { result ≡ port_answer gives redirect answer }
    ensures reply { IsReply result }
    ensures can { (order : ByteOrder) → CanReply order result }
{
    match answer {
        Answer::Done(outcome) => PortAnswer::Done { outcome, gives },
        Answer::System(fault) => PortAnswer::System(fault),
        Answer::Forward(_) => forward(false, redirect),
        Answer::ForwardPerm(_) => forward(true, redirect),
    }
}
