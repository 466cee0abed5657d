//! What a host says on a link to what it was told in a turn.
ghost use Rattle.std.specs.Prelude.{◌≡◌, IfSome};
ghost use Rattle.cdr_codec.specs.declared.orders.Order.{Order as ByteOrder};
ghost use Rattle.host_server.specs.Replies.{CanReply, IsReply};
ghost use Rattle.shared_port.specs.Answers.{AreInForm, IsInForm, IsShortView, Says, forward_to, port_answer, said};

use ft_base::{NoMemory, Par, Servant, View};
use ft_outside::Keeper;
use group_model::GroupAnswer;
use host_server::PortAnswer;
use link_session::view_references_can_be_sent;
use shared_group::{AskAnswer, QueuedAnswer, SharedGroup};
use std::alloc::Global;
use sys_faults::Answer;

// Where a view of the group can be reached.
fn forward<S: Servant + Drop, K: Keeper + Drop>(
    alloc: Global,
    group: &SharedGroup<S, K>,
    perm: bool,
    view: &Option<View>,
) -> PortAnswer
    requires { IfSome view.now IsShortView }
    ensures says { Says (forward_to group.now perm view.now) result }
    ensures can { IsReply result → (order : ByteOrder) → CanReply order result }
{
    view_references_can_be_sent();
    let _type_id = group.type_id().bytes();
    match view {
        None => PortAnswer::NoGroup,
        Some(view) => match group.reference(alloc, view) {
            Ok(body) => PortAnswer::Forward { perm, body },
            Err(NoMemory) => PortAnswer::NoMemory,
        },
    }
}

// What is said of the group's answer to a request.
fn said<S: Servant + Drop, K: Keeper + Drop>(
    alloc: Global,
    group: &SharedGroup<S, K>,
    gives: Option<Par>,
    view: &Option<View>,
    answer: Answer,
) -> PortAnswer
    requires { IsInForm gives view.now answer }
    ensures says { Says (said group.now gives view.now answer) result }
    ensures can { IsReply result → (order : ByteOrder) → CanReply order result }
{
    match answer {
        Answer::Done(outcome) => PortAnswer::Done { outcome, gives },
        Answer::System(fault) => PortAnswer::System(fault),
        Answer::Forward(_) => forward(alloc, group, false, view),
        Answer::ForwardPerm(_) => forward(alloc, group, true, view),
    }
}

/// What is said on a link of a request that was asked in a turn.
pub fn port_answer<S: Servant + Drop, K: Keeper + Drop>(
    alloc: Global,
    group: &SharedGroup<S, K>,
    ask: AskAnswer,
) -> PortAnswer
    requires { AreInForm ask.gives ask.view ask.queued.answer }
    ensures says { Says (port_answer group.now ask) result }
    ensures can { IsReply result → (order : ByteOrder) → CanReply order result }
{
    let AskAnswer {
        queued,
        gives,
        view,
    } = ask;
    let QueuedAnswer {
        answer,
        whole: _whole,
    } = queued;
    match answer {
        GroupAnswer::Reply {
            decision: _,
            answer,
            out: _out,
        } => match answer {
            Some(answer) => said(alloc, group, gives, &view, answer),
            None => PortAnswer::NoGroup,
        },
        GroupAnswer::Down => PortAnswer::Down,
        GroupAnswer::NoMemory => PortAnswer::NoMemory,
        _ => PortAnswer::NoGroup,
    }
}
