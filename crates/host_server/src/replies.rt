ghost use Rattle.std.specs.Prelude.{◌≡◌, ◌<◌, IfOk};
ghost use Rattle.cdr_codec.specs.declared.orders.Order.TheVariants.{Big};
ghost use Rattle.giop_messages.specs.declared.messages.Message.TheVariants as messages;
ghost use Rattle.giop_messages.specs.Messages.{giop};
ghost use Rattle.giop_messages.specs.Writing.{written_message};
ghost use Rattle.host_server.specs.Replies.{outcome_status, forward_status, status_of, locate_status_of, reply_to, locate_reply_to, CanReply};

use crate::answers::PortAnswer;
use crate::bodies::body_bytes;
use cdr_codec::{Order, Raw};
use ft_base::{Bytes, NoMemory, Outcome};
use ft_contexts::Contexts;
use giop_messages::{
    Form, LOCATION_FORWARD, LOCATION_FORWARD_PERM, Message, NO_EXCEPTION, OBJECT_HERE, ReplyMsg,
    SYSTEM_EXCEPTION, UNKNOWN_OBJECT, USER_EXCEPTION, write_message,
};
use std::alloc::Global;

fn outcome_status(outcome: &Outcome) -> u32
    ensures { result ≡ outcome_status outcome.now }
{
    match outcome {
        Outcome::Value(_) => NO_EXCEPTION,
        Outcome::User(_) => USER_EXCEPTION,
    }
}

fn forward_status(minor: u8, perm: bool) -> u32
    ensures { result ≡ forward_status minor perm }
{
    if perm && minor == 2 {
        LOCATION_FORWARD_PERM
    } else {
        LOCATION_FORWARD
    }
}

fn status_of(minor: u8, answer: &PortAnswer) -> u32
    ensures { result ≡ status_of minor answer.now }
{
    match answer {
        PortAnswer::NoGroup => SYSTEM_EXCEPTION,
        PortAnswer::Forward { perm, body: _ } => forward_status(minor, *perm),
        PortAnswer::Done { outcome, gives: _ } => outcome_status(outcome),
        PortAnswer::System(_) => SYSTEM_EXCEPTION,
        PortAnswer::Down | PortAnswer::NoMemory => SYSTEM_EXCEPTION,
    }
}

/// The bytes of the Reply to the request with this id, in its form. Its header, contexts, id and status have 24 bytes
/// in each, so that no padding stands before the body.
pub fn reply_bytes(
    alloc: Global,
    id: u32,
    form: Form,
    answer: &PortAnswer,
) -> Result<Bytes, NoMemory>
    requires known { form.minor < 3 }
    requires can { CanReply form.order answer.now }
    ensures { IfOk result (λ bytes. bytes ≡ written_message (reply_to id form answer.now) form) }
{
    let bytes = body_bytes(alloc, form.order, answer)?;
    let body = Raw {
        order: form.order,
        align: 0,
        bytes,
    };
    let reply = Message::Reply(ReplyMsg {
        id,
        status: status_of(form.minor, answer),
        contexts: Contexts::from_vec(Vec::new(alloc)),
        body,
    });
    write_message(alloc, &reply, form)
}

/// The bytes of the LocateReply to the request with this id, in its form: whether the object is
/// here, or nothing is known of it. (GIOP chapter, "LocateReply Message".)
#[tactic(auto, using(crate::proofs::ReplyLaws::locate_writable))]
pub fn locate_reply_bytes(alloc: Global, id: u32, form: Form, here: bool) -> Result<Bytes, NoMemory>
    requires { form.minor < 3 }
    ensures { IfOk result (λ bytes. bytes ≡ written_message (locate_reply_to id here) form) }
{
    let status = if here { OBJECT_HERE } else { UNKNOWN_OBJECT };
    let reply = Message::LocateReply(id, status);
    write_message(alloc, &reply, form)
}

/// The bytes of a MessageError, which answers what can't be read; always of 1.2. (GIOP chapter, "MessageError
/// Message".)
pub fn message_error_bytes(alloc: Global) -> Result<Bytes, NoMemory>
    ensures { IfOk result (λ bytes. bytes ≡ written_message messages.MessageError (giop 2 Big)) }
{
    let form = Form {
        minor: 2,
        order: Order::Big,
    };
    write_message(alloc, &Message::MessageError, form)
}
