//! Messages of GIOP.
ghost use Rattle.std.specs.Prelude.{◌≡◌, ◌≤◌, length, IsTrue};
ghost use Rattle.giop_messages.specs.Fields.{locate_statuses, statuses_1_2};
ghost use Rattle.giop_messages.specs.Messages.{giop};
ghost use Rattle.giop_messages.specs.Writing.{IsAmong, Writable};
ghost use Rattle.message_rows.specs.Short.{AreFew, IsShortBody, IsShortRequest, IsShortReply};

use crate::forms::put_form;
use cdr_codec::{Order, Raw};
use ft_base::first_zero;
use ft_contexts::{Context, Contexts};
use giop_messages::{Form, Message, ReplyMsg, RequestMsg, read_message, write_message};
use row_words::{RowFault, bytes_of, put_bytes, put_hex};
use std::alloc::{AllocError, Global};

fn put_contexts(contexts: &Contexts, out: &mut String) -> Result<(), AllocError> {
    for context in contexts.as_slice() {
        write!(out, ", context {} ", context.id)?;
        put_bytes(context.content.bytes(), out)?;
    }
    Ok(())
}

fn put_request(request: &RequestMsg, out: &mut String) -> Result<(), AllocError> {
    write!(out, "Request {}, flags {}, key ", request.id, request.flags)?;
    put_bytes(request.key.bytes(), out)?;
    out.push_str(", operation ")?;
    put_bytes(request.op.bytes(), out)?;
    put_contexts(&request.contexts, out)?;
    write!(out, ", body at {} ", request.body.align)?;
    put_bytes(request.body.bytes.bytes(), out)
}

/// Writes what a Reply says.
pub fn put_reply(reply: &ReplyMsg, out: &mut String) -> Result<(), AllocError> {
    write!(out, "Reply {}, status {}", reply.id, reply.status)?;
    put_contexts(&reply.contexts, out)?;
    write!(out, ", body at {} ", reply.body.align)?;
    put_bytes(reply.body.bytes.bytes(), out)
}

/// Writes what a message says, behind its form.
pub fn put_message(message: &Message, form: Form, out: &mut String) -> Result<(), AllocError> {
    put_form(form, out)?;
    out.push(' ')?;
    match message {
        Message::Request(request) => put_request(request, out),
        Message::Reply(reply) => put_reply(reply, out),
        Message::Cancel(id) => write!(out, "CancelRequest {id}"),
        Message::LocateRequest(id, key) => {
            write!(out, "LocateRequest {id}, key ")?;
            put_bytes(key.bytes(), out)
        }
        Message::LocateReply(id, status) => write!(out, "LocateReply {id}, status {status}"),
        Message::CloseConnection => out.push_str("CloseConnection"),
        Message::MessageError => out.push_str("MessageError"),
        Message::Fragment(id, rest) => {
            write!(out, "Fragment {id}, ")?;
            put_bytes(rest.bytes(), out)
        }
    }
}

/// The most bytes of a part of a message that is written again.
const PART_LIMIT: usize = 65_536;

fn is_short(bytes: &[u8]) -> bool
    ensures { IsTrue result → length bytes.now ≤ PART_LIMIT }
{
    bytes.len() <= PART_LIMIT
}

fn are_few(contexts: &[Context]) -> bool
    ensures { IsTrue result → AreFew contexts.now }
{
    match contexts {
        [] => true,
        [one] => is_short(one.content.bytes()),
        _ => false,
    }
}

fn is_short_body(body: &Raw, order: Order) -> bool
    ensures { IsTrue result → IsShortBody order body.now }
{
    body.order == order && body.align == 0 && is_short(body.bytes.bytes())
}

fn is_short_request(request: &RequestMsg, order: Order) -> bool
    ensures { IsTrue result → IsShortRequest order request.now }
{
    is_short(request.key.bytes())
        && is_short(request.op.bytes())
        && first_zero(request.op.bytes()).is_none()
        && are_few(request.contexts.as_slice())
        && is_short_body(&request.body, order)
}

fn is_status(status: u32) -> bool
    ensures { IsTrue result → IsAmong statuses_1_2 status }
{
    match status {
        0 => true,
        1 => true,
        2 => true,
        3 => true,
        4 => true,
        5 => true,
        _ => false,
    }
}

fn is_located(status: u32) -> bool
    ensures { IsTrue result → IsAmong locate_statuses status }
{
    match status {
        0 => true,
        1 => true,
        _ => false,
    }
}

fn is_short_reply(reply: &ReplyMsg, order: Order) -> bool
    ensures { IsTrue result → IsShortReply order reply.now }
{
    is_status(reply.status)
        && are_few(reply.contexts.as_slice())
        && is_short_body(&reply.body, order)
}

// Whether a message of GIOP 1.2 is short enough to be written again.
#[tactic(auto, using(crate::proofs::ShortLaws::request_writable, crate::proofs::ShortLaws::reply_writable, crate::proofs::ShortLaws::locate_writable, crate::proofs::ShortLaws::fragment_writable))]
fn is_writable(message: &Message, order: Order) -> bool
    ensures { IsTrue result → Writable message.now (giop 2 order) }
{
    match message {
        Message::Request(request) => is_short_request(request, order),
        Message::Reply(reply) => is_short_reply(reply, order),
        Message::Cancel(_) => true,
        Message::LocateRequest(_, key) => is_short(key.bytes()),
        Message::LocateReply(_, status) => is_located(*status),
        Message::CloseConnection => true,
        Message::MessageError => true,
        Message::Fragment(_, rest) => is_short(rest.bytes()),
    }
}

// Writes a message of GIOP 1.2 again.
fn put_again(
    alloc: Global,
    message: &Message,
    order: Order,
    out: &mut String,
) -> Result<(), RowFault> {
    if !is_writable(message, order) {
        return Err(RowFault::NoRow);
    }
    let bytes = write_message(alloc, message, Form { minor: 2, order })?;
    out.push_str("\n    again ")?;
    Ok(put_hex(bytes.bytes(), out)?)
}

/// `message BYTES`: the message at the beginning of these bytes, and of GIOP 1.2 its bytes once it is written again.
pub fn message(alloc: Global, words: &[&str], out: &mut String) -> Result<(), RowFault> {
    let [bytes] = words else {
        return Err(RowFault::NoRow);
    };
    let bytes = bytes_of(alloc, *bytes)?;
    match read_message(alloc, bytes.as_slice()) {
        Ok((message, form)) => {
            put_message(&message, form, out)?;
            if form.minor == 2 {
                put_again(alloc, &message, form.order, out)?;
            }
            Ok(())
        }
        Err(fault) => Ok(write!(out, "refused {fault}")?),
    }
}
