ghost use Rattle.std.specs.Prelude.{◌≡◌, ◌≤◌, ◌+◌, ◌<◌, ◌^◌, List, ℕ, length, take, drop, IfOk};
ghost use Rattle.giop_messages.specs.declared.forms.Form.{Form};
ghost use Rattle.cdr_codec.specs.Calls.{Gives, Refuses, Tells};
ghost use Rattle.giop_messages.specs.declared.heads.Kind.TheVariants as kinds;
ghost use Rattle.giop_messages.specs.declared.faults.ReadFault.TheVariants as faults;
ghost use Rattle.giop_messages.specs.declared.faults.Why.TheVariants as causes;
ghost use Rattle.giop_messages.specs.declared.messages.Message.{Message};
ghost use Rattle.giop_messages.specs.declared.messages.Message.TheVariants as messages;
ghost use Rattle.giop_messages.specs.Faults.{read_fault};
ghost use Rattle.giop_messages.specs.Fields.{target_key};
ghost use Rattle.giop_messages.specs.Messages.{request_from, body_at, payload_at, fields_in_form, fields_in, behind, headed, message_in, Spells};

use crate::addresses::read_address;
use crate::faults::{ReadFault, Why};
use crate::forms::{Form, body_align, body_boundary};
use crate::heads::{HEAD_LENGTH, Head, Kind, read_header};
use crate::messages::{Message, ReplyMsg, RequestMsg};
use crate::replies::read_reply_head;
use crate::requests::{RequestHead, read_object_key, read_old_request, read_request_1_2};
use crate::statuses::read_locate_status;
use cdr_codec::{CdrReader, Order, Raw};
use ft_base::{Bytes, NoMemory};
use iogr_reference::references_are_codecs;
use std::alloc::Global;

fn behind(bytes: &[u8], count: usize) -> &[u8]
    ensures { result.now ≡ drop count bytes.now }
{
    &bytes[count.min(bytes.len())..]
}

fn read_body(alloc: Global, minor: u8, reader: &CdrReader) -> Result<Raw, NoMemory>
    ensures { IfOk result (λ body. body ≡ body_at minor reader.now) }
{
    let place = reader.place();
    let skip = reader.start(u32::from(body_boundary(minor))) - place;
    let piece = behind(reader.rest(), skip as usize);
    let align = body_align(minor, place, piece);
    let bytes = Bytes::of(alloc, piece)?;
    Ok(Raw {
        order: reader.order(),
        align,
        bytes,
    })
}

// A Request whose fields were read, with its body.
#[inline(always)]
fn request_of(
    alloc: Global,
    minor: u8,
    head: RequestHead,
    reader: &CdrReader,
) -> Result<Message, NoMemory>
    ensures { IfOk result (λ m. m ≡ messages.Request (request_from head (body_at minor reader.now))) }
{
    let body = read_body(alloc, minor, reader)?;
    Ok(Message::Request(RequestMsg {
        id: head.id,
        flags: head.flags,
        key: head.key,
        op: head.op,
        contexts: head.contexts,
        body,
    }))
}

// Behind one `match` of three layouts the fields of 1.2 would be moved once more.
fn read_request(alloc: Global, minor: u8, reader: &mut CdrReader) -> Result<Message, ReadFault>
    ensures { Tells (λ m. m) read_fault result (payload_at minor kinds.Request reader.old) }
{
    if minor == 2 {
        let head = read_request_1_2(alloc, reader)?;
        let message = request_of(alloc, minor, head, reader)?;
        return Ok(message);
    }
    let head = read_old_request(alloc, minor, reader)?;
    let message = request_of(alloc, minor, head, reader)?;
    Ok(message)
}

fn read_reply(alloc: Global, minor: u8, reader: &mut CdrReader) -> Result<Message, ReadFault>
    ensures { Tells (λ m. m) read_fault result (payload_at minor kinds.Reply reader.old) }
{
    let head = read_reply_head(alloc, minor, reader)?;
    let body = read_body(alloc, minor, reader)?;
    Ok(Message::Reply(ReplyMsg {
        id: head.id,
        status: head.status,
        contexts: head.contexts,
        body,
    }))
}

fn read_cancel(minor: u8, reader: &mut CdrReader) -> Result<Message, ReadFault>
    ensures { Tells (λ m. m) read_fault result (payload_at minor kinds.CancelRequest reader.old) }
{
    let id = reader.read_u32()?;
    Ok(Message::Cancel(id))
}

fn read_target_key(alloc: Global, minor: u8, reader: &mut CdrReader) -> Result<Bytes, ReadFault>
    ensures { Gives (λ key. key) read_fault result ((target_key minor).read reader.old) reader.new }
{
    match minor {
        2 => read_address(alloc, reader),
        _ => read_object_key(alloc, reader),
    }
}

fn read_locate_request(
    alloc: Global,
    minor: u8,
    reader: &mut CdrReader,
) -> Result<Message, ReadFault>
    ensures { Tells (λ m. m) read_fault result (payload_at minor kinds.LocateRequest reader.old) }
{
    let id = reader.read_u32()?;
    let key = read_target_key(alloc, minor, reader)?;
    Ok(Message::LocateRequest(id, key))
}

fn read_locate_reply(minor: u8, reader: &mut CdrReader) -> Result<Message, ReadFault>
    ensures { Tells (λ m. m) read_fault result (payload_at minor kinds.LocateReply reader.old) }
{
    let id = reader.read_u32()?;
    let status = read_locate_status(reader)?;
    Ok(Message::LocateReply(id, status))
}

fn read_fragment(alloc: Global, minor: u8, reader: &mut CdrReader) -> Result<Message, ReadFault>
    ensures { Tells (λ m. m) read_fault result (payload_at minor kinds.Fragment reader.old) }
{
    let id = reader.read_u32()?;
    let rest = Bytes::of(alloc, reader.rest())?;
    Ok(Message::Fragment(id, rest))
}

fn read_payload(
    alloc: Global,
    minor: u8,
    kind: Kind,
    reader: &mut CdrReader,
) -> Result<Message, ReadFault>
    ensures { Tells (λ m. m) read_fault result (payload_at minor kind reader.old) }
{
    match kind {
        Kind::Request => read_request(alloc, minor, reader),
        Kind::Reply => read_reply(alloc, minor, reader),
        Kind::CancelRequest => read_cancel(minor, reader),
        Kind::LocateRequest => read_locate_request(alloc, minor, reader),
        Kind::LocateReply => read_locate_reply(minor, reader),
        Kind::CloseConnection => Ok(Message::CloseConnection),
        Kind::MessageError => Ok(Message::MessageError),
        Kind::Fragment => read_fragment(alloc, minor, reader),
    }
}

fn read_in_form(
    alloc: Global,
    form: Form,
    kind: Kind,
    payload: &[u8],
) -> Result<(Message, Form), ReadFault>
    requires { length payload.now + 20 < 2 ^ 32 }
    ensures { Tells (λ m. m) read_fault result (fields_in_form form kind payload.now) }
{
    let mut reader = CdrReader::new(form.order, HEAD_LENGTH as u32, payload);
    let message = read_payload(alloc, form.minor, kind, &mut reader)?;
    Ok((message, form))
}

/// The message of a header that was read already, from the bytes behind it, which are as many as it
/// says; and its form. A header that was read is never refused for its type.
pub fn read_fields(alloc: Global, head: Head, payload: &[u8]) -> Result<(Message, Form), ReadFault>
    requires { length payload.now + 20 < 2 ^ 32 }
    ensures { Tells (λ m. m) read_fault result (fields_in head payload.now) }
{
    if !head.has_kind() {
        return Err(ReadFault::Malformed {
            why: Why::Kind,
            place: 7,
        });
    }
    read_in_form(alloc, head.form(), head.kind, payload)
}

fn cut(bytes: &[u8]) -> ReadFault
    requires { length bytes.now + 8 < 2 ^ 32 }
    ensures { result ≡ faults.Malformed causes.Cut (length bytes.now) }
{
    ReadFault::Malformed {
        why: Why::Cut,
        place: bytes.len() as u32,
    }
}

fn payload(bytes: &[u8], size: usize) -> &[u8]
    requires { HEAD_LENGTH + size ≤ length bytes.now }
    ensures value { result.now ≡ take size (drop HEAD_LENGTH bytes.now) }
    ensures sized { length result.now ≡ size }
{
    &bytes[HEAD_LENGTH..][..size]
}

fn read_behind(alloc: Global, head: Head, bytes: &[u8]) -> Result<(Message, Form), ReadFault>
    requires { length bytes.now + 8 < 2 ^ 32 }
    ensures { Tells (λ m. m) read_fault result (behind bytes.now head) }
{
    let size = head.size as usize;
    if bytes.len() < HEAD_LENGTH + size {
        return Err(cut(bytes));
    }
    read_fields(alloc, head, payload(bytes, size))
}

fn read_headed(
    alloc: Global,
    bytes: &[u8],
    reader: &mut CdrReader,
) -> Result<(Message, Form), ReadFault>
    requires { length bytes.now + 8 < 2 ^ 32 }
    ensures { Tells (λ m. m) read_fault result (headed bytes.now reader.old) }
{
    let head = read_header(reader)?;
    read_behind(alloc, head, bytes)
}

fn read_exactly(alloc: Global, bytes: &[u8]) -> Result<(Message, Form), ReadFault>
    requires { length bytes.now + 8 < 2 ^ 32 }
    ensures read { Tells (λ m. m) read_fault result (message_in bytes.now) }
{
    if bytes.len() < HEAD_LENGTH {
        return Err(cut(bytes));
    }
    let mut reader = CdrReader::new(Order::Big, 0, bytes);
    read_headed(alloc, bytes, &mut reader)
}

/// The message at the front of the bytes, and its form.
pub fn read_message(alloc: Global, bytes: &[u8]) -> Result<(Message, Form), ReadFault>
    requires { length bytes.now + 8 < 2 ^ 32 }
    ensures found { IfOk result (λ m. Spells bytes.now m.1 m.0) }
    ensures refused { Refuses read_fault result ((message : Message) (form : Form) → Spells bytes.now form message → ⊥) }
    ensures read { Tells (λ m. m) read_fault result (message_in bytes.now) }
{
    references_are_codecs();
    read_exactly(alloc, bytes)
}
