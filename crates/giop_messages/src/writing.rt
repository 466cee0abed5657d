//! Messages as bytes: a header, and behind it the fields and the body, in one text. The header's size is written last.
ghost use Rattle.std.specs.Prelude.{◌≡◌, ◌<◌, ◌^◌, List, ℕ, length, IfOk, OnOk, Ok};
ghost use Rattle.cdr_codec.specs.Calls.{appended};
ghost use Rattle.giop_messages.specs.declared.messages.Message.TheVariants as messages;
ghost use Rattle.giop_messages.specs.Messages.{Spells, message_in};
ghost use Rattle.giop_messages.specs.Writing.{Writable, HasFields, IsRequest, IsReply, IsAmong, IsNumbered, IsNumberedRequest, IsNumberedReply, written_body, written_fields, written_message};
ghost use Rattle.giop_messages.specs.Fields.{locate_statuses, target_key};

use crate::addresses::write_address;
use crate::forms::{Form, body_boundary};
use crate::heads::{begin_message, with_size};
use crate::messages::{Message, ReplyMsg, RequestMsg};
use crate::replies::write_reply_head;
use crate::requests::write_request_head;
use cdr_codec::CdrWriter;
use ft_base::{Bytes, NoMemory};
use iogr_reference::references_are_codecs;
use std::alloc::Global;

/// Room for the numbers, counts and paddings among the fields of a message without contexts.
const FIELDS_ROOM: usize = 40;

/// A body behind the fields. Before an empty one there is no padding.
#[tactic(auto, using(crate::proofs::WritingSteps::body_written, crate::proofs::WritingSteps::no_body))]
fn write_body(minor: u8, body: &[u8], writer: &mut CdrWriter) -> Result<(), NoMemory>
    requires { length body.now < 2 ^ 32 }
    ensures { OnOk result (writer.new ≡ appended (written_body minor) body.now writer.old) }
{
    if body.is_empty() {
        return Ok(());
    }
    writer.write_piece(body_boundary(minor) as usize, body)?;
    Ok(())
}

#[tactic(auto, using(crate::proofs::WritingSteps::request_written))]
fn write_request(form: Form, request: &RequestMsg, writer: &mut CdrWriter) -> Result<(), NoMemory>
    requires { IsRequest form request.now }
    ensures written { OnOk result (writer.new ≡ appended (written_fields form.minor) (messages.Request request.now) writer.old) }
    ensures numbered { OnOk result (IsNumberedRequest request.now) }
{
    write_request_head(form.minor, request, writer)?;
    write_body(form.minor, request.body.bytes.bytes(), writer)?;
    Ok(())
}

#[tactic(auto, using(crate::proofs::WritingSteps::reply_written))]
fn write_reply(form: Form, reply: &ReplyMsg, writer: &mut CdrWriter) -> Result<(), NoMemory>
    requires { IsReply form reply.now }
    ensures written { OnOk result (writer.new ≡ appended (written_fields form.minor) (messages.Reply reply.now) writer.old) }
    ensures numbered { OnOk result (IsNumberedReply reply.now) }
{
    write_reply_head(form.minor, reply, writer)?;
    write_body(form.minor, reply.body.bytes.bytes(), writer)?;
    Ok(())
}

fn write_target_key(minor: u8, key: &[u8], writer: &mut CdrWriter) -> Result<(), NoMemory>
    requires { length key.now < 2 ^ 32 }
    ensures { OnOk result (writer.new ≡ appended (target_key minor).written key.now writer.old) }
{
    match minor {
        2 => write_address(key, writer),
        _ => {
            writer.write_octets(key)?;
            Ok(())
        }
    }
}

#[tactic(auto, using(crate::proofs::WritingSteps::locate_request_written))]
fn write_locate_request(
    minor: u8,
    id: u32,
    key: &[u8],
    writer: &mut CdrWriter,
) -> Result<(), NoMemory>
    requires { length key.now < 2 ^ 32 }
    ensures { OnOk result (writer.new ≡ appended (written_fields minor) (messages.LocateRequest id key.now) writer.old) }
{
    writer.write_u32(id)?;
    write_target_key(minor, key, writer)?;
    Ok(())
}

#[tactic(auto, using(crate::proofs::WritingSteps::locate_reply_written))]
fn write_locate_reply(
    minor: u8,
    id: u32,
    status: u32,
    writer: &mut CdrWriter,
) -> Result<(), NoMemory>
    requires { IsAmong locate_statuses status }
    ensures { OnOk result (writer.new ≡ appended (written_fields minor) (messages.LocateReply id status) writer.old) }
{
    writer.write_u32(id)?;
    writer.write_u32(status)?;
    Ok(())
}

#[tactic(auto, using(crate::proofs::WritingSteps::fragment_written))]
fn write_fragment(minor: u8, id: u32, rest: &[u8], writer: &mut CdrWriter) -> Result<(), NoMemory>
    requires { length rest.now < 2 ^ 32 }
    ensures { OnOk result (writer.new ≡ appended (written_fields minor) (messages.Fragment id rest.now) writer.old) }
{
    writer.write_u32(id)?;
    writer.write_piece(1, rest)?;
    Ok(())
}

fn write_id(minor: u8, id: u32, writer: &mut CdrWriter) -> Result<(), NoMemory>
    ensures { OnOk result (writer.new ≡ appended (written_fields minor) (messages.Cancel id) writer.old) }
{
    writer.write_u32(id)?;
    Ok(())
}

/// What stands behind the header.
#[tactic(auto, using(crate::proofs::WritingSteps::nothing_closed, crate::proofs::WritingSteps::nothing_wrong))]
fn write_fields(form: Form, message: &Message, writer: &mut CdrWriter) -> Result<(), NoMemory>
    requires { HasFields form message.now }
    ensures written { OnOk result (writer.new ≡ appended (written_fields form.minor) message.now writer.old) }
    ensures numbered { OnOk result (IsNumbered message.now) }
{
    let minor = form.minor;
    match message {
        Message::Request(request) => write_request(form, request, writer),
        Message::Reply(reply) => write_reply(form, reply, writer),
        Message::Cancel(id) => write_id(minor, *id, writer),
        Message::LocateRequest(id, key) => write_locate_request(minor, *id, key.bytes(), writer),
        Message::LocateReply(id, status) => write_locate_reply(minor, *id, *status, writer),
        Message::CloseConnection => Ok(()),
        Message::MessageError => Ok(()),
        Message::Fragment(id, rest) => write_fragment(minor, *id, rest.bytes(), writer),
    }
}

// Room for what stands behind the header, where there are no contexts.
fn fields_room(message: &Message, form: Form) -> usize
    requires { HasFields form message.now }
    ensures { result < 2 ^ 39 }
{
    let texts = match message {
        Message::Request(request) => {
            request.key.bytes().len() + request.op.bytes().len() + request.body.bytes.bytes().len()
        }
        Message::Reply(reply) => reply.body.bytes.bytes().len(),
        Message::Cancel(_) => 0,
        Message::LocateRequest(_, key) => key.bytes().len(),
        Message::LocateReply(_, _) => 0,
        Message::CloseConnection => 0,
        Message::MessageError => 0,
        Message::Fragment(_, rest) => rest.bytes().len(),
    };
    FIELDS_ROOM + texts
}

fn write_exactly(alloc: Global, message: &Message, form: Form) -> Result<Bytes, NoMemory>
    requires { Writable message.now form }
    ensures written { IfOk result (λ bytes. bytes ≡ written_message message.now form) }
    ensures numbered { IfOk result (λ bytes. IsNumbered message.now) }
{
    let room = fields_room(message, form);
    let mut writer = begin_message(alloc, message.kind(), form, room)?;
    write_fields(form, message, &mut writer)?;
    Ok(with_size(writer))
}

/// The bytes of a message in this form, with padding and reserved octets of 0 and an empty principal.
pub fn write_message(alloc: Global, message: &Message, form: Form) -> Result<Bytes, NoMemory>
    requires { Writable message.now form }
    ensures written { IfOk result (λ bytes. bytes ≡ written_message message.now form) }
    ensures spelled { IfOk result (λ bytes. Spells bytes form message.now) }
    ensures read_back { IfOk result (λ bytes. message_in bytes ≡ Ok (message.now, form)) }
{
    references_are_codecs();
    write_exactly(alloc, message, form)
}
