ghost use Rattle.std.specs.Prelude.{◌≡◌, ◌==◌, ◌<◌, ◌^◌, length, Some, OnOk};
ghost use Rattle.cdr_codec.specs.Calls.{Gives, appended};
ghost use Rattle.giop_messages.specs.Faults.{read_fault, wrong_of};
ghost use Rattle.giop_messages.specs.Heads.{either};
ghost use Rattle.giop_messages.specs.Fields.{reserved, response_expected, object_key, requesting_principal, request_1_0, request_1_1, request_1_2, request_head};
ghost use Rattle.giop_messages.specs.Messages.{head_of_request};
ghost use Rattle.giop_messages.specs.Writing.{AreContexts, IsOp, IsNumberedRequest};

use crate::addresses::{read_address, write_address};
use crate::contexts::{read_contexts, write_contexts};
use crate::faults::{Malformed, ReadFault};
use crate::messages::RequestMsg;
use cdr_codec::{CdrReader, CdrWriter};
use ft_base::{Bytes, NoMemory};
use ft_contexts::Contexts;
use std::alloc::Global;

/// The fields of a Request, up to its body.
#[derive(Drop)]
pub struct RequestHead {
    pub id: u32,
    pub flags: u8,
    pub key: Bytes,
    pub op: Bytes,
    pub contexts: Contexts,
}

fn read_reserved(reader: &mut CdrReader) -> Result<(), Malformed>
    ensures { Gives (λ u. tt) wrong_of result (reserved.read reader.old) reader.new }
{
    reader.read_octet()?;
    Ok(())
}

fn read_response_expected(reader: &mut CdrReader) -> Result<u8, Malformed>
    ensures { Gives (λ n. n) wrong_of result (response_expected.read reader.old) reader.new }
{
    let asks = reader.read_bool()?;
    Ok(if asks { 3 } else { 0 })
}

/// An object key that is not behind a discriminator.
pub fn read_object_key(alloc: Global, reader: &mut CdrReader) -> Result<Bytes, ReadFault>
    ensures { Gives (λ key. key) read_fault result (object_key.read reader.old) reader.new }
{
    let key = reader.read_octets()?;
    let key = Bytes::of(alloc, key)?;
    Ok(key)
}

fn read_requesting_principal(reader: &mut CdrReader) -> Result<(), Malformed>
    ensures { Gives (λ u. tt) wrong_of result (requesting_principal.read reader.old) reader.new }
{
    reader.read_octets()?;
    Ok(())
}

fn read_request_1_0(alloc: Global, reader: &mut CdrReader) -> Result<RequestHead, ReadFault>
    ensures { Gives (λ h. h) read_fault result (request_1_0.read reader.old) reader.new }
{
    let contexts = read_contexts(alloc, reader)?;
    let id = reader.read_u32()?;
    let flags = read_response_expected(reader)?;
    let key = read_object_key(alloc, reader)?;
    let op = reader.read_string()?;
    let op = Bytes::of(alloc, op)?;
    read_requesting_principal(reader)?;
    Ok(RequestHead {
        id,
        flags,
        key,
        op,
        contexts,
    })
}

fn read_request_1_1(alloc: Global, reader: &mut CdrReader) -> Result<RequestHead, ReadFault>
    ensures { Gives (λ h. h) read_fault result (request_1_1.read reader.old) reader.new }
{
    let contexts = read_contexts(alloc, reader)?;
    let id = reader.read_u32()?;
    let flags = read_response_expected(reader)?;
    read_reserved(reader)?;
    read_reserved(reader)?;
    read_reserved(reader)?;
    let key = read_object_key(alloc, reader)?;
    let op = reader.read_string()?;
    let op = Bytes::of(alloc, op)?;
    read_requesting_principal(reader)?;
    Ok(RequestHead {
        id,
        flags,
        key,
        op,
        contexts,
    })
}

/// The fields of a Request of 1.2.
pub fn read_request_1_2(alloc: Global, reader: &mut CdrReader) -> Result<RequestHead, ReadFault>
    ensures { Gives (λ h. h) read_fault result (request_1_2.read reader.old) reader.new }
{
    let id = reader.read_u32()?;
    let flags = reader.read_octet()?;
    read_reserved(reader)?;
    read_reserved(reader)?;
    read_reserved(reader)?;
    let key = read_address(alloc, reader)?;
    let op = reader.read_string()?;
    let op = Bytes::of(alloc, op)?;
    let contexts = read_contexts(alloc, reader)?;
    Ok(RequestHead {
        id,
        flags,
        key,
        op,
        contexts,
    })
}

/// The fields of a Request of 1.1 or 1.0.
pub fn read_old_request(
    alloc: Global,
    minor: u8,
    reader: &mut CdrReader,
) -> Result<RequestHead, ReadFault>
    ensures { Gives (λ h. h) read_fault result ((either (minor == 1) request_1_1 request_1_0).read reader.old) reader.new }
{
    match minor {
        1 => read_request_1_1(alloc, reader),
        _ => read_request_1_0(alloc, reader),
    }
}

fn write_reserved(writer: &mut CdrWriter) -> Result<(), NoMemory>
    ensures { OnOk result (writer.new ≡ appended reserved.written tt writer.old) }
{
    writer.write_octet(0)?;
    Ok(())
}

fn write_response_expected(flags: u8, writer: &mut CdrWriter) -> Result<(), NoMemory>
    ensures { OnOk result (writer.new ≡ appended response_expected.written flags writer.old) }
{
    writer.write_bool(flags == 3)?;
    Ok(())
}

fn write_requesting_principal(writer: &mut CdrWriter) -> Result<(), NoMemory>
    ensures { OnOk result (writer.new ≡ appended requesting_principal.written tt writer.old) }
{
    writer.write_octets(&[])?;
    Ok(())
}

fn write_request_1_0(request: &RequestMsg, writer: &mut CdrWriter) -> Result<(), NoMemory>
    requires contexts { AreContexts request.now.contexts }
    requires key { length request.now.key < 2 ^ 32 }
    requires op { IsOp request.now.op }
    ensures written { OnOk result (writer.new ≡ appended request_1_0.written (head_of_request request.now) writer.old) }
    ensures numbered { OnOk result (IsNumberedRequest request.now) }
{
    let id = request.id;
    let flags = request.flags;
    write_contexts(&request.contexts, writer)?;
    writer.write_u32(id)?;
    write_response_expected(flags, writer)?;
    writer.write_octets(request.key.bytes())?;
    writer.write_string(request.op.bytes())?;
    write_requesting_principal(writer)?;
    Ok(())
}

fn write_request_1_1(request: &RequestMsg, writer: &mut CdrWriter) -> Result<(), NoMemory>
    requires contexts { AreContexts request.now.contexts }
    requires key { length request.now.key < 2 ^ 32 }
    requires op { IsOp request.now.op }
    ensures written { OnOk result (writer.new ≡ appended request_1_1.written (head_of_request request.now) writer.old) }
    ensures numbered { OnOk result (IsNumberedRequest request.now) }
{
    let id = request.id;
    let flags = request.flags;
    write_contexts(&request.contexts, writer)?;
    writer.write_u32(id)?;
    write_response_expected(flags, writer)?;
    write_reserved(writer)?;
    write_reserved(writer)?;
    write_reserved(writer)?;
    writer.write_octets(request.key.bytes())?;
    writer.write_string(request.op.bytes())?;
    write_requesting_principal(writer)?;
    Ok(())
}

fn write_request_1_2(request: &RequestMsg, writer: &mut CdrWriter) -> Result<(), NoMemory>
    requires contexts { AreContexts request.now.contexts }
    requires key { length request.now.key < 2 ^ 32 }
    requires op { IsOp request.now.op }
    ensures written { OnOk result (writer.new ≡ appended request_1_2.written (head_of_request request.now) writer.old) }
    ensures numbered { OnOk result (IsNumberedRequest request.now) }
{
    let id = request.id;
    let flags = request.flags;
    writer.write_u32(id)?;
    writer.write_octet(flags)?;
    write_reserved(writer)?;
    write_reserved(writer)?;
    write_reserved(writer)?;
    write_address(request.key.bytes(), writer)?;
    writer.write_string(request.op.bytes())?;
    write_contexts(&request.contexts, writer)?;
    Ok(())
}

pub fn write_request_head(
    minor: u8,
    request: &RequestMsg,
    writer: &mut CdrWriter,
) -> Result<(), NoMemory>
    requires contexts { AreContexts request.now.contexts }
    requires key { length request.now.key < 2 ^ 32 }
    requires op { IsOp request.now.op }
    ensures written { OnOk result (writer.new ≡ appended (request_head minor).written (head_of_request request.now) writer.old) }
    ensures numbered { OnOk result (IsNumberedRequest request.now) }
{
    match minor {
        2 => write_request_1_2(request, writer),
        1 => write_request_1_1(request, writer),
        _ => write_request_1_0(request, writer),
    }
}
