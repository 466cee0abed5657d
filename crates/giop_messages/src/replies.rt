ghost use Rattle.std.specs.Prelude.{◌≡◌, OnOk};
ghost use Rattle.cdr_codec.specs.Calls.{Gives, appended};
ghost use Rattle.giop_messages.specs.Faults.{read_fault};
ghost use Rattle.cdr_codec.specs.Structs.{struct};
ghost use Rattle.giop_messages.specs.Fields.{reply_fields_1_0, reply_fields_1_2, reply_head};
ghost use Rattle.giop_messages.specs.Messages.{head_of_reply};
ghost use Rattle.giop_messages.specs.Writing.{AreContexts, IsNumberedReply};

use crate::contexts::{read_contexts, write_contexts};
use crate::faults::ReadFault;
use crate::messages::ReplyMsg;
use crate::statuses::{read_status_1_0, read_status_1_2};
use cdr_codec::{CdrReader, CdrWriter};
use ft_base::NoMemory;
use ft_contexts::Contexts;
use std::alloc::Global;

/// The fields of a Reply, up to its body.
#[derive(Drop)]
pub struct ReplyHead {
    pub id: u32,
    pub status: u32,
    pub contexts: Contexts,
}

fn read_reply_1_0(alloc: Global, reader: &mut CdrReader) -> Result<ReplyHead, ReadFault>
    ensures { Gives (λ h. h) read_fault result ((struct reply_fields_1_0).read reader.old) reader.new }
{
    let contexts = read_contexts(alloc, reader)?;
    let id = reader.read_u32()?;
    let status = read_status_1_0(reader)?;
    Ok(ReplyHead {
        id,
        status,
        contexts,
    })
}

fn read_reply_1_2(alloc: Global, reader: &mut CdrReader) -> Result<ReplyHead, ReadFault>
    ensures { Gives (λ h. h) read_fault result ((struct reply_fields_1_2).read reader.old) reader.new }
{
    let id = reader.read_u32()?;
    let status = read_status_1_2(reader)?;
    let contexts = read_contexts(alloc, reader)?;
    Ok(ReplyHead {
        id,
        status,
        contexts,
    })
}

pub fn read_reply_head(
    alloc: Global,
    minor: u8,
    reader: &mut CdrReader,
) -> Result<ReplyHead, ReadFault>
    ensures { Gives (λ h. h) read_fault result ((reply_head minor).read reader.old) reader.new }
{
    match minor {
        2 => read_reply_1_2(alloc, reader),
        _ => read_reply_1_0(alloc, reader),
    }
}

#[tactic(auto, using(crate::proofs::WritingSteps::reply_1_0_written))]
fn write_reply_1_0(reply: &ReplyMsg, writer: &mut CdrWriter) -> Result<(), NoMemory>
    requires { AreContexts reply.now.contexts }
    ensures written { OnOk result (writer.new ≡ appended (struct reply_fields_1_0).written (head_of_reply reply.now) writer.old) }
    ensures numbered { OnOk result (IsNumberedReply reply.now) }
{
    let id = reply.id;
    let status = reply.status;
    write_contexts(&reply.contexts, writer)?;
    writer.write_u32(id)?;
    writer.write_u32(status)?;
    Ok(())
}

#[tactic(auto, using(crate::proofs::WritingSteps::reply_1_2_written))]
fn write_reply_1_2(reply: &ReplyMsg, writer: &mut CdrWriter) -> Result<(), NoMemory>
    requires { AreContexts reply.now.contexts }
    ensures written { OnOk result (writer.new ≡ appended (struct reply_fields_1_2).written (head_of_reply reply.now) writer.old) }
    ensures numbered { OnOk result (IsNumberedReply reply.now) }
{
    let id = reply.id;
    let status = reply.status;
    writer.write_u32(id)?;
    writer.write_u32(status)?;
    write_contexts(&reply.contexts, writer)?;
    Ok(())
}

pub fn write_reply_head(minor: u8, reply: &ReplyMsg, writer: &mut CdrWriter) -> Result<(), NoMemory>
    requires { AreContexts reply.now.contexts }
    ensures written { OnOk result (writer.new ≡ appended (reply_head minor).written (head_of_reply reply.now) writer.old) }
    ensures numbered { OnOk result (IsNumberedReply reply.now) }
{
    match minor {
        2 => write_reply_1_2(reply, writer),
        _ => write_reply_1_0(reply, writer),
    }
}
