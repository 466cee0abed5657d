//! What a host writes on a link.
ghost use Rattle.std.specs.Prelude.{◌≡◌, ◌<◌, IfOk};
ghost use Rattle.cdr_codec.specs.declared.orders.Order.{Order as ByteOrder};
ghost use Rattle.host_server.specs.Replies.{CanReply};
ghost use Rattle.ft_base.specs.Machine.{gives_of, IsGivenAs};
ghost use Rattle.sys_faults.specs.Bodies.{OnUnknown};
ghost use Rattle.link_session.specs.Ports.{end_error, malformed_error, reply_of};

use ft_base::{Bytes, NoMemory, Outcome, Signature, gives_of};
use giop_messages::{Form, Why};
use giop_stream::StreamEnd;
use host_server::{PortAnswer, message_error_bytes, reply_bytes};
use std::alloc::Global;
use sys_faults::SysFault;

/// The bytes of the Reply to the request with this id, in its form, where its flags ask for one.
pub fn reply(
    alloc: Global,
    id: u32,
    flags: u8,
    form: Form,
    answer: &PortAnswer,
) -> Result<Option<Bytes>, NoMemory>
    requires known { form.minor < 3 }
    requires can { CanReply form.order answer.now }
    ensures { IfOk result (λ bytes. bytes ≡ reply_of id flags form answer.now) }
{
    if flags % 2 != 1 {
        return Ok(None);
    }
    let bytes = reply_bytes(alloc, id, form, answer)?;
    Ok(Some(bytes))
}

fn error(alloc: Global) -> Result<Option<Bytes>, NoMemory>
    ensures { IfOk result (λ bytes. bytes ≡ malformed_error Why.Magic) }
{
    let bytes = message_error_bytes(alloc)?;
    Ok(Some(bytes))
}

fn malformed_bytes(alloc: Global, why: Why) -> Result<Option<Bytes>, NoMemory>
    ensures { IfOk result (λ bytes. bytes ≡ malformed_error why) }
{
    match why {
        Why::Cut => Ok(None),
        Why::Magic | Why::Version | Why::Flags | Why::Kind => error(alloc),
        Why::Length | Why::Open | Why::Short | Why::BadBool => error(alloc),
        Why::BadString | Why::BadOrder | Why::Address | Why::Status => error(alloc),
    }
}

/// The bytes of the MessageError that a link's end owes its client, if any.
pub fn end_bytes(alloc: Global, end: StreamEnd) -> Result<Option<Bytes>, NoMemory>
    ensures { IfOk result (λ bytes. bytes ≡ end_error end) }
{
    match end {
        StreamEnd::Closed => Ok(None),
        StreamEnd::Malformed { why, place: _ } => malformed_bytes(alloc, why),
        StreamEnd::TooLarge(_) => error(alloc),
    }
}

/// The answer with the outcome of an operation of this signature.
pub fn done(signature: Option<Signature>, outcome: Outcome) -> PortAnswer
    ensures is { result ≡ PortAnswer.Done outcome (gives_of signature) }
    ensures can { (order : ByteOrder) → IsGivenAs signature outcome → CanReply order result }
{
    PortAnswer::Done {
        outcome,
        gives: gives_of(signature),
    }
}

/// The answer with a system exception.
pub fn system(fault: SysFault) -> PortAnswer
    ensures is { result ≡ PortAnswer.System fault }
    ensures can { (order : ByteOrder) → OnUnknown fault.kind (λ id. ⊥) → CanReply order result }
{
    PortAnswer::System(fault)
}
