//! What a message calls for.
ghost use Rattle.std.specs.Prelude.{◌≡◌, ◌<◌, IfOk};
ghost use Rattle.giop_stream.specs.Spelled.{IsSpelled};
ghost use Rattle.link_session.specs.Calls.{calling_of, request_of, IsShortCalling, IsShortMessage, IsShortRequest};

use crate::asking::asked_of;
use ft_base::{Bytes, NoMemory};
use giop_messages::{Form, Message, RequestMsg, messages_are_within};
use group_model::Asked;
use std::alloc::Global;

/// What a message to a server calls for.
#[derive(Drop)]
pub enum Calling {
    /// A request with this id asks the object of this key. Bit 0 of the flags asks for a reply.
    Ask {
        id: u32,
        flags: u8,
        key: Bytes,
        asked: Asked,
    },
    /// A client asks where the object of this key is.
    Locate {
        id: u32,
        key: Bytes,
    },
    /// Nothing is answered.
    Nothing,
}

fn request_calling(alloc: Global, request: RequestMsg) -> Result<Calling, NoMemory>
    requires { IsShortRequest request }
    ensures is { IfOk result (λ calling. calling ≡ request_of request) }
    ensures short { IfOk result IsShortCalling }
{
    let RequestMsg {
        id,
        flags,
        key,
        op,
        contexts,
        body,
    } = request;
    let asked = asked_of(alloc, &contexts, &op, body)?;
    Ok(Calling::Ask {
        id,
        flags,
        key,
        asked,
    })
}

fn message_calling(alloc: Global, message: Message) -> Result<Calling, NoMemory>
    requires { IsShortMessage message }
    ensures is { IfOk result (λ calling. calling ≡ calling_of message) }
    ensures short { IfOk result IsShortCalling }
{
    match message {
        Message::Request(request) => request_calling(alloc, request),
        Message::LocateRequest(id, key) => Ok(Calling::Locate { id, key }),
        Message::Cancel(_) | Message::Fragment(_, _) => Ok(Calling::Nothing),
        Message::Reply(_) | Message::LocateReply(_, _) => Ok(Calling::Nothing),
        Message::CloseConnection | Message::MessageError => Ok(Calling::Nothing),
    }
}

/// What a message that a session gave calls for; and that there is such a minor version.
pub fn calling_of(alloc: Global, received: (Message, Form)) -> Result<Calling, NoMemory>
    requires { IsSpelled received }
    ensures is { IfOk result (λ calling. calling ≡ calling_of received.0) }
    ensures short { IfOk result IsShortCalling }
    ensures known { received.1.minor < 3 }
{
    messages_are_within();
    let (message, _form) = received;
    message_calling(alloc, message)
}
