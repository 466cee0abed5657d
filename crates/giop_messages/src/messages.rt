ghost use Rattle.std.specs.Prelude.{◌≡◌};
ghost use Rattle.giop_messages.specs.Messages.{kind_in};

use crate::heads::Kind;
use cdr_codec::Raw;
use ft_base::Bytes;
use ft_contexts::Contexts;

/// A Request (GIOP chapter, "Request Message").
#[derive(Drop)]
pub struct RequestMsg {
    pub id: u32,
    /// The response flags. Bit 0 asks for a reply. In 1.0 and 1.1 they are 3 for `response_expected`, else 0.
    pub flags: u8,
    /// The object key, in whichever form the target was named.
    pub key: Bytes,
    /// The operation's name, without its NUL.
    pub op: Bytes,
    pub contexts: Contexts,
    pub body: Raw,
}

/// A Reply (GIOP chapter, "Reply Message").
#[derive(Drop)]
pub struct ReplyMsg {
    pub id: u32,
    /// From 0 to 5: NO_EXCEPTION, USER_EXCEPTION, SYSTEM_EXCEPTION, LOCATION_FORWARD,
    /// LOCATION_FORWARD_PERM, NEEDS_ADDRESSING_MODE. The last two are 1.2's.
    pub status: u32,
    pub contexts: Contexts,
    pub body: Raw,
}

/// A message of GIOP. A number alone is a request id.
#[derive(Drop)]
pub enum Message {
    Request(RequestMsg),
    Reply(ReplyMsg),
    /// A CancelRequest.
    Cancel(u32),
    /// With the object key that is looked for.
    LocateRequest(u32, Bytes),
    /// With the status: UNKNOWN_OBJECT 0, OBJECT_HERE 1.
    LocateReply(u32, u32),
    CloseConnection,
    MessageError,
    /// Of 1.2 alone, with what it adds to the message that was begun.
    Fragment(u32, Bytes),
}

impl Message {
    /// The message's type.
    pub fn kind(&self) -> Kind
        ensures { result ≡ kind_in self.now }
    {
        match self {
            Message::Request(_) => Kind::Request,
            Message::Reply(_) => Kind::Reply,
            Message::Cancel(_) => Kind::CancelRequest,
            Message::LocateRequest(_, _) => Kind::LocateRequest,
            Message::LocateReply(_, _) => Kind::LocateReply,
            Message::CloseConnection => Kind::CloseConnection,
            Message::MessageError => Kind::MessageError,
            Message::Fragment(_, _) => Kind::Fragment,
        }
    }
}
