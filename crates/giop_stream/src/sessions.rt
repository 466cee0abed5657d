//! What a server serves of a link, message by message, and how the link ends. (GIOP chapter, "GIOP Message
//! Transfer".)
ghost use Rattle.std.specs.Prelude.{◌≡◌, ℕ, List, [], ◌++◌, OnOk, OnErr, IfOk, IfSome, Some, None, Ok};
ghost use Rattle.giop_stream.specs.Parts.{Received};
ghost use Rattle.giop_stream.specs.Streams.{Rest, stream};
ghost use Rattle.giop_stream.specs.Frames.{HasNext, OnGiven, Shortens, Stands};
ghost use Rattle.giop_stream.specs.Spelled.{IsSpelled, OnServed};
ghost use Rattle.giop_stream.specs.Sessions.{AreAll, Goes, IsOfLink, IsShorter, Serves, StaysEnded, StopsBy, Takes, end_by, fault_end, rest_end, session};

use crate::faults::StreamFault;
use crate::framers::Framer;
use ft_base::NoMemory;
use giop_messages::{Form, Message, Why};
use std::alloc::Global;
use std::marker::Model;

/// How a link ends.
#[derive(Clone, Copy, Debug, PartialEq, Eq)]
pub enum StreamEnd {
    /// In order: behind a whole message at the end of its bytes, or where the peer closes it.
    Closed,
    /// At bytes that are no message, or no message to a server: the first cause, and its place in the message.
    /// Of a link that is cut off in a message (`Cut`) it is the number of bytes that belong to no whole one.
    Malformed { why: Why, place: u32 },
    /// At a message of so many bytes with its header: more than 1 MiB.
    TooLarge(u64),
}

/// What a session comes to next.
#[derive(Drop)]
pub enum SessionStep {
    /// A message to be served, with its form.
    Serve((Message, Form)),
    /// No further message is whole: more bytes are wanted.
    Wait,
    /// The link has ended, whatever follows.
    End(StreamEnd),
}

/// Serves a link: it is fed the link's bytes in any pieces, and gives the messages that a server serves, up to the
/// first that ends the link.
#[derive(Drop)]
pub struct Session {
    framer: Framer,
    ended: Option<StreamEnd>,
}

impl Model for Session {
    ghost use Rattle.giop_stream.specs.Spelled.{IsSpelled, OnServed};
    ghost use Rattle.giop_stream.specs.Sessions.{Serving};

    ghost Value = { Serving };

    ghost view = { λ s. record { frames = s.framer; ended = s.ended } };
}

// A server is sent no replies.
fn reply_end() -> StreamEnd
    ensures { result ≡ StreamEnd.Malformed Why.Kind 7 }
{
    StreamEnd::Malformed {
        why: Why::Kind,
        place: 7,
    }
}

// The end of the link to which this message brings it, if any.
fn end_by(message: &Message) -> Option<StreamEnd>
    ensures { result ≡ end_by message.now }
{
    match message {
        Message::Request(_) => None,
        Message::Reply(_) => Some(reply_end()),
        Message::Cancel(_) => None,
        Message::LocateRequest(_, _) => None,
        Message::LocateReply(_, _) => Some(reply_end()),
        Message::CloseConnection => Some(StreamEnd::Closed),
        Message::MessageError => Some(StreamEnd::Closed),
        Message::Fragment(_, _) => None,
    }
}

// The end of a link behind its last whole message: so many bytes are left.
pub fn rest_end(count: u32) -> StreamEnd
    ensures { result ≡ rest_end count }
{
    if count == 0 {
        StreamEnd::Closed
    } else {
        StreamEnd::Malformed {
            why: Why::Cut,
            place: count,
        }
    }
}

// The end of a link at a fault of its bytes.
pub fn fault_end(fault: StreamFault) -> Result<StreamEnd, NoMemory>
    ensures end { IfOk result (λ end. end ≡ fault_end fault) }
    ensures link { OnOk result (IsOfLink fault) }
{
    match fault {
        StreamFault::Malformed { why, place } => Ok(StreamEnd::Malformed { why, place }),
        StreamFault::TooLarge(size) => Ok(StreamEnd::TooLarge(size)),
        StreamFault::NoMemory => Err(NoMemory),
    }
}

impl Session {
    pub(crate) fn ended(&self) -> Option<StreamEnd>
        ensures { result ≡ self.now.ended }
    {
        self.ended
    }

    pub(crate) fn end(&mut self, end: StreamEnd) -> SessionStep
        ensures step { result ≡ SessionStep.End end }
        ensures ended { self.new ≡ record self.old { ended = Some end } }
    {
        self.ended = Some(end);
        SessionStep::End(end)
    }

    pub(crate) fn unfinished(&self) -> u32
        ensures { (fed : List ℕ) (given ms : List Received) (n : ℕ) → Stands self.now.frames fed given
            → stream fed ≡ record { messages = ms; end = Rest n } → result ≡ n }
    {
        self.framer.unfinished()
    }

    pub(crate) fn read(&mut self) -> Result<Option<(Message, Form)>, StreamFault>
        ensures next { (fed : List ℕ) (given : List Received) → Stands self.old.frames fed given → HasNext result fed given self.new.frames }
        ensures spelled { OnGiven result IsSpelled }
        ensures shorter { Shortens result self.old.frames self.new.frames }
        ensures ended { self.new.ended ≡ self.old.ended }
    {
        self.framer.next()
    }

    pub(crate) fn append(&mut self, piece: &[u8]) -> Result<(), NoMemory>
        ensures ok { OnOk result ((fed : List ℕ) (given : List Received) → Stands self.old.frames fed given
            → Stands self.new.frames (fed ++ piece.now) given) }
        ensures ended { self.new.ended ≡ self.old.ended }
        ensures err { OnErr result (self.new ≡ self.old) }
    {
        self.framer.feed(piece)
    }

    // A message came, which may end the link.
    fn take(&mut self, received: (Message, Form)) -> SessionStep
        ensures { Takes result received self.old self.new }
    {
        match end_by(&received.0) {
            None => SessionStep::Serve(received),
            Some(end) => self.end(end),
        }
    }

    // The bytes of the link are at fault, or there is no memory.
    fn stop(&mut self, fault: StreamFault) -> Result<SessionStep, NoMemory>
        ensures { StopsBy result fault self.old self.new }
    {
        match fault_end(fault) {
            Ok(end) => Ok(self.end(end)),
            Err(NoMemory) => Err(NoMemory),
        }
    }

    fn advance(&mut self) -> Result<SessionStep, NoMemory>
        requires { self.old.ended ≡ None }
        ensures next { (fed : List ℕ) (given : List Received) → Serves self.old fed given → Goes result fed given self.new }
        ensures spelled { OnServed result IsSpelled }
        ensures shorter { IsShorter result self.old self.new }
        ensures stays { StaysEnded result self.new }
    {
        match self.read() {
            Ok(Some(received)) => Ok(self.take(received)),
            Ok(None) => Ok(SessionStep::Wait),
            Err(fault) => self.stop(fault),
        }
    }

    /// A session over a link of which no byte has come. It takes no memory.
    pub fn new(alloc: Global) -> Session
        ensures { Serves result [] [] }
    {
        Session::over(alloc, Vec::new(alloc))
    }

    /// A session over a link of which these bytes have come. It takes no memory, and keeps them where they are.
    #[tactic(auto, using(crate::proofs::SessionLaws::serves_over))]
    pub fn over(alloc: Global, bytes: Vec<u8>) -> Session
        ensures { Serves result bytes.items [] }
    {
        Session::begin(alloc, bytes)
    }

    pub(crate) fn begin(alloc: Global, bytes: Vec<u8>) -> Session
        ensures going { result.ended ≡ None }
        ensures stands { Stands result.frames bytes.items [] }
    {
        Session {
            framer: Framer::over(alloc, bytes),
            ended: None,
        }
    }

    /// Feeds the next bytes of the link. After `NoMemory` it is as if they had not come. Once the link has ended
    /// nothing is kept of them.
    #[tactic(auto, using(crate::proofs::SessionLaws::serves_ended))]
    pub fn feed(&mut self, piece: &[u8]) -> Result<(), NoMemory>
        ensures ok { OnOk result ((fed : List ℕ) (given : List Received) → Serves self.old fed given → Serves self.new (fed ++ piece.now) given) }
        ensures err { OnErr result (self.new ≡ self.old) }
        ensures ended { IfSome self.old.ended (λ _. (result ≡ Ok tt) × (self.new ≡ self.old)) }
    {
        match self.ended() {
            Some(_) => Ok(()),
            None => self.append(piece),
        }
    }

    /// The next message to be served; or that more bytes are wanted; or how the link has ended, which is then
    /// answered for ever. `NoMemory` is answered anew until there is memory, and loses nothing.
    #[tactic(auto, using(crate::proofs::SessionLaws::goes_ended))]
    pub fn next(&mut self) -> Result<SessionStep, NoMemory>
        ensures next { (fed : List ℕ) (given : List Received) → Serves self.old fed given → Goes result fed given self.new }
        ensures spelled { OnServed result IsSpelled }
        ensures shorter { IsShorter result self.old self.new }
        ensures stays { StaysEnded result self.new }
        ensures again { IfSome self.old.ended (λ end. (result ≡ Ok (SessionStep.End end)) × (self.new ≡ self.old)) }
    {
        match self.ended() {
            Some(end) => Ok(SessionStep::End(end)),
            None => self.advance(),
        }
    }

    /// How the link ends where no more bytes come. Call it where `next` waits for more.
    pub fn at_end(&self) -> StreamEnd
        ensures { (fed : List ℕ) (given : List Received) → Serves self.now fed given → AreAll fed given
            → session fed ≡ record { messages = given; end = result } }
    {
        match self.ended() {
            Some(end) => end,
            None => rest_end(self.unfinished()),
        }
    }
}
