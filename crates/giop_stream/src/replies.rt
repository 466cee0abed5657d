//! What a client reads of a link, Reply by Reply, and how the link ends. (GIOP chapter, "GIOP Message Transfer".)
ghost use Rattle.std.specs.Prelude.{◌≡◌, List, ℕ, [], ◌++◌, OnOk, OnErr, IfSome, Some, None, Ok};
ghost use Rattle.giop_messages.specs.declared.messages.ReplyMsg.{ReplyMsg as ReplyPicture};
ghost use Rattle.giop_stream.specs.Replies.{AreAllReplies, HasFewer, HasFewerOrPasses, IsSpelledReply, Listens, OnReply, OnReplyOrPasses, Reads, ReadsOrPasses, StaysOver, StaysOverOrPasses, StopsReplies, TakesReply, link_replies};
ghost use Rattle.giop_stream.specs.Parts.{Received};
ghost use Rattle.giop_stream.specs.Streams.{Rest, stream};
ghost use Rattle.giop_stream.specs.Frames.{HasNext, OnGiven, Shortens, Stands};
ghost use Rattle.giop_stream.specs.Spelled.{IsSpelled};

use crate::faults::StreamFault;
use crate::sessions::{Session, StreamEnd, fault_end, rest_end};
use ft_base::NoMemory;
use giop_messages::{Form, Message, ReplyMsg};
use std::alloc::Global;
use std::marker::Model;

/// What a session over a client's link comes to next.
#[derive(Drop)]
pub enum ReplyStep {
    Reply(ReplyMsg),
    /// No further message is whole: more bytes are wanted.
    Wait,
    /// The link has ended, whatever follows.
    End(StreamEnd),
}

/// Reads a client's link: it is fed the link's bytes in any pieces, and gives the Replies up to the first message that
/// ends the link. Other messages are passed over.
#[derive(Drop)]
pub struct ReplySession {
    session: Session,
}

impl Model for ReplySession {
    ghost use Rattle.giop_stream.specs.Sessions.{Serving};

    ghost Value = { Serving };

    ghost view = { λ s. s.session };
}

impl ReplySession {
    fn ended(&self) -> Option<StreamEnd>
        ensures { result ≡ self.now.ended }
    {
        self.session.ended()
    }

    fn end(&mut self, end: StreamEnd) -> ReplyStep
        ensures step { result ≡ ReplyStep.End end }
        ensures ended { self.new ≡ record self.old { ended = Some end } }
    {
        self.session.end(end);
        ReplyStep::End(end)
    }

    // A message came: a Reply, one that ends the link, or one that says nothing to a client.
    fn take(&mut self, message: Message) -> Option<ReplyStep>
        ensures { TakesReply result message self.old self.new }
    {
        match message {
            Message::Reply(reply) => Some(ReplyStep::Reply(reply)),
            Message::CloseConnection => Some(self.end(StreamEnd::Closed)),
            Message::MessageError => Some(self.end(StreamEnd::Closed)),
            Message::Request(_)
            | Message::Cancel(_)
            | Message::LocateRequest(_, _)
            | Message::LocateReply(_, _)
            | Message::Fragment(_, _) => None,
        }
    }

    // The bytes of the link are at fault, or there is no memory.
    fn stop(&mut self, fault: StreamFault) -> Result<Option<ReplyStep>, NoMemory>
        ensures { StopsReplies result fault self.old self.new }
    {
        match fault_end(fault) {
            Ok(end) => Ok(Some(self.end(end))),
            Err(NoMemory) => Err(NoMemory),
        }
    }

    fn unfinished(&self) -> u32
        ensures { (fed : List ℕ) (given ms : List Received) (n : ℕ) → Stands self.now.frames fed given
            → stream fed ≡ record { messages = ms; end = Rest n } → result ≡ n }
    {
        self.session.unfinished()
    }

    fn read(&mut self) -> Result<Option<(Message, Form)>, StreamFault>
        ensures next { (fed : List ℕ) (given : List Received) → Stands self.old.frames fed given → HasNext result fed given self.new.frames }
        ensures spelled { OnGiven result IsSpelled }
        ensures shorter { Shortens result self.old.frames self.new.frames }
        ensures ended { self.new.ended ≡ self.old.ended }
    {
        self.session.read()
    }

    fn append(&mut self, piece: &[u8]) -> Result<(), NoMemory>
        ensures ok { OnOk result ((fed : List ℕ) (given : List Received) → Stands self.old.frames fed given
            → Stands self.new.frames (fed ++ piece.now) given) }
        ensures ended { self.new.ended ≡ self.old.ended }
        ensures err { OnErr result (self.new ≡ self.old) }
    {
        self.session.append(piece)
    }

    // One message of the link; `None` where it is passed over.
    fn step(&mut self) -> Result<Option<ReplyStep>, NoMemory>
        requires { self.old.ended ≡ None }
        ensures next { (fed : List ℕ) (given : List ReplyPicture) → Listens self.old fed given → ReadsOrPasses result fed given self.new }
        ensures spelled { OnReplyOrPasses result IsSpelledReply }
        ensures shorter { HasFewerOrPasses result self.old self.new }
        ensures stays { StaysOverOrPasses result self.new }
    {
        match self.read() {
            Ok(Some(received)) => {
                let (message, _form) = received;
                Ok(self.take(message))
            }
            Ok(None) => Ok(Some(ReplyStep::Wait)),
            Err(fault) => self.stop(fault),
        }
    }

    #[tactic(auto, using(crate::proofs::ReplyLaws::past_self))]
    fn advance(&mut self) -> Result<ReplyStep, NoMemory>
        requires { self.old.ended ≡ None }
        ensures next { (fed : List ℕ) (given : List ReplyPicture) → Listens self.old fed given → Reads result fed given self.new }
        ensures spelled { OnReply result IsSpelledReply }
        ensures shorter { HasFewer result self.old self.new }
        ensures stays { StaysOver result self.new }
    {
        'messages: loop {
            match self.step() {
                Ok(Some(step)) => return Ok(step),
                Ok(None) => {}
                Err(NoMemory) => return Err(NoMemory),
            }
        }
    }

    /// A session over a link of which no byte has come. It takes no memory.
    pub fn new(alloc: Global) -> ReplySession
        ensures { Listens result [] [] }
    {
        ReplySession::over(alloc, Vec::new(alloc))
    }

    /// A session over a link of which these bytes have come. It takes no memory, and keeps them where they are.
    #[tactic(auto, using(crate::proofs::ReplyLaws::listens_over))]
    pub fn over(alloc: Global, bytes: Vec<u8>) -> ReplySession
        ensures { Listens result bytes.items [] }
    {
        ReplySession {
            session: Session::begin(alloc, bytes),
        }
    }

    /// Feeds the next bytes of the link. After `NoMemory` it is as if they had not come. Once the link has ended
    /// nothing is kept of them.
    #[tactic(auto, using(crate::proofs::ReplyLaws::listens_ended))]
    pub fn feed(&mut self, piece: &[u8]) -> Result<(), NoMemory>
        ensures ok { OnOk result ((fed : List ℕ) (given : List ReplyPicture) → Listens self.old fed given → Listens self.new (fed ++ piece.now) given) }
        ensures err { OnErr result (self.new ≡ self.old) }
        ensures ended { IfSome self.old.ended (λ _. (result ≡ Ok tt) × (self.new ≡ self.old)) }
    {
        match self.ended() {
            Some(_) => Ok(()),
            None => self.append(piece),
        }
    }

    /// The next Reply; or that more bytes are wanted; or how the link has ended, which is then answered for ever.
    /// `NoMemory` is answered anew until there is memory, and loses nothing.
    #[tactic(auto, using(crate::proofs::ReplyLaws::reads_ended))]
    pub fn next(&mut self) -> Result<ReplyStep, NoMemory>
        ensures next { (fed : List ℕ) (given : List ReplyPicture) → Listens self.old fed given → Reads result fed given self.new }
        ensures spelled { OnReply result IsSpelledReply }
        ensures shorter { HasFewer result self.old self.new }
        ensures stays { StaysOver result self.new }
        ensures again { IfSome self.old.ended (λ end. (result ≡ Ok (ReplyStep.End end)) × (self.new ≡ self.old)) }
    {
        match self.ended() {
            Some(end) => Ok(ReplyStep::End(end)),
            None => self.advance(),
        }
    }

    /// How the link ends where no more bytes come. Call it where `next` waits for more.
    pub fn at_end(&self) -> StreamEnd
        ensures { (fed : List ℕ) (given : List ReplyPicture) → Listens self.now fed given → AreAllReplies fed given
            → link_replies fed ≡ record { replies = given; end = result } }
    {
        match self.ended() {
            Some(end) => end,
            None => rest_end(self.unfinished()),
        }
    }
}
