//! The framer: it is fed the bytes of a link in any pieces, and gives its messages.
ghost use Rattle.std.specs.Prelude.{◌≡◌, ◌<◌, ◌≤◌, ℕ, List, [], ◌++◌, length, IsTrue, OnOk, OnErr, IfSome};
ghost use Rattle.giop_messages.specs.declared.heads.TheConstants.{HEAD_LENGTH, MESSAGE_LIMIT};
ghost use Rattle.giop_stream.specs.Fronts.{total, needed, header_at_front, fronted, front, IsJudgedAt, IsJudgedHead, IsUnjudged, IsWithin};
ghost use Rattle.giop_stream.specs.Parts.{Received};
ghost use Rattle.giop_stream.specs.Streams.{Rest, stream};
ghost use Rattle.giop_stream.specs.Tallies.{briefs, Left};
ghost use Rattle.giop_stream.specs.Frames.{Stands, HasNext, Shortens, Keeps, OnGiven, stopped_at, with_piece};
ghost use Rattle.giop_stream.specs.Spelled.{IsSpelled};
ghost use Rattle.giop_stream.specs.Steps.{stop_at, looked, Needs, Took, Stepped, Advances};

use crate::begun::Partials;
use crate::buffers::Buffer;
use crate::faults::StreamFault;
use crate::fronts::{Front, front_by, read_header};
use crate::laws::streams_are_spelled;
use ft_base::NoMemory;
use giop_messages::{Form, HEAD_LENGTH, Head, Message};
use std::alloc::Global;
use std::marker::Model;

/// Reads the messages of a link from its bytes, which may come in any pieces, and joins their fragments.
///
/// A header is judged as soon as its twelve bytes are there, and what stands behind it once the whole
/// message or part is there. A message has at most 1 MiB, also a joined one, and at most eight are begun
/// at once.
///
/// It keeps the bytes that it has not given yet and the begun messages, and takes no memory ahead of their bytes,
/// whatever a header says.
#[derive(Drop)]
pub struct Framer {
    alloc: Global,
    buffer: Buffer,
    // The header at the front, once it was judged.
    head: Option<Head>,
    // So many bytes are missing of what has begun at the front. Until they come there is nothing to do. It is 0 where
    // that isn't known.
    need: usize,
    partials: Partials,
    stopped: Option<StreamFault>,
}

impl Model for Framer {
    ghost use Rattle.giop_stream.specs.Frames.{Frames, IsKept};

    ghost Value = { Frames };

    ghost view = { λ f. record { rest = f.buffer.unused; begun = f.partials; stopped = f.stopped; used = f.buffer.used; head = f.head } };

    ghost invariant = { λ f. IsKept f.need (record { rest = f.buffer.unused; begun = f.partials; stopped = f.stopped; used = f.buffer.used; head = f.head }) };
}

// How many bytes are needed at the front: a header's, or those that it says.
fn needed(head: Option<Head>) -> usize
    ensures { result ≡ needed head }
{
    match head {
        None => HEAD_LENGTH,
        Some(head) => HEAD_LENGTH + head.size as usize,
    }
}

// How many bytes are known to be missing behind a message, of which so many are there: a header's, where none is.
fn needed_behind(count: usize) -> usize
    ensures { 0 < result → (count ≡ 0) × (result ≡ HEAD_LENGTH) }
{
    if count == 0 { HEAD_LENGTH } else { 0 }
}

/// What one step over the front of the bytes did.
#[derive(Drop)]
enum Step {
    /// No whole message or part is there.
    Waits,
    /// A part joined a begun message, or began one.
    Joins,
    Gives((Message, Form)),
}

impl Framer {
    // The header at the front, which is judged once.
    fn judged(&self) -> Result<Option<Head>, StreamFault>
        ensures value { result ≡ header_at_front self.now.rest }
        ensures judged { IsJudgedHead result self.now.rest }
        ensures before { IsUnjudged result self.now.head }
    {
        match self.head {
            Some(head) => Ok(Some(head)),
            None => read_header(self.buffer.unused()),
        }
    }

    fn front_by(&self, head: Head) -> Front
        requires { total head ≤ MESSAGE_LIMIT }
        ensures value { result ≡ fronted self.now.rest (Ok head) }
        ensures within { IsWithin result self.now.rest }
    {
        front_by(head, self.buffer.unused())
    }

    #[tactic(auto, using(crate::proofs::FrameLaws::kept_anew))]
    fn keep(&mut self, head: Head)
        requires { IsJudgedAt (Some head) self.old.rest }
        ensures { self.new ≡ record self.old { head = Some head } }
    {
        self.head = Some(head);
        self.need = 0;
    }

    fn look(&mut self) -> Front
        ensures value { result ≡ front self.old.rest }
        ensures within { IsWithin result self.old.rest }
        ensures looked { self.new ≡ looked self.old }
    {
        match self.judged() {
            Ok(None) => Front::Partly,
            Ok(Some(head)) => {
                self.keep(head);
                self.front_by(head)
            }
            Err(fault) => Front::Wrong(fault),
        }
    }

    // Whether bytes are missing of what has begun at the front.
    #[tactic(auto, using(crate::proofs::FrameLaws::kept_needs))]
    fn needs_more(&self) -> bool
        ensures { IsTrue result → Needs self.now }
    {
        self.need > 0
    }

    // Nothing whole is at the front.
    #[tactic(auto, using(crate::proofs::FrameLaws::kept_settled))]
    fn settle(&mut self)
        requires { self.old.stopped ≡ None }
        ensures { self.new ≡ record self.old { used = 0 } }
    {
        self.buffer.settle();
        self.need = needed(self.head).saturating_sub(self.buffer.len());
    }

    fn stopped(&self) -> Option<StreamFault>
        ensures { result ≡ self.now.stopped }
    {
        self.stopped
    }

    // Keeps this fault, and nothing else.
    #[tactic(auto, using(crate::proofs::FrameLaws::kept_anew))]
    fn forget(&mut self, fault: StreamFault)
        ensures { self.new ≡ stopped_at fault }
    {
        self.head = None;
        self.need = 0;
        self.buffer.clear();
        self.partials.clear();
        self.stopped = Some(fault);
    }

    fn stop(&mut self, fault: StreamFault)
        ensures { self.new ≡ stop_at self.old fault }
    {
        match fault {
            StreamFault::NoMemory => {}
            StreamFault::Malformed { .. } | StreamFault::TooLarge(_) => self.forget(fault),
        }
    }

    /// Takes the whole message or part at the front. Where no byte is left behind it, a whole header is missing.
    #[tactic(auto, using(crate::proofs::FrameLaws::kept_taken))]
    fn take(&mut self, head: Head) -> Result<Option<(Message, Form)>, StreamFault>
        requires going { self.old.stopped ≡ None }
        requires small { total head ≤ MESSAGE_LIMIT }
        requires within { total head ≤ length self.old.rest }
        ensures { Took result self.old head self.new }
    {
        let count = HEAD_LENGTH + head.size as usize;
        let part = &self.buffer.unused()[..count];
        match self.partials.take(self.alloc, head, part) {
            Ok(message) => {
                self.head = None;
                self.buffer.skip(count);
                self.need = needed_behind(self.buffer.len());
                Ok(message)
            }
            Err(fault) => Err(fault),
        }
    }

    #[tactic(auto, using(crate::proofs::FrameLaws::stepped_waits, crate::proofs::FrameLaws::stepped_wrong, crate::proofs::FrameLaws::stepped_joins, crate::proofs::FrameLaws::stepped_gives, crate::proofs::FrameLaws::stepped_fails))]
    fn step(&mut self) -> Result<Step, StreamFault>
        requires { self.old.stopped ≡ None }
        ensures { Stepped result self.old self.new }
    {
        match self.look() {
            Front::Partly => {
                self.settle();
                Ok(Step::Waits)
            }
            Front::Wrong(fault) => {
                self.stop(fault);
                Err(fault)
            }
            Front::Whole(head) => match self.take(head) {
                Ok(Some(message)) => Ok(Step::Gives(message)),
                Ok(None) => Ok(Step::Joins),
                Err(fault) => {
                    self.stop(fault);
                    Err(fault)
                }
            },
        }
    }

    #[tactic(auto, using(crate::proofs::FrameLaws::passes_self, crate::proofs::FrameLaws::passes_on, crate::proofs::FrameLaws::advanced_waits))]
    fn advance(&mut self) -> Result<Option<(Message, Form)>, StreamFault>
        requires { self.old.stopped ≡ None }
        ensures advances { Advances result self.old self.new }
        ensures spelled { OnGiven result IsSpelled }
    {
        'parts: loop {
            match self.step() {
                Ok(Step::Gives(message)) => {
                    streams_are_spelled();
                    return Ok(Some(message));
                }
                Ok(Step::Waits) => return Ok(None),
                Ok(Step::Joins) => {}
                Err(fault) => return Err(fault),
            }
        }
    }

    /// A framer of a link of which no byte has come. It takes no memory.
    pub fn new(alloc: Global) -> Framer
        ensures { Stands result [] [] }
    {
        Framer::over(alloc, Vec::new(alloc))
    }

    /// A framer that was fed these bytes. It takes no memory, and keeps them where they are.
    #[tactic(auto, using(crate::proofs::FrameLaws::stands_over, crate::proofs::FrameLaws::kept_anew))]
    pub fn over(alloc: Global, bytes: Vec<u8>) -> Framer
        ensures { Stands result bytes.items [] }
    {
        Framer {
            alloc,
            buffer: Buffer::over(bytes),
            partials: Partials::new(alloc),
            head: None,
            need: 0,
            stopped: None,
        }
    }

    #[tactic(auto, using(crate::proofs::FrameLaws::kept_on))]
    fn append(&mut self, piece: &[u8]) -> Result<(), NoMemory>
        ensures ok { OnOk result (self.new ≡ record self.old { rest = self.old.rest ++ piece.now }) }
        ensures err { OnErr result (self.new ≡ self.old) }
    {
        self.buffer.append(piece)?;
        self.need = self.need.saturating_sub(piece.len());
        Ok(())
    }

    /// Feeds the next bytes of the link. After `NoMemory` it is as if they had not come. Once the link is
    /// at fault nothing is kept of them.
    #[tactic(auto, using(crate::proofs::FrameLaws::stands_fed, crate::proofs::FrameLaws::stands_stopped))]
    pub fn feed(&mut self, piece: &[u8]) -> Result<(), NoMemory>
        ensures ok { OnOk result ((fed : List ℕ) (given : List Received) → Stands self.old fed given → Stands self.new (fed ++ piece.now) given) }
        ensures kept { OnOk result (self.new ≡ with_piece self.old piece.now) }
        ensures err { OnErr result (self.new ≡ self.old) }
        ensures stopped { IfSome self.old.stopped (λ _. (result ≡ Ok tt) × (self.new ≡ self.old)) }
    {
        if self.stopped().is_some() {
            return Ok(());
        }
        self.append(piece)
    }

    /// The next message, with its form; `None` where no further one is whole.
    ///
    /// `NoMemory` is answered anew until there is memory, and loses nothing. Each other fault is answered
    /// for ever, whatever is fed: a link at fault can't be read on.
    #[tactic(auto, using(crate::proofs::FrameLaws::has_next, crate::proofs::FrameLaws::next_stopped))]
    pub fn next(&mut self) -> Result<Option<(Message, Form)>, StreamFault>
        ensures next { (fed : List ℕ) (given : List Received) → Stands self.old fed given → HasNext result fed given self.new }
        ensures spelled { OnGiven result IsSpelled }
        ensures shorter { Shortens result self.old self.new }
        ensures keeps { self.old.stopped ≡ None → Keeps result self.new }
        ensures again { IfSome self.old.stopped (λ fault. (result ≡ Err fault) × (self.new ≡ self.old)) }
    {
        if self.needs_more() {
            return Ok(None);
        }
        match self.stopped() {
            Some(fault) => Err(fault),
            None => self.advance(),
        }
    }

    // Whether all bytes that came belong to whole messages that were given.
    fn is_between(&self) -> bool
        ensures { IsTrue result → (length self.now.begun ≡ 0) × (length self.now.rest ≡ 0) }
    {
        self.buffer.len() == 0 && self.partials.is_empty()
    }

    fn left_over(&self) -> u32
        ensures { (n : ℕ) → Left (briefs self.now.begun) self.now.rest n → result ≡ n }
    {
        self.partials.tally().left_over(self.buffer.unused())
    }

    /// How many bytes were fed that belong to no whole message: those of all parts of begun messages, with
    /// their headers, and those at the end that are no whole message or part. Whole messages that `next`
    /// has not given yet don't count. 4,294,967,295 stands for more; what it answers of a link at fault
    /// says nothing.
    pub fn unfinished(&self) -> u32
        ensures { (fed : List ℕ) (given ms : List Received) (n : ℕ) → Stands self.now fed given
            → stream fed ≡ record { messages = ms; end = Rest n } → result ≡ n }
    {
        // Most links end so, and then nothing has to be counted.
        if self.is_between() {
            return 0;
        }
        self.left_over()
    }
}
