//! The messages whose last fragment has not come.
ghost use Rattle.std.specs.Prelude.{◌≡◌, ◌≤◌, ◌<◌, ◌+◌, ◌==◌, ℕ, [], ◌∷◌, ◌++◌, length, drop, remove, slice_get, slice_set, Some, vec_len, IfOk, IfSome, OnOk, OnErr};
ghost use Rattle.cdr_codec.specs.Calls.{Tells};
ghost use Rattle.giop_stream.specs.Faults.{link_fault};
ghost use Rattle.giop_stream.specs.Parts.{Begun, begun_limit, place_of, grown, joined_size, id_in, message_of, is_fragment, Joins, begins, completes, grows_at, fragment, turn, Turned};
ghost use Rattle.giop_stream.specs.Tallies.{brief, briefs};

use crate::faults::StreamFault;
use crate::tallies::{Brief, Tally};
use cdr_codec::{CdrReader, Order};
use ft_base::NoMemory;
use giop_messages::{
    Form, HEAD_LENGTH, Head, Kind, MESSAGE_LIMIT, Malformed, Message, Why, read_fields,
};
use smallvec::SmallVec;
use std::alloc::Global;
use std::default::MadeWith;
use std::marker::Model;

/// The most messages that are begun at once.
const BEGUN_LIMIT: usize = 8;

/// The number of bytes of a fragment before its rest: the header and the request id.
const FRAGMENT_HEAD: usize = 16;

/// Most messages that come in parts are longer than their first part by no more than this, and so are joined in one
/// piece of memory.
const JOIN_ROOM: usize = 64;

const OUT_OF_TURN: StreamFault = StreamFault::Malformed {
    why: Why::Open,
    place: HEAD_LENGTH as u32,
};

/// A begun message: its id, the header of its first part, what stands behind that with the rests of its
/// fragments, and the number of bytes of all its parts with their headers, as far as it is counted.
#[derive(Drop)]
pub struct Opened {
    id: u32,
    head: Head,
    payload: Vec<u8>,
    spent: u32,
}

impl Model for Opened {
    ghost use Rattle.std.specs.Prelude.{◌≤◌, ◌+◌, vec_len};
    ghost use Rattle.giop_messages.specs.declared.heads.TheConstants.{HEAD_LENGTH, MESSAGE_LIMIT};
    ghost use Rattle.giop_stream.specs.Parts.{Begun};

    ghost Value = { Begun };

    ghost view = { λ o. record { id = o.id; head = o.head; payload = o.payload.items; spent = o.spent } };

    ghost invariant = { λ o. HEAD_LENGTH + vec_len o.payload ≤ MESSAGE_LIMIT };
}

// What stands where no message is begun. It takes no memory.
impl MadeWith<Global> for Opened {
    fn made_with(alloc: Global) -> Opened {
        Opened {
            id: 0,
            head: Head {
                minor: 2,
                flags: 0,
                kind: Kind::Request,
                size: 0,
            },
            payload: Vec::new(alloc),
            spent: 0,
        }
    }
}

#[tactic(auto, unfolding(crate::specs::Parts::message_of))]
#[inline(always)]
fn read_whole(alloc: Global, head: Head, payload: &[u8]) -> Result<(Message, Form), StreamFault>
    requires { length payload.now ≤ MESSAGE_LIMIT }
    ensures { Tells (λ m. m) link_fault result (message_of head payload.now) }
{
    let message = read_fields(alloc, head, payload)?;
    Ok(message)
}

fn extend(bytes: &mut Vec<u8>, rest: &[u8]) -> Result<(), NoMemory>
    ensures ok { OnOk result (bytes.new.items ≡ bytes.old.items ++ rest.now) }
    ensures len { OnOk result (vec_len bytes.new ≡ vec_len bytes.old + length rest.now) }
    ensures err { OnErr result ((bytes.new.items ≡ bytes.old.items) × (vec_len bytes.new ≡ vec_len bytes.old)) }
{
    bytes.extend_from_slice(rest)?;
    Ok(())
}

impl Opened {
    fn begin(alloc: Global, id: u32, head: Head, part: &[u8]) -> Result<Opened, NoMemory>
        requires long { HEAD_LENGTH ≤ length part.now }
        requires small { length part.now ≤ MESSAGE_LIMIT }
        ensures { IfOk result (λ o. o ≡ record { id = id; head = head; payload = drop HEAD_LENGTH part.now; spent = length part.now }) }
    {
        let mut payload = Vec::with_capacity(alloc, part.len() + JOIN_ROOM)?;
        payload.extend_from_slice(payload_of(part))?;
        Ok(Opened {
            id,
            head,
            payload,
            spent: part.len() as u32,
        })
    }

    fn brief(&self) -> Brief
        ensures { result ≡ brief self.now }
    {
        Brief {
            id: self.id,
            spent: self.spent,
        }
    }

    fn has(&self, id: u32) -> bool
        ensures { result ≡ (self.now.id == id) }
    {
        self.id == id
    }

    // with the header
    fn len(&self) -> usize
        ensures value { result ≡ HEAD_LENGTH + length self.now.payload }
        ensures small { result ≤ MESSAGE_LIMIT }
    {
        HEAD_LENGTH + self.payload.len()
    }

    fn grow(&mut self, rest: &[u8]) -> Result<(), NoMemory>
        requires { joined_size self.old rest.now ≤ MESSAGE_LIMIT }
        ensures ok { OnOk result (self.new ≡ grown self.old rest.now) }
        ensures err { OnErr result (self.new ≡ self.old) }
    {
        extend(&mut self.payload, rest)?;
        self.spent = self
            .spent
            .saturating_add((FRAGMENT_HEAD + rest.len()) as u32);
        Ok(())
    }

    /// The whole message, which this rest ends. The rest is appended only while the message is read.
    fn join(&mut self, alloc: Global, rest: &[u8]) -> Result<(Message, Form), StreamFault>
        requires { joined_size self.old rest.now ≤ MESSAGE_LIMIT }
        ensures value { Tells (λ m. m) link_fault result (message_of self.old.head (self.old.payload ++ rest.now)) }
        ensures same { self.new ≡ self.old }
    {
        let length = self.payload.len();
        extend(&mut self.payload, rest)?;
        let message = read_whole(alloc, self.head, self.payload.as_slice());
        self.payload.truncate(length);
        message
    }
}

/// What stands behind the header of a message or part.
fn payload_of(part: &[u8]) -> &[u8]
    requires { HEAD_LENGTH ≤ length part.now }
    ensures { result.now ≡ drop HEAD_LENGTH part.now }
{
    &part[HEAD_LENGTH..]
}

#[tactic(auto, unfolding(crate::specs::Parts::id_in))]
pub fn read_id(order: Order, part: &[u8]) -> Result<u32, StreamFault>
    requires long { HEAD_LENGTH ≤ length part.now }
    requires small { length part.now ≤ MESSAGE_LIMIT }
    ensures value { result ≡ id_in order part.now }
    ensures room { IfOk result (λ _. FRAGMENT_HEAD ≤ length part.now) }
{
    let mut reader = CdrReader::new(order, HEAD_LENGTH as u32, &part[HEAD_LENGTH..]);
    match reader.read_u32() {
        Ok(id) => Ok(id),
        Err(wrong) => {
            let wrong = Malformed::from(wrong);
            Err(StreamFault::Malformed {
                why: wrong.why,
                place: wrong.place,
            })
        }
    }
}

/// What a fragment adds.
fn rest_of(part: &[u8]) -> &[u8]
    requires { FRAGMENT_HEAD ≤ length part.now }
    ensures { result.now ≡ drop FRAGMENT_HEAD part.now }
{
    &part[FRAGMENT_HEAD..]
}

pub fn is_fragment(kind: Kind) -> bool
    ensures { result ≡ is_fragment kind }
{
    matches!(kind, Kind::Fragment)
}

fn tally_of(items: &[Opened]) -> Tally
    requires { length items.now ≤ begun_limit }
    ensures { result ≡ briefs items.now }
{
    let mut tally = Tally::new();
    for begun in items {
        tally.add(begun.brief());
    }
    tally
}

/// All messages that are begun, in the order in which they began. Most links have one at a time, which lies in the list
/// itself; only more of them take memory.
#[derive(Drop)]
pub struct Partials {
    items: SmallVec<Opened, 1>,
}

impl Model for Partials {
    ghost use Rattle.std.specs.Prelude.{◌≤◌, List};
    ghost use Rattle.giop_stream.specs.Parts.{Begun, begun_limit};
    ghost use Rattle.smallvec.specs.SmallVec.{small_vec_len};

    ghost Value = { List Begun };

    ghost view = { λ p. p.items.items };

    ghost invariant = { λ p. small_vec_len p.items ≤ begun_limit };
}

impl Partials {
    pub fn new(alloc: Global) -> Partials
        ensures { result ≡ [] }
    {
        Partials {
            items: SmallVec::new(alloc),
        }
    }

    /// Forgets everything, and gives its memory back.
    pub fn clear(&mut self)
        ensures { self.new ≡ [] }
    {
        self.items.clear();
        self.items.shrink_to_fit();
    }

    pub fn is_empty(&self) -> bool
        ensures { result ≡ (length self.now == 0) }
    {
        self.items.is_empty()
    }

    /// What counts the bytes that belong to no whole message.
    pub fn tally(&self) -> Tally
        ensures { result ≡ briefs self.now }
    {
        tally_of(self.items.as_slice())
    }

    fn len(&self) -> usize
        ensures value { result ≡ length self.now }
        ensures few { length self.now ≤ begun_limit }
    {
        self.items.len()
    }

    fn place_of(&self, id: u32) -> Option<usize>
        ensures value { result ≡ place_of id self.now }
        ensures within { IfSome result (λ at. at < length self.now) }
    {
        self.items.as_slice().iter().position(|begun| begun.has(id))
    }

    fn size(&self, at: usize) -> usize
        requires { at < length self.now }
        ensures value { (o : Begun) → slice_get self.now at ≡ Some o → result ≡ HEAD_LENGTH + length o.payload }
        ensures small { result ≤ MESSAGE_LIMIT }
    {
        self.items.as_slice()[at].len()
    }

    fn push(&mut self, begun: Opened) -> Result<(), NoMemory>
        requires { length self.old < begun_limit }
        ensures ok { OnOk result (self.new ≡ self.old ++ begun ∷ []) }
        ensures err { OnErr result (self.new ≡ self.old) }
    {
        self.items.push(begun)?;
        Ok(())
    }

    #[tactic(auto, using(std::proofs::lemmas::Option::slice_get_read))]
    fn extend(&mut self, at: usize, rest: &[u8]) -> Result<(), NoMemory>
        requires within { at < length self.old }
        requires fits { (o : Begun) → slice_get self.old at ≡ Some o → joined_size o rest.now ≤ MESSAGE_LIMIT }
        ensures ok { (o : Begun) → slice_get self.old at ≡ Some o → OnOk result (self.new ≡ slice_set self.old at (grown o rest.now)) }
        ensures err { OnErr result (self.new ≡ self.old) }
    {
        let begun = &mut self.items.as_mut_slice()[at];
        match begun.grow(rest) {
            Ok(()) => return Ok(()),
            Err(NoMemory) => return Err(NoMemory),
        }
    }

    #[tactic(auto, using(std::proofs::lemmas::Option::slice_get_read))]
    fn join(
        &mut self,
        alloc: Global,
        at: usize,
        rest: &[u8],
    ) -> Result<(Message, Form), StreamFault>
        requires within { at < length self.old }
        requires fits { (o : Begun) → slice_get self.old at ≡ Some o → joined_size o rest.now ≤ MESSAGE_LIMIT }
        ensures value { (o : Begun) → slice_get self.old at ≡ Some o → Tells (λ m. m) link_fault result (message_of o.head (o.payload ++ rest.now)) }
        ensures same { self.new ≡ self.old }
    {
        let begun = &mut self.items.as_mut_slice()[at];
        match begun.join(alloc, rest) {
            Ok(message) => return Ok(message),
            Err(fault) => return Err(fault),
        }
    }

    fn remove(&mut self, at: usize)
        requires { at < length self.old }
        ensures { self.new ≡ remove self.old at }
    {
        self.items.remove(at);
    }
}

impl Partials {
    /// A first part, with more to follow.
    fn begin(
        &mut self,
        alloc: Global,
        head: Head,
        part: &[u8],
    ) -> Result<Option<(Message, Form)>, StreamFault>
        requires long { HEAD_LENGTH ≤ length part.now }
        requires small { length part.now ≤ MESSAGE_LIMIT }
        ensures { Turned result self.old (begins self.old head part.now) self.new }
    {
        let id = read_id(head.order(), part)?;
        if self.place_of(id).is_some() || self.len() >= BEGUN_LIMIT {
            return Err(OUT_OF_TURN);
        }
        let begun = Opened::begin(alloc, id, head, part)?;
        self.push(begun)?;
        Ok(None)
    }

    /// The message at this place becomes whole.
    fn complete(
        &mut self,
        alloc: Global,
        at: usize,
        rest: &[u8],
    ) -> Result<Option<(Message, Form)>, StreamFault>
        requires within { at < length self.old }
        requires fits { (o : Begun) → slice_get self.old at ≡ Some o → joined_size o rest.now ≤ MESSAGE_LIMIT }
        ensures { (o : Begun) → slice_get self.old at ≡ Some o → Turned result self.old (completes self.old at o rest.now) self.new }
    {
        let message = self.join(alloc, at, rest)?;
        self.remove(at);
        Ok(Some(message))
    }

    /// The rest of a fragment, behind the message at this place.
    fn grow(
        &mut self,
        alloc: Global,
        at: usize,
        more: bool,
        rest: &[u8],
    ) -> Result<Option<(Message, Form)>, StreamFault>
        requires within { at < length self.old }
        requires small { length rest.now ≤ MESSAGE_LIMIT }
        ensures { (o : Begun) → slice_get self.old at ≡ Some o → Turned result self.old (grows_at self.old at more rest.now (Some o)) self.new }
    {
        let size = self.size(at) as u64 + rest.len() as u64;
        if size > MESSAGE_LIMIT as u64 {
            return Err(StreamFault::TooLarge(size));
        }
        if more {
            self.extend(at, rest)?;
            return Ok(None);
        }
        self.complete(alloc, at, rest)
    }

    fn fragment(
        &mut self,
        alloc: Global,
        head: Head,
        part: &[u8],
    ) -> Result<Option<(Message, Form)>, StreamFault>
        requires long { HEAD_LENGTH ≤ length part.now }
        requires small { length part.now ≤ MESSAGE_LIMIT }
        ensures { Turned result self.old (fragment self.old head part.now) self.new }
    {
        let id = read_id(head.order(), part)?;
        match self.place_of(id) {
            Some(at) => self.grow(alloc, at, head.more(), rest_of(part)),
            None => Err(OUT_OF_TURN),
        }
    }

    /// A whole message or part: it answers the message that this makes whole, if any. After a fault, or
    /// want of memory, the begun messages are as they were.
    #[tactic(auto, unfolding(crate::specs::Parts::turn))]
    pub fn take(
        &mut self,
        alloc: Global,
        head: Head,
        part: &[u8],
    ) -> Result<Option<(Message, Form)>, StreamFault>
        requires long { HEAD_LENGTH ≤ length part.now }
        requires small { length part.now ≤ MESSAGE_LIMIT }
        ensures { Turned result self.old (turn self.old head part.now) self.new }
    {
        if is_fragment(head.kind) {
            return self.fragment(alloc, head, part);
        }
        if head.more() {
            return self.begin(alloc, head, part);
        }
        let message = read_whole(alloc, head, payload_of(part))?;
        Ok(Some(message))
    }
}
