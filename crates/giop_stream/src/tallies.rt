//! How many bytes belong to no whole message. It is counted over headers and ids alone, and takes no memory.
ghost use Rattle.std.specs.Prelude.{◌≡◌, ◌≤◌, ◌<◌, ◌+◌, nat_lt, if◌then◌else◌, ℕ, [], ◌∷◌, ◌++◌, length, drop, min, remove, slice_get, slice_set, Some, IfSome};
ghost use Rattle.giop_messages.specs.Heads.{more_in};
ghost use Rattle.giop_messages.specs.declared.heads.TheConstants.{MESSAGE_LIMIT};
ghost use Rattle.cdr_codec.specs.Orders.{order_of};
ghost use Rattle.giop_stream.specs.declared.begun.TheConstants.{FRAGMENT_HEAD};
ghost use Rattle.giop_stream.specs.Parts.{begun_limit, capped, id_in};
ghost use Rattle.giop_stream.specs.Tallies.{brief_place, spent_by, tally_at, tally_fragment, tally_first, tally, Left};

use crate::begun::{is_fragment, read_id};
use crate::fronts::{Front, read_front};
use arrayvec::ArrayVec;
use giop_messages::{HEAD_LENGTH, Head};
use std::marker::Model;

/// Of a begun message: its id, and the number of bytes of all its parts, as far as it is counted.
#[derive(Clone, Copy, Debug, Default, PartialEq, Eq)]
pub struct Brief {
    pub id: u32,
    pub spent: u32,
}

/// The messages that are begun.
#[derive(Drop)]
pub struct Tally {
    items: ArrayVec<Brief, 8>,
}

impl Model for Tally {
    ghost use Rattle.std.specs.Prelude.{List};
    ghost use Rattle.giop_stream.specs.declared.tallies.Brief.{Brief};

    ghost Value = { List Brief };

    ghost view = { λ t. t.items.items };
}

impl Tally {
    pub fn new() -> Tally
        ensures { result ≡ [] }
    {
        Tally {
            items: ArrayVec::new(),
        }
    }

    pub fn add(&mut self, brief: Brief)
        ensures { self.new ≡ (if nat_lt (length self.old) begun_limit then self.old ++ brief ∷ [] else self.old) }
    {
        if !self.items.is_full() {
            self.items.push(brief);
        }
    }

    fn place_of(&self, id: u32) -> Option<usize>
        ensures value { result ≡ brief_place id self.now }
        ensures within { IfSome result (λ at. at < length self.now) }
    {
        self.items
            .as_slice()
            .iter()
            .position(|brief| brief.id == id)
    }

    fn brief(&self, at: usize) -> Brief
        requires { at < length self.now }
        ensures { slice_get self.now at ≡ Some result }
    {
        self.items.as_slice()[at]
    }

    fn put(&mut self, at: usize, brief: Brief)
        requires { at < length self.old }
        ensures { self.new ≡ slice_set self.old at brief }
    {
        self.items.as_mut_slice()[at] = brief;
    }

    fn remove(&mut self, at: usize)
        requires { at < length self.old }
        ensures { self.new ≡ remove self.old at }
    {
        self.items.remove(at);
    }

    fn spent(&self) -> u64
        ensures { result ≡ spent_by self.now }
    {
        self.items
            .as_slice()
            .iter()
            .map(|brief| u64::from(brief.spent))
            .sum()
    }
}

impl Tally {
    /// A first part, with more to follow.
    fn begin(&mut self, head: Head, part: &[u8])
        requires long { HEAD_LENGTH ≤ length part.now }
        requires small { length part.now ≤ MESSAGE_LIMIT }
        ensures { self.new ≡ tally_first self.old part.now (id_in (order_of head.flags) part.now) }
    {
        match read_id(head.order(), part) {
            Ok(id) => self.add(Brief {
                id,
                spent: part.len() as u32,
            }),
            Err(_) => {}
        }
    }

    fn grow(&mut self, at: usize, more: bool, part: &[u8])
        requires within { at < length self.old }
        requires long { FRAGMENT_HEAD ≤ length part.now }
        requires small { length part.now ≤ MESSAGE_LIMIT }
        ensures { self.new ≡ tally_at self.old at more part.now (slice_get self.old at) }
    {
        let brief = self.brief(at);
        if more {
            let spent = brief.spent.saturating_add(part.len() as u32);
            self.put(
                at,
                Brief {
                    id: brief.id,
                    spent,
                },
            );
        } else {
            self.remove(at);
        }
    }

    fn fragment(&mut self, head: Head, part: &[u8])
        requires long { HEAD_LENGTH ≤ length part.now }
        requires small { length part.now ≤ MESSAGE_LIMIT }
        ensures { self.new ≡ tally_fragment self.old (more_in head) part.now (id_in (order_of head.flags) part.now) }
    {
        match read_id(head.order(), part) {
            Ok(id) => match self.place_of(id) {
                Some(at) => self.grow(at, head.more(), part),
                None => {}
            },
            Err(_) => {}
        }
    }

    /// A whole message or part.
    #[tactic(auto, unfolding(crate::specs::Tallies::tally))]
    fn take(&mut self, head: Head, part: &[u8])
        requires long { HEAD_LENGTH ≤ length part.now }
        requires small { length part.now ≤ MESSAGE_LIMIT }
        ensures { self.new ≡ tally self.old head part.now }
    {
        if is_fragment(head.kind) {
            self.fragment(head, part);
        } else if head.more() {
            self.begin(head, part);
        }
    }

    fn with(&self, rest: usize) -> u32
        ensures { result ≡ capped (spent_by self.now + rest) }
    {
        let count = self.spent().saturating_add(rest as u64);
        count.min(u64::from(u32::MAX)) as u32
    }

    /// How many of the bytes that wait, and of the begun messages, belong to no whole message. What it
    /// answers where these bytes are at fault says nothing.
    pub fn left_over(mut self, bytes: &[u8]) -> u32
        ensures { (n : ℕ) → Left self bytes.now n → result ≡ n }
    {
        let mut rest = bytes;
        'parts: loop {
            match read_front(rest) {
                Front::Whole(head) => {
                    let (part, behind) = rest.split_at(HEAD_LENGTH + head.size as usize);
                    self.take(head, part);
                    rest = behind;
                }
                Front::Partly => return self.with(rest.len()),
                Front::Wrong(_) => return self.with(rest.len()),
            }
        }
    }
}
