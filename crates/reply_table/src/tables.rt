ghost use Rattle.std.specs.Prelude.{◌≡◌, ◌<◌, ◌≤◌, ℕ, true, false, [], slice_get, option_copied, length, OnOk, OnErr, is_some, vec_len, vec_capacity};
ghost use Rattle.indexmap.specs.IndexMap.{spare};
ghost use Rattle.std.specs.Map.{lookup, values_of};
ghost use Rattle.std.specs.List.{filter, find};
ghost use Rattle.ft_base.specs.Journal.{is_unexpired};
ghost use Rattle.reply_table.specs.Entries.{found, holder, unanswered, without, joined, unexpired, entry_at, reply_of, with_reply, IsAfter};

use crate::entries::{Found, Retained, says_same};
use crate::ids::ID_LIMIT;
use crate::rows::{Rows, answer, holder, index_at, join, purge};
use ft_base::{Key, NoMemory, Outcome, Request, Tick, Version};
use indexmap::IndexMap;
use std::alloc::Global;
use std::marker::Model;

/// The retained entries of a journal.
#[derive(Drop)]
pub struct ReplyTable {
    rows: Rows,
    /// The memory of the next entry's id.
    next: Option<Vec<u8>>,
}

impl Model for ReplyTable {
    ghost use Rattle.std.specs.Prelude.{is_some};
    ghost use Rattle.std.specs.Map.{values_of};
    ghost use Rattle.indexmap.specs.IndexMap.{spare};
    ghost use Rattle.reply_table.specs.Entries.{Table, AreInOrder};
    ghost use Rattle.reply_table.specs.Ids.{AreFiled, HasRoom};

    ghost Value = { Table };

    ghost view = { λ t. record { entries = values_of t.rows.entries; room = is_some t.next } };

    ghost invariant = { λ t. AreFiled t.rows.entries × AreInOrder (values_of t.rows.entries) × HasRoom t.next (spare t.rows) };
}

impl ReplyTable {
    /// An empty table.
    pub fn new(alloc: Global) -> ReplyTable
        ensures { result ≡ record { entries = []; room = false } }
    {
        ReplyTable {
            rows: IndexMap::new(alloc),
            next: None,
        }
    }

    /// What a request is to the entries, at a moment: whether one holds its retention id, with an
    /// expiration that is still to come, and says the same. It takes no memory.
    pub fn find(&self, request: &Request, now: Tick) -> Found
        ensures { result ≡ found self.now.entries request.now request.now.key now.0 }
    {
        let Some(key) = &request.key else {
            return Found::Fresh;
        };
        match holder(&self.rows, key, now) {
            None => Found::Fresh,
            Some(entry) if says_same(request, key, &entry.request) => Found::Same(entry.position),
            Some(entry) => Found::Other(entry.position),
        }
    }

    /// Makes room for one more entry.
    pub fn reserve(&mut self) -> Result<(), NoMemory>
        ensures room { OnOk result (self.new ≡ record self.old { room = true }) }
        ensures left { OnErr result (self.new ≡ self.old) }
    {
        self.rows.reserve(1)?;
        if self.next.is_none() {
            let alloc = *self.rows.allocator();
            self.next = Some(Vec::with_capacity(alloc, ID_LIMIT)?);
        }
        Ok(())
    }

    /// The entry with this number, in order of position from 0.
    pub fn retained(&self, index: u32) -> Option<&Retained>
        ensures { option_copied result ≡ slice_get self.now.entries index }
    {
        let (_id, entry) = self.rows.get_index(index as usize)?;
        Some(entry)
    }

    /// How many entries there are.
    pub fn len(&self) -> usize
        ensures { result ≡ length self.now.entries }
    {
        self.rows.len()
    }

    /// The reply of the entry at a position, once it has run.
    pub fn reply(&self, position: u32) -> Option<&Outcome>
        ensures { option_copied result ≡ reply_of self.now.entries position }
    {
        let index = index_at(&self.rows, position)?;
        let (_id, entry) = self.rows.get_index(index)?;
        entry.reply.as_ref()
    }

    /// Lets go of the entries whose expiration has come.
    pub fn purge(&mut self, time: Tick)
        ensures { self.new ≡ record self.old { entries = unexpired time.0 self.old.entries } }
    {
        purge(&mut self.rows, time);
    }

    /// Adds an accepted request as the last entry, not run yet, in place of an earlier one of the same
    /// client and retention id, which has expired by then. A request without a key isn't retained.
    /// It takes no memory.
    pub fn put_reserved(&mut self, position: u32, version: Version, at: Tick, request: Request)
        requires room { self.old.room ≡ true }
        requires later { IsAfter position self.old.entries }
        ensures { self.new ≡ record { entries = joined self.old.entries (unanswered position version at request) request.key; room = false } }
    {
        let Some(id) = self.next.take() else {
            unreachable!()
        };
        let entry = Retained {
            position,
            version,
            at,
            request,
            reply: None,
        };
        join(&mut self.rows, id, entry);
    }

    /// The entry at a position has run, with this outcome. Where no entry has that position, or the entry
    /// has a reply, nothing changes. It takes no memory.
    pub fn set_reply(&mut self, position: u32, outcome: Outcome)
        ensures { self.new ≡ record self.old { entries = with_reply self.old.entries position outcome } }
    {
        answer(&mut self.rows, position, outcome);
    }
}
