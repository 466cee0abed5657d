//! A log, as far as its records were read.
ghost use Rattle.std.specs.Prelude.{◌≡◌, ◌<◌, ◌≤◌, true, [], is_some, IfOk, OnOk};
ghost use Rattle.std.specs.List.{AllByRecursion};
ghost use Rattle.ft_base.specs.declared.limits.TheConstants.{VIEW_LIMIT, JOURNAL_LIMIT};
ghost use Rattle.reply_table.specs.Entries.{IsAfter};
ghost use Rattle.log_records.specs.Records.{are_rising, record_in, IsInRange, IsVersion, AreOfVersions, IsLogged};
ghost use Rattle.message_log.specs.Retaining.{AreRetained};
ghost use Rattle.message_log.specs.Opening.{nothing_yet, repeats, may_follow, after_view, after_entry, after_checkpoint, after_record, with_retained, filed, after_piece, content_of, IsTold, IsFound};

use crate::answers::ReopenFault;
use crate::entries::Entry;
use ft_base::{Bytes, NoMemory, Tick, View, push_within};
use ft_outside::Keeper;
use log_records::{Accepted, Checkpoint, Record, RetainedList, primary_octet, record_in};
use reply_table::{ReplyTable, Retained};
use std::alloc::Global;
use std::marker::Model;

/// What the records so far say.
#[derive(Drop)]
pub(crate) struct Opening {
    pub(crate) newest: Option<View>,
    pub(crate) begun: bool,
    pub(crate) mark: u32,
    pub(crate) entries: Vec<Entry>,
    pub(crate) time: Tick,
    pub(crate) state: Option<Bytes>,
    pub(crate) table: ReplyTable,
}

impl Model for Opening {
    ghost use Rattle.std.specs.Prelude.{vec_len};
    ghost use Rattle.message_log.specs.Opening.{Content, IsOpening};

    ghost Value = { Content };

    ghost view = { λ o. record { newest = o.newest; begun = o.begun; mark = o.mark; entries = o.entries.items; time = o.time.0; state = o.state; table = o.table.entries } };

    ghost invariant = { λ o. IsOpening o.newest o.begun o.mark (vec_len o.entries) o.table.entries };
}

fn repeats(last: &View, view: &View) -> bool
    ensures { result ≡ repeats last.now view.now }
{
    last.version.0 == view.version.0
        && last.members.hosts() == view.members.hosts()
        && primary_octet(last.primary) == primary_octet(view.primary)
}

fn may_follow(newest: &Option<View>, view: &View) -> bool
    requires { view.now.version.0 ≤ VIEW_LIMIT }
    ensures { result ≡ may_follow newest.now view.now }
{
    match newest {
        None => true,
        Some(last) => { view.version.0 as u64 == last.version.0 as u64 + 1 || repeats(last, view) }
    }
}

/// Adds a retained entry to a table, with its reply.
fn add(table: &mut ReplyTable, entry: Retained) -> Result<(), NoMemory>
    requires { IsAfter entry.position table.old.entries }
    ensures { OnOk result (table.new.entries ≡ with_retained table.old.entries entry) }
{
    table.reserve()?;
    let Retained {
        position,
        version,
        at,
        request,
        reply,
    } = entry;
    table.put_reserved(position, version, at, request);
    if let Some(outcome) = reply {
        table.set_reply(position, outcome);
    }
    Ok(())
}

/// A table of retained entries, whose positions rise and are below an end.
fn table_of(alloc: Global, retained: RetainedList, end: u32) -> Result<ReplyTable, NoMemory>
    requires rising { are_rising 0 end retained ≡ true }
    requires versions { AreOfVersions retained }
    ensures filed { IfOk result (λ table. table.entries ≡ filed [] retained) }
    ensures positions { IfOk result (λ table. AllByRecursion (λ e. e.position < end) table.entries) }
    ensures versions { IfOk result (λ table. AreOfVersions table.entries) }
    ensures retained { IfOk result (λ table. AreRetained end table.entries) }
{
    let mut table = ReplyTable::new(alloc);
    let mut rest = retained.into_vec().into_iter();
    while let Some(entry) = rest.next() {
        add(&mut table, entry)?;
    }
    Ok(table)
}

impl Opening {
    /// Nothing so far.
    pub(crate) fn new(alloc: Global) -> Opening
        ensures { result ≡ nothing_yet }
    {
        Opening {
            newest: None,
            begun: false,
            mark: 0,
            entries: Vec::new(alloc),
            time: Tick(0),
            state: None,
            table: ReplyTable::new(alloc),
        }
    }

    fn tell_view(&mut self, view: View) -> Result<bool, NoMemory>
        requires { IsVersion view.version × IsLogged view }
        ensures { IsTold (after_view self.old view) result self.old self.new }
    {
        if !may_follow(&self.newest, &view) {
            return Ok(false);
        }
        self.newest = Some(view);
        self.begun = true;
        Ok(true)
    }

    fn tell_entry(&mut self, alloc: Global, entry: Accepted) -> Result<bool, NoMemory>
        requires { (entry.position < JOURNAL_LIMIT) × IsVersion entry.version }
        ensures { IsTold (after_entry self.old entry) result self.old self.new }
    {
        if self.newest.is_none()
            || entry.position as usize != self.mark as usize + self.entries.len()
        {
            return Ok(false);
        }
        let row = entry.request.copy(alloc)?;
        self.entries.reserve(1)?;
        self.table.reserve()?;
        self.table
            .put_reserved(entry.position, entry.version, entry.at, row);
        push_within(&mut self.entries, Entry::new(entry.at, entry.request));
        self.time = Tick(entry.at.0.max(self.time.0));
        Ok(true)
    }

    fn tell_checkpoint(&mut self, alloc: Global, checkpoint: Checkpoint) -> Result<bool, NoMemory>
        requires mark { checkpoint.mark ≤ JOURNAL_LIMIT }
        requires rising { are_rising 0 checkpoint.mark checkpoint.retained ≡ true }
        requires versions { AreOfVersions checkpoint.retained }
        ensures { IsTold (after_checkpoint self.old checkpoint) result self.old self.new }
    {
        let end = self.mark as usize + self.entries.len();
        if self.begun && (self.newest.is_none() || checkpoint.mark as usize != end) {
            return Ok(false);
        }
        let table = table_of(alloc, checkpoint.retained, checkpoint.mark)?;
        self.begun = true;
        self.mark = checkpoint.mark;
        self.entries.clear();
        self.time = checkpoint.time;
        self.state = Some(checkpoint.state);
        self.table = table;
        Ok(true)
    }

    /// Takes the next record, where it may stand behind those before.
    pub(crate) fn tell(&mut self, alloc: Global, told: Record) -> Result<bool, NoMemory>
        requires { IsInRange told }
        ensures { IsTold (after_record self.old told) result self.old self.new }
    {
        match told {
            Record::Entry(entry) => self.tell_entry(alloc, entry),
            Record::View(view) => self.tell_view(view),
            Record::Checkpoint(checkpoint) => self.tell_checkpoint(alloc, checkpoint),
        }
    }

    /// Whether there is a view.
    pub(crate) fn has_view(&self) -> bool
        ensures { result ≡ is_some self.now.newest }
    {
        self.newest.is_some()
    }
}

/// Takes the next record of a keeper.
fn read_one(alloc: Global, piece: &Bytes, opening: &mut Opening) -> Result<bool, NoMemory>
    ensures { IsTold (after_piece opening.old (record_in piece.now)) result opening.old opening.new }
{
    match record_in(alloc, piece.bytes()) {
        Err(NoMemory) => Err(NoMemory),
        Ok(None) => Ok(false),
        Ok(Some(told)) => opening.tell(alloc, told),
    }
}

/// Reads all records of a keeper.
pub(crate) fn read_all<K: Keeper>(
    alloc: Global,
    keeper: &K,
    opening: &mut Opening,
) -> Result<(), ReopenFault>
    requires { opening.old ≡ nothing_yet }
    ensures { IsFound (content_of (K.records keeper.now)) result opening.new }
{
    let count = keeper.count();
    for index in 0..count {
        let Some(piece) = keeper.read(index) else {
            unreachable!()
        };
        match read_one(alloc, piece, opening) {
            Ok(true) => {}
            Ok(false) => return Err(ReopenFault::Bad(index)),
            Err(NoMemory) => return Err(ReopenFault::NoMemory),
        }
    }
    if opening.has_view() {
        Ok(())
    } else {
        Err(ReopenFault::Bad(count))
    }
}
