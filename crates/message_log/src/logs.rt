ghost use Rattle.std.specs.Prelude.{◌≡◌, ◌+◌, ◌-◌, ◌<◌, ◌≤◌, ◌^◌, max, length, slice_get, option_copied, option_map, Some, None, Err, false, [], ◌∷◌, ◌++◌, vec_len, vec_capacity, MatchResult, OnOk, OnErr, nat_lt, if◌then◌else◌};
ghost use Rattle.ft_outside.specs.Keeping.{failing_next, plan_after, IsForetold};
ghost use Rattle.message_log.specs.Picture.{length_of, request_at, view_at, AreNumbered, IsLogged};
ghost use Rattle.message_log.specs.Admission.{admitted};
ghost use Rattle.message_log.specs.Opening.{content_of, IsReopened, IsBad};
ghost use Rattle.log_records.specs.Records.{IsVersion};
ghost use Rattle.log_records.specs.Writable.{IsWritable};
ghost use Rattle.log_records.specs.declared.records.Record.TheVariants as records;
ghost use Rattle.message_log.specs.Written.{IsWrittenDown};
ghost use Rattle.message_log.specs.Calls.{fresh, IsWritableIfNew, reserved_for, IsStarted, IsAppended, IsViewed, IsCheckpointed, with_outcome};

use crate::answers::{Admit, Appended, LogFault, ReopenFault};
use crate::entries::Entry;
use crate::laws::records_are_read_again;
use crate::opening::{Opening, read_all};
use crate::retaining::{put_retained, reserve_retained};
use crate::tidying::tidy;
use ft_base::{
    Admission, Bytes, JOURNAL_LIMIT, NoMemory, Outcome, Request, Tick, VIEW_LIMIT, Version, View,
    push_within,
};
use ft_outside::{Keeper, Kept, MemKeeper};
use log_records::{checkpoint_record, entry_record, view_record};
use reply_table::{Found, ReplyTable};
use std::alloc::Global;
use std::marker::Model;
use std::mem;

/// A group's log.
///
/// Its views, its journal from the last checkpoint on, and the replies that are retained are held in
/// memory; the keeper has the records from which they can be read again.
///
/// What was reserved for an entry are its record and, where the request is to be retained, a copy of it.
/// They are two fields, since a copy is large: where there is none, the record moves alone. With no
/// record the other field says nothing.
#[derive(Drop)]
pub struct Log<K: Keeper> {
    keeper: K,
    newest: View,
    earlier: Vec<View>,
    mark: u32,
    entries: Vec<Entry>,
    time: Tick,
    state: Option<Bytes>,
    table: ReplyTable,
    reserved: Option<Bytes>,
    retained: Option<Request>,
}

impl<K: Keeper> Model for Log<K> {
    ghost use Rattle.std.specs.Prelude.{◌≡◌, ◌+◌, ◌<◌, ◌≤◌, length, vec_len, vec_capacity, Some, true};
    ghost use Rattle.message_log.specs.Picture.{Picture, IsSound};
    ghost use Rattle.message_log.specs.Calls.{reserved_of, IsReady};
    ghost use Rattle.message_log.specs.Written.{IsOnRecord};

    ghost Value = { Picture };

    ghost view = { λ l. record { newest = l.newest; earlier = l.earlier.items; mark = l.mark; entries = l.entries.items; time = l.time.0; state = l.state; table = l.table.entries; reserved = reserved_of l.reserved l.retained; records = K.records l.keeper; plan = K.plan l.keeper; faults = K.faults l.keeper } };

    ghost invariant = { λ l. IsSound l.newest l.earlier.items l.mark (vec_len l.entries) l.table.entries
        × IsReady l.reserved l.retained (K.spare l.keeper) (vec_len l.entries) (vec_capacity l.entries) l.table.room
        × IsOnRecord (K.records l.keeper) (record { newest = Some l.newest; begun = true; mark = l.mark; entries = l.entries.items; time = l.time.0; state = l.state; table = l.table.entries }) };
}

fn view_at_place(views: &Vec<View>, place: usize) -> Option<&View>
    ensures { option_copied result ≡ slice_get views.now.items place }
{
    views.get(place)
}

/// Writes a log's first record.
fn start<K: Keeper>(alloc: Global, keeper: &mut K, view: &View) -> Result<(), LogFault>
    ensures started { IsStarted view.now
        (record { records = K.records keeper.old; plan = K.plan keeper.old; faults = K.faults keeper.old })
        (record { records = K.records keeper.new; plan = K.plan keeper.new; faults = K.faults keeper.new }) result }
    ensures writable { OnOk result (IsVersion view.now.version → IsLogged view.now → IsWritable (records.View view.now)) }
{
    let Ok(record) = view_record(alloc, view) else {
        return Err(LogFault::NoMemory);
    };
    if let Err(NoMemory) = keeper.reserve(alloc, 1) {
        return Err(LogFault::NoMemory);
    }
    match keeper.append(record) {
        Kept::Done => Ok(()),
        Kept::Failed => Err(LogFault::Failed),
    }
}

impl<K: Keeper> Log<K> {
    /// A log whose first record is the first view of its group. A refusal hands the keeper back.
    pub fn new(alloc: Global, keeper: K, view: View) -> Result<Log<K>, (LogFault, K)>
        requires empty { K.records keeper ≡ [] }
        requires first { view.version.0 ≡ 1 }
        requires logged { IsLogged view }
        ensures { MatchResult result
            (λ log. IsForetold (K.plan keeper) false × (log ≡ fresh view (plan_after (K.plan keeper)) (K.faults keeper)))
            (λ refused. IsStarted view
            (record { records = K.records keeper; plan = K.plan keeper; faults = K.faults keeper })
            (record { records = K.records refused.1; plan = K.plan refused.1; faults = K.faults refused.1 }) (Err refused.0)) }
    {
        records_are_read_again();
        let mut keeper = keeper;
        if let Err(fault) = start(alloc, &mut keeper, &view) {
            return Err((fault, keeper));
        }
        Ok(Log {
            keeper,
            newest: view,
            earlier: Vec::new(alloc),
            mark: 0,
            entries: Vec::new(alloc),
            time: Tick(0),
            state: None,
            table: ReplyTable::new(alloc),
            reserved: None,
            retained: None,
        })
    }

    /// The log whose records a keeper has. A refusal hands the keeper back.
    pub fn reopen(alloc: Global, keeper: K) -> Result<Log<K>, (ReopenFault, K)>
        ensures { MatchResult result
            (λ log. IsReopened (K.records keeper) (K.plan keeper) (K.faults keeper) log)
            (λ refused. (refused.1 ≡ keeper) × IsBad (content_of (K.records keeper)) refused.0) }
    {
        let mut opening = Opening::new(alloc);
        if let Err(fault) = read_all(alloc, &keeper, &mut opening) {
            return Err((fault, keeper));
        }
        let Opening {
            newest,
            begun: _,
            mark,
            entries,
            time,
            state,
            table,
        } = opening;
        let Some(newest) = newest else { unreachable!() };
        Ok(Log {
            keeper,
            newest,
            earlier: Vec::new(alloc),
            mark,
            entries,
            time,
            state,
            table,
            reserved: None,
            retained: None,
        })
    }

    /// The keeper, with all that was written.
    pub fn into_keeper(self) -> K
        ensures records { K.records result ≡ self.records }
        ensures plan { K.plan result ≡ self.plan }
        ensures faults { K.faults result ≡ self.faults }
    {
        let Log {
            keeper,
            newest: _newest,
            earlier: _earlier,
            mark: _,
            entries: _entries,
            time: _,
            state: _state,
            table: _table,
            reserved: _reserved,
            retained: _retained,
        } = self;
        keeper
    }

    /// How many entries the journal has, with those that were cut.
    pub fn length(&self) -> u32
        ensures value { result ≡ length_of self.now }
        ensures limit { result ≤ JOURNAL_LIMIT }
    {
        self.mark + self.entries.len() as u32
    }

    /// The newest view.
    pub fn newest(&self) -> &View
        ensures value { result.now ≡ self.now.newest }
        ensures limit { result.now.version.0 ≤ VIEW_LIMIT }
    {
        &self.newest
    }

    /// The view of a version, where the log has it. A log has every view of its group, the first one
    /// included; one that was opened again has the newest view that its records tell, and those
    /// that it was given since.
    pub fn view(&self, version: Version) -> Option<&View>
        ensures value { option_copied result ≡ view_at self.now version.0 }
        ensures numbered { AreNumbered self.now.earlier self.now.newest.version.0 }
    {
        let newest = self.newest.version.0;
        let count = self.earlier.len();
        if version.0 == newest {
            return Some(&self.newest);
        }
        if version.0 > newest {
            return None;
        }
        let back = (newest - version.0) as usize;
        if back > count {
            return None;
        }
        view_at_place(&self.earlier, count - back)
    }

    /// How many entries the last checkpoint made needless; 0 where none was taken.
    pub fn mark(&self) -> u32
        ensures { result ≡ self.now.mark }
    {
        self.mark
    }

    /// That the log is written down is known of every log. It does nothing.
    pub fn is_written_down(&self)
        ensures { IsWrittenDown self.now }
    {
        let _ = &self.keeper;
    }

    /// The greatest tick of an acceptance or a checkpoint.
    pub fn time(&self) -> Tick
        ensures { result.0 ≡ self.now.time }
    {
        self.time
    }

    /// The state of the last checkpoint, where one was taken.
    pub fn state(&self) -> Option<&Bytes>
        ensures { option_copied result ≡ self.now.state }
    {
        self.state.as_ref()
    }

    /// The request of a position, from the mark on.
    pub fn entry(&self, position: u32) -> Option<&Request>
        ensures { option_copied result ≡ request_at self.now position }
    {
        if position < self.mark {
            return None;
        }
        let entry = self.entries.get((position - self.mark) as usize)?;
        Some(entry.request())
    }

    /// The retained entries.
    pub fn table(&self) -> &ReplyTable
        ensures { result.now.entries ≡ self.now.table }
    {
        &self.table
    }

    /// Whether a request joins the journal.
    pub fn admit(&self, version: Version, clock: Tick, request: &Request) -> Admit
        ensures { result ≡ admitted self.now version.0 clock.0 request.now }
    {
        if version.0 < self.newest.version.0 {
            return Admit::Deposed(self.newest.version);
        }
        let now = Tick(clock.0.max(self.time.0));
        if let Some(key) = &request.key
            && key.expiration.0 <= now.0
        {
            return Admit::Admission(Admission::Expired(key.expiration));
        }
        match self.table.find(request, now) {
            Found::Same(position) => Admit::Admission(Admission::Same(position)),
            Found::Other(position) => Admit::Admission(Admission::Other(position)),
            Found::Fresh if self.length() as usize >= JOURNAL_LIMIT => {
                Admit::Admission(Admission::Full)
            }
            Found::Fresh => Admit::Admission(Admission::New),
        }
    }

    /// Takes the memory of one entry: its record, room in the keeper, and room for the entry; where the
    /// request has a key, also its copy that is retained, and room for that. There is none for a version
    /// that no view can have, nor for a request that is too long for a record.
    pub fn reserve(
        &mut self,
        alloc: Global,
        version: Version,
        clock: Tick,
        request: &Request,
    ) -> Result<(), NoMemory>
        ensures ok { OnOk result (self.new ≡ record self.old { reserved = Some (reserved_for self.old version clock request.now) }) }
        ensures possible { OnOk result (version.0 ≤ VIEW_LIMIT) }
        ensures writable { OnOk result (IsWritableIfNew self.old version clock request.now) }
        ensures left { OnErr result (self.new ≡ self.old) }
    {
        if version.0 > VIEW_LIMIT {
            return Err(NoMemory);
        }
        let position = self.length();
        let at = Tick(clock.0.max(self.time.0));
        let record = entry_record(alloc, position, version, at, request)?;
        self.keeper.reserve(alloc, 1)?;
        self.entries.reserve(1)?;
        reserve_retained(alloc, &mut self.table, &mut self.retained, request)?;
        self.reserved = Some(record);
        Ok(())
    }

    /// Appends a request that is new, for which memory was taken since the last write. It takes none.
    #[tactic(auto, using(crate::proofs::PictureLaws::new_has_room, crate::proofs::PictureLaws::sound_appended))]
    pub fn append_reserved(&mut self, version: Version, clock: Tick, request: Request) -> Appended
        requires reserved { self.old.reserved ≡ Some (reserved_for self.old version clock request) }
        requires new { admitted self.old version.0 clock.0 request ≡ Admit.Admission Admission.New }
        requires writable { IsWritableIfNew self.old version clock request }
        ensures { IsAppended self.old version clock request result self.new }
    {
        records_are_read_again();
        let position = self.length();
        let at = Tick(clock.0.max(self.time.0));
        let Some(record) = self.reserved.take() else {
            unreachable!()
        };
        match self.keeper.append(record) {
            Kept::Failed => Appended::Failed,
            Kept::Done => {
                put_retained(&mut self.table, position, version, at, &mut self.retained);
                push_within(&mut self.entries, Entry::new(at, request));
                self.time = at;
                Appended::At(position)
            }
        }
    }

    /// Writes the next view, whose version is one above the newest. From then on requests of writers
    /// that know an older version are refused.
    #[tactic(auto, using(crate::proofs::PictureLaws::sound_viewed))]
    pub fn new_view(&mut self, alloc: Global, view: View) -> Result<(), LogFault>
        requires next { view.version.0 ≡ self.old.newest.version.0 + 1 }
        requires logged { IsLogged view }
        ensures { IsViewed self.old view result self.new }
    {
        records_are_read_again();
        if self.newest.version.0 >= VIEW_LIMIT {
            return Err(LogFault::ViewsFull);
        }
        let Ok(record) = view_record(alloc, &view) else {
            return Err(LogFault::NoMemory);
        };
        if self.keeper.reserve(alloc, 1).is_err() || self.earlier.reserve(1).is_err() {
            return Err(LogFault::NoMemory);
        }
        self.reserved = None;
        match self.keeper.append(record) {
            Kept::Failed => Err(LogFault::Failed),
            Kept::Done => {
                push_within(&mut self.earlier, mem::replace(&mut self.newest, view));
                Ok(())
            }
        }
    }

    /// Writes a checkpoint by a writer that knows the newest version: the state after all entries. It
    /// makes the entries needless and lets go of the replies that have expired. Where the view that is
    /// written again behind it, or the cut, fails, the checkpoint counts all the same.
    #[tactic(auto, using(crate::proofs::PictureLaws::sound_checkpointed))]
    pub fn checkpoint(
        &mut self,
        alloc: Global,
        version: Version,
        clock: Tick,
        state: &Bytes,
    ) -> Result<(), LogFault>
        requires newest { version.0 ≡ self.old.newest.version.0 }
        ensures { IsCheckpointed self.old clock state.now result self.new }
    {
        records_are_read_again();
        let _version = version;
        let mark = self.length();
        let time = Tick(clock.0.max(self.time.0));
        let Ok(record) = checkpoint_record(alloc, mark, time, state, &self.table) else {
            return Err(LogFault::NoMemory);
        };
        let Ok(view) = view_record(alloc, &self.newest) else {
            return Err(LogFault::NoMemory);
        };
        let Ok(state) = state.copy(alloc) else {
            return Err(LogFault::NoMemory);
        };
        if self.keeper.reserve(alloc, 2).is_err() {
            return Err(LogFault::NoMemory);
        }
        self.reserved = None;
        let Some(_how) = tidy(&mut self.keeper, record, view) else {
            return Err(LogFault::Failed);
        };
        self.mark = mark;
        self.time = time;
        self.state = Some(state);
        self.entries.clear();
        self.table.purge(time);
        Ok(())
    }

    /// The entry at a position has run, with this outcome. A reply that is there stays, and so do all
    /// below the mark. It takes no memory.
    #[tactic(auto, using(crate::proofs::PictureLaws::sound_answered))]
    pub fn set_reply(&mut self, position: u32, outcome: Outcome)
        ensures { self.new ≡ with_outcome self.old position outcome }
    {
        if position >= self.mark {
            self.table.set_reply(position, outcome);
        }
    }
}

impl Log<MemKeeper> {
    /// Makes the next write fail.
    pub fn fail_next(&mut self) -> Result<(), NoMemory>
        ensures planned { OnOk result (self.new ≡ record self.old { plan = option_map failing_next self.old.plan }) }
        ensures left { OnErr result (self.new ≡ self.old) }
    {
        self.keeper.fail_next()
    }
}
