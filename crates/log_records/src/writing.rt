//! Records, written.
ghost use Rattle.std.specs.Prelude.{◌≡◌, ◌<◌, ◌≤◌, ◌^◌, ◌+◌, ℕ, length, OnOk, IfOk, drop, option_copied};
ghost use Rattle.std.specs.List.{AllByRecursion};
ghost use Rattle.ft_base.specs.declared.limits.TheConstants.{JOURNAL_LIMIT};
ghost use Rattle.std.specs.List.{cons_option};
ghost use Rattle.cdr_codec.specs.Calls.{appended, appended_each};
ghost use Rattle.cdr_codec.specs.Formats.{octets};
ghost use Rattle.ft_base.specs.Journal.{is_unexpired};
ghost use Rattle.reply_table.specs.Entries.{unexpired};
ghost use Rattle.log_records.specs.Records as forms;
ghost use Rattle.log_records.specs.Records.{entry_record, view_record, checkpoint_record, begun, IsVersion, IsLogged};
ghost use Rattle.log_records.specs.Writable.{IsShort, IsWritable, CanStand, IsHeld};
ghost use Rattle.log_records.specs.declared.records.Record.TheVariants as records;

use cdr_codec::{CdrWriter, Order};
use ft_base::{
    ARGUMENTS_LIMIT, Bytes, HostNo, Key, NoMemory, Outcome, Request, Tick, Version, View,
};
use reply_table::{ReplyTable, Retained};
use std::alloc::Global;

/// The places of a record are unsigned longs, and so it has fewer bytes than this.
pub(crate) const RECORD_LIMIT: usize = 0xFFFF_FFF8;

/// Room for the numbers, counts and paddings of an entry without a key.
const ENTRY_ROOM: usize = 40;

/// Room for those of a key.
const KEY_ROOM: usize = 24;

/// Most views, and checkpoints of a small state, are no longer.
const RECORD_ROOM: usize = 96;

/// The form's octet of each record.
pub(crate) const ENTRY: u8 = 1;

pub(crate) const VIEW: u8 = 2;

pub(crate) const CHECKPOINT: u8 = 3;

/// A sequence of octets; there is no memory for one that is too long for a record.
fn write_bytes(writer: &mut CdrWriter, bytes: &[u8]) -> Result<(), NoMemory>
    ensures written { OnOk result (writer.new ≡ appended octets.written bytes.now writer.old) }
    ensures valid { OnOk result (octets.Valid bytes.now) }
{
    if bytes.len() >= RECORD_LIMIT {
        return Err(NoMemory);
    }
    writer.write_octets(bytes)
}

#[tactic(auto, using(crate::proofs::WritingLaws::key_written, crate::proofs::ValidLaws::key_valid))]
fn write_key(writer: &mut CdrWriter, key: &Key) -> Result<(), NoMemory>
    ensures written { OnOk result (writer.new ≡ appended forms.key.written key.now writer.old) }
    ensures valid { OnOk result (forms.key.Valid key.now) }
{
    let retention = key.retention.0;
    let expiration = key.expiration.0;
    writer.write_string(key.client.bytes())?;
    writer.write_i32(retention)?;
    writer.write_u64(expiration)?;
    Ok(())
}

#[tactic(auto, using(crate::proofs::WritingLaws::none_written, crate::proofs::WritingLaws::some_written, crate::proofs::ValidLaws::none_valid, crate::proofs::ValidLaws::some_valid))]
fn write_optional_key(writer: &mut CdrWriter, key: &Option<Key>) -> Result<(), NoMemory>
    ensures written { OnOk result (writer.new ≡ appended (forms.optional forms.key).written key.now writer.old) }
    ensures valid { OnOk result ((forms.optional forms.key).Valid key.now) }
{
    match key {
        None => {
            writer.write_bool(false)?;
            Ok(())
        }
        Some(key) => {
            writer.write_bool(true)?;
            write_key(writer, key)?;
            Ok(())
        }
    }
}

#[tactic(auto, using(crate::proofs::WritingLaws::request_written, crate::proofs::ValidLaws::request_valid))]
fn write_request(writer: &mut CdrWriter, request: &Request) -> Result<(), NoMemory>
    ensures written { OnOk result (writer.new ≡ appended forms.request.written request.now writer.old) }
    ensures valid { OnOk result (forms.request.Valid request.now) }
{
    write_optional_key(writer, &request.key)?;
    writer.write_string(request.op.bytes())?;
    write_bytes(writer, request.args.bytes())?;
    Ok(())
}

#[tactic(auto, using(crate::proofs::WritingLaws::entry_written))]
fn write_entry(
    writer: &mut CdrWriter,
    position: u32,
    version: Version,
    at: Tick,
    request: &Request,
) -> Result<(), NoMemory>
    ensures written { OnOk result (writer.new ≡ appended forms.entry.written (record { position = position; version = version; at = at; request = request.now }) writer.old) }
    ensures tick { OnOk result (forms.tick.Valid at) }
    ensures valid { OnOk result (forms.request.Valid request.now) }
{
    let tick = at.0;
    writer.write_u32(position)?;
    writer.write_u32(version.0)?;
    writer.write_u64(tick)?;
    write_request(writer, request)?;
    Ok(())
}

/// A writer that began a record of a form, with room for so many bytes.
fn begin(alloc: Global, form: u8, room: usize) -> Result<CdrWriter, NoMemory>
    ensures { IfOk result (λ writer. writer ≡ begun form) }
{
    let mut writer = CdrWriter::with_room(alloc, Order::Big, 0, room)?;
    writer.write_octet(Order::Big.sign())?;
    writer.write_octet(form)?;
    Ok(writer)
}

/// The record that a writer has written.
fn finish(writer: CdrWriter) -> Result<Bytes, NoMemory>
    ensures record { IfOk result (λ bytes. bytes ≡ writer.text) }
    ensures short { IfOk result (λ bytes. IsShort bytes) }
{
    if writer.bytes().len() >= RECORD_LIMIT {
        return Err(NoMemory);
    }
    Ok(writer.finish())
}

/// Room for the record of this request: all of its bytes where its arguments are not too long for a request. It
/// stays as long as its entry, so that a byte too many costs a journal one for each of its entries.
fn entry_room(request: &Request) -> usize {
    let client = match &request.key {
        None => 0,
        Some(key) => KEY_ROOM + key.client.bytes().len(),
    };
    let args = request.args.bytes().len().min(ARGUMENTS_LIMIT);
    ENTRY_ROOM + client + request.op.bytes().len() + args
}

/// The record of an accepted request. It can be read again, where the position is a journal's and the
/// version a view's.
#[tactic(auto, using(crate::proofs::WritingLaws::formed_written), unfolding(crate::specs::Records::entry_record))]
pub fn entry_record(
    alloc: Global,
    position: u32,
    version: Version,
    at: Tick,
    request: &Request,
) -> Result<Bytes, NoMemory>
    ensures written { IfOk result (λ bytes. bytes ≡ entry_record (record { position = position; version = version; at = at; request = request.now })) }
    ensures writable { IfOk result (λ bytes. position < JOURNAL_LIMIT → IsVersion version → IsWritable (records.Entry (record { position = position; version = version; at = at; request = request.now }))) }
{
    let mut writer = begin(alloc, ENTRY, entry_room(request))?;
    write_entry(&mut writer, position, version, at, request)?;
    finish(writer)
}

/// The octet that tells a primary: its number, or 255 for none.
pub fn primary_octet(primary: Option<HostNo>) -> u8
    ensures { result ≡ forms.primary_sign primary }
{
    match primary {
        None => 255,
        Some(host) => host.0,
    }
}

#[tactic(auto, using(crate::proofs::WritingLaws::view_written))]
fn write_view(writer: &mut CdrWriter, view: &View) -> Result<(), NoMemory>
    ensures written { OnOk result (writer.new ≡ appended forms.view.written view.now writer.old) }
{
    let version = view.version.0;
    let primary = primary_octet(view.primary);
    writer.write_u32(version)?;
    write_bytes(writer, view.members.hosts())?;
    writer.write_octet(primary)?;
    Ok(())
}

/// The record of a view. It can be read again, where the version is a view's and the members are hosts.
#[tactic(auto, using(crate::proofs::WritingLaws::formed_written), unfolding(crate::specs::Records::view_record))]
pub fn view_record(alloc: Global, view: &View) -> Result<Bytes, NoMemory>
    ensures written { IfOk result (λ bytes. bytes ≡ view_record view.now) }
    ensures writable { IfOk result (λ bytes. IsVersion view.now.version → IsLogged view.now → IsWritable (records.View view.now)) }
{
    // Their number is what says that members differ.
    let _count = view.members.len();
    let mut writer = begin(alloc, VIEW, RECORD_ROOM)?;
    write_view(&mut writer, view)?;
    finish(writer)
}

#[tactic(auto, using(crate::proofs::WritingLaws::value_written, crate::proofs::WritingLaws::user_written, crate::proofs::ValidLaws::value_valid, crate::proofs::ValidLaws::user_valid))]
fn write_outcome(writer: &mut CdrWriter, outcome: &Outcome) -> Result<(), NoMemory>
    ensures written { OnOk result (writer.new ≡ appended forms.outcome.written outcome.now writer.old) }
    ensures valid { OnOk result (forms.outcome.Valid outcome.now) }
{
    match outcome {
        Outcome::Value(value) => {
            writer.write_bool(true)?;
            write_bytes(writer, value.bytes())?;
            Ok(())
        }
        Outcome::User(name) => {
            writer.write_bool(false)?;
            write_bytes(writer, name.bytes())?;
            Ok(())
        }
    }
}

#[tactic(auto, using(crate::proofs::WritingLaws::none_written, crate::proofs::WritingLaws::some_written, crate::proofs::ValidLaws::none_valid, crate::proofs::ValidLaws::some_valid))]
fn write_reply(writer: &mut CdrWriter, reply: &Option<Outcome>) -> Result<(), NoMemory>
    ensures written { OnOk result (writer.new ≡ appended (forms.optional forms.outcome).written reply.now writer.old) }
    ensures valid { OnOk result ((forms.optional forms.outcome).Valid reply.now) }
{
    match reply {
        None => {
            writer.write_bool(false)?;
            Ok(())
        }
        Some(outcome) => {
            writer.write_bool(true)?;
            write_outcome(writer, outcome)?;
            Ok(())
        }
    }
}

#[tactic(auto, using(crate::proofs::WritingLaws::retained_written))]
fn write_retained(writer: &mut CdrWriter, entry: &Retained) -> Result<(), NoMemory>
    ensures written { OnOk result (writer.new ≡ appended forms.retained.written entry.now writer.old) }
    ensures valid { OnOk result (IsHeld entry.now) }
{
    let position = entry.position;
    let version = entry.version.0;
    let at = entry.at.0;
    writer.write_u32(position)?;
    writer.write_u32(version)?;
    writer.write_u64(at)?;
    write_request(writer, &entry.request)?;
    write_reply(writer, &entry.reply)?;
    Ok(())
}

fn is_unexpired(time: Tick, entry: &Retained) -> bool
    ensures { result ≡ is_unexpired time.0 entry.now.request.key }
{
    match &entry.request.key {
        None => false,
        Some(key) => time.0 < key.expiration.0,
    }
}

/// How many entries a table has.
fn count(table: &ReplyTable) -> Result<u32, NoMemory>
    ensures { IfOk result (λ count. count ≡ length table.now.entries) }
{
    let count = table.len();
    if count >= RECORD_LIMIT {
        return Err(NoMemory);
    }
    Ok(count as u32)
}

/// The entry with a number, where its expiration is still to come.
fn unexpired_at(table: &ReplyTable, index: u32, time: Tick) -> Option<&Retained>
    ensures { unexpired time.0 (drop index table.now.entries) ≡ cons_option (option_copied result) (unexpired time.0 (drop (index + 1) table.now.entries)) }
{
    match table.retained(index) {
        Some(entry) if is_unexpired(time, entry) => Some(entry),
        _ => None,
    }
}

/// How many entries have an expiration that is still to come.
fn count_unexpired(table: &ReplyTable, count: u32, time: Tick) -> u32
    requires { count ≡ length table.now.entries }
    ensures { result ≡ length (unexpired time.0 table.now.entries) }
{
    let mut left: u32 = 0;
    for index in 0..count {
        if unexpired_at(table, index, time).is_some() {
            left += 1;
        }
    }
    left
}

fn write_unexpired(
    writer: &mut CdrWriter,
    table: &ReplyTable,
    count: u32,
    time: Tick,
) -> Result<(), NoMemory>
    requires { count ≡ length table.now.entries }
    ensures written { OnOk result (writer.new ≡ appended_each forms.retained.written (unexpired time.0 table.now.entries) writer.old) }
    ensures valid { OnOk result (AllByRecursion IsHeld (unexpired time.0 table.now.entries)) }
{
    for index in 0..count {
        if let Some(entry) = unexpired_at(table, index, time) {
            write_retained(writer, entry)?;
        }
    }
    Ok(())
}

#[tactic(auto, using(crate::proofs::WritingLaws::checkpoint_written))]
fn write_checkpoint(
    writer: &mut CdrWriter,
    mark: u32,
    time: Tick,
    state: &Bytes,
    table: &ReplyTable,
) -> Result<(), NoMemory>
    ensures written { OnOk result (writer.new ≡ appended forms.checkpoint.written (record { mark = mark; time = time; state = state.now; retained = unexpired time.0 table.now.entries }) writer.old) }
    ensures tick { OnOk result (forms.tick.Valid time) }
    ensures state { OnOk result (octets.Valid state.now) }
    ensures count { OnOk result (length (unexpired time.0 table.now.entries) < 2 ^ 32) }
    ensures valid { OnOk result (AllByRecursion IsHeld (unexpired time.0 table.now.entries)) }
{
    let count = count(table)?;
    let left = count_unexpired(table, count, time);
    let moment = time.0;
    writer.write_u32(mark)?;
    writer.write_u64(moment)?;
    write_bytes(writer, state.bytes())?;
    writer.write_u32(left)?;
    write_unexpired(writer, table, count, time)?;
    Ok(())
}

/// The record of a checkpoint at this mark and time, with the entries of a table that have not expired. It
/// can be read again, where they can stand in a checkpoint at this mark.
#[tactic(auto, using(crate::proofs::WritingLaws::formed_written), unfolding(crate::specs::Records::checkpoint_record))]
pub fn checkpoint_record(
    alloc: Global,
    mark: u32,
    time: Tick,
    state: &Bytes,
    table: &ReplyTable,
) -> Result<Bytes, NoMemory>
    ensures written { IfOk result (λ bytes. bytes ≡ checkpoint_record (record { mark = mark; time = time; state = state.now; retained = unexpired time.0 table.now.entries })) }
    ensures writable { IfOk result (λ bytes. CanStand mark (unexpired time.0 table.now.entries) → IsWritable (records.Checkpoint (record { mark = mark; time = time; state = state.now; retained = unexpired time.0 table.now.entries }))) }
{
    let mut writer = begin(alloc, CHECKPOINT, RECORD_ROOM)?;
    write_checkpoint(&mut writer, mark, time, state, table)?;
    finish(writer)
}
