//! Records, read.
ghost use Rattle.std.specs.Prelude.{◌≡◌, ◌≤◌, ◌<◌, ◌+◌, ◌^◌, ℕ, true, length, IfOk, IfSome};
ghost use Rattle.std.specs.List.{AllByRecursion};
ghost use Rattle.log_records.specs.Records.{IsInRange, IsVersion, AreOfVersions, IsPrimaryOf, IsLogged};
ghost use Rattle.ft_base.specs.declared.limits.TheConstants.{HOST_LIMIT, JOURNAL_LIMIT};
ghost use Rattle.cdr_codec.specs.Calls.{field_fault, Gives};
ghost use Rattle.cdr_codec.specs.Formats.{read_each};
ghost use Rattle.cdr_codec.specs.Reading.{start};
ghost use Rattle.log_records.specs.Records as forms;
ghost use Rattle.log_records.specs.Spelling.{IsSpelledAs};

use crate::records::{Accepted, Checkpoint, Record, RetainedList};
use crate::writing::{CHECKPOINT, ENTRY, RECORD_LIMIT, VIEW};
use cdr_codec::{CdrFault, CdrReader, CdrWhy, FieldFault, Order, open_encapsulation};
use ft_base::{
    Bytes, HostNo, Key, MEMBER_LIMIT, Members, Name, NameFault, NoMemory, Outcome, Request,
    Retention, Tick, Version, View,
};
use reply_table::Retained;
use std::alloc::Global;

/// A value out of its range, which begins at this place. A record that can't be read is told by its
/// number alone, so that nobody sees this cause.
fn out_of_range(place: u32) -> FieldFault
    ensures { result ≡ FieldFault.Bad (record { why = CdrWhy.BadBool; place = place }) }
{
    FieldFault::Bad(CdrFault {
        why: CdrWhy::BadBool,
        place,
    })
}

/// The place of the next number of four bytes.
fn start_of_long(reader: &CdrReader) -> u32
    ensures { result ≡ start 4 reader.now.place }
{
    let place = reader.place();
    place + (4 - place % 4) % 4
}

fn number_within(reader: &mut CdrReader, low: u32, high: u32) -> Result<u32, FieldFault>
    ensures range { IfOk result (λ n. (low ≤ n) × (n ≤ high)) }
    ensures read { Gives (λ n. n) field_fault result ((forms.number_within low high).read reader.old) reader.new }
{
    let start = start_of_long(reader);
    let number = reader.read_u32()?;
    if low <= number && number <= high {
        Ok(number)
    } else {
        Err(out_of_range(start))
    }
}

fn name_at(alloc: Global, reader: &mut CdrReader) -> Result<Name, FieldFault>
    ensures { Gives (λ name. name) field_fault result (forms.name.read reader.old) reader.new }
{
    let start = start_of_long(reader);
    let text = reader.read_string()?;
    match Name::of(alloc, text) {
        Ok(name) => Ok(name),
        Err(NameFault::NoMemory) => Err(FieldFault::NoMemory),
        Err(_) => Err(FieldFault::Bad(CdrFault {
            why: CdrWhy::BadString,
            place: start,
        })),
    }
}

fn key_at(alloc: Global, reader: &mut CdrReader) -> Result<Key, FieldFault>
    ensures { Gives (λ key. key) field_fault result (forms.key.read reader.old) reader.new }
{
    let client = name_at(alloc, reader)?;
    let retention = reader.read_i32()?;
    let expiration = reader.read_u64()?;
    Ok(Key {
        client,
        retention: Retention(retention),
        expiration: Tick(expiration),
    })
}

fn optional_key_at(alloc: Global, reader: &mut CdrReader) -> Result<Option<Key>, FieldFault>
    ensures { Gives (λ key. key) field_fault result ((forms.optional forms.key).read reader.old) reader.new }
{
    if reader.read_bool()? {
        let key = key_at(alloc, reader)?;
        return Ok(Some(key));
    }
    Ok(None)
}

fn request_at(alloc: Global, reader: &mut CdrReader) -> Result<Request, FieldFault>
    ensures { Gives (λ request. request) field_fault result (forms.request.read reader.old) reader.new }
{
    let key = optional_key_at(alloc, reader)?;
    let op = name_at(alloc, reader)?;
    let args = reader.read_octets()?;
    let args = Bytes::of(alloc, args)?;
    Ok(Request { key, op, args })
}

fn entry_at(alloc: Global, reader: &mut CdrReader) -> Result<Accepted, FieldFault>
    ensures range { IfOk result (λ entry. (entry.position < JOURNAL_LIMIT) × IsVersion entry.version) }
    ensures read { Gives (λ entry. entry) field_fault result (forms.entry.read reader.old) reader.new }
{
    let position = number_within(reader, 0, 262_143)?;
    let version = number_within(reader, 1, 65_536)?;
    let at = reader.read_u64()?;
    let request = request_at(alloc, reader)?;
    Ok(Accepted {
        position,
        version: Version(version),
        at: Tick(at),
        request,
    })
}

fn members_of(hosts: &[u8]) -> Option<Members>
    ensures value { result ≡ forms.members_of hosts.now }
    ensures hosts { IfSome result (λ members. AllByRecursion (λ host. host < HOST_LIMIT) members) }
{
    let mut members = Members::new();
    for host in hosts {
        let host = HostNo(*host);
        if host.0 >= 64 || members.has(host) || members.len() >= MEMBER_LIMIT {
            return None;
        }
        members.join(host);
    }
    Some(members)
}

fn members_at(reader: &mut CdrReader) -> Result<Members, FieldFault>
    ensures hosts { IfOk result (λ members. AllByRecursion (λ host. host < HOST_LIMIT) members) }
    ensures read { Gives (λ members. members) field_fault result (forms.members.read reader.old) reader.new }
{
    let start = start_of_long(reader);
    let hosts = reader.read_octets()?;
    match members_of(hosts) {
        Some(members) => Ok(members),
        None => Err(out_of_range(start)),
    }
}

fn primary_at(reader: &mut CdrReader, members: &Members) -> Result<Option<HostNo>, FieldFault>
    ensures member { IfOk result (λ primary. IsPrimaryOf members.now primary) }
    ensures read { Gives (λ primary. primary) field_fault result ((forms.primary members.now).read reader.old) reader.new }
{
    let place = reader.place();
    let octet = reader.read_octet()?;
    if octet == 255 {
        return Ok(None);
    }
    let host = HostNo(octet);
    if members.has(host) {
        return Ok(Some(host));
    }
    Err(out_of_range(place))
}

fn view_at(reader: &mut CdrReader) -> Result<View, FieldFault>
    ensures range { IfOk result (λ view. IsVersion view.version × IsLogged view) }
    ensures read { Gives (λ view. view) field_fault result (forms.view.read reader.old) reader.new }
{
    let version = number_within(reader, 1, 65_536)?;
    let members = members_at(reader)?;
    let primary = primary_at(reader, &members)?;
    Ok(View {
        version: Version(version),
        members,
        primary,
    })
}

fn user_at(alloc: Global, reader: &mut CdrReader) -> Result<Name, FieldFault>
    ensures { Gives (λ name. name) field_fault result (forms.user_name.read reader.old) reader.new }
{
    let start = start_of_long(reader);
    let text = reader.read_octets()?;
    match Name::of(alloc, text) {
        Ok(name) => Ok(name),
        Err(NameFault::NoMemory) => Err(FieldFault::NoMemory),
        Err(_) => Err(FieldFault::Bad(CdrFault {
            why: CdrWhy::BadString,
            place: start,
        })),
    }
}

fn outcome_at(alloc: Global, reader: &mut CdrReader) -> Result<Outcome, FieldFault>
    ensures { Gives (λ outcome. outcome) field_fault result (forms.outcome.read reader.old) reader.new }
{
    if reader.read_bool()? {
        let value = reader.read_octets()?;
        let value = Bytes::of(alloc, value)?;
        return Ok(Outcome::Value(value));
    }
    let user = user_at(alloc, reader)?;
    Ok(Outcome::User(user))
}

fn reply_at(alloc: Global, reader: &mut CdrReader) -> Result<Option<Outcome>, FieldFault>
    ensures { Gives (λ reply. reply) field_fault result ((forms.optional forms.outcome).read reader.old) reader.new }
{
    if reader.read_bool()? {
        let outcome = outcome_at(alloc, reader)?;
        return Ok(Some(outcome));
    }
    Ok(None)
}

fn retained_at(alloc: Global, reader: &mut CdrReader) -> Result<Retained, FieldFault>
    ensures range { IfOk result (λ entry. IsVersion entry.version) }
    ensures read { Gives (λ entry. entry) field_fault result (forms.retained.read reader.old) reader.new }
{
    let position = number_within(reader, 0, 262_143)?;
    let version = number_within(reader, 1, 65_536)?;
    let at = reader.read_u64()?;
    let request = request_at(alloc, reader)?;
    let reply = reply_at(alloc, reader)?;
    Ok(Retained {
        position,
        version: Version(version),
        at: Tick(at),
        request,
        reply,
    })
}

fn each_retained(
    alloc: Global,
    count: u32,
    reader: &mut CdrReader,
) -> Result<Vec<Retained>, FieldFault>
    ensures range { IfOk result (λ all. AreOfVersions all.items) }
    ensures read { Gives (λ all. all.items) field_fault result (read_each forms.retained.read count reader.old) reader.new }
{
    let mut all = Vec::new(alloc);
    for _ in 0..count {
        let one = retained_at(alloc, reader)?;
        all.push(one)?;
    }
    Ok(all)
}

/// Whether positions rise, and are below an end.
fn are_rising(end: u32, entries: &[Retained]) -> bool
    ensures { result ≡ forms.are_rising 0 end entries.now }
{
    let mut from = 0;
    for entry in entries {
        if entry.position < from || entry.position >= end {
            return false;
        }
        from = entry.position + 1;
    }
    true
}

fn retained_below(
    alloc: Global,
    reader: &mut CdrReader,
    end: u32,
) -> Result<RetainedList, FieldFault>
    ensures rising { IfOk result (λ entries. forms.are_rising 0 end entries ≡ true) }
    ensures versions { IfOk result (λ entries. AreOfVersions entries) }
    ensures read { Gives (λ entries. entries) field_fault result ((forms.retained_below end).read reader.old) reader.new }
{
    let start = start_of_long(reader);
    let count = reader.read_u32()?;
    let entries = each_retained(alloc, count, reader)?;
    if are_rising(end, entries.as_slice()) {
        Ok(RetainedList::from_vec(entries))
    } else {
        Err(out_of_range(start))
    }
}

fn checkpoint_at(alloc: Global, reader: &mut CdrReader) -> Result<Checkpoint, FieldFault>
    ensures range { IfOk result (λ checkpoint. checkpoint.mark ≤ JOURNAL_LIMIT) }
    ensures rising { IfOk result (λ checkpoint. forms.are_rising 0 checkpoint.mark checkpoint.retained ≡ true) }
    ensures versions { IfOk result (λ checkpoint. AreOfVersions checkpoint.retained) }
    ensures read { Gives (λ checkpoint. checkpoint) field_fault result (forms.checkpoint.read reader.old) reader.new }
{
    let mark = number_within(reader, 0, 262_144)?;
    let time = reader.read_u64()?;
    let state = reader.read_octets()?;
    let state = Bytes::of(alloc, state)?;
    let retained = retained_below(alloc, reader, mark)?;
    Ok(Checkpoint {
        mark,
        time: Tick(time),
        state,
        retained,
    })
}

fn record_at(alloc: Global, reader: &mut CdrReader) -> Result<Record, FieldFault>
    ensures range { IfOk result IsInRange }
    ensures read { Gives (λ told. told) field_fault result (forms.record_read reader.old) reader.new }
{
    let place = reader.place();
    let form = reader.read_octet()?;
    if form == ENTRY {
        let entry = entry_at(alloc, reader)?;
        return Ok(Record::Entry(entry));
    }
    if form == VIEW {
        let view = view_at(reader)?;
        return Ok(Record::View(view));
    }
    if form == CHECKPOINT {
        let checkpoint = checkpoint_at(alloc, reader)?;
        return Ok(Record::Checkpoint(checkpoint));
    }
    Err(out_of_range(place))
}

/// The record that a piece is, if it is one.
#[tactic(auto, unfolding(crate::specs::Records::record_in))]
fn read_whole(alloc: Global, piece: &[u8]) -> Result<Option<Record>, NoMemory>
    ensures read { IfOk result (λ told. told ≡ forms.record_in piece.now) }
    ensures range { IfOk result (λ told. IfSome told IsInRange) }
{
    if piece.len() >= RECORD_LIMIT {
        return Ok(None);
    }
    let Ok(mut reader) = open_encapsulation(piece) else {
        return Ok(None);
    };
    if reader.order() == Order::Little {
        return Ok(None);
    }
    match record_at(alloc, &mut reader) {
        Ok(told) if reader.rest().is_empty() => Ok(Some(told)),
        Ok(_) | Err(FieldFault::Bad(_)) => Ok(None),
        Err(FieldFault::NoMemory) => Err(NoMemory),
    }
}

/// The record that a piece of bytes spells; none where it spells none, and then nothing is said of
/// where it goes wrong. A piece of 2^32 - 8 bytes or more is no record.
pub fn record_in(alloc: Global, piece: &[u8]) -> Result<Option<Record>, NoMemory>
    ensures spelled { IfOk result (λ told. IsSpelledAs piece.now told) }
    ensures read { IfOk result (λ told. told ≡ forms.record_in piece.now) }
    ensures range { IfOk result (λ told. IfSome told IsInRange) }
{
    read_whole(alloc, piece)
}
