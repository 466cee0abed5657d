ghost use Rattle.std.specs.Prelude.{◌≡◌, ◌∷◌, [], codes, decimal, ◌++◌, IfOk, OnOk};
ghost use Rattle.std.specs.List.{flat_map};
ghost use Rattle.report_words.specs.Words.{line};
ghost use Rattle.ft_report.specs.Report.{between_hosts, report_text};

use crate::outcomes::ReportOutcome;
use crate::parts::{
    ignored_bytes, push_decision, push_end, push_outcome, push_setting, push_subscribe,
    refusal_bytes, why_bytes, with_version,
};
use crate::reports::{CallEnd, ReportLine, SettingFault, SubscribeFault};
use crate::showing::{
    locations_line, member_line, member_ref_line, no_group_line, property_line, ref_line, show_line,
};
use crate::transfers::{checkpoint_line, updated_line};
use ft_base::{Bytes, Decision, GroupId, HostNo, Ignored, Members, Name, NoMemory, Version};
use giop_messages::Why;
use group_model::ManageFault;
use report_words::Word::{Fixed, Host, Location, Made, Number, Text};
use report_words::{hosts, phrase, push_line, push_named, push_numbered, push_octets};
use std::alloc::Global;

// Ends a line.
fn end_line(text: &mut Vec<u8>) -> Result<(), NoMemory>
    ensures { OnOk result (text.new.items ≡ text.old.items ++ 10 ∷ []) }
{
    text.push(b'\n')?;
    Ok(())
}

// Lines of few words, each by its form. A line's words are an array of its function, so they stand in functions
// of their own: one that had the words of all lines would make room for all of them whichever it writes.

#[inline(never)]
fn word_line(text: &mut Vec<u8>, word: &'static [u8]) -> Result<(), NoMemory>
    ensures { OnOk result (text.new.items ≡ text.old.items ++ line (word.now ∷ [])) }
{
    push_line(text, &[Fixed(word)])
}

#[inline(never)]
fn number_line(text: &mut Vec<u8>, word: &'static [u8], number: u64) -> Result<(), NoMemory>
    ensures { OnOk result (text.new.items ≡ text.old.items ++ line (word.now ∷ decimal number ∷ [])) }
{
    push_line(text, &[Fixed(word), Number(number)])
}

#[inline(never)]
fn name_line(text: &mut Vec<u8>, word: &'static [u8], name: &Name) -> Result<(), NoMemory>
    ensures { OnOk result (text.new.items ≡ text.old.items ++ line (word.now ∷ name.now ∷ [])) }
{
    push_line(text, &[Fixed(word), Text(name.bytes())])
}

#[inline(never)]
fn name_number_line(
    text: &mut Vec<u8>,
    word: &'static [u8],
    name: &Name,
    number: u64,
) -> Result<(), NoMemory>
    ensures { OnOk result (text.new.items ≡ text.old.items ++ line (word.now ∷ name.now ∷ decimal number ∷ [])) }
{
    push_line(text, &[Fixed(word), Text(name.bytes()), Number(number)])
}

#[inline(never)]
fn name_word_line(
    text: &mut Vec<u8>,
    word: &'static [u8],
    name: &Name,
    last: &'static [u8],
) -> Result<(), NoMemory>
    ensures { OnOk result (text.new.items ≡ text.old.items ++ line (word.now ∷ name.now ∷ last.now ∷ [])) }
{
    push_line(text, &[Fixed(word), Text(name.bytes()), Fixed(last)])
}

// A message that nobody heeds, and what it is or why.
#[inline(never)]
fn unheeded_line(text: &mut Vec<u8>, message: u64, what: &'static [u8]) -> Result<(), NoMemory>
    ensures { OnOk result (text.new.items ≡ text.old.items ++ line (codes "ignored" ∷ decimal message ∷ what.now ∷ [])) }
{
    push_line(text, &[Fixed(b"ignored"), Number(message), Fixed(what)])
}

#[inline(never)]
fn applied_line(text: &mut Vec<u8>, message: u64, position: u32) -> Result<(), NoMemory>
    ensures { OnOk result (text.new.items ≡ text.old.items ++ line (codes "applied" ∷ decimal message ∷ codes "at" ∷ decimal position ∷ [])) }
{
    push_line(
        text,
        &[
            Fixed(b"applied"),
            Number(message),
            Fixed(b"at"),
            Number(u64::from(position)),
        ],
    )
}

#[inline(never)]
fn view_line(
    text: &mut Vec<u8>,
    alloc: Global,
    group: &Name,
    version: Version,
    members: &Members,
    primary: Option<HostNo>,
) -> Result<(), NoMemory>
    ensures { OnOk result (text.new.items ≡ text.old.items ++ report_text (ReportLine.View group.now version members.now primary)) }
{
    let members = hosts(alloc, members)?;
    push_line(
        text,
        &[
            Fixed(b"view"),
            Text(group.bytes()),
            Number(u64::from(version.0)),
            Fixed(b"members"),
            Made(members.bytes()),
            Fixed(b"primary"),
            Host(primary),
        ],
    )
}

#[inline(never)]
fn attempt_line(
    text: &mut Vec<u8>,
    alloc: Global,
    message: u64,
    client: &Name,
    host: HostNo,
    id: u32,
) -> Result<(), NoMemory>
    ensures { OnOk result (text.new.items ≡ text.old.items ++ report_text (ReportLine.Attempt message client.now host id)) }
{
    push_line(
        text,
        &[
            Fixed(b"msg"),
            Number(message),
            Fixed(b"client"),
            Text(client.bytes()),
            Fixed(b"to host"),
            Number(u64::from(host.0)),
            Fixed(b"request"),
            Number(u64::from(id)),
        ],
    )
}

/// Writes the line of a reply.
#[inline(never)]
pub fn reply_line(
    text: &mut Vec<u8>,
    alloc: Global,
    message: u64,
    host: HostNo,
    client: &Name,
    id: u32,
    shown: &ReportOutcome,
) -> Result<(), NoMemory>
    ensures { OnOk result (text.new.items ≡ text.old.items ++ report_text (ReportLine.Reply message host client.now id shown.now)) }
{
    push_numbered(text, b"msg ", message)?;
    push_numbered(text, b" host ", u64::from(host.0))?;
    push_named(text, b" to client ", client)?;
    push_numbered(text, b" reply ", u64::from(id))?;
    text.push(b' ')?;
    push_outcome(text, alloc, shown)?;
    end_line(text)
}

/// Writes the line of what a host made of a request.
#[inline(never)]
pub fn at_line(
    text: &mut Vec<u8>,
    alloc: Global,
    host: HostNo,
    group: &Name,
    decision: Decision,
) -> Result<(), NoMemory>
    ensures { OnOk result (text.new.items ≡ text.old.items ++ report_text (ReportLine.At host group.now decision)) }
{
    push_numbered(text, b"at ", u64::from(host.0))?;
    push_named(text, b" ", group)?;
    text.push(b' ')?;
    push_decision(text, decision)?;
    end_line(text)
}

#[inline(never)]
fn done_line(
    text: &mut Vec<u8>,
    alloc: Global,
    client: &Name,
    call: u32,
    end: &CallEnd,
) -> Result<(), NoMemory>
    ensures { OnOk result (text.new.items ≡ text.old.items ++ report_text (ReportLine.Done client.now call end.now)) }
{
    push_named(text, b"done ", client)?;
    push_numbered(text, b" ", u64::from(call))?;
    text.push(b' ')?;
    push_end(text, alloc, end)?;
    end_line(text)
}

// A message to a host: the words that stand before the host's number, and what it is told.
#[inline(never)]
fn told_line(
    text: &mut Vec<u8>,
    alloc: Global,
    message: u64,
    way: &'static [u8],
    host: HostNo,
    told: &Bytes,
) -> Result<(), NoMemory>
    ensures { OnOk result (text.new.items ≡ text.old.items ++ line (codes "msg" ∷ decimal message ∷ way.now ∷ decimal host.0 ∷ told.now ∷ [])) }
{
    push_line(
        text,
        &[
            Fixed(b"msg"),
            Number(message),
            Fixed(way),
            Number(u64::from(host.0)),
            Text(told.bytes()),
        ],
    )
}

#[inline(never)]
fn view_message_line(
    text: &mut Vec<u8>,
    alloc: Global,
    message: u64,
    host: HostNo,
    group: &Name,
    version: Version,
) -> Result<(), NoMemory>
    ensures { OnOk result (text.new.items ≡ text.old.items ++ report_text (ReportLine.ViewMessage message host group.now version)) }
{
    let view = with_version(alloc, b"view", group, version)?;
    told_line(text, alloc, message, b"manager to host", host, &view)
}

// A message from one host to another.
#[inline(never)]
fn between_hosts(alloc: Global, message: u64, from: HostNo, to: HostNo) -> Result<Bytes, NoMemory>
    ensures { IfOk result (λ bytes. bytes ≡ between_hosts message from.0 to.0) }
{
    phrase(
        alloc,
        &[
            Fixed(b"msg"),
            Number(message),
            Fixed(b"host"),
            Number(u64::from(from.0)),
            Fixed(b"to host"),
            Number(u64::from(to.0)),
        ],
    )
}

#[inline(never)]
fn state_line(
    text: &mut Vec<u8>,
    alloc: Global,
    way: &Bytes,
    group: &Name,
    position: u32,
) -> Result<(), NoMemory>
    ensures { OnOk result (text.new.items ≡ text.old.items ++ line (way.now ∷ codes "state" ∷ group.now ∷ decimal position ∷ [])) }
{
    push_line(
        text,
        &[
            Made(way.bytes()),
            Fixed(b"state"),
            Text(group.bytes()),
            Number(u64::from(position)),
        ],
    )
}

#[inline(never)]
fn update_line(
    text: &mut Vec<u8>,
    alloc: Global,
    way: &Bytes,
    group: &Name,
    base: u32,
    position: u32,
) -> Result<(), NoMemory>
    ensures { OnOk result (text.new.items ≡ text.old.items ++ line (way.now ∷ codes "update" ∷ group.now ∷ decimal base ∷ decimal position ∷ [])) }
{
    push_line(
        text,
        &[
            Made(way.bytes()),
            Fixed(b"update"),
            Text(group.bytes()),
            Number(u64::from(base)),
            Number(u64::from(position)),
        ],
    )
}

#[inline(never)]
fn order_line(
    text: &mut Vec<u8>,
    alloc: Global,
    way: &Bytes,
    group: &Name,
    index: u32,
) -> Result<(), NoMemory>
    ensures { OnOk result (text.new.items ≡ text.old.items ++ line (way.now ∷ codes "order" ∷ group.now ∷ decimal index ∷ [])) }
{
    push_line(
        text,
        &[
            Made(way.bytes()),
            Fixed(b"order"),
            Text(group.bytes()),
            Number(u64::from(index)),
        ],
    )
}

// A message of the monitor to a host, or of a host to the monitor: the words that stand before and
// behind the host's number, and the group that it is about.
#[inline(never)]
fn monitor_line<'a>(
    text: &mut Vec<u8>,
    alloc: Global,
    message: u64,
    before: &'static [u8],
    host: HostNo,
    behind: &'static [u8],
    group: &'a Name,
) -> Result<(), NoMemory>
    ensures { OnOk result (text.new.items ≡ text.old.items ++ line (codes "msg" ∷ decimal message ∷ before.now ∷ decimal host.0 ∷ behind.now ∷ group.now ∷ [])) }
{
    push_line(
        text,
        &[
            Fixed(b"msg"),
            Number(message),
            Fixed(before),
            Number(u64::from(host.0)),
            Fixed(behind),
            Text(group.bytes()),
        ],
    )
}

#[inline(never)]
fn held_line(
    text: &mut Vec<u8>,
    alloc: Global,
    message: u64,
    index: u32,
    position: u32,
) -> Result<(), NoMemory>
    ensures { OnOk result (text.new.items ≡ text.old.items ++ report_text (ReportLine.Held message index position)) }
{
    push_line(
        text,
        &[
            Fixed(b"held"),
            Number(message),
            Fixed(b"order"),
            Number(u64::from(index)),
            Fixed(b"at"),
            Number(u64::from(position)),
        ],
    )
}

#[inline(never)]
fn known_line(
    text: &mut Vec<u8>,
    alloc: Global,
    host: HostNo,
    group: &Name,
    version: Version,
) -> Result<(), NoMemory>
    ensures { OnOk result (text.new.items ≡ text.old.items ++ report_text (ReportLine.Known host group.now version)) }
{
    push_line(
        text,
        &[
            Fixed(b"known"),
            Number(u64::from(host.0)),
            Text(group.bytes()),
            Number(u64::from(version.0)),
        ],
    )
}

#[inline(never)]
fn ignored_line(
    text: &mut Vec<u8>,
    alloc: Global,
    message: u64,
    why: Ignored,
) -> Result<(), NoMemory>
    ensures { OnOk result (text.new.items ≡ text.old.items ++ report_text (ReportLine.Ignored message why)) }
{
    let why = ignored_bytes(alloc, why)?;
    push_line(
        text,
        &[Fixed(b"ignored"), Number(message), Made(why.bytes())],
    )
}

#[inline(never)]
fn adopted_line<'a>(
    text: &mut Vec<u8>,
    alloc: Global,
    client: &'a Name,
    group: &'a Name,
    version: Version,
) -> Result<(), NoMemory>
    ensures { OnOk result (text.new.items ≡ text.old.items ++ report_text (ReportLine.Adopted client.now group.now version)) }
{
    push_line(
        text,
        &[
            Fixed(b"adopt"),
            Text(client.bytes()),
            Text(group.bytes()),
            Number(u64::from(version.0)),
        ],
    )
}

#[inline(never)]
fn bound_line<'a>(
    text: &mut Vec<u8>,
    alloc: Global,
    client: &'a Name,
    group: &'a Name,
    version: Version,
) -> Result<(), NoMemory>
    ensures { OnOk result (text.new.items ≡ text.old.items ++ report_text (ReportLine.Bound client.now group.now version)) }
{
    push_line(
        text,
        &[
            Fixed(b"bound"),
            Text(client.bytes()),
            Text(group.bytes()),
            Number(u64::from(version.0)),
        ],
    )
}

#[inline(never)]
fn refused_line(text: &mut Vec<u8>, alloc: Global, fault: ManageFault) -> Result<(), NoMemory>
    ensures { OnOk result (text.new.items ≡ text.old.items ++ report_text (ReportLine.Refused fault)) }
{
    let fault = refusal_bytes(alloc, fault)?;
    push_line(text, &[Fixed(b"refused"), Made(fault.bytes())])
}

#[inline(never)]
fn refused_setting_line(text: &mut Vec<u8>, fault: SettingFault) -> Result<(), NoMemory>
    ensures { OnOk result (text.new.items ≡ text.old.items ++ report_text (ReportLine.RefusedSetting fault)) }
{
    text.extend_from_slice(b"refused ")?;
    push_setting(text, fault)?;
    end_line(text)
}

#[inline(never)]
fn refused_subscriber_line(text: &mut Vec<u8>, fault: SubscribeFault) -> Result<(), NoMemory>
    ensures { OnOk result (text.new.items ≡ text.old.items ++ report_text (ReportLine.RefusedSubscriber fault)) }
{
    text.extend_from_slice(b"refused ")?;
    push_subscribe(text, fault)?;
    end_line(text)
}

#[inline(never)]
fn fault_line<'a>(
    text: &mut Vec<u8>,
    alloc: Global,
    subscriber: &'a Name,
    host: HostNo,
    id: GroupId,
    group: &'a Name,
) -> Result<(), NoMemory>
    ensures { OnOk result (text.new.items ≡ text.old.items ++ report_text (ReportLine.Fault subscriber.now host id group.now)) }
{
    push_line(
        text,
        &[
            Fixed(b"fault"),
            Text(subscriber.bytes()),
            Location(host),
            Number(id.0),
            Text(group.bytes()),
        ],
    )
}

/// Writes the line of what a host wrote on a link.
#[inline(never)]
pub fn bytes_line(text: &mut Vec<u8>, alloc: Global, written: &Bytes) -> Result<(), NoMemory>
    ensures { OnOk result (text.new.items ≡ text.old.items ++ report_text (ReportLine.Bytes written.now)) }
{
    text.extend_from_slice(b"bytes ")?;
    push_octets(text, written.bytes())?;
    end_line(text)
}

/// Writes the line of a link that was closed.
#[inline(never)]
pub fn closed_line(text: &mut Vec<u8>) -> Result<(), NoMemory>
    ensures { OnOk result (text.new.items ≡ text.old.items ++ report_text ReportLine.LinkClosed) }
{
    word_line(text, b"link closed")
}

#[inline(never)]
fn malformed_line(text: &mut Vec<u8>, alloc: Global, why: Why, place: u32) -> Result<(), NoMemory>
    ensures { OnOk result (text.new.items ≡ text.old.items ++ report_text (ReportLine.LinkMalformed why place)) }
{
    push_line(
        text,
        &[
            Fixed(b"link malformed"),
            Fixed(why_bytes(why)),
            Number(u64::from(place)),
        ],
    )
}

/// Writes a line, with its LF.
pub fn write_line(text: &mut Vec<u8>, alloc: Global, line: &ReportLine) -> Result<(), NoMemory>
    ensures { OnOk result (text.new.items ≡ text.old.items ++ report_text line.now) }
{
    match line {
        ReportLine::Group { name, id } => name_number_line(text, b"group", name, id.0),
        ReportLine::View {
            group,
            version,
            members,
            primary,
        } => view_line(text, alloc, group, *version, members, *primary),
        ReportLine::Deleted { group } => name_line(text, b"deleted", group),
        ReportLine::Attempt {
            message,
            client,
            host,
            id,
        } => attempt_line(text, alloc, *message, client, *host, *id),
        ReportLine::Reply {
            message,
            host,
            client,
            id,
            shown,
        } => reply_line(text, alloc, *message, *host, client, *id, shown),
        ReportLine::At {
            host,
            group,
            decision,
        } => at_line(text, alloc, *host, group, *decision),
        ReportLine::ViewMessage {
            message,
            host,
            group,
            version,
        } => view_message_line(text, alloc, *message, *host, group, *version),
        ReportLine::StateMessage {
            message,
            from,
            to,
            group,
            position,
        } => {
            let way = between_hosts(alloc, *message, *from, *to)?;
            state_line(text, alloc, &way, group, *position)
        }
        ReportLine::UpdateMessage {
            message,
            from,
            to,
            group,
            base,
            position,
        } => {
            let way = between_hosts(alloc, *message, *from, *to)?;
            update_line(text, alloc, &way, group, *base, *position)
        }
        ReportLine::OrderMessage {
            message,
            from,
            to,
            group,
            index,
        } => {
            let way = between_hosts(alloc, *message, *from, *to)?;
            order_line(text, alloc, &way, group, *index)
        }
        ReportLine::Ping {
            message,
            host,
            group,
        } => monitor_line(
            text,
            alloc,
            *message,
            b"monitor to host",
            *host,
            b"ping",
            group,
        ),
        ReportLine::Pong {
            message,
            host,
            group,
        } => monitor_line(
            text,
            alloc,
            *message,
            b"host",
            *host,
            b"to monitor pong",
            group,
        ),
        ReportLine::Applied { message, position } => applied_line(text, *message, *position),
        ReportLine::Held {
            message,
            index,
            position,
        } => held_line(text, alloc, *message, *index, *position),
        ReportLine::Known {
            host,
            group,
            version,
        } => known_line(text, alloc, *host, group, *version),
        ReportLine::Alive { group, host } => {
            name_number_line(text, b"alive", group, u64::from(host.0))
        }
        ReportLine::Lost { message } => number_line(text, b"lost", *message),
        ReportLine::UnheardReply { message } => unheeded_line(text, *message, b"reply"),
        ReportLine::IgnoredDeleted { message } => unheeded_line(text, *message, b"deleted"),
        ReportLine::IgnoredUnwatched { message } => unheeded_line(text, *message, b"unwatched"),
        ReportLine::Ignored { message, why } => ignored_line(text, alloc, *message, *why),
        ReportLine::Adopted {
            client,
            group,
            version,
        } => adopted_line(text, alloc, client, group, *version),
        ReportLine::Bound {
            client,
            group,
            version,
        } => bound_line(text, alloc, client, group, *version),
        ReportLine::Done { client, call, end } => done_line(text, alloc, client, *call, end),
        ReportLine::Busy { client } => name_line(text, b"busy", client),
        ReportLine::Idle { client } => name_line(text, b"idle", client),
        ReportLine::Down { host } => number_line(text, b"down", u64::from(host.0)),
        ReportLine::Up { host } => number_line(text, b"up", u64::from(host.0)),
        ReportLine::Refused(fault) => refused_line(text, alloc, *fault),
        ReportLine::RefusedSetting(fault) => refused_setting_line(text, *fault),
        ReportLine::RefusedSubscriber(fault) => refused_subscriber_line(text, *fault),
        ReportLine::PollNone { group } => name_word_line(text, b"poll", group, b"none"),
        ReportLine::SweepNone { group } => name_word_line(text, b"sweep", group, b"none"),
        ReportLine::Subscribed { subscriber } => name_line(text, b"subscribed", subscriber),
        ReportLine::Unsubscribed { subscriber } => name_line(text, b"unsubscribed", subscriber),
        ReportLine::Fault {
            subscriber,
            host,
            id,
            group,
        } => fault_line(text, alloc, subscriber, *host, *id, group),
        ReportLine::NoFault { subscriber } => name_word_line(text, b"fault", subscriber, b"none"),
        ReportLine::Checkpoint {
            group,
            host,
            position,
            time,
        } => checkpoint_line(text, group, *host, *position, *time),
        ReportLine::CheckpointNone { group } => {
            name_word_line(text, b"checkpoint", group, b"none")
        }
        ReportLine::CheckpointFailed { group } => {
            name_word_line(text, b"checkpoint", group, b"logfault")
        }
        ReportLine::Updated {
            group,
            host,
            base,
            position,
        } => updated_line(text, group, *host, *base, *position),
        ReportLine::UpdateNone { group } => name_word_line(text, b"update", group, b"none"),
        ReportLine::Property { name, value } => property_line(text, alloc, name, value),
        ReportLine::Show {
            group,
            version,
            entries,
            mark,
            time,
        } => show_line(text, alloc, group, *version, *entries, *mark, *time),
        ReportLine::Member {
            host,
            role,
            standing,
        } => member_line(text, alloc, *host, *role, standing),
        ReportLine::Locations { group, members } => locations_line(text, alloc, group, members),
        ReportLine::Id { group, id } => name_number_line(text, b"id", group, id.0),
        ReportLine::Ref {
            group,
            text: reference,
        } => ref_line(text, alloc, group, reference),
        ReportLine::MemberRef {
            group,
            host,
            text: reference,
        } => member_ref_line(text, alloc, group, *host, reference),
        ReportLine::NoGroup { host } => no_group_line(text, alloc, *host),
        ReportLine::Bytes(written) => bytes_line(text, alloc, written),
        ReportLine::LinkClosed => closed_line(text),
        ReportLine::LinkMalformed { why, place } => malformed_line(text, alloc, *why, *place),
        ReportLine::LinkTooLarge(size) => number_line(text, b"link too-large", *size),
        ReportLine::LinkLost => word_line(text, b"link lost"),
    }
}
