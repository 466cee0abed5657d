//! What a group sends becomes messages, whose bytes are counted.
ghost use Rattle.std.specs.Prelude.{◌≡◌, ◌+◌, ◌++◌, ◌<◌, ◌^◌, [], ◌∷◌, IfOk, OnOk, Some, length, slice_get};
ghost use Rattle.std.specs.List.{AllByRecursion};
ghost use Rattle.world_turns.specs.Sending.{all_carried, all_sent, payload, payloads, request_payload, sent_line, sent_lines, view_line};
ghost use Rattle.script_groups.specs.Groups.{ScriptGroup as Group};
ghost use Rattle.script_world.specs.Sound.{IsOnItsWay};
ghost use Rattle.script_world.specs.World.{at_most_one_past, carried, with_messages};

use ft_base::{GroupId, HostNo, Name, NoMemory, Request, View};
use ft_report::{ReportLine, ReportLines};
use group_model::{Inner, Out, OutList};
use script_world::{Apart, BYTE_LIMIT, Message, World};
use std::alloc::Global;

/// Prints a view.
pub fn push_view(
    alloc: Global,
    report: &mut ReportLines,
    name: &Name,
    view: View,
) -> Result<(), NoMemory>
    ensures { OnOk result (report.new ≡ report.old ++ view_line name.now view ∷ []) }
{
    let group = name.copy(alloc)?;
    report.push(ReportLine::View {
        group,
        version: view.version,
        members: view.members,
        primary: view.primary,
    })
}

fn request_payload(request: &Request) -> u128
    ensures is { result ≡ request_payload request.now }
    ensures small { result < 2 ^ 66 }
{
    let client = match &request.key {
        None => 0,
        Some(key) => key.client.bytes().len(),
    };
    client as u128 + request.op.bytes().len() as u128 + request.args.bytes().len() as u128
}

// The bytes that count of a message between members.
fn payload(carried: &Inner) -> u128
    ensures is { result ≡ payload carried.now }
    ensures small { result < 2 ^ 66 }
{
    match carried {
        Inner::View { .. } => 0,
        Inner::State { state, .. } => state.bytes().len() as u128,
        Inner::Update { update, .. } => update.bytes().len() as u128,
        Inner::Order { request, .. } => request_payload(request),
    }
}

fn at_most_one_past(bytes: u128) -> u128
    ensures { result ≡ at_most_one_past bytes }
{
    if bytes <= BYTE_LIMIT as u128 {
        bytes
    } else {
        BYTE_LIMIT as u128 + 1
    }
}

// The bytes that count of all of them, up to one more than there can be.
fn payloads(outs: &[Out]) -> u128
    ensures { result ≡ at_most_one_past (payloads outs.now) }
{
    let mut bytes = 0;
    for out in outs {
        bytes = at_most_one_past(bytes + payload(&out.carried));
    }
    bytes
}

// The line of a message to a host of a group.
fn sent_line(
    alloc: Global,
    message: u64,
    name: &Name,
    from: HostNo,
    to: HostNo,
    carried: &Inner,
) -> Result<ReportLine, NoMemory>
    ensures { IfOk result (λ line. line ≡ sent_line message name.now from to carried.now) }
{
    let group = name.copy(alloc)?;
    match carried {
        Inner::View { version } => Ok(ReportLine::ViewMessage {
            message,
            host: to,
            group,
            version: *version,
        }),
        Inner::State { position, .. } => Ok(ReportLine::StateMessage {
            message,
            from,
            to,
            group,
            position: *position,
        }),
        Inner::Update {
            from: base,
            to: position,
            ..
        } => Ok(ReportLine::UpdateMessage {
            message,
            from,
            to,
            group,
            base: *base,
            position: *position,
        }),
        Inner::Order { index, .. } => Ok(ReportLine::OrderMessage {
            message,
            from,
            to,
            group,
            index: *index,
        }),
    }
}

// Sends one, and prints it.
fn send_out(
    world: &mut World,
    report: &mut ReportLines,
    group: GroupId,
    name: &Name,
    from: HostNo,
    out: Out,
) -> Result<(), NoMemory>
    requires { IsOnItsWay world.old.groups (carried group out) }
    ensures world { OnOk result (world.new ≡ with_messages world.old (carried group out ∷ [])) }
    ensures report { OnOk result (report.new ≡ report.old ++ sent_line (length world.old.messages + 1) name.now from out.to out.carried ∷ []) }
{
    let number = world.message_count() as u64 + 1;
    let line = sent_line(world.alloc(), number, name, from, out.to, &out.carried)?;
    report.push(line)?;
    let out = Apart::of(world.alloc(), out)?;
    world.send(Message::Carried { group, out })
}

// Sends all of them in order, and prints each.
fn send_each(
    world: &mut World,
    report: &mut ReportLines,
    group: GroupId,
    name: &Name,
    from: HostNo,
    outs: OutList,
) -> Result<(), NoMemory>
    requires { AllByRecursion (λ out. IsOnItsWay world.old.groups (carried group out)) outs }
    ensures world { OnOk result (world.new ≡ with_messages world.old (all_carried group outs)) }
    ensures report { OnOk result (report.new ≡ report.old ++ sent_lines (length world.old.messages + 1) name.now from outs) }
{
    for out in outs.into_vec() {
        send_out(world, report, group, name, from, out)?;
    }
    Ok(())
}

/// Sends all of them for the group at this place, in order, prints each, and counts their bytes. The group's name is
/// copied only where there is something to send.
pub fn send_all_at(
    world: &mut World,
    place: usize,
    from: HostNo,
    outs: OutList,
) -> Result<ReportLines, NoMemory>
    requires within { place < length world.old.groups }
    requires ways { (g : Group) → slice_get world.old.groups place ≡ Some g → AllByRecursion (λ out. IsOnItsWay world.old.groups (carried g.id out)) outs }
    ensures world { (g : Group) → slice_get world.old.groups place ≡ Some g → OnOk result (world.new ≡ all_sent world.old g.id outs) }
    ensures groups { OnOk result (world.new.groups ≡ world.old.groups) }
    ensures lines { (g : Group) → slice_get world.old.groups place ≡ Some g → IfOk result (λ lines. lines ≡ sent_lines (length world.old.messages + 1) g.name from outs) }
{
    let mut lines = ReportLines::new(world.alloc());
    if outs.as_slice().is_empty() {
        world.count_bytes(0);
        return Ok(lines);
    }
    let group = world.group(place).id();
    let name = world.group(place).name().copy(world.alloc())?;
    send_all(world, &mut lines, group, &name, from, outs)?;
    Ok(lines)
}

/// Sends all of them in order, prints each, and counts their bytes.
pub fn send_all(
    world: &mut World,
    report: &mut ReportLines,
    group: GroupId,
    name: &Name,
    from: HostNo,
    outs: OutList,
) -> Result<(), NoMemory>
    requires { AllByRecursion (λ out. IsOnItsWay world.old.groups (carried group out)) outs }
    ensures world { OnOk result (world.new ≡ all_sent world.old group outs) }
    ensures report { OnOk result (report.new ≡ report.old ++ sent_lines (length world.old.messages + 1) name.now from outs) }
{
    let bytes = payloads(outs.as_slice());
    send_each(world, report, group, name, from, outs)?;
    world.count_bytes(bytes);
    Ok(())
}
