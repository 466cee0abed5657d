//! What clients do, and `call`.
ghost use Rattle.std.specs.Prelude.{◌≡◌, ℕ, ◌+◌, ◌<◌, ◌≤◌, ◌^◌, [], ◌++◌, None, IfOk, OnOk, Some, length, slice_get, unwrap_or};
ghost use Rattle.std.specs.List.{All, cons_option};
ghost use Rattle.script_clients.specs.Clients.{Client, taking};
ghost use Rattle.script_groups.specs.Groups.{ScriptGroup as Group, group_numbered, placed};
ghost use Rattle.script_groups.specs.References.{newest_reference};
ghost use Rattle.script_world.specs.Sound.{IsKeptWorld};
ghost use Rattle.script_world.specs.World.{client_named, with_client};
ghost use Rattle.script_world.specs.Worlds.{CanStart};
ghost use Rattle.world_turns.specs.Answers.{Acts, Does};
ghost use Rattle.world_turns.specs.Naming.{Deleted, There};
ghost use Rattle.ft_world.specs.Clients.{call_to, gone_for, adopted_lines, attempts, call_from, call_line, does, expiration_of, key_of, retention_of, started};

use fault_script::{CallWords, LineFault, Words, call_words};
use ft_base::{GroupId, Key, Name, NoMemory, Par, Request, Retention, Tick, Version};
use ft_report::{ReportLine, ReportLines};
use host_ports::host_at;
use iogr_reference::GroupRef;
use message_sizes::request_size;
use script_clients::{Attempt, ScriptClient, Told};
use script_world::{Apart, Begun, DEFAULT_LIFE, Message, World};
use shown_ends::shown_end;
use world_turns::{Named, gone, group_called, one_line};

fn retention_of(client: &ScriptClient, retention: Option<Retention>) -> Retention
    requires { CanStart client.now }
    ensures { result ≡ retention_of client.now retention }
{
    match retention {
        None => Retention((client.numbered() + 1) as i32),
        Some(retention) => retention,
    }
}

fn expiration_of(world: &World, expiration: Option<Tick>) -> Tick
    requires { world.now.clock ≤ 2 ^ 63 }
    ensures { result ≡ expiration_of world.now expiration }
{
    match expiration {
        None => Tick(world.clock().0 + DEFAULT_LIFE),
        Some(expiration) => expiration,
    }
}

// An attempt goes out, if a host listens at its port.
fn push_attempt(
    world: &mut World,
    client: usize,
    name: &Name,
    attempt: Attempt,
    report: &mut ReportLines,
) -> Result<(), NoMemory>
    ensures world { OnOk result (world.new ≡ (attempts world.old client name.now attempt).world) }
    ensures report { OnOk result (report.new ≡ report.old ++ (attempts world.old client name.now attempt).lines) }
{
    let Some(host) = host_at(attempt.port) else {
        return Ok(());
    };
    let message = world.message_count() as u64 + 1;
    let name = name.copy(world.alloc())?;
    report.push(ReportLine::Attempt {
        message,
        client: name,
        host,
        id: attempt.id,
    })?;
    let bytes = request_size(&attempt);
    let attempt = Apart::of(world.alloc(), attempt)?;
    world.send(Message::Request {
        client,
        host,
        attempt,
    })?;
    world.count_bytes(bytes);
    Ok(())
}

// A client goes on over a newer reference.
fn push_adopted(
    world: &World,
    name: &Name,
    group: GroupId,
    version: Version,
    report: &mut ReportLines,
) -> Result<(), NoMemory>
    ensures { OnOk result (report.new ≡ report.old ++ adopted_lines name.now version (group_numbered world.now.groups group.0)) }
{
    let Some(place) = world.numbered_place(group) else {
        return Ok(());
    };
    let client = name.copy(world.alloc())?;
    let group = world.group(place).name().copy(world.alloc())?;
    report.push(ReportLine::Adopted {
        client,
        group,
        version,
    })
}

/// What a client does; it waits for the outcome of an operation that gives this. The line is printed where it
/// does nothing.
pub(crate) fn does(
    world: &mut World,
    client: usize,
    name: &Name,
    gives: Option<Par>,
    idle: Option<ReportLine>,
    told: Told,
) -> Result<ReportLines, NoMemory>
    ensures { (calls : ℕ) → Does (does world.old client name.now gives (cons_option idle []) told) result world.new calls calls }
{
    let alloc = world.alloc();
    let mut report = ReportLines::new(alloc);
    match told {
        Told::Attempt(attempt) => {
            push_attempt(world, client, name, attempt, &mut report)?;
            Ok(report)
        }
        Told::Adopted {
            group,
            version,
            attempt,
        } => {
            push_adopted(world, name, group, version, &mut report)?;
            push_attempt(world, client, name, attempt, &mut report)?;
            Ok(report)
        }
        Told::Ended { number, end } => {
            let end = shown_end(alloc, gives, &end)?;
            let client = name.copy(alloc)?;
            one_line(
                alloc,
                ReportLine::Done {
                    client,
                    call: number,
                    end,
                },
            )
        }
        Told::Nothing => match idle {
            None => Ok(report),
            Some(line) => one_line(alloc, line),
        },
    }
}

// The key of a client's next request.
fn key_of(world: &World, client: &ScriptClient, said: &CallWords) -> Result<Key, NoMemory>
    requires clock { world.now.clock ≤ 2 ^ 63 }
    requires few { CanStart client.now }
    ensures { IfOk result (λ key. key ≡ key_of world.now client.now said.now) }
{
    let name = client.name().copy(world.alloc())?;
    Ok(Key {
        client: name,
        retention: retention_of(client, said.retention),
        expiration: expiration_of(world, said.expiration),
    })
}

// The reference over which a client calls a group: its own, or the group's newest.
fn reference_for(world: &mut World, client: usize, group: usize) -> Result<GroupRef, NoMemory>
    requires client { client < length world.old.clients }
    requires group { group < length world.old.groups }
    requires idle { (c : Client) → slice_get world.old.clients client ≡ Some c → c.call ≡ None }
    requires kept { IsKeptWorld world.old }
    ensures { (c : Client) (g : Group) → slice_get world.old.clients client ≡ Some c → slice_get world.old.groups group ≡ Some g →
        IfOk result (λ reference. (reference ≡ unwrap_or (taking c g.id).reference (newest_reference g))
        × (world.new ≡ with_client world.old client (taking c g.id).client)) }
{
    let id = world.group(group).id();
    match world.take_reference(client, id)? {
        Some(reference) => Ok(reference),
        None => world
            .group(group)
            .newest_reference(world.alloc(), world.ports()),
    }
}

// A client's call goes out.
fn start(
    world: &mut World,
    client: usize,
    group: usize,
    op: Name,
    said: CallWords,
) -> Result<ReportLines, NoMemory>
    requires client { client < length world.old.clients }
    requires group { group < length world.old.groups }
    requires idle { (c : Client) → slice_get world.old.clients client ≡ Some c → (c.call ≡ None) × CanStart c }
    requires clock { world.old.clock ≤ 2 ^ 63 }
    requires kept { IsKeptWorld world.old }
    ensures { (c : Client) (g : Group) (calls : ℕ) → slice_get world.old.clients client ≡ Some c → slice_get world.old.groups group ≡ Some g →
        Does (started world.old (placed client c) g op said) result world.new calls calls }
{
    let alloc = world.alloc();
    let expiration = expiration_of(world, said.expiration);
    let key = key_of(world, world.client_at(client), &said)?;
    let name = world.client_at(client).name().copy(alloc)?;
    let CallWords {
        args,
        retention,
        expiration: _,
        versioned,
    } = said;
    let reference = reference_for(world, client, group)?;
    let begun = Begun {
        reference,
        expiration,
        numbers: retention.is_none(),
        versioned,
        request: Request {
            key: Some(key),
            op,
            args,
        },
    };
    let told = world.start_at(client, begun)?;
    does(world, client, &name, None, None, told)
}

// The words after the operation were read: a client with an open call is busy.
fn call_from(
    world: &mut World,
    client: &Name,
    group: usize,
    op: Name,
    said: CallWords,
) -> Result<ReportLines, LineFault>
    requires group { group < length world.old.groups }
    requires clock { world.old.clock ≤ 2 ^ 63 }
    requires few { All CanStart world.old.clients }
    requires kept { IsKeptWorld world.old }
    ensures { (g : Group) (calls : ℕ) → slice_get world.old.groups group ≡ Some g →
        Acts (call_from world.old (client_named world.old client.now) g op said) result world.old world.new calls calls }
{
    let place = match world.client_place(client) {
        Some(place) => place,
        None => return Err(LineFault::Unknown),
    };
    if world.is_busy(place) {
        let client = client.copy(world.alloc())?;
        let report = one_line(world.alloc(), ReportLine::Busy { client })?;
        return Ok(report);
    }
    match start(world, place, group, op, said) {
        Ok(report) => Ok(report),
        Err(NoMemory) => Err(LineFault::NoMemory),
    }
}

// The words after the operation of a group that was deleted were read.
fn gone_for(world: &World, client: &Name) -> Result<ReportLines, LineFault>
    ensures { (calls : ℕ) → Acts (gone_for world.now (client_named world.now client.now)) result world.now world.now calls calls }
{
    match world.client_place(client) {
        Some(_) => gone(world),
        None => Err(LineFault::Unknown),
    }
}

// A call of the group at this place, which was deleted.
fn call_gone(
    world: &World,
    client: &Name,
    group: usize,
    op: &Name,
    words: &Words,
) -> Result<ReportLines, LineFault>
    requires group { group < length world.now.groups }
    requires kept { IsKeptWorld world.now }
    ensures { (g : Group) (calls : ℕ) → slice_get world.now.groups group ≡ Some g →
        Acts (call_to world.now client.now (Deleted (placed group g)) op.now words.now) result world.now world.now calls calls }
{
    let signature = world.group(group).signature(op);
    match call_words(world.alloc(), signature, words) {
        Ok(_said) => gone_for(world, client),
        Err(why) => Err(why),
    }
}

// A call of the group at this place.
fn call_there(
    world: &mut World,
    client: &Name,
    group: usize,
    op: Name,
    words: &Words,
) -> Result<ReportLines, LineFault>
    requires group { group < length world.old.groups }
    requires clock { world.old.clock ≤ 2 ^ 63 }
    requires few { All CanStart world.old.clients }
    requires kept { IsKeptWorld world.old }
    ensures { (g : Group) (calls : ℕ) → slice_get world.old.groups group ≡ Some g →
        Acts (call_to world.old client.now (There (placed group g)) op words.now) result world.old world.new calls calls }
{
    let signature = world.group(group).signature(&op);
    match call_words(world.alloc(), signature, words) {
        Ok(said) => call_from(world, client, group, op, said),
        Err(why) => Err(why),
    }
}

/// `call C G OP ARG.. OPTION..`
pub(crate) fn call_line(
    world: &mut World,
    client: &Name,
    group: &Name,
    op: Name,
    words: &Words,
) -> Result<ReportLines, LineFault>
    requires clock { world.old.clock ≤ 2 ^ 63 }
    requires few { All CanStart world.old.clients }
    requires kept { IsKeptWorld world.old }
    ensures { (calls : ℕ) → Acts (call_line world.old client.now group.now op words.now) result world.old world.new calls calls }
{
    match group_called(world, group) {
        Named::Never => Err(LineFault::Unknown),
        Named::Deleted(place) => call_gone(world, client, place, &op, words),
        Named::There(place) => call_there(world, client, place, op, words),
    }
}
