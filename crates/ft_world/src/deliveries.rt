//! Messages that come to their hosts and clients.
ghost use Rattle.std.specs.Prelude.{◌≡◌, ℕ, ◌+◌, ◌<◌, ◌≤◌, [], ◌∷◌, Bool, IfOk, OnOk, List, None, Some, length, option_map, slice_get};
ghost use Rattle.std.specs.List.{AllByRecursion};
ghost use Rattle.ft_base.specs.declared.limits.TheConstants.{HOST_LIMIT};
ghost use Rattle.group_model.specs.Agreeing.{IsShortAsked};
ghost use Rattle.group_model.specs.Sending.{brought};
ghost use Rattle.group_model.specs.declared.events.Out.{Out as AnOut};
ghost use Rattle.script_groups.specs.Groups.{ScriptGroup as Group, group_numbered, placed};
ghost use Rattle.world_turns.specs.Answers.{Acts, Does};
ghost use Rattle.message_sizes.specs.Sizes.{answer_size};
ghost use Rattle.ft_world.specs.Requests.{CanBeSaid, CanBeSent, CanRedirect, IsInForm, forward_by, port_answer};
ghost use Rattle.ft_world.specs.Delivering.{answered, arrival_of, asked_by, asker_of, brought_to, came, deliver_line, heard_by, heard_of, held, index_of, redirected_to, replied, requested, turned_away};
ghost use Rattle.host_server.specs.Replies.{no_group};
ghost use Rattle.ft_base.specs.declared.decisions.Stop.{Stop as AStop};
ghost use Rattle.script_groups.specs.Acting.{MayCome};
ghost use Rattle.world_turns.specs.Naming.{Deleted, There, group_with_number};
ghost use Rattle.ft_world.specs.Printed.{shown};
ghost use Rattle.script_world.specs.Sound.{IsKeptWorld, IsOnItsWay};

use crate::asking::{HostReply, Said, ask};
use crate::calls::does;
use crate::printing::shown;
use cdr_codec::{Order, Raw};
use client_retry::Heard;
use fault_script::LineFault;
use ft_base::{Decision, GroupId, HostNo, Name, NoMemory, Par, Request, Steps, Stop, Version};
use ft_report::{ReportLine, ReportLines, ReportOutcome};
use group_core::event_of;
use group_model::{Asked, GroupAnswer, Inner, Out};
use host_server::no_group;
use iogr_reference::Ior;
use message_sizes::{fault_size, forward_size, outcome_size};
use script_clients::Attempt;
use script_world::{Message, Reply, World, copy_out};
use std::alloc::Global;
use std::sync::ledger::Ledger;
use sys_faults::Answer;
use world_monitors::{ping_comes, pong_comes};
use world_turns::{Named, group_with_number, late_line, one_line, send_all};

/// Whom a request is from, and where it came.
#[derive(Drop)]
pub struct Asker {
    /// The place of the client among all clients.
    pub client: usize,
    pub client_name: Name,
    pub host: HostNo,
    /// The request's id.
    pub id: u32,
    pub group: GroupId,
    pub group_name: Name,
}

/// A client's request, as it arrives at a host.
#[derive(Drop)]
pub struct Arrival {
    /// The place of the client among all clients.
    pub client: usize,
    pub host: HostNo,
    pub group: GroupId,
    /// The request's id.
    pub id: u32,
    pub asked: Asked,
}

/// More bytes of arguments than a line can say.
const ARGUMENT_ROOM: usize = 1_048_576;

// What the elements of bytes are.
fn are_octets(bytes: &[u8])
    ensures { AllByRecursion (λ b. b < 256) bytes.now }
{
    let _bytes = bytes;
}

// What an attempt asks of its host.
fn asked_by(alloc: Global, attempt: &Attempt) -> Result<Asked, NoMemory>
    ensures asked { IfOk result (λ asked. asked ≡ asked_by attempt.now) }
    ensures short { IfOk result IsShortAsked }
{
    let Request { key, op, args } = &attempt.request;
    are_octets(args.bytes());
    // no line is that long
    if args.bytes().len() > ARGUMENT_ROOM {
        return Err(NoMemory);
    }
    let key = match key {
        None => None,
        Some(key) => Some(key.copy(alloc)?),
    };
    let op = op.copy(alloc)?;
    let bytes = args.copy(alloc)?;
    Ok(Asked {
        version: attempt.version,
        key,
        bad_context: None,
        op: Some(op),
        body: Raw {
            order: Order::Big,
            align: 0,
            bytes,
        },
    })
}

// An attempt as it arrives.
fn arrival_of(
    alloc: Global,
    client: usize,
    host: HostNo,
    attempt: &Attempt,
) -> Result<Arrival, NoMemory>
    ensures arrival { IfOk result (λ arrival. arrival ≡ arrival_of client host attempt.now) }
    ensures short { IfOk result (λ arrival. IsShortAsked arrival.asked) }
{
    let asked = asked_by(alloc, attempt)?;
    Ok(Arrival {
        client,
        host,
        group: attempt.group,
        id: attempt.id,
        asked,
    })
}

// The number of an order.
fn index_of(carried: &Inner) -> Option<u32>
    ensures { result ≡ index_of carried.now }
{
    match carried {
        Inner::View { .. } => None,
        Inner::State { .. } => None,
        Inner::Update { .. } => None,
        Inner::Order { index, .. } => Some(*index),
    }
}

// What is printed where an order is held back.
fn held(
    alloc: Global,
    message: u64,
    index: Option<u32>,
    position: u32,
) -> Result<ReportLines, NoMemory>
    ensures { IfOk result (λ report. report ≡ held message index position) }
{
    match index {
        None => Ok(ReportLines::new(alloc)),
        Some(index) => one_line(
            alloc,
            ReportLine::Held {
                message,
                index,
                position,
            },
        ),
    }
}

// What is printed where something came that one host sent to another.
fn came(
    alloc: Global,
    message: u64,
    group: Name,
    host: HostNo,
    index: Option<u32>,
    answer: GroupAnswer,
) -> Result<ReportLines, NoMemory>
    ensures { IfOk result (λ report. report ≡ came message group host index answer) }
{
    match answer {
        GroupAnswer::Known(version) => one_line(
            alloc,
            ReportLine::Known {
                host,
                group,
                version,
            },
        ),
        GroupAnswer::Applied(position) => {
            one_line(alloc, ReportLine::Applied { message, position })
        }
        GroupAnswer::Held(position) => held(alloc, message, index, position),
        GroupAnswer::Ignored(why) => one_line(alloc, ReportLine::Ignored { message, why }),
        GroupAnswer::Down => one_line(alloc, ReportLine::Lost { message }),
        _ => Ok(ReportLines::new(alloc)),
    }
}

// What is printed of a request that was answered.
fn answered_report(
    alloc: Global,
    asker: &Asker,
    decision: Decision,
    message: u64,
    gives: Option<Par>,
    answer: &Answer,
) -> Result<ReportLines, NoMemory>
    ensures { IfOk result (λ report. report ≡
        ReportLine.At asker.now.host asker.now.group_name decision
        ∷ ReportLine.Reply message asker.now.host asker.now.client_name asker.now.id (shown asker.now.group_name gives answer.now) ∷ []) }
{
    let mut report = ReportLines::new(alloc);
    report.push_at(asker.host, &asker.group_name, decision)?;
    let shown = shown(alloc, &asker.group_name, gives, answer)?;
    report.push_reply(message, asker.host, &asker.client_name, asker.id, &shown)?;
    Ok(report)
}

// What is printed of a request at which its host stopped.
fn stopped_report(alloc: Global, asker: &Asker, decision: Decision) -> Result<ReportLines, NoMemory>
    ensures { IfOk result (λ report. report ≡ ReportLine.At asker.now.host asker.now.group_name decision ∷ ReportLine.Down asker.now.host ∷ []) }
{
    let mut report = ReportLines::new(alloc);
    report.push_at(asker.host, &asker.group_name, decision)?;
    report.push(ReportLine::Down { host: asker.host })?;
    Ok(report)
}

// The bytes of a reply by which a client is turned to this reference, or told that there is no such object.
fn redirect_size(alloc: Global, redirect: &Option<Ior>) -> Result<u128, NoMemory>
    requires { CanRedirect redirect.now }
    ensures { (perm : Bool) → IfOk result (λ size. size ≡ answer_size (forward_by perm redirect.now)) }
{
    match redirect {
        Some(body) => forward_size(alloc, body),
        None => Ok(fault_size(&no_group())),
    }
}

// The bytes of a reply, as it would go over a link.
fn reply_size(
    alloc: Global,
    gives: Option<Par>,
    redirect: &Option<Ior>,
    answer: &Answer,
) -> Result<u128, NoMemory>
    requires form { IsInForm gives answer.now }
    requires redirect { CanRedirect redirect.now }
    ensures { IfOk result (λ size. size ≡ answer_size (port_answer gives redirect.now answer.now)) }
{
    match answer {
        Answer::Done(outcome) => Ok(outcome_size(gives, outcome)),
        Answer::System(fault) => Ok(fault_size(fault)),
        Answer::Forward(_) | Answer::ForwardPerm(_) => redirect_size(alloc, redirect),
    }
}

// Sends a reply.
#[inline(always)]
fn send_reply(
    world: &mut World,
    asker: &Asker,
    gives: Option<Par>,
    redirect: &Option<Ior>,
    answer: Answer,
) -> Result<(), NoMemory>
    requires form { IsInForm gives answer }
    requires redirect { CanRedirect redirect.now }
    ensures { OnOk result (world.new ≡ replied world.old asker.now gives redirect.now answer) }
{
    let bytes = reply_size(world.alloc(), gives, redirect, &answer)?;
    world.send(Message::Reply(Reply {
        client: asker.client,
        group: asker.group,
        host: asker.host,
        id: asker.id,
        answer,
        gives,
    }))?;
    world.count_bytes(bytes);
    Ok(())
}

// The reply is sent, and then what goes to other members.
fn reply(world: &mut World, asker: Asker, reply: HostReply) -> Result<ReportLines, NoMemory>
    requires { CanBeSent world.old.groups asker.group reply }
    ensures { (k calls : ℕ) → Does (answered world.old k asker (Said.Reply reply)) result world.new calls calls }
{
    let number = world.message_count() as u64 + 1;
    let HostReply {
        decision,
        answer,
        gives,
        redirect,
        out,
    } = reply;
    let mut report = answered_report(world.alloc(), &asker, decision, number, gives, &answer)?;
    send_reply(world, &asker, gives, &redirect, answer)?;
    send_all(
        world,
        &mut report,
        asker.group,
        &asker.group_name,
        asker.host,
        out,
    )?;
    Ok(report)
}

// The host stopped at the request, and is down for every group.
fn stop<L: Ledger>(
    world: &mut World,
    asker: Asker,
    decision: Decision,
    steps: &mut Steps<L>,
) -> Result<ReportLines, NoMemory>
    requires host { asker.host.0 < HOST_LIMIT }
    requires kept { IsKeptWorld world.old }
    ensures { (k : ℕ) → Does (answered world.old k asker (Said.Stopped decision)) result world.new steps.old steps.new }
{
    let report = stopped_report(world.alloc(), &asker, decision)?;
    world.set_power(asker.host, false, steps)?;
    Ok(report)
}

// By what the host says.
fn answered<L: Ledger>(
    world: &mut World,
    number: u64,
    asker: Asker,
    said: Said,
    steps: &mut Steps<L>,
) -> Result<ReportLines, NoMemory>
    requires kept { IsKeptWorld world.old }
    requires host { asker.host.0 < HOST_LIMIT }
    requires can { CanBeSaid world.old.groups asker.group said }
    ensures { Does (answered world.old number asker said) result world.new steps.old steps.new }
{
    match said {
        Said::Reply(said) => reply(world, asker, said),
        Said::Stopped(decision) => stop(world, asker, decision, steps),
        Said::Down => one_line(world.alloc(), ReportLine::Lost { message: number }),
    }
}

// Who asks by this request, of the group at this place.
#[inline(always)]
fn who_asks(world: &World, arrival: &Arrival, place: usize) -> Result<Option<Asker>, NoMemory>
    requires within { place < length world.now.groups }
    requires kept { IsKeptWorld world.now }
    ensures { (g : Group) → slice_get world.now.groups place ≡ Some g →
        IfOk result (λ asker. asker ≡ option_map (asker_of arrival.now g) (slice_get world.now.clients arrival.now.client)) }
{
    let alloc = world.alloc();
    let Some(from) = world.client(arrival.client) else {
        return Ok(None);
    };
    let group = world.group(place);
    let client_name = from.name().copy(alloc)?;
    let group_name = group.name().copy(alloc)?;
    Ok(Some(Asker {
        client: arrival.client,
        client_name,
        host: arrival.host,
        id: arrival.id,
        group: group.id(),
        group_name,
    }))
}

// What is printed of a request that was turned away.
fn turned_away_report(alloc: Global, asker: &Asker, message: u64) -> Result<ReportLines, NoMemory>
    ensures { IfOk result (λ report. report ≡
        ReportLine.NoGroup asker.now.host
        ∷ ReportLine.Reply message asker.now.host asker.now.client_name asker.now.id (shown asker.now.group_name None (Answer.System no_group)) ∷ []) }
{
    let mut report = ReportLines::new(alloc);
    report.push(ReportLine::NoGroup { host: asker.host })?;
    let shown = ReportOutcome::System(no_group());
    report.push_reply(message, asker.host, &asker.client_name, asker.id, &shown)?;
    Ok(report)
}

// A request for a group that was deleted comes to its host.
fn turn_away(world: &mut World, number: u64, asker: Asker) -> Result<ReportLines, NoMemory>
    requires { IsKeptWorld world.old }
    ensures { (calls : ℕ) → Does (turned_away world.old number asker) result world.new calls calls }
{
    if !world.is_up(asker.host) {
        return one_line(world.alloc(), ReportLine::Lost { message: number });
    }
    let message = world.message_count() as u64 + 1;
    let report = turned_away_report(world.alloc(), &asker, message)?;
    send_reply(world, &asker, None, &None, Answer::System(no_group()))?;
    Ok(report)
}

// A request for the group at this place, which was deleted, comes to its host.
fn arrive_late(
    world: &mut World,
    number: u64,
    arrival: &Arrival,
    place: usize,
) -> Result<ReportLines, NoMemory>
    requires within { place < length world.old.groups }
    requires kept { IsKeptWorld world.old }
    ensures { (g : Group) (stop : AStop) (calls : ℕ) → slice_get world.old.groups place ≡ Some g →
        Does (requested world.old number arrival.now stop (Deleted (placed place g)) (slice_get world.old.clients arrival.now.client)) result world.new calls calls }
{
    match who_asks(world, arrival, place)? {
        Some(asker) => turn_away(world, number, asker),
        None => Ok(ReportLines::new(world.alloc())),
    }
}

// A request for the group at this place comes to its host.
fn arrive_at<L: Ledger>(
    world: &mut World,
    number: u64,
    arrival: Arrival,
    place: usize,
    stop: Stop,
    steps: &mut Steps<L>,
) -> Result<ReportLines, NoMemory>
    requires within { place < length world.old.groups }
    requires host { arrival.host.0 < HOST_LIMIT }
    requires short { IsShortAsked arrival.asked }
    requires kept { IsKeptWorld world.old }
    ensures { (g : Group) → slice_get world.old.groups place ≡ Some g →
        Does (requested world.old number arrival stop (There (placed place g)) (slice_get world.old.clients arrival.client))
        result world.new steps.old steps.new }
{
    let Some(asker) = who_asks(world, &arrival, place)? else {
        return Ok(ReportLines::new(world.alloc()));
    };
    match ask(world, place, arrival.host, arrival.asked, stop, steps) {
        Ok(said) => answered(world, number, asker, said, steps),
        Err(NoMemory) => Err(NoMemory),
    }
}

// A request comes to its host.
fn arrive<L: Ledger>(
    world: &mut World,
    number: u64,
    arrival: Arrival,
    stop: Stop,
    steps: &mut Steps<L>,
) -> Result<ReportLines, NoMemory>
    requires host { arrival.host.0 < HOST_LIMIT }
    requires short { IsShortAsked arrival.asked }
    requires kept { IsKeptWorld world.old }
    ensures { Does (requested world.old number arrival stop (group_with_number world.old arrival.group.0) (slice_get world.old.clients arrival.client))
        result world.new steps.old steps.new }
{
    match group_with_number(world, arrival.group) {
        Named::Never => Ok(ReportLines::new(world.alloc())),
        Named::Deleted(place) => arrive_late(world, number, &arrival, place),
        Named::There(place) => arrive_at(world, number, arrival, place, stop, steps),
    }
}

// What one host of the group at this place sent comes to another.
fn bring_at<L: Ledger>(
    world: &mut World,
    number: u64,
    place: usize,
    out: Out,
    steps: &mut Steps<L>,
) -> Result<ReportLines, NoMemory>
    requires within { place < length world.old.groups }
    requires may { (g : Group) → slice_get world.old.groups place ≡ Some g → MayCome g (brought out) }
    requires kept { IsKeptWorld world.old }
    ensures { (g : Group) → slice_get world.old.groups place ≡ Some g →
        Does (brought_to world.old number out (There (placed place g))) result world.new steps.old steps.new }
{
    let alloc = world.alloc();
    let name = world.group(place).name().copy(alloc)?;
    let host = out.to;
    let index = index_of(&out.carried);
    match world.event_at(place, event_of(out), steps) {
        GroupAnswer::NoMemory => Err(NoMemory),
        answer => came(alloc, number, name, host, index, answer),
    }
}

// What one host sent comes to another.
fn bring<L: Ledger>(
    world: &mut World,
    number: u64,
    group: GroupId,
    out: Out,
    steps: &mut Steps<L>,
) -> Result<ReportLines, NoMemory>
    requires comes { IsOnItsWay world.old.groups (Message.Carried group out) }
    requires kept { IsKeptWorld world.old }
    ensures { Does (brought_to world.old number out (group_with_number world.old group.0)) result world.new steps.old steps.new }
{
    match group_with_number(world, group) {
        Named::Never => Ok(ReportLines::new(world.alloc())),
        Named::Deleted(_) => one_line(world.alloc(), late_line(world, number, out.to)),
        Named::There(place) => bring_at(world, number, place, out, steps),
    }
}

// What a redirect says: a reference of the group's view of this version.
fn redirected_to(world: &World, group: GroupId, version: Version) -> Result<Heard, NoMemory>
    requires { IsKeptWorld world.now }
    ensures { IfOk result (λ heard. heard ≡ redirected_to (group_numbered world.now.groups group.0) version.0) }
{
    let Some(place) = world.numbered_place(group) else {
        return Ok(Heard::Unreadable);
    };
    match world
        .group(place)
        .reference_at(world.alloc(), version, world.ports())?
    {
        Some(reference) => Ok(Heard::Forward(reference)),
        None => Ok(Heard::Unreadable),
    }
}

fn heard_of(world: &World, group: GroupId, answer: Answer) -> Result<Heard, NoMemory>
    requires { IsKeptWorld world.now }
    ensures { IfOk result (λ heard. heard ≡ heard_of world.now group answer) }
{
    match answer {
        Answer::Done(outcome) => Ok(Heard::Outcome(outcome)),
        Answer::System(fault) => Ok(Heard::System(fault)),
        Answer::Forward(version) => redirected_to(world, group, version),
        Answer::ForwardPerm(version) => redirected_to(world, group, version),
    }
}

// A reply comes to its client.
fn hear(world: &mut World, number: u64, reply: Reply) -> Result<ReportLines, NoMemory>
    requires { IsKeptWorld world.old }
    ensures { (calls : ℕ) → Does (heard_by world.old number reply (slice_get world.old.clients reply.client)) result world.new calls calls }
{
    let alloc = world.alloc();
    let Reply {
        client,
        group,
        host: _,
        id,
        answer,
        gives,
    } = reply;
    let Some(from) = world.client(client) else {
        return Ok(ReportLines::new(alloc));
    };
    let name = from.name().copy(alloc)?;
    let idle = ReportLine::UnheardReply { message: number };
    let heard = heard_of(world, group, answer)?;
    let told = world.hear_at(client, id, heard)?;
    does(world, client, &name, gives, Some(idle), told)
}

/// `deliver K`, `deliver K crash append`, `deliver K crash execute`
pub(crate) fn deliver_line<L: Ledger>(
    world: &mut World,
    number: u64,
    stop: Stop,
    steps: &mut Steps<L>,
) -> Result<ReportLines, LineFault>
    requires { IsKeptWorld world.old }
    ensures { Acts (deliver_line world.old number stop) result world.old world.new steps.old steps.new }
{
    let alloc = world.alloc();
    match world.message(number) {
        None => Err(LineFault::Unknown),
        Some(
            Message::Request {
                client,
                host,
                attempt,
            },
        ) => {
            let arrival = arrival_of(alloc, *client, *host, attempt.get())?;
            match arrive(world, number, arrival, stop, steps) {
                Ok(report) => Ok(report),
                Err(NoMemory) => Err(LineFault::NoMemory),
            }
        }
        Some(Message::Reply(reply)) => {
            let reply = reply.copy(alloc)?;
            match hear(world, number, reply) {
                Ok(report) => Ok(report),
                Err(NoMemory) => Err(LineFault::NoMemory),
            }
        }
        Some(Message::Carried { group, out }) => {
            let group = *group;
            let out = copy_out(alloc, out.get())?;
            match bring(world, number, group, out, steps) {
                Ok(report) => Ok(report),
                Err(NoMemory) => Err(LineFault::NoMemory),
            }
        }
        Some(Message::Ping { group, host }) => {
            let (group, host) = (*group, *host);
            match ping_comes(world, number, group, host) {
                Ok(report) => Ok(report),
                Err(NoMemory) => Err(LineFault::NoMemory),
            }
        }
        Some(Message::Pong { group, host }) => {
            let (group, host) = (*group, *host);
            match pong_comes(world, number, group, host) {
                Ok(report) => Ok(report),
                Err(NoMemory) => Err(LineFault::NoMemory),
            }
        }
    }
}
