//! The bytes of a whole link: what a host makes of the messages in them, and how the link ends. (GIOP chapter,
//! "GIOP Message Transfer".)
ghost use Rattle.std.specs.Prelude.{◌≡◌, ◌<◌, ◌≤◌, ◌+◌, ◌++◌, [], ◌∷◌, IfOk, OnErr, OnOk, false, true};
ghost use Rattle.ft_base.specs.declared.limits.TheConstants.{HOST_LIMIT};
ghost use Rattle.giop_stream.specs.Sessions.{session};
ghost use Rattle.giop_stream.specs.Spelled.{IsSpelled};
ghost use Rattle.link_session.specs.Ports.{end_error, step};
ghost use Rattle.link_session.specs.Serving.{IsServed, Meets};
ghost use Rattle.script_world.specs.Sound.{IsKeptWorld};
ghost use Rattle.script_world.specs.World.{is_up};
ghost use Rattle.world_turns.specs.Answers.{Acts, Does, HasDone};
ghost use Rattle.ft_world.specs.Links.{bytes_lines, end_line, inject_line, link_of, world_port};
ghost use Rattle.ft_world.specs.Passes.{Exchanges, IsLinkServed, IsReady, lines_at, octets, pass_at};
ghost use Rattle.ft_world.specs.Serving.{Changes, IsTaken, IsWithin, Served};

use crate::ports::{Printed, WorldPass, WorldPort, push_bytes, write};
use fault_script::LineFault;
use ft_base::{Bytes, HostNo, NoMemory, Steps};
use ft_report::{ReportLine, ReportLines};
use giop_messages::{Form, Message};
use giop_stream::{Session, SessionStep, StreamEnd};
use link_session::{Stepped, end_bytes, step};
use script_world::World;
use std::alloc::Global;
use std::sync::ledger::Ledger;
use world_turns::one_line;

// Prints how a link ended.
fn push_end(end: StreamEnd, report: &mut ReportLines) -> Result<(), NoMemory>
    ensures { OnOk result (report.new ≡ report.old ++ end_line end ∷ []) }
{
    match end {
        StreamEnd::Closed => report.push_closed(),
        StreamEnd::Malformed { why, place } => {
            report.push(ReportLine::LinkMalformed { why, place })
        }
        StreamEnd::TooLarge(size) => report.push(ReportLine::LinkTooLarge(size)),
    }
}

// What a link's end is owed, and how it ended.
fn close(alloc: Global, end: StreamEnd, report: &mut ReportLines) -> Result<(), NoMemory>
    ensures { OnOk result (report.new ≡ (report.old ++ bytes_lines (end_error end)) ++ end_line end ∷ []) }
{
    let bytes = end_bytes(alloc, end)?;
    push_bytes(bytes, report)?;
    push_end(end, report)
}

// What the host answers to a message. It is up, so no turn finds it down.
fn answer<L: Ledger>(
    pass: &mut WorldPass<'_, L>,
    host: HostNo,
    received: (Message, Form),
) -> Result<Option<Bytes>, NoMemory>
    requires host { host.0 < HOST_LIMIT }
    requires spelled { IsSpelled received }
    requires ready { IsReady host.0 pass.old.world.now pass.old.printed.now.orders pass.old.short }
    ensures same_world { pass.new.world.ghost_name ≡ pass.old.world.ghost_name }
    ensures same_steps { pass.new.steps.ghost_name ≡ pass.old.steps.ghost_name }
    ensures same_printed { pass.new.printed.ghost_name ≡ pass.old.printed.ghost_name }
    ensures kept { OnOk result (IsKeptWorld pass.new.world.now) }
    ensures taken { IfOk result (IsTaken host.0 received (pass_at pass.old.world.now pass.old.steps.now pass.old.short) (pass_at pass.new.world.now pass.new.steps.now pass.new.short)
        (lines_at pass.old.printed.now.lines pass.old.printed.now.orders) (lines_at pass.new.printed.now.lines pass.new.printed.now.orders)) }
    ensures short { OnErr result (IsWithin (λ e. step (world_port host.0) e received.0 received.1) pass.old.world.now pass.old.printed.now.lines pass.old.steps.now pass.new.steps.now) }
{
    let alloc = pass.world.alloc();
    let port = WorldPort::new();
    match step(alloc, &port, pass, host, received) {
        Ok(Stepped::Write(bytes)) => Ok(Some(bytes)),
        Ok(Stepped::Silent) => Ok(None),
        Ok(Stepped::Down) => unreachable!(),
        Err(NoMemory) => Err(NoMemory),
    }
}

// A message comes to the host.
fn take<L: Ledger>(
    pass: &mut WorldPass<'_, L>,
    host: HostNo,
    received: (Message, Form),
) -> Result<(), NoMemory>
    requires host { host.0 < HOST_LIMIT }
    requires spelled { IsSpelled received }
    requires ready { IsReady host.0 pass.old.world.now pass.old.printed.now.orders pass.old.short }
    ensures same_world { pass.new.world.ghost_name ≡ pass.old.world.ghost_name }
    ensures same_steps { pass.new.steps.ghost_name ≡ pass.old.steps.ghost_name }
    ensures same_printed { pass.new.printed.ghost_name ≡ pass.old.printed.ghost_name }
    ensures did { Changes (λ e. step (world_port host.0) e received.0 received.1) result pass.old.world.now pass.new.world.now pass.old.printed.now.lines pass.new.printed.now.lines pass.old.steps.now pass.new.steps.now }
    ensures met { OnOk result (Meets Exchanges host.0 (pass_at pass.old.world.now pass.old.steps.now pass.old.short, octets pass.old.printed.now.lines) received
        (pass_at pass.new.world.now pass.new.steps.now pass.new.short, octets pass.new.printed.now.lines)) }
    ensures ready { OnOk result (IsReady host.0 pass.new.world.now pass.new.printed.now.orders pass.new.short) }
{
    let empty = ReportLines::new(pass.world.alloc());
    match answer(pass, host, received) {
        Ok(bytes) => write(bytes, pass.printed, empty),
        Err(NoMemory) => Err(NoMemory),
    }
}

// Serves the session of a link with these bytes, which is read where they lie.
fn session<L: Ledger>(
    pass: &mut WorldPass<'_, L>,
    host: HostNo,
    bytes: Bytes,
) -> Result<StreamEnd, NoMemory>
    requires host { host.0 < HOST_LIMIT }
    requires fresh { pass.old.printed.now.lines ≡ [] }
    requires ready { IsReady host.0 pass.old.world.now pass.old.printed.now.orders pass.old.short }
    ensures same_world { pass.new.world.ghost_name ≡ pass.old.world.ghost_name }
    ensures same_steps { pass.new.steps.ghost_name ≡ pass.old.steps.ghost_name }
    ensures same_printed { pass.new.printed.ghost_name ≡ pass.old.printed.ghost_name }
    ensures served { Served pass.old.world.now host.0 bytes result pass.new.world.now pass.new.printed.now.lines pass.old.steps.now pass.new.steps.now }
    ensures turns { OnOk result (IsServed Exchanges host.0 (session bytes).messages (pass_at pass.old.world.now pass.old.steps.now pass.old.short)
        (pass_at pass.new.world.now pass.new.steps.now pass.new.short) (octets pass.new.printed.now.lines)) }
    ensures whole { OnOk result (pass.new.short ≡ pass.old.short) }
{
    let alloc = pass.world.alloc();
    let bytes = match bytes.into_vec(alloc) {
        Ok(bytes) => bytes,
        Err(NoMemory) => return Err(NoMemory),
    };
    let mut session = Session::over(alloc, bytes);
    'messages: loop {
        match session.next() {
            Ok(SessionStep::Serve(received)) => match take(pass, host, received) {
                Ok(()) => {}
                Err(NoMemory) => return Err(NoMemory),
            },
            Ok(SessionStep::Wait) => return Ok(session.at_end()),
            Ok(SessionStep::End(end)) => return Ok(end),
            Err(NoMemory) => return Err(NoMemory),
        }
    }
}

// Serves a link with these bytes, up to its end and what that is owed.
fn serve<L: Ledger>(pass: &mut WorldPass<'_, L>, host: HostNo, bytes: Bytes) -> Result<(), NoMemory>
    requires host { host.0 < HOST_LIMIT }
    requires fresh { pass.old.printed.now.lines ≡ [] }
    requires ready { IsReady host.0 pass.old.world.now pass.old.printed.now.orders pass.old.short }
    ensures same_world { pass.new.world.ghost_name ≡ pass.old.world.ghost_name }
    ensures same_steps { pass.new.steps.ghost_name ≡ pass.old.steps.ghost_name }
    ensures same_printed { pass.new.printed.ghost_name ≡ pass.old.printed.ghost_name }
    ensures done { OnOk result (HasDone (link_of pass.old.world.now host.0 bytes) pass.new.printed.now.lines pass.new.world.now pass.old.steps.now pass.new.steps.now) }
    ensures short { OnErr result (pass.new.steps.now ≤ pass.old.steps.now + (link_of pass.old.world.now host.0 bytes).calls) }
    ensures served { OnOk result (IsLinkServed host.0 bytes (pass_at pass.old.world.now pass.old.steps.now false) (pass_at pass.new.world.now pass.new.steps.now false) pass.new.printed.now.lines) }
{
    let alloc = pass.world.alloc();
    match session(pass, host, bytes) {
        Ok(end) => close(alloc, end, &mut pass.printed.lines),
        Err(NoMemory) => Err(NoMemory),
    }
}

// The same over a world.
fn serve_over<L: Ledger>(
    world: &mut World,
    host: HostNo,
    bytes: Bytes,
    printed: &mut Printed,
    steps: &mut Steps<L>,
) -> Result<(), NoMemory>
    requires host { host.0 < HOST_LIMIT }
    requires fresh { (printed.old.lines ≡ []) × (printed.old.orders ≡ []) }
    requires up { is_up world.old host.0 ≡ true }
    requires kept { IsKeptWorld world.old }
    ensures done { OnOk result (HasDone (link_of world.old host.0 bytes) printed.new.lines world.new steps.old steps.new) }
    ensures short { OnErr result (steps.new ≤ steps.old + (link_of world.old host.0 bytes).calls) }
    ensures served { OnOk result (IsLinkServed host.0 bytes (pass_at world.old steps.old false) (pass_at world.new steps.new false) printed.new.lines) }
{
    let mut pass = WorldPass::new(world, steps, printed);
    serve(&mut pass, host, bytes)
}

// What comes of a link to a host that is up.
fn link<L: Ledger>(
    world: &mut World,
    host: HostNo,
    bytes: Bytes,
    steps: &mut Steps<L>,
) -> Result<ReportLines, NoMemory>
    requires host { host.0 < HOST_LIMIT }
    requires up { is_up world.old host.0 ≡ true }
    requires kept { IsKeptWorld world.old }
    ensures does { Does (link_of world.old host.0 bytes) result world.new steps.old steps.new }
    ensures served { IfOk result (IsLinkServed host.0 bytes (pass_at world.old steps.old false) (pass_at world.new steps.new false)) }
{
    let alloc = world.alloc();
    let mut printed = Printed {
        lines: ReportLines::new(alloc),
        orders: ReportLines::new(alloc),
    };
    match serve_over(world, host, bytes, &mut printed, steps) {
        Ok(()) => Ok(printed.lines),
        Err(NoMemory) => Err(NoMemory),
    }
}

/// `inject H HEX`
pub(crate) fn inject_line<L: Ledger>(
    world: &mut World,
    number: u64,
    bytes: Bytes,
    steps: &mut Steps<L>,
) -> Result<ReportLines, LineFault>
    requires { IsKeptWorld world.old }
    ensures acts { Acts (inject_line world.old number bytes) result world.old world.new steps.old steps.new }
    ensures served { IfOk result (λ report. is_up world.old number ≡ true → IsLinkServed number bytes (pass_at world.old steps.old false) (pass_at world.new steps.new false) report) }
{
    let host = match world.host(number) {
        Some(host) => host,
        None => return Err(LineFault::Unknown),
    };
    if !world.is_up(host) {
        let report = one_line(world.alloc(), ReportLine::LinkLost)?;
        return Ok(report);
    }
    match link(world, host, bytes, steps) {
        Ok(report) => Ok(report),
        Err(NoMemory) => Err(LineFault::NoMemory),
    }
}
