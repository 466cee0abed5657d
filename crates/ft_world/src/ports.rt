//! The world as what answers requests on links, whatever the links are.
//!
//! ```
//! let mut pass = WorldPass::new(world, steps, &mut printed);
//! ```
ghost use Rattle.std.specs.Prelude.{◌≡◌, ℕ, ◌<◌, ◌++◌, [], IfOk, OnOk, Some, false, length, slice_get};
ghost use Rattle.ft_base.specs.declared.limits.TheConstants.{HOST_LIMIT};
ghost use Rattle.group_model.specs.Agreeing.{IsShortAsked};
ghost use Rattle.script_groups.specs.Groups.{ScriptGroup as Group, placed};
ghost use Rattle.script_world.specs.Sound.{IsKeptWorld};
ghost use Rattle.script_world.specs.Worlds.{IsPlace};
ghost use Rattle.ft_world.specs.Links.{bytes_lines, group_keyed, is_here, port_turn, replied_turn};
ghost use Rattle.ft_world.specs.Passes.{Counts, HasTurn, IsWritable, is_stopped, lines_at};
ghost use Rattle.ft_world.specs.Requests.{CanBeSent};

use crate::asking::{HostReply, Said, ask, port_answer};
use ft_base::{Bytes, HostNo, NoMemory, Steps, Stop};
use ft_report::{ReportLine, ReportLines};
use group_model::Asked;
use host_server::PortAnswer;
use iogr_reference::group_of_key;
use link_session::GroupPort;
use script_world::World;
use std::marker::PhantomData;
use std::mem;
use std::sync::ledger::Ledger;
use world_turns::{Named, group_with_number, send_all_at};

/// What is printed of requests: before the bytes of the next answer, and behind them.
#[derive(Drop)]
pub struct Printed {
    pub lines: ReportLines,
    /// What went to other members.
    pub orders: ReportLines,
}

/// A link's pass of a world. It has nothing but references to what takes memory, so what becomes of the world is known
/// where the pass ends.
#[derive(Drop)]
pub struct WorldPass<'a, L: Ledger> {
    pub world: &'a mut World,
    pub steps: &'a mut Steps<L>,
    pub printed: &'a mut Printed,
    /// Memory was wanted: the world is spoilt, and nothing more is asked.
    pub short: bool,
}

impl<'a, L: Ledger> WorldPass<'a, L> {
    /// A pass that has asked nothing yet. It counts servant calls in `steps`.
    pub fn new(
        world: &'a mut World,
        steps: &'a mut Steps<L>,
        printed: &'a mut Printed,
    ) -> WorldPass<'a, L>
        ensures same_world { result.world.ghost_name ≡ world.entry.ghost_name }
        ensures same_steps { result.steps.ghost_name ≡ steps.entry.ghost_name }
        ensures same_printed { result.printed.ghost_name ≡ printed.entry.ghost_name }
        ensures world { result.world.now ≡ world.old }
        ensures steps { result.steps.now ≡ steps.old }
        ensures printed { result.printed.now ≡ printed.old }
        ensures whole { result.short ≡ false }
    {
        WorldPass {
            world,
            steps,
            printed,
            short: false,
        }
    }
}

/// The port of a world. All that it answers with is in the pass.
pub struct WorldPort<'a, L: Ledger> {
    of: PhantomData<&'a L>,
}

impl<'a, L: Ledger> WorldPort<'a, L> {
    pub fn new() -> WorldPort<'a, L> {
        WorldPort { of: PhantomData }
    }
}

impl<'a, L: Ledger> Drop for WorldPort<'a, L> {
    fn drop(self) {
        let WorldPort { of: _ } = self;
    }
}

// Whether a host of the script is down.
fn is_stopped(world: &World, host: HostNo) -> bool
    ensures { result ≡ is_stopped world.now host.0 }
{
    match world.host(u64::from(host.0)) {
        None => false,
        Some(host) => !world.is_up(host),
    }
}

// The place of the group that a key names, if it is there.
fn keyed_place(world: &World, key: &Bytes) -> Option<usize>
    ensures { IsPlace (group_keyed world.now key.now) world.now.groups result }
{
    let group = group_of_key(key.bytes())?;
    match group_with_number(world, group) {
        Named::There(place) => Some(place),
        Named::Deleted(_) => None,
        Named::Never => None,
    }
}

// The host replies for the group at this place, and then sends orders to other members.
fn replied(
    world: &mut World,
    place: usize,
    host: HostNo,
    reply: HostReply,
    printed: &mut Printed,
) -> Result<PortAnswer, NoMemory>
    requires within { place < length world.old.groups }
    requires can { (g : Group) → slice_get world.old.groups place ≡ Some g → CanBeSent world.old.groups g.id reply }
    ensures turn { (g : Group) (calls : ℕ) → slice_get world.old.groups place ≡ Some g →
        IfOk result (λ answer. HasTurn (replied_turn world.old g host calls reply) answer world.new (lines_at printed.old.lines printed.old.orders) (lines_at printed.new.lines printed.new.orders)) }
    ensures writable { IfOk result IsWritable }
    ensures groups { OnOk result (world.new.groups ≡ world.old.groups) }
{
    let HostReply {
        decision,
        answer,
        gives,
        redirect,
        out,
    } = reply;
    let answer = port_answer(gives, redirect, answer);
    printed
        .lines
        .push_at(host, world.group(place).name(), decision)?;
    let sent = send_all_at(world, place, host, out)?;
    printed.orders.append(sent)?;
    Ok(answer)
}

// A request comes over a link to the group at this place.
fn ask_at<L: Ledger>(
    world: &mut World,
    place: usize,
    host: HostNo,
    asked: Asked,
    printed: &mut Printed,
    steps: &mut Steps<L>,
) -> Result<PortAnswer, NoMemory>
    requires within { place < length world.old.groups }
    requires host { host.0 < HOST_LIMIT }
    requires short { IsShortAsked asked }
    requires kept { IsKeptWorld world.old }
    ensures turn { (g : Group) → slice_get world.old.groups place ≡ Some g →
        IfOk result (λ answer. HasTurn (port_turn world.old host.0 asked (Some (placed place g))) answer world.new (lines_at printed.old.lines printed.old.orders) (lines_at printed.new.lines printed.new.orders)) }
    ensures counts { (g : Group) → slice_get world.old.groups place ≡ Some g → Counts (port_turn world.old host.0 asked (Some (placed place g))) result steps.old steps.new }
    ensures writable { IfOk result IsWritable }
    ensures kept { OnOk result (IsKeptWorld world.new) }
{
    let said = match ask(world, place, host, asked, Stop::Never, steps) {
        Ok(said) => said,
        Err(NoMemory) => return Err(NoMemory),
    };
    match said {
        Said::Reply(reply) => replied(world, place, host, reply, printed),
        Said::Stopped(_) => Ok(PortAnswer::NoGroup),
        Said::Down => Ok(PortAnswer::NoGroup),
    }
}

// A request for the object of this key comes over a link to the host.
fn ask_keyed<L: Ledger>(
    world: &mut World,
    host: HostNo,
    key: &Bytes,
    asked: Asked,
    printed: &mut Printed,
    steps: &mut Steps<L>,
) -> Result<PortAnswer, NoMemory>
    requires host { host.0 < HOST_LIMIT }
    requires short { IsShortAsked asked }
    requires kept { IsKeptWorld world.old }
    ensures turn { IfOk result (λ answer. HasTurn (port_turn world.old host.0 asked (group_keyed world.old key.now)) answer world.new (lines_at printed.old.lines printed.old.orders) (lines_at printed.new.lines printed.new.orders)) }
    ensures counts { Counts (port_turn world.old host.0 asked (group_keyed world.old key.now)) result steps.old steps.new }
    ensures writable { IfOk result IsWritable }
    ensures kept { OnOk result (IsKeptWorld world.new) }
{
    match keyed_place(world, key) {
        Some(place) => ask_at(world, place, host, asked, printed, steps),
        None => match printed.lines.push(ReportLine::NoGroup { host }) {
            Ok(()) => Ok(PortAnswer::NoGroup),
            Err(NoMemory) => Err(NoMemory),
        },
    }
}

// Whether the host is a member of the group that the key names, in the view that it knows.
fn is_here(world: &World, host: HostNo, key: &Bytes) -> bool
    requires host { host.0 < HOST_LIMIT }
    requires kept { IsKeptWorld world.now }
    ensures { result ≡ is_here host.0 (group_keyed world.now key.now) }
{
    match keyed_place(world, key) {
        Some(place) => world.group(place).knows_as_member(host),
        None => false,
    }
}

impl<'a, L: Ledger> GroupPort for WorldPort<'a, L> {
    ghost use Rattle.std.specs.Prelude.{ℕ};
    ghost use Rattle.ft_world.specs.Passes.{Fits, IsExchanged, lines_at, pass_at};

    type Pass = WorldPass<'a, L>;

    ghost fits = { λ port pass. Fits pass.short pass.world.now };

    ghost exchanges = { λ port. IsExchanged {N = ℕ × ℕ} (λ p. pass_at p.world.now p.steps.now p.short) (λ p. lines_at p.printed.now.lines p.printed.now.orders)
        (λ p. (p.world.ghost_name, p.steps.ghost_name)) (λ p. p.printed.ghost_name) };

    fn ask(
        &self,
        pass: &mut WorldPass<'a, L>,
        host: HostNo,
        key: &Bytes,
        asked: Asked,
    ) -> PortAnswer {
        if pass.short {
            return PortAnswer::NoMemory;
        }
        if is_stopped(pass.world, host) {
            return PortAnswer::Down;
        }
        match ask_keyed(pass.world, host, key, asked, pass.printed, pass.steps) {
            Ok(answer) => answer,
            Err(NoMemory) => {
                pass.short = true;
                PortAnswer::NoMemory
            }
        }
    }

    fn here(&self, pass: &mut WorldPass<'a, L>, host: HostNo, key: &Bytes) -> bool {
        if pass.short || is_stopped(pass.world, host) {
            return false;
        }
        is_here(pass.world, host, key)
    }
}

// The bytes of an answer, and then what is printed behind them.
pub(crate) fn write(
    bytes: Option<Bytes>,
    printed: &mut Printed,
    empty: ReportLines,
) -> Result<(), NoMemory>
    requires { empty ≡ [] }
    ensures lines { OnOk result (printed.new.lines ≡ printed.old.lines ++ (bytes_lines bytes ++ printed.old.orders)) }
    ensures orders { OnOk result (printed.new.orders ≡ []) }
{
    push_bytes(bytes, &mut printed.lines)?;
    let behind = mem::replace(&mut printed.orders, empty);
    printed.lines.append(behind)
}

pub(crate) fn push_bytes(bytes: Option<Bytes>, report: &mut ReportLines) -> Result<(), NoMemory>
    ensures { OnOk result (report.new ≡ report.old ++ bytes_lines bytes) }
{
    match bytes {
        None => Ok(()),
        Some(bytes) => report.push_bytes(&bytes),
    }
}
