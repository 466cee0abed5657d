ghost use Rattle.std.specs.Prelude.{◌≡◌, ℕ, ◌+◌, ◌≤◌, ◌^◌, OnOk};
ghost use Rattle.ft_world.specs.Acts.{act, act_first};
ghost use Rattle.world_turns.specs.Answers.{Acts, Did, IfRefused};
ghost use Rattle.ft_world.specs.Lines.{IsTimely};
ghost use Rattle.world_management.specs.Properties.{set_group_line, set_line};
ghost use Rattle.world_monitors.specs.Subscribing.{subscribe_line};
ghost use Rattle.script_world.specs.Sound.{HasActed, IsKeptWorld};
ghost use Rattle.world_turns.specs.Turns.{first_cause, total_causes, totals_of};

use crate::calls::call_line;
use crate::deliveries::deliver_line;
use crate::links::inject_line;
use crate::retrying::{bind_line, timeout_line};
use fault_notifier::EVENT_LIMIT;
use fault_script::{Level, LimitName, Line, LineFault};
use ft_base::{Bytes, Name, Steps};
use ft_report::ReportLines;
use property_manager::Property;
use script_world::{BYTE_LIMIT, ENTRY_LIMIT, MESSAGE_LIMIT, World};
use std::mem;
use std::sync::ledger::Ledger;
use world_management::{
    change_line, client_line, crash_line, create_line, delete_line, get_group_line, get_line,
    group_line, grow_line, hosts_line, id_line, locations_line, member_line, ref_line,
    restart_line, set_group_line, set_line, show_line, tick_line, unset_line,
};
use world_monitors::{poll_line, pull_line, subscribe_line, sweep_line, unsubscribe_line};
use world_transfers::{checkpoint_line, logfail_line, update_line};

// Time goes on by a number of 32 bits.
fn is_timely(line: &Line)
    ensures { IsTimely line.now }
{
    if let Line::Tick(ticks) = line {
        let _ticks = *ticks;
    }
}

// Subscribes by a name that is copied.
fn subscribe_by(
    world: &mut World,
    subscriber: &Name,
    filter: &Bytes,
) -> Result<ReportLines, LineFault>
    ensures { (calls : ℕ) → Acts (subscribe_line world.old subscriber.now filter.now) result world.old world.new calls calls }
{
    let subscriber = subscriber.copy(world.alloc())?;
    subscribe_line(world, subscriber, filter)
}

// Sets a property that is copied. This and the next are functions by themselves, since the places of all that a function
// copies are cleared when it is entered, and most lines copy nothing.
#[inline(never)]
fn set_by(world: &mut World, level: Level, property: &Property) -> Result<ReportLines, LineFault>
    ensures { (calls : ℕ) → Acts (set_line world.old level property.now) result world.old world.new calls calls }
{
    let property = property.copy(world.alloc())?;
    set_line(world, level, property)
}

#[inline(never)]
fn set_group_by(
    world: &mut World,
    group: &Name,
    property: &Property,
) -> Result<ReportLines, LineFault>
    ensures { (calls : ℕ) → Acts (set_group_line world.old group.now property.now) result world.old world.new calls calls }
{
    let property = property.copy(world.alloc())?;
    set_group_line(world, group, property)
}

// What a line does, before its totals are judged. What is kept of a line is copied from it, but for a link's bytes, which
// are taken: they are left empty.
#[inline(always)]
fn act_first<L: Ledger>(
    world: &mut World,
    line: &mut Line,
    steps: &mut Steps<L>,
) -> Result<ReportLines, LineFault>
    requires kept { IsKeptWorld world.old }
    requires acted { (lines : ℕ) × (lines ≤ 2 ^ 27) × HasActed world.old lines }
    ensures did { Acts (act_first world.old line.old) result world.old world.new steps.old steps.new }
{
    let alloc = world.alloc();
    match line {
        Line::Hosts(count) => hosts_line(world, *count),
        Line::Group {
            name,
            kind,
            style,
            members,
        } => group_line(world, name.copy(alloc)?, *kind, *style, members, steps),
        Line::Create {
            name,
            kind,
            criteria,
        } => create_line(world, name.copy(alloc)?, *kind, criteria, steps),
        Line::Delete(name) => delete_line(world, name),
        Line::Set { level, property } => set_by(world, *level, property),
        Line::SetGroup { group, property } => set_group_by(world, group, property),
        Line::Unset { level, name } => unset_line(world, *level, name.copy(alloc)?),
        Line::Get { level, name } => get_line(world, *level, name),
        Line::GetGroup { group, name } => get_group_line(world, group, name),
        Line::Client(name) => client_line(world, name.copy(alloc)?),
        Line::Call {
            client,
            group,
            op,
            words,
        } => call_line(world, client, group, op.copy(alloc)?, words),
        Line::Bind { client, group } => bind_line(world, client, group),
        Line::Timeout(client) => timeout_line(world, client),
        Line::Deliver { number, stop } => deliver_line(world, *number, *stop, steps),
        Line::Tick(ticks) => tick_line(world, *ticks),
        Line::Show(name) => show_line(world, name),
        Line::Locations(name) => locations_line(world, name),
        Line::Id(name) => id_line(world, name),
        Line::Ref(name) => ref_line(world, name),
        Line::MemberRef { group, host } => member_line(world, group, *host),
        Line::Inject { host, bytes } => {
            let bytes = mem::replace(bytes, Bytes::from_vec(Vec::new(alloc)));
            inject_line(world, *host, bytes, steps)
        }
        Line::Change {
            change,
            group,
            host,
        } => change_line(world, *change, group, *host, steps),
        Line::Grow { group, host } => grow_line(world, group, *host, steps),
        Line::Crash(host) => crash_line(world, *host, steps),
        Line::Restart(host) => restart_line(world, *host, steps),
        Line::Poll(name) => poll_line(world, name),
        Line::Sweep(name) => sweep_line(world, name, steps),
        Line::Subscribe { subscriber, filter } => subscribe_by(world, subscriber, filter),
        Line::Unsubscribe(subscriber) => unsubscribe_line(world, subscriber.copy(alloc)?),
        Line::Pull(subscriber) => pull_line(world, subscriber.copy(alloc)?),
        Line::Checkpoint(name) => checkpoint_line(world, name, steps),
        Line::Update(name) => update_line(world, name, steps),
        Line::LogFail(name) => logfail_line(world, name),
    }
}

// The first total that is too great.
fn refuses(world: &World) -> Option<LineFault>
    requires { IsKeptWorld world.now }
    ensures { result ≡ first_cause (total_causes (totals_of world.now)) }
{
    if world.entries() > ENTRY_LIMIT {
        return Some(LineFault::Limit(LimitName::Entries));
    }
    if world.message_count() > MESSAGE_LIMIT {
        return Some(LineFault::Limit(LimitName::Messages));
    }
    if world.bytes() > BYTE_LIMIT {
        return Some(LineFault::Limit(LimitName::Bytes));
    }
    if world.faults() as usize > EVENT_LIMIT {
        return Some(LineFault::Limit(LimitName::Faults));
    }
    None
}

/// What a line of a script does. A refused line changes nothing; but after a total that is too great, and
/// after want of memory, nothing is said of what the world holds. The line has no more use then: what it has
/// memory for may be taken from it, so that no line is moved or copied.
pub fn act<L: Ledger>(
    world: &mut World,
    line: &mut Line,
    steps: &mut Steps<L>,
) -> Result<ReportLines, LineFault>
    requires kept { IsKeptWorld world.old }
    requires acted { (lines : ℕ) × (lines ≤ 2 ^ 27) × HasActed world.old lines }
    ensures did { Did (act world.old line.old) result world.new steps.old steps.new }
    ensures unchanged { IfRefused result (world.new ≡ world.old) }
    ensures kept { OnOk result (IsKeptWorld world.new) }
    ensures acted { OnOk result ((lines : ℕ) → HasActed world.old lines → HasActed world.new (lines + 1)) }
{
    is_timely(line);
    match act_first(world, line, steps) {
        Ok(report) => match refuses(world) {
            Some(why) => Err(why),
            None => Ok(report),
        },
        Err(why) => Err(why),
    }
}
