//! Those who are told of faults.
ghost use Rattle.std.specs.Prelude.{◌≡◌, ℕ, [], ◌∷◌, IfOk};
ghost use Rattle.script_groups.specs.Groups.{group_numbered};
ghost use Rattle.world_monitors.specs.Subscribing.{fault_lines, pull_line, subscribe_line, unsubscribe_line};
ghost use Rattle.world_turns.specs.Answers.{Acts};
ghost use Rattle.world_turns.specs.Turns.{goes, says};

use fault_notifier::FaultEvent;
use fault_script::LineFault;
use ft_base::{Bytes, Name, NoMemory};
use ft_report::{ReportLine, ReportLines, SubscribeFault};
use script_subscribers::{Pulled, Subscribed};
use script_world::World;
use world_turns::one_line;

/// `subscribe S FILTER`
pub fn subscribe_line(
    world: &mut World,
    subscriber: Name,
    filter: &Bytes,
) -> Result<ReportLines, LineFault>
    ensures { (calls : ℕ) → Acts (subscribe_line world.old subscriber filter.now) result world.old world.new calls calls }
{
    if world.is_named(&subscriber) {
        return Err(LineFault::Again);
    }
    let alloc = world.alloc();
    let name = subscriber.copy(alloc)?;
    let line = match world.subscribe(subscriber, filter.bytes())? {
        Subscribed::Done => ReportLine::Subscribed { subscriber: name },
        Subscribed::BadFilter(place) => {
            ReportLine::RefusedSubscriber(SubscribeFault::BadFilter(place))
        }
        Subscribed::Full(count) => ReportLine::RefusedSubscriber(SubscribeFault::Full(count)),
    };
    let report = one_line(alloc, line)?;
    Ok(report)
}

/// `unsubscribe S`
pub fn unsubscribe_line(world: &mut World, subscriber: Name) -> Result<ReportLines, LineFault>
    ensures { (calls : ℕ) → Acts (unsubscribe_line world.old subscriber) result world.old world.new calls calls }
{
    if !world.listens(&subscriber) {
        return Err(LineFault::Unknown);
    }
    let _listened = world.unsubscribe(&subscriber);
    match one_line(world.alloc(), ReportLine::Unsubscribed { subscriber }) {
        Ok(report) => Ok(report),
        Err(NoMemory) => Err(LineFault::NoMemory),
    }
}

// The event as its subscriber is told of it.
fn fault_report(
    world: &World,
    subscriber: Name,
    event: &FaultEvent,
) -> Result<ReportLines, NoMemory>
    ensures { IfOk result (λ report. report ≡ fault_lines subscriber event.now (group_numbered world.now.groups event.now.group.0)) }
{
    let alloc = world.alloc();
    let Some(place) = world.numbered_place(event.group) else {
        return Ok(ReportLines::new(alloc));
    };
    let group = world.group(place).name().copy(alloc)?;
    one_line(
        alloc,
        ReportLine::Fault {
            subscriber,
            host: event.host,
            id: event.group,
            group,
        },
    )
}

// Nothing is left to be told.
fn no_fault(world: &World, subscriber: Name) -> Result<ReportLines, LineFault>
    ensures { (calls : ℕ) → Acts (goes (says world.now (ReportLine.NoFault subscriber ∷ []))) result world.now world.now calls calls }
{
    match one_line(world.alloc(), ReportLine::NoFault { subscriber }) {
        Ok(report) => Ok(report),
        Err(NoMemory) => Err(LineFault::NoMemory),
    }
}

/// `pull S`
pub fn pull_line(world: &mut World, subscriber: Name) -> Result<ReportLines, LineFault>
    ensures { (calls : ℕ) → Acts (pull_line world.old subscriber) result world.old world.new calls calls }
{
    let told = match world.pull(&subscriber) {
        Ok(told) => told,
        Err(NoMemory) => return Err(LineFault::NoMemory),
    };
    let event = match told {
        Pulled::Unknown => return Err(LineFault::Unknown),
        Pulled::Nothing => return no_fault(world, subscriber),
        Pulled::Event(event) => event,
    };
    match fault_report(world, subscriber, &event) {
        Ok(report) => Ok(report),
        Err(NoMemory) => Err(LineFault::NoMemory),
    }
}
