//! A log, kept from line to line, and its records once it is closed.
ghost use Rattle.std.specs.Prelude.{◌≡◌, [], ◌∷◌, Some};

use crate::openings;
use crate::requests::request_of;
use anyhow::{Context, Result, anyhow, bail};
use ft_base::{Admission, HostNo, Members, Outcome, Request, Tick, Version, View};
use ft_outside::{Keeper, MemKeeper};
use message_log::{Admit, Appended, Log, LogFault};
use octet_words::{first_word, no_memory};
use std::alloc::Global;

/// The log that lines speak of, and the records of one that was closed.
#[derive(Drop)]
pub struct Logs {
    pub log: Option<Log<MemKeeper>>,
    pub closed: Option<MemKeeper>,
}

/// `log WHAT ..`
pub fn answer(rt: &HostRuntime, logs: &mut Logs, words: &str) -> Result<()> {
    let (what, words) = first_word(words);
    match what {
        "new" => begin(rt, logs, words),
        "close" => close(rt, logs),
        "open" => openings::open(rt, logs),
        "part" => openings::part(rt, closed(logs)?, words),
        "change" => openings::change(rt, closed(logs)?, words),
        "record" => openings::record(rt, closed(logs)?, words),
        _ => {
            let log = logs.log.as_mut().context("no log")?;
            act(rt, log, what, words)
        }
    }
}

/// The records of the log that was closed.
pub fn closed(logs: &Logs) -> Result<&MemKeeper> {
    logs.closed.as_ref().context("no closed log")
}

fn act(rt: &HostRuntime, log: &mut Log<MemKeeper>, what: &str, words: &str) -> Result<()> {
    match what {
        "put" => put(rt, log, words),
        "reply" => reply(rt, log, words),
        "view" => next_view(rt, log),
        "checkpoint" => checkpoint(rt, log, words),
        "admit" => admit(rt, log, words),
        "show" => openings::show(rt, log),
        _ => bail!("no verb of a log: {what}"),
    }
}

/// The view of a version, of hosts 3 and 5, with 5 as the primary.
fn view(version: u32) -> View
    ensures { result ≡ record { version = record { 0 = version }; members = 3 ∷ 5 ∷ []; primary = Some (record { 0 = 5 }) } }
{
    let mut members = Members::new();
    members.join(HostNo(3));
    members.join(HostNo(5));
    View {
        version: Version(version),
        members,
        primary: Some(HostNo(5)),
    }
}

// `FAILS`: the number of the write that fails, from 1; 0 for none
fn begin(rt: &HostRuntime, logs: &mut Logs, words: &str) -> Result<()> {
    let fails = words.parse::<u64>()?;
    let keeper = MemKeeper::new(rt.alloc(), &[fails]).map_err(no_memory)?;
    match Log::new(rt.alloc(), keeper, view(1)) {
        Ok(log) => {
            logs.log = Some(log);
            println!(rt; "    view 1")?;
        }
        Err((fault, _keeper)) => println!(rt; "    {fault}")?,
    }
    Ok(())
}

fn close(rt: &HostRuntime, logs: &mut Logs) -> Result<()> {
    let log = logs.log.take().context("no log")?;
    let keeper = log.into_keeper();
    println!(rt; "    {} records", keeper.count())?;
    logs.closed = Some(keeper);
    Ok(())
}

// The clock of a request's host, and the request.
fn clocked(alloc: Global, words: &str) -> Result<(Tick, Request)> {
    let (clock, words) = first_word(words);
    let request = request_of(alloc, words)?;
    Ok((Tick(clock.parse::<u64>()?), request))
}

fn appended(
    alloc: Global,
    log: &mut Log<MemKeeper>,
    clock: Tick,
    request: Request,
) -> Result<Option<Appended>> {
    let version = log.newest().version;
    log.reserve(alloc, version, clock, &request)
        .map_err(no_memory)?;
    if log.admit(version, clock, &request) != Admit::Admission(Admission::New) {
        return Ok(None);
    }
    Ok(Some(log.append_reserved(version, clock, request)))
}

// `CLOCK REQUEST`
fn put(rt: &HostRuntime, log: &mut Log<MemKeeper>, words: &str) -> Result<()> {
    let (clock, request) = clocked(rt.alloc(), words)?;
    match appended(rt.alloc(), log, clock, request)? {
        Some(Appended::At(position)) => println!(rt; "    entry {position}")?,
        Some(Appended::Failed) => println!(rt; "    not written")?,
        None => println!(rt; "    not new")?,
    }
    Ok(())
}

// `POSITION NAME`: the exception that the entry's reply has
fn reply(rt: &HostRuntime, log: &mut Log<MemKeeper>, words: &str) -> Result<()> {
    let (position, user) = first_word(words);
    let outcome = Outcome::User(octet_words::name(rt.alloc(), user)?);
    log.set_reply(position.parse::<u32>()?, outcome);
    Ok(())
}

fn print_done(rt: &HostRuntime, done: Result<(), LogFault>, text: &str) -> Result<()> {
    match done {
        Ok(()) => println!(rt; "    {text}")?,
        Err(LogFault::NoMemory) => return Err(anyhow!("no memory")),
        Err(_) => println!(rt; "    not written")?,
    }
    Ok(())
}

fn next_view(rt: &HostRuntime, log: &mut Log<MemKeeper>) -> Result<()> {
    let version = log.newest().version.0 + 1;
    let done = log.new_view(rt.alloc(), view(version));
    print_done(rt, done, "the next view")
}

// `CLOCK STATE`
fn checkpoint(rt: &HostRuntime, log: &mut Log<MemKeeper>, words: &str) -> Result<()> {
    let (clock, state) = first_word(words);
    let clock = Tick(clock.parse::<u64>()?);
    let state = octet_words::bytes(rt.alloc(), state)?;
    let version = log.newest().version;
    let done = log.checkpoint(rt.alloc(), version, clock, &state);
    print_done(rt, done, "a checkpoint")
}

fn print_admission(rt: &HostRuntime, says: Admission) -> Result<()> {
    match says {
        Admission::Expired(expiration) => println!(rt; "    expired at {}", expiration.0)?,
        Admission::Same(position) => println!(rt; "    a repeat of entry {position}")?,
        Admission::Other(position) => println!(rt; "    other than entry {position}")?,
        Admission::Full => println!(rt; "    full")?,
        Admission::New => println!(rt; "    new")?,
    }
    Ok(())
}

// `VERSION CLOCK REQUEST`: what a request is to the log
fn admit(rt: &HostRuntime, log: &Log<MemKeeper>, words: &str) -> Result<()> {
    let (version, words) = first_word(words);
    let (clock, request) = clocked(rt.alloc(), words)?;
    match log.admit(Version(version.parse::<u32>()?), clock, &request) {
        Admit::Deposed(version) => println!(rt; "    deposed by version {}", version.0)?,
        Admit::Admission(says) => print_admission(rt, says)?,
    }
    Ok(())
}
