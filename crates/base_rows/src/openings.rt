//! A log as it is shown, and logs that are opened again: from all records, from some, and with one of them changed.

use crate::logs::{Logs, closed};
use crate::records::put_at;
use anyhow::{Result, anyhow};
use ft_base::{Bytes, NoMemory, Outcome, Request};
use ft_outside::{Keeper, MemKeeper};
use message_log::{Log, ReopenFault};
use octet_words::{first_word, name_text, no_memory, octets, octets_text};
use reply_table::Retained;
use std::alloc::Global;

// Octets that stand in place of others, at a place of a record.
#[derive(Drop)]
struct Patch {
    record: u64,
    place: usize,
    octets: Vec<u8>,
}

fn patched(alloc: Global, record: &Bytes, patch: &Patch) -> Result<Bytes, NoMemory> {
    let mut bytes = Vec::from_slice(alloc, record.bytes())?;
    put_at(bytes.as_mut_slice(), patch.place, patch.octets.as_slice());
    Ok(Bytes::from_vec(bytes))
}

// A keeper with the records of another, from one number to another.
fn copied(
    alloc: Global,
    keeper: &MemKeeper,
    part: (u64, u64),
    patch: Option<&Patch>,
) -> Result<MemKeeper, NoMemory> {
    let mut copy = MemKeeper::new(alloc, &[])?;
    for number in part.0..part.1 {
        if let Some(record) = keeper.read(number) {
            let record = match patch {
                Some(patch) if patch.record == number => patched(alloc, record, patch)?,
                _ => record.copy(alloc)?,
            };
            copy.reserve(alloc, 1)?;
            copy.append(record);
        }
    }
    Ok(copy)
}

// The log of these records, if they make one; and it is told whether they do.
fn opened(rt: &HostRuntime, keeper: MemKeeper) -> Result<Option<Log<MemKeeper>>> {
    match Log::reopen(rt.alloc(), keeper) {
        Ok(log) => {
            println!(rt; "    a log")?;
            Ok(Some(log))
        }
        Err((ReopenFault::NoMemory, _keeper)) => Err(anyhow!("no memory")),
        Err((ReopenFault::Bad(number), _keeper)) => {
            println!(rt; "    record {number} is bad")?;
            Ok(None)
        }
    }
}

/// `log open`: the closed log
pub fn open(rt: &HostRuntime, logs: &mut Logs) -> Result<()> {
    let keeper = closed(logs)?;
    let copy = copied(rt.alloc(), keeper, (0, keeper.count()), None).map_err(no_memory)?;
    logs.log = opened(rt, copy)?;
    Ok(())
}

/// `log part FROM TO`: some records of the closed log
pub fn part(rt: &HostRuntime, keeper: &MemKeeper, words: &str) -> Result<()> {
    let (from, to) = first_word(words);
    let part = (from.parse::<u64>()?, to.parse::<u64>()?);
    let copy = copied(rt.alloc(), keeper, part, None).map_err(no_memory)?;
    opened(rt, copy)?;
    Ok(())
}

/// `log change RECORD PLACE OCTETS`: the closed log with these octets in place of those at a place of a record
pub fn change(rt: &HostRuntime, keeper: &MemKeeper, words: &str) -> Result<()> {
    let (record, words) = first_word(words);
    let (place, words) = first_word(words);
    let patch = Patch {
        record: record.parse::<u64>()?,
        place: place.parse::<usize>()?,
        octets: octets(rt.alloc(), words)?,
    };
    let copy = copied(rt.alloc(), keeper, (0, keeper.count()), Some(&patch)).map_err(no_memory)?;
    opened(rt, copy)?;
    Ok(())
}

/// `log record NUMBER`: the bytes of a record of the closed log
pub fn record(rt: &HostRuntime, keeper: &MemKeeper, words: &str) -> Result<()> {
    match keeper.read(words.parse::<u64>()?) {
        Some(record) => println!(rt; "    {}", hex::encode(rt.alloc(), record.bytes())?)?,
        None => println!(rt; "    no such record")?,
    }
    Ok(())
}

/// `log show`
pub fn show(rt: &HostRuntime, log: &Log<MemKeeper>) -> Result<()> {
    println!(rt;
        "    length {} mark {} time {} retained {} version {}",
        log.length(),
        log.mark(),
        log.time().0,
        log.table().len(),
        log.newest().version.0
    )?;
    if let Some(state) = log.state() {
        println!(rt; "    state {}", octets_text(rt.alloc(), state.bytes())?)?;
    }
    for position in log.mark()..log.length() {
        if let Some(request) = log.entry(position) {
            show_entry(rt, position, request)?;
        }
    }
    for number in 0..8 {
        if let Some(retained) = log.table().retained(number) {
            show_retained(rt, retained)?;
        }
    }
    Ok(())
}

fn show_entry(rt: &HostRuntime, position: u32, request: &Request) -> Result<()> {
    let op = name_text(request.op.bytes())?;
    let args = octets_text(rt.alloc(), request.args.bytes())?;
    println!(rt; "    entry {position} {op} {args}")?;
    Ok(())
}

fn show_retained(rt: &HostRuntime, retained: &Retained) -> Result<()> {
    let position = retained.position;
    let at = retained.at.0;
    match &retained.reply {
        Some(Outcome::Value(_)) => println!(rt; "    retained {position} at {at} value")?,
        Some(Outcome::User(_)) => println!(rt; "    retained {position} at {at} user")?,
        None => println!(rt; "    retained {position} at {at}")?,
    }
    Ok(())
}
