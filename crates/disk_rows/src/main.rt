//! Rows of a log on a disk. Each line of standard input is a verb and its words; it is written back, and its answer
//! stands below it, behind four blanks. A line that is empty or begins with `#` has no answer. With words it works on a
//! file: `fill PATH` appends to the log there until it is killed, `speed COUNT PATH` says how fast a log is.
#![tactic(auto)]

mod disks;
mod files;
mod logs;
mod speeds;
mod steps;
mod tables;

use anyhow::{Result, bail};
use disk_log::{DiskLog, MemDisk};
use octet_words::first_word;
use std::env;

/// What lines leave for the next ones.
#[derive(Drop)]
pub struct Desk {
    pub disk: Option<MemDisk>,
    pub log: Option<DiskLog<MemDisk>>,
}

fn answer(rt: &HostRuntime, desk: &mut Desk, line: &str) -> Result<()> {
    let (verb, words) = first_word(line);
    match verb {
        "disk" => disks::new(rt, desk, words),
        "read" => disks::read(rt, desk, words),
        "write" => disks::write(rt, desk, words),
        "sync" => disks::sync(rt, desk),
        "crash" => disks::crash(rt, desk, words),
        "create" => logs::create(rt, desk),
        "open" => logs::open(rt, desk),
        "move" => logs::move_to(rt, desk, words),
        "show" => logs::show(rt, desk),
        "step" => logs::step(rt, desk, words),
        "table" => tables::table(rt, words),
        _ => bail!("no verb: {verb}"),
    }
}

// Writes each line back, and its answer below it.
fn rows(rt: &HostRuntime) -> Result<()> {
    let mut desk = Desk {
        disk: None,
        log: None,
    };
    for line in rt.lines(rt.alloc()) {
        let line = line?;
        println!(rt; "{}", line.as_str())?;
        if !line.is_empty() && !line.starts_with('#') {
            answer(rt, &mut desk, line.as_str())?;
        }
    }
    Ok(())
}

fn main(rt: HostRuntime) -> Result<()> {
    let mut words = Vec::new(rt.alloc());
    for word in env::args(&rt)? {
        words.push(word)?;
    }
    match words.as_slice() {
        [_, verb, path] if verb.as_str() == "fill" => files::fill(&rt, path.as_str()),
        [_, verb, count, path] if verb.as_str() == "speed" => {
            speeds::speed(&rt, count.parse::<u32>()?, path.as_str())
        }
        _ => rows(&rt),
    }
}
