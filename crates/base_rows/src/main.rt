//! Rows of the log and the crates below it. Each line of standard input is a verb and its words; it is written back,
//! and its answer stands below it, behind four blanks. A line that is empty or begins with `#` has no answer.
#![tactic(auto)]

mod logs;
mod openings;
mod records;
mod requests;
mod tables;
mod values;
mod views;

use anyhow::{Result, bail};
use logs::Logs;
use name_places::NamePlaces;
use octet_words::first_word;
use reply_table::ReplyTable;
use std::alloc::Global;

/// What lines leave for the next ones.
#[derive(Drop)]
struct Desk {
    places: NamePlaces,
    /// How many names there are.
    count: usize,
    table: Option<ReplyTable>,
    record: Vec<u8>,
    logs: Logs,
}

fn empty_desk(alloc: Global) -> Desk {
    Desk {
        places: NamePlaces::new(alloc),
        count: 0,
        table: None,
        record: Vec::new(alloc),
        logs: Logs {
            log: None,
            closed: None,
        },
    }
}

fn answer(rt: &HostRuntime, desk: &mut Desk, line: &str) -> Result<()> {
    let (verb, words) = first_word(line);
    match verb {
        "number" => values::number(rt, words),
        "name" => values::name(rt, words),
        "bytes" => values::bytes(rt, words),
        "request" => values::request(rt, words),
        "value" => values::value(rt, words),
        "user" => values::user(rt, words),
        "view" => values::view(rt, words),
        "place" => tables::place(rt, &mut desk.places, &mut desk.count, words),
        "table" => tables::table(rt, &mut desk.table, words),
        "record" => records::answer(rt, &mut desk.record, words),
        "log" => logs::answer(rt, &mut desk.logs, words),
        _ => bail!("no verb: {verb}"),
    }
}

// Writes a line back, and its answer below it.
fn serve(rt: &HostRuntime, desk: &mut Desk, line: &str) -> Result<()> {
    println!(rt; "{line}")?;
    if line.is_empty() || line.starts_with('#') {
        return Ok(());
    }
    answer(rt, desk, line)
}

fn main(rt: HostRuntime) -> Result<()> {
    let mut desk = empty_desk(rt.alloc());
    for line in rt.lines(rt.alloc()) {
        let line = line?;
        serve(&rt, &mut desk, line.as_str())?;
    }
    Ok(())
}
