//! The places of names, and a table of two retained requests.
ghost use Rattle.std.specs.Prelude.{◌≡◌, false, IfOk};

use crate::requests::request_of;
use anyhow::{Context, Result, bail};
use ft_base::{NoMemory, Outcome, Request, Tick, Version};
use name_places::NamePlaces;
use octet_words::{first_word, no_memory, outcome_text};
use reply_table::{Found, ReplyTable};
use std::alloc::Global;

/// `place add NAME` behind all others, `place of NAME`
pub fn place(
    rt: &HostRuntime,
    places: &mut NamePlaces,
    count: &mut usize,
    words: &str,
) -> Result<()> {
    let (what, word) = first_word(words);
    let name = octet_words::name(rt.alloc(), word)?;
    match what {
        "add" => {
            places.reserve(rt.alloc(), &name).map_err(no_memory)?;
            places.add_reserved(*count);
            *count = count.wrapping_add(1);
        }
        "of" => match places.place(&name) {
            Some(place) => println!(rt; "    {place}")?,
            None => println!(rt; "    nowhere")?,
        },
        _ => bail!("no verb of a place: {what}"),
    }
    Ok(())
}

/// A table with one request at position 2, and then another at 5.
fn filled(alloc: Global, first: Request, second: Request) -> Result<ReplyTable, NoMemory> {
    let mut table = ReplyTable::new(alloc);
    table.reserve()?;
    table.put_reserved(2, Version(1), Tick(3), first);
    table.reserve()?;
    table.put_reserved(5, Version(1), Tick(12), second);
    Ok(table)
}

/// `table WHAT ..`
pub fn table(rt: &HostRuntime, kept: &mut Option<ReplyTable>, words: &str) -> Result<()> {
    let (what, words) = first_word(words);
    if what == "new" {
        let (first, second) = words.split_once(", ").context("no two requests")?;
        let first = request_of(rt.alloc(), first)?;
        let second = request_of(rt.alloc(), second)?;
        let table = filled(rt.alloc(), first, second).map_err(no_memory)?;
        println!(rt; "    {} retained", table.len())?;
        *kept = Some(table);
        return Ok(());
    }
    let table = kept.as_mut().context("no table")?;
    match what {
        "find" => find(rt, table, words),
        "set" => set(rt, table, words),
        "reply" => reply(rt, table, words),
        "purge" => purge(rt, table, words),
        _ => bail!("no verb of a table: {what}"),
    }
}

// `NOW REQUEST`
fn find(rt: &HostRuntime, table: &ReplyTable, words: &str) -> Result<()> {
    let (now, words) = first_word(words);
    let request = request_of(rt.alloc(), words)?;
    match table.find(&request, Tick(now.parse::<u64>()?)) {
        Found::Same(position) => println!(rt; "    a repeat of entry {position}")?,
        Found::Other(position) => println!(rt; "    other than entry {position}")?,
        Found::Fresh => println!(rt; "    new")?,
    }
    Ok(())
}

// `POSITION OCTETS`: the value that the entry's reply has
fn set(rt: &HostRuntime, table: &mut ReplyTable, words: &str) -> Result<()> {
    let (position, value) = first_word(words);
    let value = octet_words::bytes(rt.alloc(), value)?;
    table.set_reply(position.parse::<u32>()?, Outcome::Value(value));
    Ok(())
}

// `POSITION`
fn reply(rt: &HostRuntime, table: &ReplyTable, words: &str) -> Result<()> {
    match table.reply(words.parse::<u32>()?) {
        Some(outcome) => println!(rt; "    {}", outcome_text(rt.alloc(), outcome)?)?,
        None => println!(rt; "    no reply")?,
    }
    Ok(())
}

// `TICK`: what expires by then goes
fn purge(rt: &HostRuntime, table: &mut ReplyTable, words: &str) -> Result<()> {
    table.purge(Tick(words.parse::<u64>()?));
    println!(rt; "    {} retained", table.len())?;
    Ok(())
}
