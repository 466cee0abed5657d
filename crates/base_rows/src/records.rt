//! Records of a log as bytes: written, read, and changed.

use crate::requests::request_of;
use crate::views;
use anyhow::{Result, bail};
use ft_base::{Tick, Version};
use log_records::{Record, entry_record, record_in, view_record};
use octet_words::{first_word, no_memory, octets, octets_text};

/// `record WHAT ..`, over the record that was read last.
pub fn answer(rt: &HostRuntime, last: &mut Vec<u8>, words: &str) -> Result<()> {
    let (what, words) = first_word(words);
    match what {
        "entry" => entry(rt, words),
        "view" => view(rt, words),
        "read" => {
            *last = octets(rt.alloc(), words)?;
            read(rt, last.as_slice())
        }
        "with" => changed(rt, last.as_slice(), words),
        _ => bail!("no record {what}"),
    }
}

// `POSITION VERSION TICK REQUEST`
fn entry(rt: &HostRuntime, words: &str) -> Result<()> {
    let (position, words) = first_word(words);
    let (version, words) = first_word(words);
    let (tick, words) = first_word(words);
    let request = request_of(rt.alloc(), words)?;
    let position = position.parse::<u32>()?;
    let version = Version(version.parse::<u32>()?);
    let tick = Tick(tick.parse::<u64>()?);
    let record = entry_record(rt.alloc(), position, version, tick, &request).map_err(no_memory)?;
    println!(rt; "    {}", hex::encode(rt.alloc(), record.bytes())?)?;
    Ok(())
}

// `VERSION HOSTS PRIMARY`
fn view(rt: &HostRuntime, words: &str) -> Result<()> {
    let view = views::view(words)?;
    let record = view_record(rt.alloc(), &view).map_err(no_memory)?;
    println!(rt; "    {}", octets_text(rt.alloc(), record.bytes())?)?;
    Ok(())
}

fn read(rt: &HostRuntime, piece: &[u8]) -> Result<()> {
    let kind = match record_in(rt.alloc(), piece).map_err(no_memory)? {
        Some(Record::Entry(_)) => "an entry",
        Some(Record::View(_)) => "a view",
        Some(Record::Checkpoint(_)) => "a checkpoint",
        None => "no record",
    };
    println!(rt; "    {kind}")?;
    Ok(())
}

// `PLACE OCTETS`: these octets in place of those that stand there.
fn changed(rt: &HostRuntime, piece: &[u8], words: &str) -> Result<()> {
    let (place, words) = first_word(words);
    let octets = octets(rt.alloc(), words)?;
    let mut bytes = Vec::from_slice(rt.alloc(), piece)?;
    put_at(
        bytes.as_mut_slice(),
        place.parse::<usize>()?,
        octets.as_slice(),
    );
    read(rt, bytes.as_slice())
}

/// Puts octets at a place.
pub fn put_at(bytes: &mut [u8], place: usize, octets: &[u8]) {
    for (at, octet) in bytes.iter_mut().skip(place).zip(octets) {
        *at = *octet;
    }
}
