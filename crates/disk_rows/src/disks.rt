//! A disk in memory, call by call.

use crate::Desk;
use anyhow::{Context, Result};
use disk_log::{Disk, MemDisk};
use ft_outside::Kept;
use octet_words::{first_word, no_memory, octets, octets_text};
use std::alloc::Global;

// The numbers of a word, as `1,3`; `-` for none.
fn numbers(alloc: Global, word: &str) -> Result<Vec<u64>> {
    let mut numbers = Vec::new(alloc);
    if word == "-" {
        return Ok(numbers);
    }
    for number in word.split(',') {
        numbers.push(number.parse::<u64>()?)?;
    }
    Ok(numbers)
}

/// `OCTETS ROOM FAILS`: a disk's bytes, how many calls and bytes it keeps, and which calls fail.
pub fn disk_of(alloc: Global, words: &str) -> Result<MemDisk> {
    let (bytes, words) = first_word(words);
    let (room, fails) = first_word(words);
    let bytes = octets(alloc, bytes)?;
    let fails = numbers(alloc, fails)?;
    let room = room.parse::<usize>()?;
    MemDisk::new(alloc, bytes.as_slice(), room, fails.as_slice()).map_err(no_memory)
}

pub fn new(rt: &HostRuntime, desk: &mut Desk, words: &str) -> Result<()> {
    let disk = disk_of(rt.alloc(), words)?;
    println!(rt; "    {} bytes", disk.length())?;
    desk.disk = Some(disk);
    Ok(())
}

fn disk_in(desk: &mut Desk) -> Result<&mut MemDisk> {
    desk.disk.as_mut().context("no disk")
}

/// `AT COUNT`
pub fn read(rt: &HostRuntime, desk: &mut Desk, words: &str) -> Result<()> {
    let (at, count) = first_word(words);
    let (at, count) = (at.parse::<u64>()?, count.parse::<u32>()?);
    let disk = disk_in(desk)?;
    let mut into = vec![in rt.alloc(); 0; count as usize]?;
    if at > disk.length() || u64::from(count) > disk.length() - at {
        println!(rt; "    past the end")?;
        return Ok(());
    }
    match disk.read_at(at, into.as_mut_slice()) {
        Kept::Done => println!(rt; "    {}", octets_text(rt.alloc(), into.as_slice())?)?,
        Kept::Failed => println!(rt; "    failed")?,
    }
    Ok(())
}

/// How a call ended.
pub fn kept_text(kept: Kept) -> &'static str {
    match kept {
        Kept::Done => "done",
        Kept::Failed => "failed",
    }
}

/// `AT OCTETS`
pub fn write(rt: &HostRuntime, desk: &mut Desk, words: &str) -> Result<()> {
    let (at, piece) = first_word(words);
    let at = at.parse::<u64>()?;
    let piece = octets(rt.alloc(), piece)?;
    let disk = disk_in(desk)?;
    if at > disk.length() {
        println!(rt; "    past the end")?;
        return Ok(());
    }
    let kept = disk.write_at(at, piece.as_slice());
    println!(rt; "    {}, {} bytes", kept_text(kept), disk.length())?;
    Ok(())
}

pub fn sync(rt: &HostRuntime, desk: &mut Desk) -> Result<()> {
    let disk = disk_in(desk)?;
    println!(rt; "    {}", kept_text(disk.sync()))?;
    Ok(())
}

// What a crash leaves of a disk.
fn left_of(rt: &HostRuntime, disk: &MemDisk, words: &str) -> Result<MemDisk> {
    let (moment, pattern) = first_word(words);
    let (moment, pattern) = (moment.parse::<usize>()?, pattern.parse::<u32>()?);
    let image = disk
        .image_at(rt.alloc(), moment, pattern)
        .map_err(no_memory)?;
    let text = octets_text(rt.alloc(), image.as_slice())?;
    println!(rt; "    {moment} of {} moments: {text}", disk.moment())?;
    MemDisk::new(rt.alloc(), image.as_slice(), 1000, &[]).map_err(no_memory)
}

/// `MOMENT PATTERN`: what a crash leaves of the log's disk, or of the disk where there is no log. It is the next disk.
pub fn crash(rt: &HostRuntime, desk: &mut Desk, words: &str) -> Result<()> {
    let left = match desk.log.take() {
        Some(log) => left_of(rt, log.disk(), words)?,
        None => left_of(rt, disk_in(desk)?, words)?,
    };
    desk.disk = Some(left);
    Ok(())
}
