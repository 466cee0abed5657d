//! How fast a log is, in memory and in a file.

use crate::steps::{Step, make};
use anyhow::{Context, Result, bail};
use disk_log::{Disk, DiskLog, FileDisk, MemDisk};
use ft_outside::{Keeper, Kept};
use octet_words::no_memory;
use std::fs;
use std::time::Instant;

/// So many bytes has a record.
const CONTENT: usize = 120;

/// As many entries as a journal can have.
const ENTRIES: u32 = 262_144;

fn per_second(count: f64, seconds: f64) -> f64 {
    count / seconds
}

// Makes a step so often, and answers how many seconds that took.
fn repeat<D: Disk + Drop>(
    rt: &HostRuntime,
    log: &mut DiskLog<D>,
    step: &Step,
    count: u32,
) -> Result<f64> {
    let start = Instant::now(rt)?;
    for _ in 0..count {
        if make(rt.alloc(), log, step)? == Kept::Failed {
            bail!("a step failed");
        }
    }
    Ok(start.elapsed(rt)?.as_secs_f64())
}

// Appends and cuts a second.
fn try_log<D: Disk + Drop>(
    rt: &HostRuntime,
    name: &str,
    log: &mut DiskLog<D>,
    count: u32,
) -> Result<f64> {
    let record = vec![in rt.alloc(); 7; CONTENT]?;
    let appending = repeat(rt, log, &Step::Append(record), count)?;
    let cutting = repeat(rt, log, &Step::Cut(1), count)?;
    let (appends, cuts) = (
        per_second(f64::from(count), appending),
        per_second(f64::from(count), cutting),
    );
    println!(rt; "{name}: {appends:.0} appends and {cuts:.0} cuts a second")?;
    Ok(appending)
}

// The writes of so many appends, without their syncs: how many seconds they take.
fn write_only(rt: &HostRuntime, disk: &mut FileDisk, count: u32) -> Result<f64> {
    let start = Instant::now(rt)?;
    for _ in 0..count {
        let end = disk.length();
        for piece in [&[0; 5], [7; CONTENT].as_slice(), &[0], &[1]] {
            let at = end.min(disk.length());
            if disk.write_at(at, piece) == Kept::Failed {
                bail!("a write failed");
            }
        }
    }
    Ok(start.elapsed(rt)?.as_secs_f64())
}

// The image of a log of as many entries as a journal can have.
fn long_image(rt: &HostRuntime) -> Result<Vec<u8>> {
    let mut image = b"FTLOG01\0".to_vec(rt.alloc())?;
    for _ in 0..ENTRIES {
        image.extend_from_slice(&[1, 0, 0, 0, 0, CONTENT as u8])?;
        image.extend_from_slice(&[7; CONTENT])?;
    }
    image.push(0)?;
    Ok(image)
}

fn try_opening(rt: &HostRuntime, path: &str) -> Result<()> {
    let image = long_image(rt)?;
    fs::write(rt, path, image.as_slice())?;
    let start = Instant::now(rt)?;
    let Ok(log) = DiskLog::open(rt.alloc(), FileDisk::open(rt, path)?) else {
        bail!("no log");
    };
    let seconds = start.elapsed(rt)?.as_secs_f64();
    let size = u32::try_from(image.len())?;
    let speed = per_second(f64::from(size) / 1e6, seconds);
    println!(rt;
        "a log of {} entries in {} bytes is opened at {speed:.0} MB/s",
        log.count(),
        image.len()
    )?;
    Ok(())
}

/// `speed COUNT PATH`: of a disk in memory and one in a new file, with so many appends and cuts.
pub fn speed(rt: &HostRuntime, count: u32, path: &str) -> Result<()> {
    let room = (count as usize).saturating_mul(400).saturating_add(100);
    let disk = MemDisk::new(rt.alloc(), &[], room, &[]).map_err(no_memory)?;
    let mut log = DiskLog::create(rt.alloc(), disk).ok().context("no log")?;
    try_log(rt, "in memory", &mut log, count)?;
    let disk = FileDisk::create(rt, path)?;
    let mut log = DiskLog::create(rt.alloc(), disk).ok().context("no log")?;
    let all = try_log(rt, "in a file", &mut log, count)?;
    drop(log);
    let mut disk = FileDisk::open(rt, path)?;
    let writes = write_only(rt, &mut disk, count)?;
    drop(disk);
    println!(rt;
        "the two syncs take {:.1} percent of an append in a file",
        (all - writes) / all * 100.0
    )?;
    try_opening(rt, path)
}
