//! A log on a disk in memory.

use crate::Desk;
use crate::disks::{disk_of, kept_text};
use crate::steps::{make, step_of, text_from};
use anyhow::{Context, Result};
use disk_log::{DiskLog, MemDisk, OpenFault};
use ft_outside::Keeper;

type Made = Result<DiskLog<MemDisk>, (OpenFault, MemDisk)>;

// Says what came of a call, and keeps the log, or the disk that came back.
fn keep(rt: &HostRuntime, desk: &mut Desk, made: Made) -> Result<()> {
    match made {
        Ok(log) => {
            println!(rt; "    a log of {} records", log.count())?;
            desk.log = Some(log);
        }
        Err((fault, disk)) => {
            println!(rt; "    {fault}")?;
            desk.disk = Some(disk);
        }
    }
    Ok(())
}

pub fn create(rt: &HostRuntime, desk: &mut Desk) -> Result<()> {
    let disk = desk.disk.take().context("no disk")?;
    keep(rt, desk, DiskLog::create(rt.alloc(), disk))
}

pub fn open(rt: &HostRuntime, desk: &mut Desk) -> Result<()> {
    let disk = desk.disk.take().context("no disk")?;
    keep(rt, desk, DiskLog::open(rt.alloc(), disk))
}

fn log_in(desk: &mut Desk) -> Result<&mut DiskLog<MemDisk>> {
    desk.log.as_mut().context("no log")
}

/// `OCTETS ROOM FAILS`: a disk to which the log moves
pub fn move_to(rt: &HostRuntime, desk: &mut Desk, words: &str) -> Result<()> {
    let fresh = disk_of(rt.alloc(), words)?;
    let made = log_in(desk)?.move_to(rt.alloc(), fresh);
    keep(rt, desk, made)
}

pub fn show(rt: &HostRuntime, desk: &mut Desk) -> Result<()> {
    let log = log_in(desk)?;
    println!(rt;
        "    {} records:{}",
        log.count(),
        text_from(rt.alloc(), log, 0)?
    )?;
    Ok(())
}

/// `append OCTETS` or `cut NUMBER`
pub fn step(rt: &HostRuntime, desk: &mut Desk, words: &str) -> Result<()> {
    let step = step_of(rt.alloc(), words)?;
    let log = log_in(desk)?;
    let kept = make(rt.alloc(), log, &step)?;
    println!(rt; "    {}, moment {}", kept_text(kept), log.disk().moment())?;
    Ok(())
}
