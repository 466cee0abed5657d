//! A log in a file, whose process may be killed.

use anyhow::{Result, bail};
use disk_log::{DiskLog, FileDisk};
use ft_base::Bytes;
use ft_outside::{Keeper, Kept};
use octet_words::no_memory;
use std::alloc::Global;
use std::io;

/// A log of a file that is there, or of a new one.
pub fn log_at(rt: &HostRuntime, path: &str) -> Result<DiskLog<FileDisk>> {
    let made = match FileDisk::open(rt, path) {
        Ok(disk) => DiskLog::open(rt.alloc(), disk),
        Err(error) if error.kind() == io::ErrorKind::NotFound => {
            DiskLog::create(rt.alloc(), FileDisk::create(rt, path)?)
        }
        Err(error) => return Err(error.into()),
    };
    match made {
        Ok(log) => Ok(log),
        Err((fault, _disk)) => bail!("{fault}"),
    }
}

// The record with this number: the number, and some bytes more, so that records differ in size.
fn numbered(alloc: Global, number: u64) -> Result<Bytes> {
    let mut bytes = number.to_be_bytes().to_vec(alloc)?;
    for _ in 0..number % 200 {
        bytes.push(7)?;
    }
    Ok(Bytes::from_vec(bytes))
}

// Whether each record is that of its number.
fn are_numbered(alloc: Global, log: &DiskLog<FileDisk>) -> Result<bool> {
    for number in 0..log.count() {
        let wanted = numbered(alloc, number)?;
        match log.read(number) {
            Some(record) if record.is(&wanted) => {}
            _ => return Ok(false),
        }
    }
    Ok(true)
}

/// `fill PATH`: says how many records the log has, and appends more, whose numbers it prints once they are kept.
pub fn fill(rt: &HostRuntime, path: &str) -> Result<()> {
    let mut log = log_at(rt, path)?;
    if !are_numbered(rt.alloc(), &log)? {
        bail!("a record isn't that of its number");
    }
    println!(rt; "opened {}", log.count())?;
    for _ in 0..u64::MAX {
        let number = log.count();
        let record = numbered(rt.alloc(), number)?;
        log.reserve(rt.alloc(), 1).map_err(no_memory)?;
        if log.append(record) == Kept::Failed {
            bail!("record {number} isn't kept");
        }
        println!(rt; "{number}")?;
    }
    Ok(())
}
