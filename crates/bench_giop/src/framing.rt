ghost use Rattle.std.specs.Prelude.{◌<◌};

use crate::deposits::{REQUEST_LENGTH, write_deposits};
use anyhow::{Result, anyhow};
use giop_stream::{Framer, StreamFault};
use std::alloc::Global;
use std::time::{Duration, Instant};

const MEBIBYTE: usize = 1 << 20;

// How many messages are whole now.
fn drain(framer: &mut Framer) -> Result<u64, StreamFault> {
    let mut count: u64 = 0;
    'messages: loop {
        match framer.next()? {
            Some(_message) => count = count.wrapping_add(1),
            None => return Ok(count),
        }
    }
}

fn feed(framer: &mut Framer, link: &[u8], size: usize) -> Result<u64, StreamFault>
    requires { 0 < size }
{
    let mut count: u64 = 0;
    for piece in link.chunks(size) {
        framer.feed(piece)?;
        count = count.wrapping_add(drain(framer)?);
    }
    Ok(count)
}

// The number of messages of so many times these bytes, fed in pieces of this size.
fn feed_all(alloc: Global, link: &[u8], times: u32, size: usize) -> Result<u64, StreamFault>
    requires { 0 < size }
{
    let mut framer = Framer::new(alloc);
    let mut count: u64 = 0;
    for _ in 0..times {
        count = count.wrapping_add(feed(&mut framer, link, size)?);
    }
    Ok(count)
}

fn megabytes_per_second(mebibytes: u32, time: Duration) -> f64 {
    f64::from(mebibytes) * 1_048_576.0 / time.as_secs_f64() / 1e6
}

fn run_by(rt: &HostRuntime, link: &[u8], mebibytes: u32, size: usize) -> Result<()>
    requires { 0 < size }
{
    let start = Instant::now(rt)?;
    let count = feed_all(rt.alloc(), link, mebibytes, size)?;
    let time = start.elapsed(rt)?;
    eprintln!(rt;
        "framed, fed {size} at a time: {:.1} MB/s",
        megabytes_per_second(mebibytes, time)
    )?;
    println!(rt; "{mebibytes} MiB fed {size} at a time: {count} messages")?;
    Ok(())
}

// A header alone takes no room for what it announces.
fn run_announced(rt: &HostRuntime) -> Result<()> {
    let mut framer = Framer::new(rt.alloc());
    let count = feed(&mut framer, b"GIOP\x01\x02\0\0\0\x0f\xff\xf4", 12)?;
    println!(rt;
        "1 MiB announced: {count} messages, {} bytes wait",
        framer.unfinished()
    )?;
    Ok(())
}

/// Feeds a framer so many MiB of requests in pieces of 1, 64 and 65,536 bytes.
pub fn run(rt: &HostRuntime, mebibytes: u32) -> Result<()> {
    let count = (MEBIBYTE / REQUEST_LENGTH) as u32;
    let link = write_deposits(rt.alloc(), count).map_err(|_| anyhow!("no memory"))?;
    run_announced(rt)?;
    for size in [1, 64, 65_536] {
        run_by(rt, link.as_slice(), mebibytes, size)?;
    }
    Ok(())
}
