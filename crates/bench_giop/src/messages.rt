ghost use Rattle.std.specs.Prelude.{◌<◌, length};

use crate::deposits::{REQUEST_LENGTH, write_deposits};
use anyhow::{Result, anyhow};
use giop_messages::{Message, ReadFault, read_message};
use std::alloc::Global;
use std::time::{Duration, Instant};

fn id_of(message: &Message) -> u32 {
    match message {
        Message::Request(request) => request.id,
        _ => 0,
    }
}

fn read_id(alloc: Global, text: &[u8]) -> Result<u32, ReadFault>
    requires { length text.now < 1000 }
{
    let (message, _form) = read_message(alloc, text)?;
    Ok(id_of(&message))
}

// The sum of the ids.
fn read_all(alloc: Global, link: &[u8]) -> Result<u64, ReadFault> {
    let mut sum: u64 = 0;
    for text in link.chunks_exact(REQUEST_LENGTH) {
        sum = sum.wrapping_add(u64::from(read_id(alloc, text)?));
    }
    Ok(sum)
}

fn messages_per_second(count: u32, time: Duration) -> f64 {
    f64::from(count) / time.as_secs_f64()
}

/// Writes and reads so many requests.
pub fn run(rt: &HostRuntime, count: u32) -> Result<()> {
    let start = Instant::now(rt)?;
    let link = write_deposits(rt.alloc(), count).map_err(|_| anyhow!("no memory"))?;
    let writing = start.elapsed(rt)?;

    let start = Instant::now(rt)?;
    let sum = read_all(rt.alloc(), link.as_slice())?;
    let reading = start.elapsed(rt)?;

    eprintln!(rt;
        "written: {:.0} messages/s",
        messages_per_second(count, writing)
    )?;
    eprintln!(rt;
        "read: {:.0} messages/s",
        messages_per_second(count, reading)
    )?;
    println!(rt;
        "{count} requests, {} bytes, sum of the ids {sum}",
        link.len()
    )?;
    Ok(())
}
