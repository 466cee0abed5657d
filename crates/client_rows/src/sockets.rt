//! A client's calls over sockets, to a host in a thread of its own.

use crate::references::reference;
use crate::runs::put_calls;
use anyhow::{Context, Result, bail};
use client_calls::{Told, client_calls};
use client_replies::are_hosts;
use client_retry::End;
use link_words::{Visits, start_host};
use octet_words::{name, no_memory};
use outside_links::{Network, TcpNetwork};
use std::alloc::Global;
use std::net::{Net, TcpListener, TcpStream};
use std::num::nearest_u64_to_f64;
use std::sync::Wait;
use std::thread::Threads;
use std::time::{Clock, Duration, Instant};

// What a client was told, what became of its links at the host, its faults, and how long its calls took.
#[derive(Drop)]
struct CallRun {
    told: Told,
    visits: Visits,
    faults: u64,
    time: Duration,
}

// So many calls of a client to a host that accepts so many links, and answers by these letters.
fn run<
    R: Net<Listener = TcpListener, Stream = TcpStream>
        + Threads
        + Wait
        + Clock
        + Copy
        + Send
        + Drop
        + 'static,
>(rt: &R, alloc: Global, calls: u16, links: u32, letters: &str) -> Result<CallRun> {
    let letters = Vec::from_slice(alloc, letters.as_bytes())?;
    let (running, port) = start_host(rt, alloc, letters, links).context("no host")?;
    let place = format!(in alloc; "localhost:{port}")?;
    let reference = reference(alloc, place.as_str())?;
    if !are_hosts(reference.profiles.as_slice()) {
        bail!("no hosts");
    }
    let client = name(alloc, "ann")?;
    let mut network = TcpNetwork::new(*rt);
    let mut caller = network.caller();
    let start = Instant::now(rt)?;
    let told = client_calls(rt, alloc, &client, reference, calls, &mut caller).map_err(no_memory)?;
    let time = start.elapsed(rt)?;
    let faults = caller.faults();
    network.take_caller(caller);
    Ok(CallRun {
        told,
        visits: running.join(rt),
        faults,
        time,
    })
}

/// `socket COUNT LINKS LETTERS`: what a client is told that makes so many calls to a host that answers by these letters
/// and accepts so many links, one behind the other; and how the host left each.
pub fn socket<
    R: Net<Listener = TcpListener, Stream = TcpStream>
        + Threads
        + Wait
        + Clock
        + Copy
        + Send
        + Drop
        + 'static,
>(rt: &R, alloc: Global, words: &str) -> Result<String> {
    let words: Vec<&str> = words.split_whitespace().collect(alloc)?;
    let [calls, links, letters] = words.as_slice() else {
        bail!("three words are wanted");
    };
    let run = run(
        rt,
        alloc,
        calls.parse::<u16>()?,
        links.parse::<u32>()?,
        *letters,
    )?;
    let mut out = String::new(alloc);
    put_calls(alloc, &run.told, &mut out)?;
    for ended in &run.visits.ends {
        match ended {
            Some(ended) => write!(out, "    link {ended:?}\n")?,
            None => out.push_str("    link not accepted\n")?,
        }
    }
    write!(
        out,
        "    {} asked, {} faults",
        run.visits.turns.asks, run.faults
    )?;
    Ok(out)
}

fn is_value(end: &End) -> bool {
    matches!(end, End::Outcome(_))
}

/// `timed COUNT`: so many calls over one link, and how many ended in an outcome. How many a second it says on standard
/// error.
pub fn timed<
    R: Net<Listener = TcpListener, Stream = TcpStream>
        + Threads
        + Wait
        + Clock
        + Eprint
        + Copy
        + Send
        + Drop
        + 'static,
>(rt: &R, alloc: Global, words: &str) -> Result<String> {
    let count = words.parse::<u16>()?;
    let run = run(rt, alloc, count, 1, "v")?;
    let speed = nearest_u64_to_f64(u64::from(count)) / run.time.as_secs_f64();
    eprintln!(rt; "{speed:.0} calls/s over one link")?;
    let done = run
        .told
        .calls
        .iter()
        .filter(|call| is_value(&call.end))
        .count();
    Ok(format!(in alloc; "    {done} of {count} done")?)
}
