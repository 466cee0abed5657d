//! Runs over sockets, at the system's clock.

use crate::memories::{Ended, sink, words_of};
use crate::shown::Shown;
use anyhow::{Result, bail};
use live_top::ftc_live;
use outside_crews::{Crew, StdClock};
use outside_links::TcpNetwork;
use std::alloc::Global;
use std::net::{Net, TcpListener, TcpStream};
use std::sync::Wait;
use std::thread::Threads;
use std::time::Clock;

/// How often a run is tried until its killed host is replaced before the last call.
const TRIES: u32 = 20;

fn run<
    R: Net<Listener = TcpListener, Stream = TcpStream>
        + Threads
        + Wait
        + Clock
        + Clone
        + Copy
        + Send
        + Drop
        + 'static,
>(rt: &R, alloc: Global, words: &[String]) -> Result<Ended> {
    let mut network = TcpNetwork::new(*rt);
    let mut crew = Crew::new(*rt, alloc);
    let mut out = sink(alloc, 0)?;
    let mut err = sink(alloc, 0)?;
    let clock = StdClock::new(*rt);
    let status = ftc_live(
        rt,
        alloc,
        words,
        &mut out,
        &mut err,
        &mut network,
        &clock,
        &mut crew,
    );
    Ok(Ended { status, out, err })
}

// The words of a run with so many hosts, clients and calls of each.
fn command(
    alloc: Global,
    style: &str,
    hosts: &str,
    clients: u64,
    calls: u64,
    more: &str,
) -> Result<Vec<String>> {
    let line = format!(in alloc;
        "live --hosts {hosts} --clients {clients} --calls {calls} --style {style} {more}"
    )?;
    words_of(alloc, line.as_str())
}

/// `sockets STYLE HOSTS CLIENTS CALLS`: how such a run ends, and whether the values are 1 and the numbers behind it.
pub fn sockets<
    R: Net<Listener = TcpListener, Stream = TcpStream>
        + Threads
        + Wait
        + Clock
        + Clone
        + Copy
        + Send
        + Drop
        + 'static,
>(rt: &R, alloc: Global, words: &str) -> Result<String> {
    let words: Vec<&str> = words.split_whitespace().collect(alloc)?;
    let [style, hosts, clients, calls] = words.as_slice() else {
        bail!("four words are wanted");
    };
    let clients = clients.parse::<u64>()?;
    let calls = calls.parse::<u64>()?;
    let all = clients.saturating_mul(calls);
    let words = command(alloc, *style, *hosts, clients, calls, "")?;
    let ended = run(rt, alloc, words.as_slice())?;
    let shown = Shown::read(alloc, ended.out.bytes())?;
    Ok(format!(in alloc;
        "    status {}: {} values, 1 to {all} each once: {}; {} differ; view {}, {} entries\n",
        ended.status,
        shown.values.len(),
        shown.is_each_once(all),
        shown.differing,
        shown.version,
        shown.entries
    )?)
}

// What holds of a run whose host 0 was killed, whenever that was.
fn is_as_killed(ended: &Ended, shown: &Shown, all: u64) -> bool {
    let ends = shown.values.len() as u64 + u64::from(shown.transient);
    ended.status == 0
        && ends == all
        && shown.others == 0
        && shown.differing == 0
        && shown.has_values_within(all)
        && shown.has_no_value_twice()
        && shown.entries <= all
        && !shown.loaded.contains(&0)
}

// Runs such a run in which host 0 is killed, and reads what it says. How many calls ended in TRANSIENT it says on standard
// error.
fn run_killed<
    R: Net<Listener = TcpListener, Stream = TcpStream>
        + Threads
        + Wait
        + Clock
        + Eprint
        + Clone
        + Copy
        + Send
        + Drop
        + 'static,
>(rt: &R, alloc: Global, words: &str) -> Result<Shown> {
    let words: Vec<&str> = words.split_whitespace().collect(alloc)?;
    let [style, hosts, clients, calls, after] = words.as_slice() else {
        bail!("five words are wanted");
    };
    let clients = clients.parse::<u64>()?;
    let calls = calls.parse::<u64>()?;
    let more = format!(in alloc; "--kill 0 --after {after}")?;
    let words = command(alloc, *style, *hosts, clients, calls, more.as_str())?;
    let ended = run(rt, alloc, words.as_slice())?;
    let shown = Shown::read(alloc, ended.out.bytes())?;
    eprintln!(rt;
        "view {}, {} ends in TRANSIENT",
        shown.version, shown.transient
    )?;
    if !is_as_killed(&ended, &shown, clients.saturating_mul(calls)) {
        let text = std::str::from_utf8(ended.out.bytes())?;
        bail!("status {}: {text}", ended.status);
    }
    Ok(shown)
}

/// `kill STYLE HOSTS CLIENTS CALLS AFTER`: such a run in which host 0 is killed. All calls end in values, no two in the same, or
/// in TRANSIENT; no end differs; and host 0 has no state.
pub fn kill<
    R: Net<Listener = TcpListener, Stream = TcpStream>
        + Threads
        + Wait
        + Clock
        + Eprint
        + Clone
        + Copy
        + Send
        + Drop
        + 'static,
>(rt: &R, alloc: Global, words: &str) -> Result<String> {
    run_killed(rt, alloc, words)?;
    Ok(String::from_str(
        alloc,
        "    each value at most once, and host 0 has no state\n",
    )?)
}

/// `replaced STYLE HOSTS CLIENTS CALLS AFTER`: the same, tried until a run is seen in which host 0 is replaced before the last
/// call.
pub fn replaced<
    R: Net<Listener = TcpListener, Stream = TcpStream>
        + Threads
        + Wait
        + Clock
        + Eprint
        + Clone
        + Copy
        + Send
        + Drop
        + 'static,
>(rt: &R, alloc: Global, words: &str) -> Result<String> {
    for _ in 0..TRIES {
        let shown = run_killed(rt, alloc, words)?;
        if shown.version > 1 {
            return Ok(String::from_str(
                alloc,
                "    each value at most once, and host 0 is replaced\n",
            )?);
        }
    }
    bail!("host 0 was never replaced")
}
