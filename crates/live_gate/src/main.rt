//! Two hosts are served side by side: each waits for what the other has answered. A live run in an active group, over a network
//! whose links say their messages only then. Prints its status, and the values that each host answered its first link.
#![tactic(auto)]

mod gates;
mod links;
mod networks;

use crate::gates::Gate;
use crate::networks::GateNetwork;
use anyhow::Result;
use ft_base::Tick;
use ft_outside::MemSink;
use live_top::ftc_live;
use octet_words::no_memory;
use outside_crews::{Crew, SetClock};
use std::alloc::Global;
use std::sync::{Arc, Wait};
use std::thread::Threads;
use std::time::Clock;

/// The words of the run.
const WORDS: &str = "live --hosts 2 --clients 1 --calls 1 --style active";

/// The most bytes that the run writes.
const ROOM: u64 = 4_096;

fn words(alloc: Global) -> Result<Vec<String>> {
    let mut words = Vec::new(alloc);
    for word in WORDS.split(' ') {
        words.push(String::from_str(alloc, word)?)?;
    }
    Ok(words)
}

// The status of the run over this network.
fn run<R: Threads + Wait + Clock + Clone + Copy + Send + Drop + 'static>(
    rt: &R,
    alloc: Global,
    mut network: GateNetwork,
) -> Result<u8> {
    let words = words(alloc)?;
    let mut out = MemSink::new(alloc, ROOM, &[]).map_err(no_memory)?;
    let mut err = MemSink::new(alloc, ROOM, &[]).map_err(no_memory)?;
    let mut crew = Crew::new(*rt, alloc);
    let clock = SetClock::new(Tick(0));
    Ok(ftc_live(
        rt,
        alloc,
        words.as_slice(),
        &mut out,
        &mut err,
        &mut network,
        &clock,
        &mut crew,
    ))
}

fn main(rt: HostRuntime) -> Result<()> {
    let alloc = rt.alloc();
    let first = Arc::new(alloc, Gate::new())?;
    let second = Arc::new(alloc, Gate::new())?;
    let network = GateNetwork::between(alloc, &first, &second)?;
    let status = run(&rt, alloc, network)?;
    println!(rt; "status {status}")?;
    println!(rt; "host 0: {} and {}", first.value_at(0), first.value_at(1))?;
    println!(rt; "host 1: {}", second.value_at(0))?;
    Ok(())
}
