//! A client's calls over links in memory.

use crate::links::network;
use crate::references::reference;
use crate::texts::{end_text, hearing_text};
use anyhow::{Result, bail};
use client_calls::{Told, ToldCall, client_calls};
use client_replies::are_hosts;
use octet_words::{name, name_text, no_memory};
use outside_links::{MemCaller, Network};
use row_words::put_hex;
use std::alloc::Global;
use std::sync::Wait;
use std::time::Clock;

/// No row has more links.
const LINKS: usize = 100;

// What was heard in a call, and how it ended.
fn put_call(alloc: Global, number: usize, call: &ToldCall, out: &mut String) -> Result<()> {
    write!(out, "    call {number}: ")?;
    for one in &call.heard {
        let text = hearing_text(alloc, one)?;
        write!(out, "{text}, ")?;
    }
    let end = end_text(alloc, &call.end)?;
    Ok(write!(out, "done {end}\n")?)
}

/// What was heard in each call, and how it ended.
pub fn put_calls(alloc: Global, told: &Told, out: &mut String) -> Result<()> {
    let mut number = 0usize;
    for call in &told.calls {
        number = number.saturating_add(1);
        put_call(alloc, number, call, out)?;
    }
    Ok(())
}

// Where each link led, and what it took.
fn put_sent(alloc: Global, caller: &MemCaller, out: &mut String) -> Result<()> {
    for place in 0..LINKS {
        let Some(target) = caller.target_at(place) else {
            break;
        };
        let host = name_text(target.host())?;
        write!(out, "    to {host}:{}: ", target.port())?;
        match caller.sent_at(place) {
            Some([]) => out.push('-')?,
            Some(sent) => put_hex(sent, out)?,
            None => out.push_str("not back")?,
        }
        out.push('\n')?;
    }
    Ok(write!(out, "    {} faults", caller.faults())?)
}

/// `calls COUNT PROFILES LINK..`: what a client is told that makes so many calls, and what it sends.
pub fn calls<R: Wait + Clock>(rt: &R, alloc: Global, words: &str) -> Result<String> {
    let words: Vec<&str> = words.split_whitespace().collect(alloc)?;
    let [count, profiles, links @ ..] = words.as_slice() else {
        bail!("too few words");
    };
    let reference = reference(alloc, *profiles)?;
    if !are_hosts(reference.profiles.as_slice()) {
        bail!("no hosts");
    }
    let mut network = network(alloc, links)?;
    let mut caller = network.caller();
    let client = name(alloc, "ann")?;
    let count = count.parse::<u16>()?;
    let told = client_calls(rt, alloc, &client, reference, count, &mut caller).map_err(no_memory)?;
    let mut out = String::new(alloc);
    put_calls(alloc, &told, &mut out)?;
    put_sent(alloc, &caller, &mut out)?;
    network.take_caller(caller);
    Ok(out)
}
