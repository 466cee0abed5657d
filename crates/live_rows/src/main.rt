//! Rows of live runs, over networks in memory and over sockets. Each line of standard input is a verb and its words; it is
//! written back, and its answer stands below it, behind four blanks. A line that is empty or begins with `#` has no answer.
#![tactic(auto)]

mod memories;
mod scenes;
mod shown;
mod sockets;

use anyhow::{Result, bail};
use octet_words::first_word;
use std::alloc::Global;
use std::net::{Net, TcpListener, TcpStream};
use std::sync::Wait;
use std::thread::Threads;
use std::time::Clock;

fn answer<
    R: Net<Listener = TcpListener, Stream = TcpStream>
        + Threads
        + Wait
        + Clock
        + Eprint
        + Clone
        + Copy
        + Send
        + Drop
        + 'static,
>(rt: &R, alloc: Global, line: &str) -> Result<String> {
    let (verb, words) = first_word(line);
    match verb {
        "memory" => memories::memory(rt, alloc, words),
        "binds" => memories::binds(rt, alloc, words),
        "starts" => memories::starts(rt, alloc, words),
        "sockets" => sockets::sockets(rt, alloc, words),
        "kill" => sockets::kill(rt, alloc, words),
        "replaced" => sockets::replaced(rt, alloc, words),
        _ => bail!("no verb: {verb}"),
    }
}

// Writes each line back, and its answer below it.
fn main(rt: HostRuntime) -> Result<()> {
    let alloc = rt.alloc();
    for line in rt.lines(alloc) {
        let line = line?;
        println!(rt; "{}", line.as_str())?;
        if !line.is_empty() && !line.starts_with('#') {
            let text = answer(&rt, alloc, line.as_str())?;
            print!(rt; "{text}")?;
        }
    }
    Ok(())
}
