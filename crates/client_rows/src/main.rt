//! Rows of the calls of a client, over links in memory and over sockets. Each line of standard input is a verb and its words; it is written
//! back, and its answer stands below it, behind four blanks. A line that is empty or begins with `#` has no answer.
#![tactic(auto)]

mod links;
mod references;
mod runs;
mod sockets;
mod texts;

use anyhow::{Result, bail};
use octet_words::first_word;
use std::alloc::Global;
use std::net::{Net, TcpListener, TcpStream};
use std::sync::Wait;
use std::thread::Threads;
use std::time::Clock;

fn answer<
    R: Net<Listener = TcpListener, Stream = TcpStream>
        + Threads
        + Wait
        + Clock
        + Eprint
        + Copy
        + Send
        + Drop
        + 'static,
>(rt: &R, alloc: Global, line: &str) -> Result<String> {
    let (verb, words) = first_word(line);
    match verb {
        "calls" => runs::calls(rt, alloc, words),
        "socket" => sockets::socket(rt, alloc, words),
        "timed" => sockets::timed(rt, alloc, words),
        _ => bail!("no verb: {verb}"),
    }
}

// Writes each line back, and its answer below it.
fn main(rt: HostRuntime) -> Result<()> {
    let alloc = rt.alloc();
    for line in rt.lines(alloc) {
        let line = line?;
        println!(rt; "{}", line.as_str())?;
        if !line.is_empty() && !line.starts_with('#') {
            let text = answer(&rt, alloc, line.as_str())?;
            println!(rt; "{text}")?;
        }
    }
    Ok(())
}
