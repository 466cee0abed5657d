//! Links over sockets, whose peers send slowly, close in the midst of a message, or never read.

use crate::texts::put_served;
use anyhow::{Context, Result, bail};
use link_serving::serve_link;
use link_words::{HOST, LetterHost, LetterPort, Turns, Visits, start_host};
use octet_words::octets;
use outside_crews::Running;
use outside_links::TcpLink;
use std::alloc::Global;
use std::io::{Read, Write};
use std::net::{Ipv4Addr, Net, Shutdown, TcpListener, TcpStream};
use std::sync::Wait;
use std::thread::Threads;
use std::time::{Clock, Duration};
use std::{io, thread};

/// What a slow peer waits behind each byte, in milliseconds.
const GAP: u64 = 1;

/// What a host waits for a peer that neither reads nor writes, in milliseconds.
const PATIENCE: u64 = 300;

// A host that serves one link in a thread of its own, and the port at which it waits for that.
fn host<
    R: Net<Listener = TcpListener, Stream = TcpStream>
        + Threads
        + Wait
        + Copy
        + Send
        + Drop
        + 'static,
>(rt: &R, alloc: Global, letters: &str) -> Result<(Running<LetterHost<R>>, u16)> {
    let letters = Vec::from_slice(alloc, letters.as_bytes())?;
    start_host(rt, alloc, letters, 1).context("no host")
}

// What became of the one link, and what its peer heard.
fn visit_text(alloc: Global, visits: &Visits, heard: &[u8]) -> Result<String> {
    let mut out = String::from_str(alloc, "    ")?;
    match visits.ends.first() {
        Some(Some(ended)) => put_served(*ended, &visits.turns, heard, &mut out)?,
        _ => out.push_str("not accepted")?,
    }
    Ok(out)
}

// Sends these bytes one by one, says that no more come, and gives what it hears.
fn dripped<R: Net<Listener = TcpListener, Stream = TcpStream> + Clock>(
    rt: &R,
    alloc: Global,
    port: u16,
    octets: &[u8],
) -> io::Result<Vec<u8>> {
    let mut stream = TcpStream::connect(rt, (Ipv4Addr::LOCALHOST, port))?;
    stream.set_nodelay(true)?;
    for octet in octets {
        stream.write_all(&[*octet])?;
        thread::sleep(rt, Duration::from_millis(GAP));
    }
    stream.shutdown(Shutdown::Write)?;
    let mut heard = Vec::new(alloc);
    stream.read_to_end(&mut heard)?;
    Ok(heard)
}

/// `drip LETTERS OCTETS`: a peer sends these bytes one by one.
pub fn drip<
    R: Net<Listener = TcpListener, Stream = TcpStream>
        + Threads
        + Wait
        + Clock
        + Copy
        + Send
        + Drop
        + 'static,
>(rt: &R, alloc: Global, words: &str) -> Result<String> {
    let Some((letters, bytes)) = words.split_once(' ') else {
        bail!("too few words");
    };
    let bytes = octets(alloc, bytes)?;
    let (running, port) = host(rt, alloc, letters)?;
    let heard = dripped(rt, alloc, port, bytes.as_slice())?;
    visit_text(alloc, &running.join(rt), heard.as_slice())
}

// Sends a text, hears so many bytes, sends another, and closes.
fn broken<R: Net<Listener = TcpListener, Stream = TcpStream>>(
    rt: &R,
    alloc: Global,
    port: u16,
    first: &[u8],
    count: u16,
    second: &[u8],
) -> io::Result<Vec<u8>> {
    let mut stream = TcpStream::connect(rt, (Ipv4Addr::LOCALHOST, port))?;
    stream.write_all(first)?;
    let mut heard = Vec::new(alloc);
    heard.resize(usize::from(count), 0)?;
    stream.read_exact(heard.as_mut_slice())?;
    stream.write_all(second)?;
    Ok(heard)
}

/// `breaks LETTERS OCTETS COUNT OCTETS`: a peer sends the first bytes, hears so many, sends the others, and closes.
pub fn breaks<
    R: Net<Listener = TcpListener, Stream = TcpStream>
        + Threads
        + Wait
        + Copy
        + Send
        + Drop
        + 'static,
>(rt: &R, alloc: Global, words: &str) -> Result<String> {
    let words: Vec<&str> = words.split_whitespace().collect(alloc)?;
    let [letters, first, count, second] = words.as_slice() else {
        bail!("four words are wanted");
    };
    let first = octets(alloc, *first)?;
    let second = octets(alloc, *second)?;
    let count = count.parse::<u16>()?;
    let (running, port) = host(rt, alloc, *letters)?;
    let heard = broken(rt, alloc, port, first.as_slice(), count, second.as_slice())?;
    visit_text(alloc, &running.join(rt), heard.as_slice())
}

// The next link at a port, which fails where its peer doesn't read or write for long.
fn accepted(listener: &TcpListener) -> io::Result<TcpLink> {
    let patience = Duration::from_millis(PATIENCE);
    let (stream, _) = listener.accept()?;
    stream.set_read_timeout(Some(patience))?;
    stream.set_write_timeout(Some(patience))?;
    Ok(TcpLink::new(stream))
}

/// `deaf LETTERS COUNT OCTETS`: a peer sends these bytes so many times, and never reads. The host gives up; how many
/// requests it asked until then, the system's buffers decide.
pub fn deaf<R: Net<Listener = TcpListener, Stream = TcpStream> + Wait>(
    rt: &R,
    alloc: Global,
    words: &str,
) -> Result<String> {
    let words: Vec<&str> = words.split_whitespace().collect(alloc)?;
    let [letters, count, bytes] = words.as_slice() else {
        bail!("three words are wanted");
    };
    let bytes = octets(alloc, *bytes)?;
    let count = count.parse::<u32>()?;
    let listener = TcpListener::bind(rt, (Ipv4Addr::LOCALHOST, 0))?;
    let mut peer = TcpStream::connect(rt, (Ipv4Addr::LOCALHOST, listener.local_addr()?.port()))?;
    for _ in 0..count {
        peer.write_all(bytes.as_slice())?;
    }
    let mut link = accepted(&listener)?;
    let mut turns = Turns::new();
    let port = LetterPort::new(alloc, letters.as_bytes());
    let ended = serve_link(rt, alloc, HOST, &port, &mut turns, &mut link);
    let some = if turns.asks < count { "some" } else { "all" };
    Ok(format!(in alloc; "    {ended:?}, {some} asked, {} faults", link.faults())?)
}
