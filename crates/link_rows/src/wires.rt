//! Links in memory.
ghost use Rattle.std.specs.Prelude.{◌<◌};

use crate::texts::put_served;
use anyhow::{Result, bail};
use link_serving::{Ended, serve_link};
use link_words::{HOST, LetterPort, PieceLink, Turns};
use octet_words::{no_memory, octets};
use outside_links::MemLink;
use std::alloc::Global;
use std::sync::Wait;

/// The most bytes that a link takes.
const ROOM: u64 = 100_000;

/// No link has so many calls.
const CALLS: u64 = 1_000;

// A link with these bytes, of which the call with this number fails. A number of 0 is none's.
fn link(alloc: Global, octets: &[u8], size: usize, fails: u64) -> Result<PieceLink>
    requires { 0 < size }
{
    let link = MemLink::new(alloc, octets, ROOM, &[fails]).map_err(no_memory)?;
    Ok(PieceLink::new(link, size))
}

// Serves a link, and prints what came of it.
fn put_link<R: Wait>(
    rt: &R,
    alloc: Global,
    letters: &str,
    link: &mut PieceLink,
    out: &mut String,
) -> Result<Ended> {
    let mut turns = Turns::new();
    let port = LetterPort::new(alloc, letters.as_bytes());
    let ended = serve_link(rt, alloc, HOST, &port, &mut turns, link);
    put_served(ended, &turns, link.held(), out)?;
    Ok(ended)
}

/// `serve LETTERS SIZE OCTETS`: what becomes of a link with these bytes in pieces of this size.
pub fn serve<R: Wait>(rt: &R, alloc: Global, words: &str) -> Result<String> {
    let words: Vec<&str> = words.split_whitespace().collect(alloc)?;
    let [letters, size, bytes] = words.as_slice() else {
        bail!("three words are wanted");
    };
    let size = size.parse::<usize>()?;
    if size == 0 {
        bail!("pieces of nothing");
    }
    let bytes = octets(alloc, *bytes)?;
    let mut out = String::from_str(alloc, "    ")?;
    let mut link = link(alloc, bytes.as_slice(), size, 0)?;
    put_link(rt, alloc, *letters, &mut link, &mut out)?;
    Ok(out)
}

fn is_fault(ended: Ended) -> bool {
    matches!(ended, Ended::ReadFault | Ended::WriteFault)
}

/// `fails LETTERS SIZE OCTETS`: the same where its first call fails, its second, and so on, up to the first number that
/// none has.
pub fn fails<R: Wait>(rt: &R, alloc: Global, words: &str) -> Result<String> {
    let words: Vec<&str> = words.split_whitespace().collect(alloc)?;
    let [letters, size, bytes] = words.as_slice() else {
        bail!("three words are wanted");
    };
    let size = size.parse::<usize>()?;
    if size == 0 {
        bail!("pieces of nothing");
    }
    let bytes = octets(alloc, *bytes)?;
    let mut out = String::new(alloc);
    for number in 1..CALLS {
        write!(out, "    {number}: ")?;
        let mut link = link(alloc, bytes.as_slice(), size, number)?;
        let ended = put_link(rt, alloc, *letters, &mut link, &mut out)?;
        if !is_fault(ended) {
            return Ok(out);
        }
        out.push('\n')?;
    }
    bail!("too many calls")
}
