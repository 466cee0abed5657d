//! Links to the hosts of a script.
ghost use Rattle.std.specs.Prelude.{◌<◌, IfOk};
ghost use Rattle.ft_base.specs.declared.limits.TheConstants.{HOST_LIMIT};
ghost use Rattle.script_world.specs.Sound.{IsKeptWorld};

use crate::scripts::played;
use anyhow::{Result, bail};
use ft_base::{Bytes, HOST_LIMIT, HostNo, Steps};
use ft_report::ReportLines;
use ft_world::{Printed, WorldPass, WorldPort};
use link_serving::{Ended, serve_link};
use link_words::PieceLink;
use octet_words::{no_memory, octets};
use outside_links::MemLink;
use row_words::put_hex;
use script_world::World;
use std::alloc::Global;
use std::sync::Wait;
use std::sync::ledger::Ledger;

/// The most bytes that a link takes.
const ROOM: u64 = 100_000;

/// No link has so many calls.
const CALLS: u64 = 1_000;

// A link to a host of a script.
#[derive(Clone, Copy)]
struct Visit<'a> {
    lines: &'a [String],
    host: HostNo,
    octets: &'a [u8],
}

// What came of a link: how it was left, what was written, and what was printed of the requests.
#[derive(Drop)]
struct Served {
    ended: Ended,
    written: String,
    printed: Bytes,
}

fn host(word: &str) -> Result<HostNo>
    ensures { IfOk result (λ host. host.0 < HOST_LIMIT) }
{
    let number = word.parse::<u8>()?;
    if usize::from(number) >= HOST_LIMIT {
        bail!("no host: {word}");
    }
    Ok(HostNo(number))
}

// A host of this world serves a link.
fn serve<R: Wait, L: Ledger>(
    rt: &R,
    world: &mut World,
    host: HostNo,
    link: &mut PieceLink,
    printed: &mut Printed,
    steps: &mut Steps<L>,
) -> Ended
    requires host { host.0 < HOST_LIMIT }
    requires kept { IsKeptWorld world.old }
{
    let alloc = world.alloc();
    let port = WorldPort::new();
    let mut pass = WorldPass::new(world, steps, printed);
    serve_link(rt, alloc, host, &port, &mut pass, link)
}

// All that was printed, what went to other members last.
fn joined(printed: Printed) -> Result<Bytes> {
    let Printed { mut lines, orders } = printed;
    lines.append(orders).map_err(no_memory)?;
    Ok(lines.into_bytes())
}

// Serves a link of the world behind these lines, in pieces of this size, of which the call with this number fails.
fn visited<R: Wait, L: Ledger>(
    rt: &R,
    alloc: Global,
    visit: &Visit<'_>,
    size: usize,
    fails: u64,
    steps: &mut Steps<L>,
) -> Result<Served>
    requires host { visit.now.host.0 < HOST_LIMIT }
    requires some { 0 < size }
{
    let mut world = played(alloc, visit.lines, steps)?;
    let link = MemLink::new(alloc, visit.octets, ROOM, &[fails]).map_err(no_memory)?;
    let mut link = PieceLink::new(link, size);
    let mut printed = Printed {
        lines: ReportLines::new(alloc),
        orders: ReportLines::new(alloc),
    };
    let ended = serve(rt, &mut world, visit.host, &mut link, &mut printed, steps);
    let mut written = String::new(alloc);
    put_hex(link.held(), &mut written)?;
    Ok(Served {
        ended,
        written,
        printed: joined(printed)?,
    })
}

// The bytes that a script prints, one behind the other.
fn bytes_said(alloc: Global, text: &str) -> Result<String> {
    let mut all = String::new(alloc);
    for line in text.lines() {
        if let Some(digits) = line.strip_prefix("bytes ") {
            all.push_str(digits)?;
        }
    }
    Ok(all)
}

// How a link in pieces of this size was left, and whether these bytes were written.
fn put_pieces(served: &Served, size: usize, wanted: &str, text: &mut String) -> Result<()> {
    write!(text, "in pieces of {size}: {:?}, ", served.ended)?;
    if served.written.as_str() == wanted {
        text.push_str("the same bytes\n")?;
    } else {
        write!(text, "{}\n", served.written.as_str())?;
    }
    Ok(())
}

/// `H OCTETS`: what comes of a link with these bytes in pieces, behind what its `inject` line prints.
pub fn pieces<R: Wait, L: Ledger>(
    rt: &R,
    alloc: Global,
    lines: &[String],
    words: &str,
    text: &mut String,
    steps: &mut Steps<L>,
) -> Result<()> {
    let Some((host_word, bytes)) = words.split_once(' ') else {
        bail!("two words are wanted");
    };
    let bytes = octets(alloc, bytes)?;
    let visit = Visit {
        lines,
        host: host(host_word)?,
        octets: bytes.as_slice(),
    };
    let wanted = bytes_said(alloc, text.as_str())?;
    for size in [1, 7, 4096] {
        let served = visited(rt, alloc, &visit, size, 0, steps)?;
        put_pieces(&served, size, wanted.as_str(), text)?;
    }
    Ok(())
}

// How a link was left, what was printed of its requests, and what was written.
fn put_served(served: &Served, out: &mut String) -> Result<()> {
    write!(out, "{:?}, ", served.ended)?;
    for line in std::str::from_utf8(served.printed.bytes())?.lines() {
        write!(out, "{line}, ")?;
    }
    let written = if served.written.is_empty() {
        "nothing written"
    } else {
        served.written.as_str()
    };
    Ok(write!(out, "{written}\n")?)
}

/// `fails SIZE H OCTETS`: what comes of a link with these bytes, in pieces of this size, where its first call fails, its
/// second, and so on, up to the first number that none has.
pub fn fails<R: Wait, L: Ledger>(
    rt: &R,
    alloc: Global,
    lines: &[String],
    words: &str,
    steps: &mut Steps<L>,
) -> Result<String> {
    let words: Vec<&str> = words.split_whitespace().collect(alloc)?;
    let [size, host_word, bytes] = words.as_slice() else {
        bail!("three words are wanted");
    };
    let size = size.parse::<usize>()?;
    if size == 0 {
        bail!("pieces of nothing");
    }
    let bytes = octets(alloc, *bytes)?;
    let visit = Visit {
        lines,
        host: host(*host_word)?,
        octets: bytes.as_slice(),
    };
    let mut out = String::new(alloc);
    for number in 1..CALLS {
        let served = visited(rt, alloc, &visit, size, number, steps)?;
        write!(out, "{number}: ")?;
        put_served(&served, &mut out)?;
        if !matches!(served.ended, Ended::ReadFault | Ended::WriteFault) {
            return Ok(out);
        }
    }
    bail!("too many calls")
}
