//! The network of a client: one caller with its links.
ghost use Rattle.std.specs.Prelude.{IfOk};
ghost use Rattle.std.specs.List.{All};
ghost use Rattle.outside_links.specs.Wires.{IsFresh, IsNewCaller};

use anyhow::Result;
use octet_words::{no_memory, octets};
use outside_links::{MemCaller, MemLink, MemNetwork};
use std::alloc::Global;
use std::collections::VecDeque;

/// The most bytes that a link takes.
const ROOM: u64 = 10_000;

// What a link has, and the number of its call that fails: `OCTETS` or `OCTETS!NUMBER`.
fn link(alloc: Global, word: &str) -> Result<MemLink>
    ensures { IfOk result IsFresh }
{
    let (left, fails) = match word.split_once('!') {
        Some((left, number)) => (left, number.parse::<u64>()?),
        None => (word, 0),
    };
    let left = octets(alloc, left)?;
    let link = MemLink::new(alloc, left.as_slice(), ROOM, &[fails]).map_err(no_memory)?;
    Ok(link)
}

// A caller with these links, in order.
fn caller(alloc: Global, words: &[&str]) -> Result<MemCaller>
    ensures { IfOk result IsNewCaller }
{
    let mut links = VecDeque::new(alloc);
    for word in words {
        let link = link(alloc, *word)?;
        links.push_back(link)?;
    }
    let caller = MemCaller::new(alloc, links).map_err(no_memory)?;
    Ok(caller)
}

/// A network without doors, whose one caller has these links.
pub fn network(alloc: Global, words: &[&str]) -> Result<MemNetwork> {
    let mut callers = VecDeque::new(alloc);
    callers.push_back(caller(alloc, words)?)?;
    let network = MemNetwork::new(alloc, VecDeque::new(alloc), callers, &[]).map_err(no_memory)?;
    Ok(network)
}
