//! What a run in memory is tried over: its doors and callers with their links, and which calls are refused.
ghost use Rattle.std.specs.Prelude.{IfOk};
ghost use Rattle.std.specs.List.{All};
ghost use Rattle.outside_links.specs.Wires.{IsFresh, IsNewCaller, IsNewDoor};

use anyhow::{Result, bail};
use octet_words::{no_memory, octets};
use outside_links::{MemCaller, MemDoor, MemLink, MemNetwork};
use std::alloc::Global;
use std::collections::VecDeque;

/// The most bytes that a link takes.
const ROOM: u64 = 4_096;

/// The numbers, from 1, of the calls that are refused: a bind, a start of a thread, a write of the output, and a write of
/// the text of errors. With 0 none is.
#[derive(Clone, Copy)]
pub struct Refused {
    pub bind: u64,
    pub start: u64,
    pub write: u64,
    pub tell: u64,
}

/// The links of each door and of each caller, as words, and what is refused.
#[derive(Drop)]
pub struct Scene<'a> {
    pub doors: Vec<&'a str>,
    pub callers: Vec<&'a str>,
    pub refused: Refused,
}

// What one word says: `door:LINK,LINK`, `caller:LINK,LINK`, `bind:NUMBER`, `start:NUMBER`, `write:NUMBER`, `tell:NUMBER`.
fn read_word<'a>(scene: &mut Scene<'a>, word: &'a str) -> Result<()> {
    let Some((kind, value)) = word.split_once(':') else {
        bail!("no kind: {word}");
    };
    match kind {
        "door" => scene.doors.push(value)?,
        "caller" => scene.callers.push(value)?,
        "bind" => scene.refused.bind = value.parse::<u64>()?,
        "start" => scene.refused.start = value.parse::<u64>()?,
        "write" => scene.refused.write = value.parse::<u64>()?,
        "tell" => scene.refused.tell = value.parse::<u64>()?,
        _ => bail!("no kind: {kind}"),
    }
    Ok(())
}

/// The scene that these words say.
pub fn read_scene<'a>(alloc: Global, words: &'a str) -> Result<Scene<'a>> {
    let mut scene = Scene {
        doors: Vec::new(alloc),
        callers: Vec::new(alloc),
        refused: Refused {
            bind: 0,
            start: 0,
            write: 0,
            tell: 0,
        },
    };
    for word in words.split_whitespace() {
        read_word(&mut scene, word)?;
    }
    Ok(scene)
}

// A link that has these octets left.
fn link_with(alloc: Global, word: &str) -> Result<MemLink>
    ensures { IfOk result IsFresh }
{
    let left = octets(alloc, word)?;
    let link = MemLink::new(alloc, left.as_slice(), ROOM, &[]).map_err(no_memory)?;
    Ok(link)
}

// The links of a word, with commas between.
fn links_of(alloc: Global, word: &str) -> Result<VecDeque<MemLink>>
    ensures { IfOk result (λ links. All IsFresh links.items) }
{
    let mut links = VecDeque::new(alloc);
    for one in word.split(',') {
        let link = link_with(alloc, one)?;
        links.push_back(link)?;
    }
    Ok(links)
}

fn door_of(alloc: Global, word: &str, port: u16) -> Result<MemDoor>
    ensures { IfOk result IsNewDoor }
{
    let links = links_of(alloc, word)?;
    Ok(MemDoor::new(links, port))
}

// The doors, at ports from 1 on.
fn doors_of(alloc: Global, words: &[&str]) -> Result<VecDeque<MemDoor>>
    ensures { IfOk result (λ doors. All IsNewDoor doors.items) }
{
    let mut doors = VecDeque::new(alloc);
    let mut port = 0u16;
    for word in words {
        port = port.saturating_add(1);
        let door = door_of(alloc, *word, port)?;
        doors.push_back(door)?;
    }
    Ok(doors)
}

fn caller_of(alloc: Global, word: &str) -> Result<MemCaller>
    ensures { IfOk result IsNewCaller }
{
    let links = links_of(alloc, word)?;
    let caller = MemCaller::new(alloc, links).map_err(no_memory)?;
    Ok(caller)
}

fn callers_of(alloc: Global, words: &[&str]) -> Result<VecDeque<MemCaller>>
    ensures { IfOk result (λ callers. All IsNewCaller callers.items) }
{
    let mut callers = VecDeque::new(alloc);
    for word in words {
        let caller = caller_of(alloc, *word)?;
        callers.push_back(caller)?;
    }
    Ok(callers)
}

/// The network of a scene.
pub fn network_of(alloc: Global, scene: &Scene<'_>) -> Result<MemNetwork> {
    let doors = doors_of(alloc, scene.doors.as_slice())?;
    let callers = callers_of(alloc, scene.callers.as_slice())?;
    let network = MemNetwork::new(alloc, doors, callers, &[scene.refused.bind]).map_err(no_memory)?;
    Ok(network)
}
