//! Runs over networks in memory, at a clock that stands still.

use crate::scenes::{Scene, network_of, read_scene};
use anyhow::{Context, Result, bail};
use ft_base::Tick;
use ft_outside::MemSink;
use live_top::ftc_live;
use octet_words::no_memory;
use outside_crews::{Crew, SetClock};
use std::alloc::Global;
use std::sync::Wait;
use std::thread::Threads;
use std::time::Clock;

/// The most bytes of output, and of the text of errors.
const ROOM: u64 = 1_000_000;

/// No row has so many calls that can be refused.
const CALLS: u64 = 100;

/// How a run ended, and what it wrote.
#[derive(Drop)]
pub struct Ended {
    pub status: u8,
    pub out: MemSink,
    pub err: MemSink,
}

/// A sink for what a run writes, whose write with this number is refused.
pub fn sink(alloc: Global, fails: u64) -> Result<MemSink> {
    MemSink::new(alloc, ROOM, &[fails]).map_err(no_memory)
}

/// The words of a command line.
pub fn words_of(alloc: Global, line: &str) -> Result<Vec<String>> {
    let mut words = Vec::new(alloc);
    for word in line.split_whitespace() {
        words.push(String::from_str(alloc, word)?)?;
    }
    Ok(words)
}

// Runs these words over a scene.
fn run<R: Threads + Wait + Clock + Clone + Copy + Send + Drop + 'static>(
    rt: &R,
    alloc: Global,
    scene: &Scene<'_>,
    words: &[String],
) -> Result<Ended> {
    let refused = scene.refused;
    let mut network = network_of(alloc, scene)?;
    let mut crew = Crew::refusing(*rt, alloc, &[refused.start]).map_err(no_memory)?;
    let mut out = sink(alloc, refused.write)?;
    let mut err = sink(alloc, refused.tell)?;
    let clock = SetClock::new(Tick(0));
    let status = ftc_live(
        rt,
        alloc,
        words,
        &mut out,
        &mut err,
        &mut network,
        &clock,
        &mut crew,
    );
    Ok(Ended { status, out, err })
}

// Each line of what was written, behind its name.
fn put_lines(name: &str, written: &[u8], text: &mut String) -> Result<()> {
    for line in std::str::from_utf8(written)?.lines() {
        write!(text, "    {name}: {line}\n")?;
    }
    Ok(())
}

fn put_ended(ended: &Ended, text: &mut String) -> Result<()> {
    write!(text, "    status {}\n", ended.status)?;
    put_lines("out", ended.out.bytes(), text)?;
    put_lines("err", ended.err.bytes(), text)
}

// The scene before the bar, and the words of the command line behind it.
fn halves<'a>(alloc: Global, words: &'a str) -> Result<(Scene<'a>, Vec<String>)> {
    let (scene, line) = words.split_once('|').context("no bar")?;
    Ok((read_scene(alloc, scene)?, words_of(alloc, line)?))
}

/// `memory SCENE | WORDS`: how the run of these words ends over a scene, and what it writes.
pub fn memory<R: Threads + Wait + Clock + Clone + Copy + Send + Drop + 'static>(
    rt: &R,
    alloc: Global,
    words: &str,
) -> Result<String> {
    let (scene, words) = halves(alloc, words)?;
    let ended = run(rt, alloc, &scene, words.as_slice())?;
    let mut text = String::new(alloc);
    put_ended(&ended, &mut text)?;
    Ok(text)
}

/// `binds SCENE | WORDS`: the same where its first bind is refused, its second, and so on, up to the first number that
/// none has.
pub fn binds<R: Threads + Wait + Clock + Clone + Copy + Send + Drop + 'static>(
    rt: &R,
    alloc: Global,
    words: &str,
) -> Result<String> {
    let (mut scene, words) = halves(alloc, words)?;
    let mut text = String::new(alloc);
    for number in 1..CALLS {
        scene.refused.bind = number;
        let ended = run(rt, alloc, &scene, words.as_slice())?;
        write!(text, "    bind {number}:\n")?;
        put_ended(&ended, &mut text)?;
        if ended.status != 7 {
            return Ok(text);
        }
    }
    bail!("too many binds")
}

/// `starts SCENE | WORDS`: the same of the starts of threads.
pub fn starts<R: Threads + Wait + Clock + Clone + Copy + Send + Drop + 'static>(
    rt: &R,
    alloc: Global,
    words: &str,
) -> Result<String> {
    let (mut scene, words) = halves(alloc, words)?;
    let mut text = String::new(alloc);
    for number in 1..CALLS {
        scene.refused.start = number;
        let ended = run(rt, alloc, &scene, words.as_slice())?;
        write!(text, "    start {number}:\n")?;
        put_ended(&ended, &mut text)?;
        if ended.status != 8 {
            return Ok(text);
        }
    }
    bail!("too many starts")
}
