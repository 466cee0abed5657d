//! Writes, reads and frames requests of 64 bytes, and says how fast; reads messages whose lengths say 4 GiB.
//! The speeds go to standard error: standard output is the same on every run with the same words.
//!
//! The first word is how many MiB a framer is fed in each way, the second how many requests are written
//! and read.
#![tactic(auto)]

mod deposits;
mod framing;
mod lengths;
mod messages;

use anyhow::{Context, Result};
use std::env;
use std::rt::Env;

// The number that this word of the command line spells.
fn word(rt: &(impl Env + AllocGlobal), place: usize) -> Result<u32> {
    let word = env::args(rt)?.nth(place).context("a word is missing")?;
    Ok(word.parse::<u32>()?)
}

fn main(rt: HostRuntime) -> Result<()> {
    let mebibytes = word(&rt, 1)?;
    let count = word(&rt, 2)?;
    messages::run(&rt, count)?;
    lengths::run(&rt)?;
    framing::run(&rt, mebibytes)
}
