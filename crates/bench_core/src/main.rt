//! Asks a group's primary many times, with new requests and again with the same ones, has another member take
//! over, and asks a member of an active group of four. The speeds go to standard error: standard output
//! is the same on every run. The word is how many requests there are.
#![tactic(auto)]

mod groups;

use anyhow::{Context, Result};
use std::env;
use std::marker::Brand;
use std::rt::Env;
use std::sync::ledger::Blank;

// The number that this word of the command line spells.
fn word(rt: &(impl Env + AllocGlobal), place: usize) -> Result<u32> {
    let word = env::args(rt)?.nth(place).context("a word is missing")?;
    Ok(word.parse::<u32>()?)
}

fn main(rt: HostRuntime) -> Result<()> {
    let count = word(&rt, 1)?;
    groups::run::<Brand>(&rt, count, Blank::new(1))
}
