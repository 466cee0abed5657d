//! Threads that share a group. Each line of standard output says what was told, which is the same on every run with the
//! same word: how many deposits eight threads make together in a group of each style, while a ninth stops hosts, starts
//! them again and changes members. With 0 one thread alone asks, and asks again where memory was wanted.
#![tactic(auto)]

mod crowds;
mod groups;
mod pairs;
mod single;

use crate::crowds::Crowd;
use crate::pairs::Pair;
use crate::single::Single;
use anyhow::{Context, Result};
use ft_base::Style;
use std::env;
use std::rt::Env;

// The number that a word of the command line spells.
fn number(rt: &(impl Env + AllocGlobal), place: usize) -> Result<u32> {
    let text = env::args(rt)?.nth(place).context("no word")?;
    Ok(text.parse::<u32>()?)
}

// Tells what a crowd came to in a group of this style.
fn tell_crowd(rt: &HostRuntime, name: &str, crowd: &Crowd) -> Result<()> {
    let Crowd {
        told,
        callers,
        each_once,
        rise,
        changed,
        entries,
    } = crowd;
    println!(rt;
        "{name}: {told} values by {callers} threads, each once: {each_once}, rising for each: {rise}; members changed: {changed}; {entries} entries"
    )?;
    Ok(())
}

// Tells what one thread was told in a group of this style.
fn tell_single(rt: &HostRuntime, name: &str, single: &Single) -> Result<()> {
    let Single {
        values,
        again,
        upset,
        replied,
        short,
    } = single;
    println!(rt; "{name}: {values:?}, again {again}, {upset:?} behind stops, replied {replied:?}")?;
    eprintln!(rt; "{name}: {short} turns without memory")?;
    Ok(())
}

// Tells what two passes were told.
fn tell_pair(rt: &HostRuntime, pair: &Pair) -> Result<()> {
    let Pair {
        first,
        second,
        joined,
        replied,
        third,
        noted,
        closed,
    } = pair;
    println!(rt;
        "two passes: {first:?} and {second:?}; joined: {joined} entries, replied {replied:?}; a third: {third:?}, noted: {noted} entries; closed: {closed} entries"
    )?;
    Ok(())
}

fn main(rt: HostRuntime) -> Result<()> {
    let alloc = rt.alloc();
    let deposits = number(&rt, 1)?;
    for (style, name) in [
        (Style::Cold, "cold"),
        (Style::Warm, "warm"),
        (Style::Active, "active"),
    ] {
        if deposits == 0 {
            let single = single::run(&rt, alloc, style)?;
            tell_single(&rt, name, &single)?;
        } else {
            let crowd = crowds::run(&rt, alloc, style, deposits)?;
            tell_crowd(&rt, name, &crowd)?;
        }
    }
    if deposits > 0 {
        let pair = pairs::run(&rt, alloc)?;
        tell_pair(&rt, &pair)?;
    }
    Ok(())
}
