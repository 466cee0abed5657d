//! A group over a log on a disk, which goes on after a stop of everything. Each line of standard output is a step, and
//! what came of it.
#![tactic(auto)]

mod groups;
mod stops;

use anyhow::Result;
use std::marker::Brand;
use std::sync::ledger::Blank;

fn main(rt: HostRuntime) -> Result<()> {
    groups::run::<Brand>(&rt, Blank::new(1))
}
