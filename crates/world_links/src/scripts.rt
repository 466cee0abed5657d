//! The world that the lines of a script make.
ghost use Rattle.std.specs.Prelude.{ℕ, ◌≡◌, ◌+◌, ◌≤◌, ◌^◌, IfOk, OnOk};
ghost use Rattle.script_world.specs.Sound.{HasActed, IsKeptWorld};

use anyhow::{Result, bail};
use fault_script::read_line;
use ft_base::{Bytes, Steps};
use ft_world::act;
use octet_words::no_memory;
use script_world::World;
use std::alloc::Global;
use std::sync::ledger::Ledger;

/// No script has so many lines.
const LINES: u32 = 1_000;

// Acts a line, and gives what it prints.
fn act_text<L: Ledger>(
    alloc: Global,
    world: &mut World,
    text: &str,
    steps: &mut Steps<L>,
) -> Result<Bytes>
    requires kept { IsKeptWorld world.old }
    requires acted { (lines : ℕ) × (lines ≤ 2 ^ 27) × HasActed world.old lines }
    ensures kept { OnOk result (IsKeptWorld world.new) }
    ensures acted { OnOk result ((lines : ℕ) → HasActed world.old lines → HasActed world.new (lines + 1)) }
{
    let Ok(Some(mut line)) = read_line(alloc, text.as_bytes()) else {
        bail!("no line: {text}");
    };
    match act(world, &mut line, steps) {
        Ok(report) => Ok(report.into_bytes()),
        Err(_) => bail!("refused: {text}"),
    }
}

/// The world behind these lines.
pub fn played<L: Ledger>(alloc: Global, lines: &[String], steps: &mut Steps<L>) -> Result<World>
    ensures kept { IfOk result IsKeptWorld }
    ensures acted { IfOk result (λ world. (lines : ℕ) × (lines ≤ 2 ^ 27) × HasActed world lines) }
{
    let mut world = World::new(alloc).map_err(no_memory)?;
    let mut count = 0;
    for line in lines {
        if count == LINES {
            bail!("too many lines");
        }
        act_text(alloc, &mut world, line.as_str(), steps)?;
        count += 1;
    }
    Ok(world)
}

/// What a line prints behind these.
pub fn last_printed<L: Ledger>(
    alloc: Global,
    lines: &[String],
    line: &str,
    steps: &mut Steps<L>,
) -> Result<String> {
    let mut world = played(alloc, lines, steps)?;
    let printed = act_text(alloc, &mut world, line, steps)?;
    let text = std::str::from_utf8(printed.bytes())?;
    Ok(String::from_str(alloc, text)?)
}
