//! Rows of the servants, of their calls, states and updates. Each line of standard input is `servant` and its words; it
//! is written back, and its answer stands below it, behind four blanks. A line that is empty or begins with `#` has no
//! answer.
#![tactic(auto)]

mod moves;
mod servants;
mod states;

ghost use Rattle.std.specs.Prelude.{◌≡◌, ◌<◌};

use anyhow::{Result, bail};
use ft_base::Steps;
use octet_words::first_word;
use servants::Servants;
use std::marker::Brand;
use std::sync::ledger::{Blank, Ledger};

fn answer<L: Ledger>(
    rt: &HostRuntime,
    servants: &mut Servants,
    steps: &mut Steps<L>,
    line: &str,
) -> Result<()> {
    let (verb, words) = first_word(line);
    if verb != "servant" {
        bail!("no verb: {verb}");
    }
    servants::answer(rt, servants, steps, words)
}

// Writes a line back, and its answer below it.
fn serve<L: Ledger>(
    rt: &HostRuntime,
    servants: &mut Servants,
    steps: &mut Steps<L>,
    line: &str,
) -> Result<()> {
    println!(rt; "{line}")?;
    if line.is_empty() || line.starts_with('#') {
        return Ok(());
    }
    answer(rt, servants, steps, line)
}

fn serve_all<L: Ledger>(
    rt: &HostRuntime,
    servants: &mut Servants,
    steps: &mut Steps<L>,
) -> Result<()> {
    for line in rt.lines(rt.alloc()) {
        let line = line?;
        serve(rt, servants, steps, line.as_str())?;
    }
    Ok(())
}

fn run<L: Ledger>(rt: &HostRuntime, blank: Blank) -> Result<()>
    requires name { blank.name ≡ L.name }
    requires parts { blank.parts ≡ L.parts }
    requires some { 0 < blank.parts }
{
    let mut steps = Steps::<L>::new(blank);
    let mut servants = Servants {
        servant: None,
        base: None,
    };
    serve_all(rt, &mut servants, &mut steps)
}

fn main(rt: HostRuntime) -> Result<()> {
    run::<Brand>(&rt, Blank::new(1))
}
