//! Rows of links to the hosts of a script. They are served through the port of its world. Each line of standard input is
//! a line of a script or a row; it is written back, and what it prints stands below it, behind four blanks. Behind an
//! empty line another script begins.
//!
//! Below `inject H OCTETS` it also says what comes of a link with these bytes in pieces of several sizes: what is written
//! on it is the same.
#![tactic(auto)]

ghost use Rattle.std.specs.Prelude.{◌≡◌, ◌<◌};

mod links;
mod scripts;

use crate::links::{fails, pieces};
use crate::scripts::last_printed;
use anyhow::Result;
use ft_base::Steps;
use octet_words::first_word;
use std::alloc::Global;
use std::marker::Brand;
use std::sync::Wait;
use std::sync::ledger::{Blank, Ledger};

// What stands below a line, which is the last of these.
fn answer<R: Wait, L: Ledger>(
    rt: &R,
    alloc: Global,
    lines: &[String],
    line: &str,
    steps: &mut Steps<L>,
) -> Result<String> {
    let (verb, words) = first_word(line);
    match verb {
        "fails" => fails(rt, alloc, lines, words, steps),
        "inject" => {
            let mut text = last_printed(alloc, lines, line, steps)?;
            pieces(rt, alloc, lines, words, &mut text, steps)?;
            Ok(text)
        }
        _ => last_printed(alloc, lines, line, steps),
    }
}

// Writes each line back, and what it prints below it.
fn rows<R: Wait + Input + Print + AllocGlobal, L: Ledger>(rt: &R, blank: Blank) -> Result<()>
    requires name { blank.name ≡ L.name }
    requires parts { blank.parts ≡ L.parts }
    requires some { 0 < blank.parts }
{
    let alloc = rt.alloc();
    let mut steps = Steps::<L>::new(blank);
    let mut lines = Vec::new(alloc);
    for line in rt.lines(alloc) {
        let line = line?;
        println!(rt; "{}", line.as_str())?;
        if line.is_empty() {
            lines.clear();
        } else if !line.starts_with('#') {
            let text = answer(rt, alloc, lines.as_slice(), line.as_str(), &mut steps)?;
            for printed in text.lines() {
                println!(rt; "    {printed}")?;
            }
            if !line.starts_with("fails ") {
                lines.push(line)?;
            }
        }
    }
    Ok(())
}

fn main(rt: HostRuntime) -> Result<()> {
    rows::<_, Brand>(&rt, Blank::new(1))
}
