//! The run of a script that is made: of its output, only what its `show` prints, behind a line of counts.
ghost use Rattle.std.specs.Prelude.{◌≡◌, ℕ, ◌+◌, ◌-◌, ◌^◌, ◌<◌, ◌≤◌, ◌++◌, length, OnOk, IfOk, IfSome, codes};
ghost use Rattle.std.specs.Str.{bytes_eq};
ghost use Rattle.script_groups.specs.Groups.{entries_of};
ghost use Rattle.script_world.specs.Sound.{IsKeptWorld};
ghost use Rattle.run_top.specs.Making.{count_text, counted, counts_text, fresh, printed, show_text};

use crate::playing::Script;
use fault_script::{LimitName, LineFault};
use ft_base::{Bytes, NoMemory, Steps};
use itoa::Buffer;
use script_pieces::{Actor, LineResult};
use std::alloc::Global;
use std::marker::Model;
use std::sync::ledger::Ledger;

/// A world that acts the lines of a made script, and counts them.
#[derive(Drop)]
pub(crate) struct Made {
    script: Script,
    rounds: u32,
    lines: u64,
    calls: u64,
}

impl Model for Made {
    ghost use Rattle.run_top.specs.Making.{Tally};

    ghost Value = { Tally };

    ghost view = { λ m. record { world = m.script; rounds = m.rounds; lines = m.lines; calls = m.calls } };
}

// The calls behind some more, told before and after them. None where the counter stands at its end.
fn calls_behind(calls: u64, before: u64, after: u64) -> Option<u64>
    requires { before ≤ after }
    ensures sum { IfSome result (λ sum. sum ≡ calls + (after - before)) }
    ensures told { IfSome result (λ _. after < 2 ^ 64 - 1) }
{
    if after == u64::MAX {
        return None;
    }
    calls.checked_add(after - before)
}

fn push_count(text: &mut Vec<u8>, what: &[u8], number: u64) -> Result<(), NoMemory>
    ensures { OnOk result (text.new.items ≡ text.old.items ++ count_text what.now number) }
{
    let mut digits = Buffer::new();
    text.extend_from_slice(what)?;
    text.extend_from_slice(digits.format(number).as_bytes())?;
    Ok(())
}

fn is_show(text: &[u8]) -> bool
    ensures { result ≡ bytes_eq text.now show_text }
{
    text == b"show bank".as_slice()
}

impl Made {
    /// A made script of which no line was acted yet.
    pub(crate) fn new(alloc: Global, rounds: u32) -> Result<Made, NoMemory>
        ensures { IfOk result (λ made. made ≡ fresh rounds) }
    {
        let script = Script::new(alloc)?;
        Ok(Made {
            script,
            rounds,
            lines: 0,
            calls: 0,
        })
    }

    fn counts(&self, alloc: Global) -> Result<Vec<u8>, NoMemory>
        requires { IsKeptWorld self.now.world }
        ensures { IfOk result (λ text. text.items ≡ counts_text self.now) }
    {
        let world = self.script.world();
        let mut text = Vec::new(alloc);
        push_count(&mut text, b"made ", u64::from(self.rounds))?;
        push_count(&mut text, b" lines ", self.lines)?;
        push_count(&mut text, b" messages ", world.message_count() as u64)?;
        push_count(&mut text, b" entries ", world.entries())?;
        push_count(&mut text, b" calls ", self.calls)?;
        text.push(b'\n')?;
        Ok(text)
    }

    // What is printed of a line's output, once it is counted.
    fn printed(&self, alloc: Global, text: &[u8], out: &Bytes) -> Result<Bytes, NoMemory>
        requires { IsKeptWorld self.now.world }
        ensures { IfOk result (λ bytes. bytes ≡ printed self.now text.now out.now) }
    {
        if !is_show(text) {
            return Ok(Bytes::from_vec(Vec::new(alloc)));
        }
        let mut counts = self.counts(alloc)?;
        counts.extend_from_slice(out.bytes())?;
        Ok(Bytes::from_vec(counts))
    }
}

impl Actor for Made {
    ghost use Rattle.run_top.specs.Making.{MayAct, rules};
    ghost use Rattle.run_top.specs.MakingLaws.{alike};

    type Fault = LineFault;

    ghost rules = { rules };

    ghost may_act = { MayAct };

    fn act<L: Ledger>(
        &mut self,
        alloc: Global,
        text: &[u8],
        steps: &mut Steps<L>,
    ) -> LineResult<LineFault> {
        let before = steps.count();
        let out = match self.script.act(alloc, text, steps) {
            LineResult::Goes(out) => out,
            LineResult::Stops(why) => return LineResult::Stops(why),
            LineResult::NoMemory => return LineResult::NoMemory,
        };
        let Some(calls) = calls_behind(self.calls, before, steps.count()) else {
            return LineResult::NoMemory;
        };
        self.lines += 1;
        self.calls = calls;
        match self.printed(alloc, text, &out) {
            Ok(bytes) => LineResult::Goes(bytes),
            Err(NoMemory) => LineResult::NoMemory,
        }
    }

    fn past(&self) -> LineFault {
        LineFault::Limit(LimitName::Script)
    }

    ghost alike = { alike };
}
