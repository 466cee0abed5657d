ghost use Rattle.std.specs.Prelude.{◌≡◌, ◌≢◌, ◌≤◌, ◌⊎◌, IfOk};
ghost use Rattle.ft_outside.specs.Outside.{next_count};
ghost use Rattle.run_ends.specs.Ends.{IfFault, IsTold, end_text};
ghost use Rattle.run_ends.specs.declared.ends.ProgramFault.TheVariants as faults;
ghost use Rattle.run_top.specs.Headline.{IfBroken, IsBroken, IsDone, IsProgramRun, IsStatus, made_run, refusal_text, sinks};

use crate::laws::made_runs_are_whole;
use crate::making::Made;
use crate::playing::Script;
use crate::words::{is_run, rounds_in};
use fault_script::LineFault;
use ft_base::{NoMemory, Steps};
use ft_outside::{Sink, Source};
use itoa::Buffer;
use made_scripts::make_script;
use run_ends::{ProgramFault, end, end_by};
use script_pieces::{FeedResult, RunEnd, run_script, run_text};
use std::alloc::Global;
use std::mem;
use std::sync::ledger::Ledger;

// `ftc: line N: WHY`
fn refusal_line(alloc: Global, number: u64, why: LineFault) -> Result<Vec<u8>, NoMemory>
    ensures { IfOk result (λ text. text.items ≡ refusal_text number why) }
{
    let mut buffer = Buffer::new();
    let mut text = Vec::from_slice(alloc, b"ftc: line ")?;
    text.extend_from_slice(buffer.format(number).as_bytes())?;
    text.extend_from_slice(b": ")?;
    text.extend_from_slice(why.text())?;
    text.push(b'\n')?;
    Ok(text)
}

// A refused line ends with 3 and its text, or with 6 where no memory is found for the text.
fn refuse<E: Sink>(alloc: Global, err: &mut E, number: u64, why: LineFault) -> u8
    ensures status { (result ≡ 3) ⊎ (result ≡ 6) }
    ensures refused { result ≡ 3 → IsTold (E.holds err.old) (E.holds err.new) (E.count err.old) (E.count err.new) (refusal_text number why) }
    ensures starved { result ≡ 6 → IsTold (E.holds err.old) (E.holds err.new) (E.count err.old) (E.count err.new) (end_text faults.NoMemory) }
{
    match refusal_line(alloc, number, why) {
        Ok(text) => end(err, 3, text.as_slice()),
        Err(NoMemory) => end_by(err, ProgramFault::NoMemory),
    }
}

// Makes a script of so many rounds, and runs it for its counts.
fn run_made<B: Sink, E: Sink, L: Ledger>(
    alloc: Global,
    rounds: u32,
    out: &mut B,
    err: &mut E,
    steps: &mut Steps<L>,
) -> u8
    requires { rounds ≤ 50000 }
    ensures statuses { (result ≡ 0) ⊎ ((result ≡ 5) ⊎ (result ≡ 6)) }
    ensures done { result ≡ 0 → IsDone result (made_run rounds)
        (sinks (B.holds out.old) (B.count out.old) (E.holds err.old) (E.count err.old) steps.old)
        (sinks (B.holds out.new) (B.count out.new) (E.holds err.new) (E.count err.new) steps.new) }
    ensures broken { IfBroken result (IsBroken (made_run rounds)
        (sinks (B.holds out.old) (B.count out.old) (E.holds err.old) (E.count err.old) steps.old)
        (sinks (B.holds out.new) (B.count out.new) (E.holds err.new) (E.count err.new) steps.new)) }
    ensures write_fault { result ≡ 5 → B.count out.new ≡ next_count (B.count out.old) }
    ensures no_write_fault { result ≢ 5 → B.count out.new ≡ B.count out.old }
    ensures fault_text { IfFault result (λ text.
        IsTold (E.holds err.old) (E.holds err.new) (E.count err.old) (E.count err.new) text) }
{
    made_runs_are_whole();
    let Ok(mut made) = Made::new(alloc, rounds) else {
        return end_by(err, ProgramFault::NoMemory);
    };
    let Ok(script) = make_script(alloc, rounds) else {
        return end_by(err, ProgramFault::NoMemory);
    };
    match run_text(alloc, &mut made, script.bytes(), out, steps) {
        FeedResult::On => 0,
        FeedResult::Refused(..) => unreachable!(),
        FeedResult::WriteFailed => end_by(err, ProgramFault::Write),
        FeedResult::NoMemory => end_by(err, ProgramFault::NoMemory),
    }
}

/// `ftc run`: runs the script that the source gives; `ftc run --make N`: makes a script of N rounds, runs
/// it, and prints what its `show` prints behind a line of counts. It answers the status of the program,
/// with its text on the sink of errors where it is not 0. The memory of a script's world is not given
/// back: the process is to end behind it.
///
/// | status | when |
/// |---|---|
/// | 0 | the script was read to its end, and all was written |
/// | 2 | the words are of no form |
/// | 3 | a line was refused, which none of a script that is made is |
/// | 4 | the source failed |
/// | 5 | the sink of output failed |
/// | 6 | out of memory |
pub fn ftc_run<A: Source, B: Sink, E: Sink, L: Ledger>(
    alloc: Global,
    words: &[String],
    input: &mut A,
    out: &mut B,
    err: &mut E,
    steps: &mut Steps<L>,
) -> u8
    ensures run { IsProgramRun words.now result
        (record {
          left = A.left input.old;
          read_faults = A.count input.old;
          out = B.holds out.old;
          write_faults = B.count out.old;
          err = E.holds err.old;
          error_faults = E.count err.old;
          calls = steps.old;
        })
        (record {
          left = A.left input.new;
          read_faults = A.count input.new;
          out = B.holds out.new;
          write_faults = B.count out.new;
          err = E.holds err.new;
          error_faults = E.count err.new;
          calls = steps.new;
        }) }
{
    if !is_run(words) {
        let Some(rounds) = rounds_in(words) else {
            return end_by(err, ProgramFault::Usage);
        };
        return run_made(alloc, rounds, out, err, steps);
    }
    let Ok(mut script) = Script::new(alloc) else {
        return end_by(err, ProgramFault::NoMemory);
    };
    let end_of_run = run_script(alloc, &mut script, input, out, steps);
    // Entry by entry the world would be freed for nothing: the process ends behind this.
    mem::forget(script);
    match end_of_run {
        RunEnd::Done => 0,
        RunEnd::Refused(number, why) => refuse(alloc, err, number, why),
        RunEnd::ReadFailed => end_by(err, ProgramFault::Read),
        RunEnd::WriteFailed => end_by(err, ProgramFault::Write),
        RunEnd::NoMemory => end_by(err, ProgramFault::NoMemory),
    }
}
