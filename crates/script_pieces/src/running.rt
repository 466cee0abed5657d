ghost use Rattle.std.specs.Prelude.{◌≤◌, [], IfSome};
ghost use Rattle.script_pieces.specs.Runs.{run, script_limit};
ghost use Rattle.script_pieces.specs.Feeds.{IsFed, IsDone, IsHandedOn, IfOn, trace, point, resume};
ghost use Rattle.script_pieces.specs.Scripts.{IsEnded, IsOver, bytes_read, outside};

use crate::actors::Actor;
use crate::feeding::{FeedResult, Pieces, front};
use ft_base::Steps;
use ft_outside::{Flush, Got, Sink, Source};
use std::alloc::Global;
use std::sync::ledger::Ledger;

const PIECE: usize = 65_536;

/// How the run of a script ended. `Refused` has the number of the refused line, from 1, and why it
/// was refused.
#[derive(Debug, Drop)]
pub enum RunEnd<F> {
    Done,
    Refused(u64, F),
    ReadFailed,
    WriteFailed,
    NoMemory,
}

/// Runs a script that comes from a source. The output of the lines of a piece is out before the next
/// piece is read, and that of the last lines at the end of the run. Where a write failed or memory was
/// wanted, nothing more is flushed.
pub fn run_script<A: Actor, S: Source, B: Sink, L: Ledger>(
    alloc: Global,
    acts: &mut A,
    input: &mut S,
    out: &mut B,
    steps: &mut Steps<L>,
) -> RunEnd<A::Fault>
    requires { A.may_act acts.old 1 }
    ensures over { IsOver A.rules acts.old
        (outside (S.left input.old) (S.count input.old) (trace (B.holds out.old) (B.count out.old) steps.old))
        (outside (S.left input.new) (S.count input.new) (trace (B.holds out.new) (B.count out.new) steps.new)) result }

    // Where the source tells what it has left, these are the bytes that were read.
    ensures told { IfSome (S.left input.old) (λ _. IsEnded A.rules acts.old (bytes_read (S.left input.old) (S.left input.new))
        (outside (S.left input.old) (S.count input.old) (trace (B.holds out.old) (B.count out.old) steps.old))
        (outside (S.left input.new) (S.count input.new) (trace (B.holds out.new) (B.count out.new) steps.new)) result) }
{
    run_pieces(alloc, acts, input, out, steps)
}

/// Runs a script that is there whole. Its output is out at the end of the run; where a write failed or
/// memory was wanted, nothing more is flushed.
pub fn run_text<A: Actor, B: Sink, L: Ledger>(
    alloc: Global,
    acts: &mut A,
    text: &[u8],
    out: &mut B,
    steps: &mut Steps<L>,
) -> FeedResult<A::Fault>
    requires { A.may_act acts.old 1 }
    ensures { IsDone (run A.rules acts.old text.now) (trace (B.holds out.old) (B.count out.old) steps.old)
        (trace (B.holds out.new) (B.count out.new) steps.new) result }
{
    let mut pieces = match Pieces::new(alloc) {
        Ok(pieces) => pieces,
        Err(_) => return FeedResult::NoMemory,
    };
    match feed_out(alloc, &mut pieces, acts, text, out, steps) {
        FeedResult::On => finish_out(alloc, &mut pieces, acts, out, steps),
        FeedResult::Refused(number, why) => FeedResult::Refused(number, why),
        FeedResult::WriteFailed => FeedResult::WriteFailed,
        FeedResult::NoMemory => FeedResult::NoMemory,
    }
}

fn run_pieces<A: Actor, S: Source, B: Sink, L: Ledger>(
    alloc: Global,
    acts: &mut A,
    input: &mut S,
    out: &mut B,
    steps: &mut Steps<L>,
) -> RunEnd<A::Fault>
    requires { A.may_act acts.old 1 }
    ensures { IsOver A.rules acts.old
        (outside (S.left input.old) (S.count input.old) (trace (B.holds out.old) (B.count out.old) steps.old))
        (outside (S.left input.new) (S.count input.new) (trace (B.holds out.new) (B.count out.new) steps.new)) result }
{
    let mut pieces = match Pieces::new(alloc) {
        Ok(pieces) => pieces,
        Err(_) => return RunEnd::NoMemory,
    };
    let mut buffer = match vec![in alloc; 0u8; PIECE] {
        Ok(buffer) => buffer,
        Err(_) => return RunEnd::NoMemory,
    };
    let room = buffer.as_mut_slice();
    'pieces: loop {
        match input.read(room) {
            Got::Failed => return RunEnd::ReadFailed,
            Got::End => match finish_out(alloc, &mut pieces, acts, out, steps) {
                FeedResult::On => return RunEnd::Done,
                FeedResult::Refused(number, why) => return RunEnd::Refused(number, why),
                FeedResult::WriteFailed => return RunEnd::WriteFailed,
                FeedResult::NoMemory => return RunEnd::NoMemory,
            },
            Got::Bytes(count) => {
                match feed_out(alloc, &mut pieces, acts, front(room, count), out, steps) {
                    FeedResult::On => {}
                    FeedResult::Refused(number, why) => return RunEnd::Refused(number, why),
                    FeedResult::WriteFailed => return RunEnd::WriteFailed,
                    FeedResult::NoMemory => return RunEnd::NoMemory,
                }
            }
        }
    }
}

// Feeds a piece, and hands its output on.
#[tactic(auto, using(crate::proofs::Handing::fed_handed, crate::proofs::Handing::on_handed))]
fn feed_out<A: Actor, B: Sink, L: Ledger>(
    alloc: Global,
    pieces: &mut Pieces,
    acts: &mut A,
    piece: &[u8],
    out: &mut B,
    steps: &mut Steps<L>,
) -> FeedResult<A::Fault>
    requires { A.may_act acts.old pieces.old.number }
    ensures fed { IsFed A.rules (point acts.old pieces.old piece.now) (trace (B.holds out.old) (B.count out.old) steps.old)
        (point acts.new pieces.new []) (trace (B.holds out.new) (B.count out.new) steps.new) result }
    ensures within { IfOn result (pieces.new.read ≤ script_limit) }
    ensures next { IfOn result (A.may_act acts.new pieces.new.number) }
{
    let fed = pieces.feed(alloc, acts, piece, out, steps);
    hand_on(fed, out)
}

// Ends the script, and hands its output on.
#[tactic(auto, using(crate::proofs::Handing::done_handed))]
fn finish_out<A: Actor, B: Sink, L: Ledger>(
    alloc: Global,
    pieces: &mut Pieces,
    acts: &mut A,
    out: &mut B,
    steps: &mut Steps<L>,
) -> FeedResult<A::Fault>
    requires { A.may_act acts.old pieces.old.number }
    ensures { IsDone (resume A.rules acts.old pieces.old []) (trace (B.holds out.old) (B.count out.old) steps.old)
        (trace (B.holds out.new) (B.count out.new) steps.new) result }
{
    let fed = pieces.finish(alloc, acts, out, steps);
    hand_on(fed, out)
}

// Flushes the output of what was fed, where that went on or was refused.
fn hand_on<B: Sink, F: Drop>(fed: FeedResult<F>, out: &mut B) -> FeedResult<F>
    ensures { IsHandedOn fed (B.holds out.old) (B.holds out.new) (B.count out.old) (B.count out.new) result }
{
    match fed {
        FeedResult::WriteFailed | FeedResult::NoMemory => fed,
        FeedResult::On | FeedResult::Refused(_, _) => match out.flush() {
            Flush::Done => fed,
            Flush::Failed => FeedResult::WriteFailed,
        },
    }
}
