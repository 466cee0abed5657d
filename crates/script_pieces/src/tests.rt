ghost use Rattle.std.specs.Prelude.{◌≡◌, ◌<◌, ◌∷◌, ◌++◌, [], IfOk};

use crate::{Actor, FeedResult, LineResult, Pieces, RunEnd, run_script};
use ft_base::{Bytes, NoMemory, Steps};
use ft_outside::{MemSink, MemSource, StdSink};
use std::alloc::Global;
use std::io::{BufWriter, Cursor};
use std::marker::Brand;
use std::process::Abort;
use std::sync::ledger::{Blank, Ledger};

// Writes each line back, and refuses one of more than 4,096 bytes.
#[derive(Drop)]
struct Echo {
    last: u8,
}

fn with_end(alloc: Global, text: &[u8]) -> Result<Bytes, NoMemory>
    ensures { IfOk result (λ bytes. bytes ≡ text.now ++ 10 ∷ []) }
{
    let mut line = Vec::from_slice(alloc, text)?;
    line.push(b'\n')?;
    Ok(Bytes::from_vec(line))
}

impl Actor for Echo {
    ghost use Rattle.script_pieces.specs.Samples.{echo, echo_alike};

    type Fault = bool;

    ghost rules = { echo };

    ghost may_act = { λ _ _. Unit {0} };

    fn act<L: Ledger>(
        &mut self,
        alloc: Global,
        text: &[u8],
        _steps: &mut Steps<L>,
    ) -> LineResult<bool> {
        if text.len() > 4_096 {
            return LineResult::Stops(false);
        }
        match with_end(alloc, text) {
            Ok(line) => LineResult::Goes(line),
            Err(_) => LineResult::NoMemory,
        }
    }

    fn past(&self) -> bool {
        true
    }

    ghost alike = { echo_alike };
}

// Runs a script of these bytes, whose reads with these numbers fail, over a sink with this room.
fn runs<L: Ledger>(
    alloc: Global,
    script: &[u8],
    fails: &[u64],
    room: u64,
    steps: &mut Steps<L>,
) -> Result<(RunEnd<bool>, MemSink), NoMemory> {
    let mut input = MemSource::new(alloc, script, fails)?;
    let mut out = MemSink::new(alloc, room, &[])?;
    let ended = run_script(alloc, &mut Echo { last: 0 }, &mut input, &mut out, steps);
    Ok((ended, out))
}

fn each_script<L: Ledger>(rt: &impl Abort, alloc: Global, blank: Blank) -> Result<(), NoMemory>
    requires name { blank.name ≡ L.name }
    requires parts { blank.parts ≡ L.parts }
    requires some { 0 < blank.parts }
{
    let mut steps = Steps::<L>::new(blank);
    let (ended, out) = runs(alloc, b"ab\n\ncd", &[], 100, &mut steps)?;
    assert!(rt; matches!(ended, RunEnd::Done));
    assert_eq!(rt; out.bytes(), b"ab\n\ncd\n".as_slice());
    let (ended, out) = runs(alloc, b"ab\n\ncd\n", &[2], 100, &mut steps)?;
    assert!(rt; matches!(ended, RunEnd::ReadFailed));
    assert_eq!(rt; out.bytes(), b"ab\n\ncd\n".as_slice());
    let (ended, out) = runs(alloc, b"ab\ncd\n", &[], 5, &mut steps)?;
    assert!(rt; matches!(ended, RunEnd::WriteFailed));
    assert_eq!(rt; out.bytes(), b"ab\n".as_slice());
    Ok(())
}

#[test]
fn a_script_is_run_to_its_end_or_a_fault(rt: HostRuntime) -> Result<(), NoMemory> {
    each_script::<Brand>(&rt, rt.alloc(), Blank::new(1))
}

// Runs such a script over a sink whose output waits in a buffer, before a device that takes four
// bytes.
fn runs_late<L: Ledger>(
    alloc: Global,
    script: &[u8],
    fails: &[u64],
    steps: &mut Steps<L>,
) -> Result<RunEnd<bool>, NoMemory> {
    let mut input = MemSource::new(alloc, script, fails)?;
    let device = match BufWriter::with_capacity(alloc, 64, Cursor::new([0u8; 4])) {
        Ok(device) => device,
        Err(_) => return Err(NoMemory),
    };
    let mut out = StdSink::new(device);
    Ok(run_script(alloc, &mut Echo { last: 0 }, &mut input, &mut out, steps))
}

fn each_flush<L: Ledger>(rt: &impl Abort, alloc: Global, blank: Blank) -> Result<(), NoMemory>
    requires name { blank.name ≡ L.name }
    requires parts { blank.parts ≡ L.parts }
    requires some { 0 < blank.parts }
{
    let mut steps = Steps::<L>::new(blank);
    let ended = runs_late(alloc, b"abc", &[], &mut steps)?;
    assert!(rt; matches!(ended, RunEnd::Done));
    let ended = runs_late(alloc, b"ab\ncd", &[], &mut steps)?;
    assert!(rt; matches!(ended, RunEnd::WriteFailed));
    let ended = runs_late(alloc, b"ab\ncd\n", &[2], &mut steps)?;
    assert!(rt; matches!(ended, RunEnd::WriteFailed));
    Ok(())
}

#[test]
fn what_waits_is_out_before_more_is_read(rt: HostRuntime) -> Result<(), NoMemory> {
    each_flush::<Brand>(&rt, rt.alloc(), Blank::new(1))
}

// Feeds a script in pieces of one byte, and ends it.
fn each_byte<L: Ledger>(rt: &impl Abort, alloc: Global, blank: Blank) -> Result<(), NoMemory>
    requires name { blank.name ≡ L.name }
    requires parts { blank.parts ≡ L.parts }
    requires some { 0 < blank.parts }
{
    let mut steps = Steps::<L>::new(blank);
    let mut out = MemSink::new(alloc, 10_000, &[])?;
    let mut acts = Echo { last: 0 };
    let mut pieces = Pieces::new(alloc)?;
    for byte in b"ab\ncd" {
        let fed = pieces.feed(alloc, &mut acts, &[*byte], &mut out, &mut steps);
        assert!(rt; matches!(fed, FeedResult::On));
    }
    assert_eq!(rt; out.bytes(), b"ab\n".as_slice());
    let fed = pieces.feed(alloc, &mut acts, &[b'x'; 4_095], &mut out, &mut steps);
    assert!(rt; matches!(fed, FeedResult::On));
    let fed = pieces.feed(alloc, &mut acts, b"\nno", &mut out, &mut steps);
    assert!(rt; matches!(fed, FeedResult::Refused(2, false)));
    assert_eq!(rt; out.bytes(), b"ab\n".as_slice());
    Ok(())
}

#[test]
fn pieces_make_no_difference(rt: HostRuntime) -> Result<(), NoMemory> {
    each_byte::<Brand>(&rt, rt.alloc(), Blank::new(1))
}
