//! The run, from its words to its status.
ghost use Rattle.std.specs.Prelude.{◌≡◌, IfOk};
ghost use Rattle.live_run.specs.Faults.{after_binds, after_starts, fault_in};
ghost use Rattle.live_run.specs.Runs.{CanRun};
ghost use Rattle.live_top.specs.Headline.{IsLiveRun, IsPutOut, IsRunText};

use crate::texts::live_text;
use crate::words::asked;
use ft_base::NoMemory;
use ft_outside::{Flush, Sink, WholeWrite, write_all};
use live_run::{RunEnd, RunFault, run_live};
use live_words::LiveWords;
use outside_crews::{Clock, Crew};
use outside_links::{Acceptor, Dialer, Link, Network};
use run_ends::{ProgramFault, end_by};
use std::alloc::Global;
use std::sync::Wait;
use std::thread::Threads;
use std::time;

// Runs what the words ask for, and makes its text.
fn run_text<
    R: Threads + Wait + time::Clock + Clone + Drop + Send + 'static,
    L: Link + Drop + Send + 'static,
    A: Acceptor<L> + Send + 'static,
    D: Dialer<L> + Send + 'static,
    N: Network<L, A, D>,
    C: Clock,
>(
    rt: &R,
    alloc: Global,
    live: &LiveWords,
    net: &mut N,
    clock: &C,
    crew: &mut Crew<R>,
) -> Result<Vec<u8>, RunFault>
    requires { CanRun live.now }
    ensures text { IfOk result (λ text. IsRunText live.now (record { callers = N.callers net.old; broken = N.broken net.old })
        (record { callers = N.callers net.new; broken = N.broken net.new }) text.items) }
    ensures binds { N.count net.new ≡ after_binds (fault_in result) (N.count net.old) }
    ensures starts { crew.new.faults ≡ after_starts (fault_in result) crew.old.faults }
{
    let RunEnd { tolds, core } = match run_live(rt, alloc, live, net, clock, crew) {
        Ok(end) => end,
        Err(fault) => return Err(fault),
    };
    match live_text(alloc, &core, tolds.as_slice()) {
        Ok(text) => Ok(text),
        Err(NoMemory) => Err(RunFault::NoMemory),
    }
}

// Writes a text, none of which waits then.
fn put_out<B: Sink>(out: &mut B, text: &[u8]) -> WholeWrite
    ensures { IsPutOut (B.holds out.old) (B.holds out.new) (B.count out.old) (B.count out.new) text.now result }
{
    match write_all(out, text) {
        WholeWrite::Failed => return WholeWrite::Failed,
        WholeWrite::All => (),
    }
    match out.flush() {
        Flush::Done => WholeWrite::All,
        Flush::Failed => WholeWrite::Failed,
    }
}

/// `ftc live`: runs hosts, clients and a monitor, and prints how each client's calls ended, and then the group. It answers the
/// status of the program, with its text on the sink of errors where it is not 0. Nothing is written before all have ended.
///
/// | status | when |
/// |---|---|
/// | 0 | all was written |
/// | 2 | the words are of no form |
/// | 5 | the sink of output failed |
/// | 6 | out of memory |
/// | 7 | the network refused a door |
/// | 8 | the crew refused a thread |
pub fn ftc_live<
    R: Threads + Wait + time::Clock + Clone + Drop + Send + 'static,
    L: Link + Drop + Send + 'static,
    A: Acceptor<L> + Send + 'static,
    D: Dialer<L> + Send + 'static,
    N: Network<L, A, D>,
    B: Sink,
    E: Sink,
    C: Clock,
>(
    rt: &R,
    alloc: Global,
    words: &[String],
    out: &mut B,
    err: &mut E,
    net: &mut N,
    clock: &C,
    crew: &mut Crew<R>,
) -> u8
    ensures run { IsLiveRun words.now result
        (record {
          out = B.holds out.old;
          write_faults = B.count out.old;
          err = E.holds err.old;
          error_faults = E.count err.old;
          callers = N.callers net.old;
          broken = N.broken net.old;
          bind_faults = N.count net.old;
          start_faults = crew.old.faults;
        })
        (record {
          out = B.holds out.new;
          write_faults = B.count out.new;
          err = E.holds err.new;
          error_faults = E.count err.new;
          callers = N.callers net.new;
          broken = N.broken net.new;
          bind_faults = N.count net.new;
          start_faults = crew.new.faults;
        }) }
{
    let live = match asked(alloc, words) {
        Ok(Some(live)) => live,
        Ok(None) => return end_by(err, ProgramFault::Usage),
        Err(NoMemory) => return end_by(err, ProgramFault::NoMemory),
    };
    let text = match run_text(rt, alloc, &live, net, clock, crew) {
        Ok(text) => text,
        Err(RunFault::Bind) => return end_by(err, ProgramFault::Bind),
        Err(RunFault::Thread) => return end_by(err, ProgramFault::Thread),
        Err(RunFault::NoMemory) => return end_by(err, ProgramFault::NoMemory),
    };
    match put_out(out, text.as_slice()) {
        WholeWrite::All => 0,
        WholeWrite::Failed => end_by(err, ProgramFault::Write),
    }
}
