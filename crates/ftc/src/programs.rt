//! The run of the program, whichever its words ask for.
ghost use Rattle.std.specs.Prelude.{◌≡◌, map, string_bytes};
ghost use Rattle.live_top.specs.Headline.{IsLive, IsLiveRun};
ghost use Rattle.run_top.specs.Headline.{IsProgramRun};

use ft_base::Steps;
use ft_outside::{Sink, Source};
use live_top::{ftc_live, is_live};
use outside_crews::{Clock, Crew};
use outside_links::{Acceptor, Dialer, Link, Network};
use run_top::ftc_run;
use std::alloc::Global;
use std::sync::Wait;
use std::sync::ledger::Ledger;
use std::thread::Threads;
use std::time;

/// Runs `ftc live` where the first word is `live`, and else `ftc run`. It answers the status of the program.
pub fn ftc_main<
    R: Threads + Wait + time::Clock + Clone + Drop + Send + 'static,
    L: Link + Drop + Send + 'static,
    A: Acceptor<L> + Send + 'static,
    D: Dialer<L> + Send + 'static,
    N: Network<L, A, D>,
    I: Source,
    B: Sink,
    E: Sink,
    C: Clock,
    G: Ledger,
>(
    rt: &R,
    alloc: Global,
    words: &[String],
    input: &mut I,
    out: &mut B,
    err: &mut E,
    net: &mut N,
    clock: &C,
    crew: &mut Crew<R>,
    steps: &mut Steps<G>,
) -> u8
    ensures live { IsLive (map string_bytes words.now) → IsLiveRun words.now result
        (record {
          out = B.holds out.old;
          write_faults = B.count out.old;
          err = E.holds err.old;
          error_faults = E.count err.old;
          callers = N.callers net.old;
          broken = N.broken net.old;
          bind_faults = N.count net.old;
          start_faults = crew.old.faults;
        })
        (record {
          out = B.holds out.new;
          write_faults = B.count out.new;
          err = E.holds err.new;
          error_faults = E.count err.new;
          callers = N.callers net.new;
          broken = N.broken net.new;
          bind_faults = N.count net.new;
          start_faults = crew.new.faults;
        }) }
    ensures script { ¬ (IsLive (map string_bytes words.now)) → IsProgramRun words.now result
        (record {
          left = I.left input.old;
          read_faults = I.count input.old;
          out = B.holds out.old;
          write_faults = B.count out.old;
          err = E.holds err.old;
          error_faults = E.count err.old;
          calls = steps.old;
        })
        (record {
          left = I.left input.new;
          read_faults = I.count input.new;
          out = B.holds out.new;
          write_faults = B.count out.new;
          err = E.holds err.new;
          error_faults = E.count err.new;
          calls = steps.new;
        }) }
{
    if is_live(words) {
        ftc_live(rt, alloc, words, out, err, net, clock, crew)
    } else {
        ftc_run(alloc, words, input, out, err, steps)
    }
}
