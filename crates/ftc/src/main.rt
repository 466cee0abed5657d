//! `ftc`: Fault Tolerant CORBA from a script, and of running hosts. It makes the real devices, calls [`programs::ftc_main`]
//! and ends with the status.
#![tactic(auto)]

mod programs;

ghost use Rattle.std.specs.Prelude.{◌≡◌, ◌<◌};

use crate::programs::ftc_main;
use ft_base::Steps;
use ft_outside::{Sink, Source, StdSink, StdSource};
use outside_crews::{Crew, StdClock};
use outside_links::TcpNetwork;
use run_ends::{ProgramFault, end_by};
use std::marker::Brand;
use std::net::{Net, TcpListener, TcpStream};
use std::process::ExitCode;
use std::rt::Env;
use std::sync::Wait;
use std::sync::ledger::{Blank, Ledger};
use std::thread::Threads;
use std::time::Clock;
use std::{env, io};

// The most bytes of output that wait.
const OUTPUT: usize = 65_536;

// The words after the program's name; none where one of them is no text, since no form has such.
fn words_of(rt: &(impl Env + AllocGlobal)) -> io::Result<Vec<String>> {
    let mut words = Vec::new(rt.alloc());
    for word in env::args(rt)?.skip(1) {
        words.push(word)?;
    }
    Ok(words)
}

// The run over the system's sockets, clock and threads. Servant calls are counted in proofs alone.
fn run_counted<
    L: Ledger,
    R: Net<Listener = TcpListener, Stream = TcpStream>
        + Threads
        + Wait
        + Clock
        + AllocGlobal
        + Copy
        + Send
        + Drop
        + 'static,
    I: Source,
    B: Sink,
    E: Sink,
>(rt: &R, words: &[String], input: &mut I, out: &mut B, err: &mut E, blank: Blank) -> u8
    requires name { blank.name ≡ L.name }
    requires parts { blank.parts ≡ L.parts }
    requires some { 0 < blank.parts }
{
    let mut steps = Steps::<L>::new(blank);
    let mut net = TcpNetwork::new(*rt);
    let clock = StdClock::new(*rt);
    let mut crew = Crew::new(*rt, rt.alloc());
    ftc_main(
        rt,
        rt.alloc(),
        words,
        input,
        out,
        err,
        &mut net,
        &clock,
        &mut crew,
        &mut steps,
    )
}

// The status where no memory is found for the words, or for the output to wait in.
fn starved(rt: &HostRuntime) -> u8
    ensures { result ≡ 6 }
{
    let mut err = StdSink::new(rt.stderr());
    end_by(&mut err, ProgramFault::NoMemory)
}

fn main(rt: HostRuntime) -> ExitCode {
    let words = match words_of(&rt) {
        Ok(words) => words,
        Err(error) => {
            if error.kind() == io::ErrorKind::OutOfMemory {
                return ExitCode::from(starved(&rt));
            }
            Vec::new(rt.alloc())
        }
    };
    let mut input = StdSource::new(rt.reader());
    // Output waits in a buffer, and errors do not.
    let mut out = match io::BufWriter::with_capacity(rt.alloc(), OUTPUT, rt.stdout()) {
        Ok(writer) => StdSink::new(writer),
        Err(_) => return ExitCode::from(starved(&rt)),
    };
    let mut err = StdSink::new(rt.stderr());
    ExitCode::from(run_counted::<Brand, _, _, _, _>(
        &rt,
        words.as_slice(),
        &mut input,
        &mut out,
        &mut err,
        Blank::new(1),
    ))
}
