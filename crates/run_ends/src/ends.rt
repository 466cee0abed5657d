ghost use Rattle.std.specs.Prelude.{◌≡◌};
ghost use Rattle.run_ends.specs.Ends.{IsTold, end_status, end_text};

use ft_outside::{Sink, WholeWrite, write_all};

/// Why the program ends before its work is done.
#[derive(Clone, Copy, Debug, PartialEq, Eq)]
pub enum ProgramFault {
    /// The words are of no form.
    Usage,
    /// A read of the input failed.
    Read,
    /// A write of the output failed.
    Write,
    NoMemory,
    /// The network refused a door.
    Bind,
    /// The crew refused a thread.
    Thread,
}

/// Ends with a status. A fault of the sink of errors changes nothing of it.
pub fn end<E: Sink>(err: &mut E, status: u8, text: &[u8]) -> u8
    ensures status { result ≡ status }
    ensures told { IsTold (E.holds err.old) (E.holds err.new) (E.count err.old) (E.count err.new) text.now }
{
    match write_all(err, text) {
        WholeWrite::All => status,
        WholeWrite::Failed => status,
    }
}

fn end_status(fault: ProgramFault) -> u8
    ensures { result ≡ end_status fault }
{
    match fault {
        ProgramFault::Usage => 2,
        ProgramFault::Read => 4,
        ProgramFault::Write => 5,
        ProgramFault::NoMemory => 6,
        ProgramFault::Bind => 7,
        ProgramFault::Thread => 8,
    }
}

fn end_text(fault: ProgramFault) -> &'static [u8]
    ensures { result.now ≡ end_text fault }
{
    match fault {
        ProgramFault::Usage => {
            b"ftc: usage: ftc run [--make N] | live --hosts H --clients C --calls K --style S [--kill X] [--after N]\n"
        }
        ProgramFault::Read => b"ftc: read fault\n",
        ProgramFault::Write => b"ftc: write fault\n",
        ProgramFault::NoMemory => b"ftc: no memory\n",
        ProgramFault::Bind => b"ftc: bind fault\n",
        ProgramFault::Thread => b"ftc: thread fault\n",
    }
}

/// Ends with the status of a fault, and its text.
pub fn end_by<E: Sink>(err: &mut E, fault: ProgramFault) -> u8
    ensures status { result ≡ end_status fault }
    ensures told { IsTold (E.holds err.old) (E.holds err.new) (E.count err.old) (E.count err.new) (end_text fault) }
{
    end(err, end_status(fault), end_text(fault))
}
