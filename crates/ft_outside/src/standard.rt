ghost use Rattle.std.specs.Prelude.{◌≡◌, ℕ, ◌<◌, None, length};
ghost use Rattle.ft_outside.specs.Outside.{IsFlushed, IsRead, IsWritten};
ghost use Rattle.ft_outside.specs.Standard.{IsFlushOfDevice, IsReadOfDevice, IsWriteToDevice};

use crate::schedules::next_count;
use crate::sinks::{Flush, Put, Sink};
use crate::sources::{Got, Source};
use std::io::{Read, Write};
use std::marker::Model;

/// A source over a reader of the system, as `rt.reader()` for standard input. A read that answers an
/// error is a fault. A run sees its number of faults alone, and nothing of its bytes.
#[derive(Debug, Drop)]
pub struct StdSource<R: Read + Drop> {
    reader: R,
    faults: u64,
}

/// A sink over a writer of the system, as `rt.stdout()` and `rt.stderr()`. A write that answers an
/// error, or takes nothing, is a fault, and so is a flush that answers an error. Over a `BufWriter`
/// what was written waits there until it is flushed. A run sees its number of faults alone, and
/// nothing of its bytes.
#[derive(Debug, Drop)]
pub struct StdSink<W: Write + Drop> {
    writer: W,
    faults: u64,
}

impl<R: Read + Drop> Model for StdSource<R> {
    ghost use Rattle.ft_outside.specs.Standard.{Adapter};

    ghost Value = { Adapter R };

    ghost view = { λ source. record { device = source.reader; faults = source.faults } };
}

impl<W: Write + Drop> Model for StdSink<W> {
    ghost use Rattle.ft_outside.specs.Standard.{Adapter};

    ghost Value = { Adapter W };

    ghost view = { λ sink. record { device = sink.writer; faults = sink.faults } };
}

impl<R: Read + Drop> StdSource<R> {
    /// A source over this reader, with no faults so far.
    pub fn new(reader: R) -> StdSource<R>
        ensures { result ≡ record { device = reader; faults = 0 } }
    {
        StdSource { reader, faults: 0 }
    }
}

impl<R: Read + Drop> Source for StdSource<R> {
    ghost use Rattle.std.specs.Prelude.{None};

    ghost left = { λ _. None };

    ghost count = { λ source. source.faults };

    fn read(&mut self, into: &mut [u8]) -> Got
        requires { 0 < length into.old }
        ensures read { IsRead None None self.old.faults self.new.faults into.new result }
        ensures device { IsReadOfDevice (R.remaining self.old.device) (R.remaining self.new.device) into.new result }
    {
        match self.reader.read(into) {
            Ok(0) => Got::End,
            Ok(count) => Got::Bytes(count),
            Err(_) => {
                self.faults = next_count(self.faults);
                Got::Failed
            }
        }
    }
}

impl<W: Write + Drop> StdSink<W> {
    /// A sink over this writer, with no faults so far.
    pub fn new(writer: W) -> StdSink<W>
        ensures { result ≡ record { device = writer; faults = 0 } }
    {
        StdSink { writer, faults: 0 }
    }
}

impl<W: Write + Drop> Sink for StdSink<W> {
    ghost use Rattle.std.specs.Prelude.{None};

    ghost holds = { λ _. None };

    ghost count = { λ sink. sink.faults };

    fn write(&mut self, piece: &[u8]) -> Put
        requires { 0 < length piece.now }
        ensures written { IsWritten None None self.old.faults self.new.faults piece.now result }
        ensures device { IsWriteToDevice (W.contents self.old.device) (W.contents self.new.device) piece.now result }
    {
        match self.writer.write(piece) {
            Ok(0) | Err(_) => {
                self.faults = next_count(self.faults);
                Put::Failed
            }
            Ok(count) => Put::Took(count),
        }
    }

    fn flush(&mut self) -> Flush
        ensures flushed { IsFlushed None None self.old.faults self.new.faults result }
        ensures device { IsFlushOfDevice (W.contents self.old.device) (W.contents self.new.device) }
    {
        match self.writer.flush() {
            Ok(()) => Flush::Done,
            Err(_) => {
                self.faults = next_count(self.faults);
                Flush::Failed
            }
        }
    }
}
