ghost use Rattle.std.specs.Prelude.{◌≡◌, ◌<◌, true, false, None, length};
ghost use Rattle.ft_outside.specs.Outside.{IsRead, IsWritten};

use crate::links::Link;
use ft_outside::{Flush, Got, Put, Sink, Source, next_count};
use std::io::{Read, Write};
use std::net::{Shutdown, TcpStream};

/// A link over a socket of the system. It tells nothing of its content.
#[derive(Drop)]
pub struct TcpLink {
    pub(crate) stream: TcpStream,
    is_closed: bool,
    faults: u64,
}

impl TcpLink {
    /// An open link with no faults so far.
    pub fn new(stream: TcpStream) -> TcpLink
        ensures open { result.is_closed ≡ false }
        ensures faults { result.faults ≡ 0 }
    {
        TcpLink {
            stream,
            is_closed: false,
            faults: 0,
        }
    }

    /// How many faults there were.
    pub fn faults(&self) -> u64
        ensures { result ≡ self.now.faults }
    {
        self.faults
    }

    fn take_in(&mut self, into: &mut [u8]) -> Got
        requires { 0 < length into.old }
        ensures read { IsRead None None self.old.faults self.new.faults into.new result }
        ensures closed { self.new.is_closed ≡ self.old.is_closed }
        ensures shut { self.old.is_closed ≡ true → result ≡ Got.Failed }
    {
        if !self.is_closed {
            match self.stream.read(into) {
                Ok(0) => return Got::End,
                Ok(count) => return Got::Bytes(count),
                Err(_) => {}
            }
        }
        self.faults = next_count(self.faults);
        Got::Failed
    }

    fn put_out(&mut self, piece: &[u8]) -> Put
        requires { 0 < length piece.now }
        ensures written { IsWritten None None self.old.faults self.new.faults piece.now result }
        ensures closed { self.new.is_closed ≡ self.old.is_closed }
        ensures shut { self.old.is_closed ≡ true → result ≡ Put.Failed }
    {
        if !self.is_closed {
            match self.stream.write(piece) {
                Ok(0) | Err(_) => {}
                Ok(count) => return Put::Took(count),
            }
        }
        self.faults = next_count(self.faults);
        Put::Failed
    }
}

impl Source for TcpLink {
    ghost use Rattle.std.specs.Prelude.{None};

    ghost left = { λ _. None };

    ghost count = { λ link. link.faults };

    fn read(&mut self, into: &mut [u8]) -> Got {
        self.take_in(into)
    }
}

impl Sink for TcpLink {
    ghost use Rattle.std.specs.Prelude.{None};

    ghost holds = { λ _. None };

    ghost count = { λ link. link.faults };

    fn write(&mut self, piece: &[u8]) -> Put {
        self.put_out(piece)
    }

    // nothing waits in a link
    fn flush(&mut self) -> Flush {
        Flush::Done
    }
}

impl Link for TcpLink {
    ghost use Rattle.std.specs.Prelude.{refl};

    ghost faults = { λ link. link.faults };

    ghost closed = { λ link. link.is_closed };

    ghost read_faults = { λ _. refl };

    ghost write_faults = { λ _. refl };

    fn receive(&mut self, into: &mut [u8]) -> Got {
        self.take_in(into)
    }

    fn send(&mut self, piece: &[u8]) -> Put {
        self.put_out(piece)
    }

    fn close(&mut self) {
        if self.is_closed {
            self.faults = next_count(self.faults);
            return;
        }
        // a peer that has gone already is no fault of a close
        let _ = self.stream.shutdown(Shutdown::Both);
        self.is_closed = true;
    }
}
