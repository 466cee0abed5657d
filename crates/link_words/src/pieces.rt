//! A link that is read and written in pieces.
ghost use Rattle.std.specs.Prelude.{◌≡◌, ◌<◌, Some, length, true};
ghost use Rattle.ft_outside.specs.Outside.{IsRead, IsWritten};

use ft_outside::{Flush, Got, Put, Sink, Source};
use outside_links::{Link, MemLink};
use std::marker::Model;

/// A link in memory, of which each call gives or takes so many bytes at most.
#[derive(Drop)]
pub struct PieceLink {
    link: MemLink,
    size: usize,
}

impl Model for PieceLink {
    ghost use Rattle.std.specs.Prelude.{◌<◌};
    ghost use Rattle.outside_links.specs.Wires.{Wire};

    ghost Value = { Wire };

    ghost view = { λ p. p.link };

    ghost invariant = { λ p. 0 < p.size };
}

impl PieceLink {
    pub fn new(link: MemLink, size: usize) -> PieceLink
        requires { 0 < size }
        ensures { result ≡ link }
    {
        PieceLink { link, size }
    }

    /// All that was written.
    pub fn held(&self) -> &[u8]
        ensures { result.now ≡ self.now.held }
    {
        self.link.held()
    }

    /// How many calls failed.
    pub fn faults(&self) -> u64
        ensures { result ≡ self.now.schedule.faults }
    {
        self.link.faults()
    }

    fn take_in(&mut self, into: &mut [u8]) -> Got
        requires { 0 < length into.old }
        ensures read { IsRead (Some self.old.left) (Some self.new.left) self.old.schedule.faults self.new.schedule.faults into.new result }
        ensures holds { self.new.held ≡ self.old.held }
        ensures closed { self.new.closed ≡ self.old.closed }
        ensures shut { self.old.closed ≡ true → result ≡ Got.Failed }
    {
        let count = self.size.min(into.len());
        self.link.receive(&mut into[..count])
    }

    fn put_out(&mut self, piece: &[u8]) -> Put
        requires { 0 < length piece.now }
        ensures written { IsWritten (Some self.old.held) (Some self.new.held) self.old.schedule.faults self.new.schedule.faults piece.now result }
        ensures left { self.new.left ≡ self.old.left }
        ensures closed { self.new.closed ≡ self.old.closed }
        ensures shut { self.old.closed ≡ true → result ≡ Put.Failed }
    {
        let count = self.size.min(piece.len());
        self.link.send(&piece[..count])
    }
}

impl Source for PieceLink {
    ghost use Rattle.std.specs.Prelude.{Some};

    ghost left = { λ link. Some link.left };

    ghost count = { λ link. link.schedule.faults };

    fn read(&mut self, into: &mut [u8]) -> Got {
        self.take_in(into)
    }
}

impl Sink for PieceLink {
    ghost use Rattle.std.specs.Prelude.{Some};

    ghost holds = { λ link. Some link.held };

    ghost count = { λ link. link.schedule.faults };

    fn write(&mut self, piece: &[u8]) -> Put {
        self.put_out(piece)
    }

    fn flush(&mut self) -> Flush {
        self.link.flush()
    }
}

impl Link for PieceLink {
    ghost use Rattle.std.specs.Prelude.{refl};

    ghost faults = { λ link. link.schedule.faults };

    ghost closed = { λ link. link.closed };

    ghost read_faults = { λ _. refl };

    ghost write_faults = { λ _. refl };

    fn receive(&mut self, into: &mut [u8]) -> Got {
        self.take_in(into)
    }

    fn send(&mut self, piece: &[u8]) -> Put {
        self.put_out(piece)
    }

    fn close(&mut self) {
        self.link.close();
    }
}
