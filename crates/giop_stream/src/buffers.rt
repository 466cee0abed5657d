ghost use Rattle.std.specs.Prelude.{◌≡◌, ◌≤◌, ◌+◌, [], ◌++◌, length, drop, vec_len, OnOk, OnErr};
ghost use Rattle.giop_stream.specs.Buffers.{MovesFew};

use ft_base::NoMemory;
use std::alloc::Global;
use std::marker::Model;

/// Room for so many bytes stays for those to come. More of it is given back whenever bytes are moved.
const SPARE: usize = 131072;

/// The bytes that were fed and not taken yet. Of those that were taken no more are kept.
#[derive(Drop)]
pub struct Buffer {
    bytes: Vec<u8>,
    start: usize,
}

impl Model for Buffer {
    ghost use Rattle.std.specs.Prelude.{◌≤◌, ◌+◌, drop, vec_len};
    ghost use Rattle.giop_stream.specs.Buffers.{Buffered};

    ghost Value = { Buffered };

    ghost view = { λ b. record { unused = drop b.start b.bytes.items; used = b.start } };

    ghost invariant = { λ b. b.start + b.start ≤ vec_len b.bytes };
}

// Forgets so many bytes: moves the others in their place.
fn forget(bytes: &mut Vec<u8>, count: usize)
    requires { count ≤ vec_len bytes.old }
    ensures left { bytes.new.items ≡ drop count bytes.old.items }
    ensures len { vec_len bytes.new + count ≡ vec_len bytes.old }
{
    let left = bytes.len() - count;
    bytes.copy_within(count.., 0);
    bytes.truncate(left);
    if bytes.capacity() > SPARE {
        bytes.shrink_to(SPARE);
    }
}

impl Buffer {
    /// These bytes, none of which was taken. They stay where they are.
    pub fn over(bytes: Vec<u8>) -> Buffer
        ensures { result ≡ record { unused = bytes.items; used = 0 } }
    {
        Buffer { bytes, start: 0 }
    }

    /// The bytes that are left.
    pub fn unused(&self) -> &[u8]
        ensures { result.now ≡ self.now.unused }
    {
        &self.bytes.as_slice()[self.start..]
    }

    pub fn len(&self) -> usize
        ensures { result ≡ length self.now.unused }
    {
        self.bytes.len() - self.start
    }

    /// Takes bytes from the front. They are forgotten where the others can be moved in their place at no more
    /// cost, so that the bytes of a large piece are moved once, and not for each message in it.
    pub fn skip(&mut self, count: usize)
        requires { count ≤ length self.old.unused }
        ensures left { self.new.unused ≡ drop count self.old.unused }
        ensures few { self.new.used ≤ length self.new.unused }
        ensures moves { MovesFew count self.old self.new }
    {
        let start = self.start + count;
        if self.bytes.len() - start <= start {
            forget(&mut self.bytes, start);
            self.start = 0;
        } else {
            self.start = start;
        }
    }

    /// Forgets all bytes that were taken. Called between whole messages and parts alone, it moves each byte once.
    pub fn settle(&mut self)
        ensures { self.new ≡ record { unused = self.old.unused; used = 0 } }
    {
        if self.start > 0 {
            forget(&mut self.bytes, self.start);
            self.start = 0;
        }
    }

    /// Forgets everything, and gives its memory back.
    pub fn clear(&mut self)
        ensures { self.new ≡ record { unused = []; used = 0 } }
    {
        self.bytes.clear();
        self.bytes.shrink_to_fit();
        self.start = 0;
    }

    /// Appends bytes. After want of memory nothing is appended.
    pub fn append(&mut self, piece: &[u8]) -> Result<(), NoMemory>
        ensures ok { OnOk result (self.new ≡ record { unused = self.old.unused ++ piece.now; used = self.old.used }) }
        ensures err { OnErr result (self.new ≡ self.old) }
    {
        // one byte alone costs no call of a copy
        match piece {
            [byte] => self.bytes.push(*byte)?,
            _ => self.bytes.extend_from_slice(piece)?,
        }
        Ok(())
    }
}
