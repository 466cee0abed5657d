ghost use Rattle.std.specs.Prelude.{◌≡◌, ◌≤◌, ◌<◌, ◌+◌, ◌^◌, ℕ, List, [], ◌∷◌, ◌++◌, length, replicate, take, slice_get, None, IfOk, OnOk, OnErr, vec_len, vec_capacity};
ghost use Rattle.std.specs.Int.{w16, w32, w64};
ghost use Rattle.std.specs.Option.{option_to_list};
ghost use Rattle.ft_base.specs.Canonical.{padding};
ghost use Rattle.ft_base.specs.Text.{zero_place};
ghost use Rattle.cdr_codec.specs.Reading.{digits_in};
ghost use Rattle.cdr_codec.specs.Formats.{number, octets, written_piece};
ghost use Rattle.cdr_codec.specs.Values.{boolean, text, signed};
ghost use Rattle.cdr_codec.specs.Calls.{appended};
ghost use Rattle.cdr_codec.specs.Encapsulations.{IsEncapsulated};

use crate::orders::Order;
use ft_base::{Bytes, NoMemory};
use std::alloc::Global;
use std::marker::Model;

/// Writes values as bytes, one behind the other, with padding of zeros. A call that finds no memory
/// leaves the writer as it was.
#[derive(Drop)]
pub struct CdrWriter {
    order: Order,
    place: u32,
    text: Vec<u8>,
}

impl Model for CdrWriter {
    ghost use Rattle.cdr_codec.specs.Calls.{Writer};

    ghost Value = { Writer };

    ghost view = { λ w. record { order = w.order; place = w.place; text = w.text.items } };
}

/// Zeros at the end of the text, which has room for them. Each step appends so many as the compiler
/// knows, and so is one store; a loop, or a copy of any length, would be a call of the C library.
#[inline(always)]
fn put_zeros(text: &mut Vec<u8>, count: usize)
    requires few { count < 8 }
    requires room { vec_len text.old + count ≤ vec_capacity text.old }
    ensures items { text.new.items ≡ text.old.items ++ replicate count 0 }
    ensures len { vec_len text.new ≡ vec_len text.old + count }
    ensures capacity { vec_capacity text.old ≤ vec_capacity text.new }
{
    if count >= 4 {
        text.extend_from_slice(&[0; 4]).unwrap();
    }
    if count % 4 >= 2 {
        text.extend_from_slice(&[0; 2]).unwrap();
    }
    if count % 2 == 1 {
        text.push(0).unwrap();
    }
}

impl CdrWriter {
    /// An empty text, whose first byte has this place in its message or encapsulation.
    pub fn new(alloc: Global, order: Order, place: u32) -> CdrWriter
        ensures { result ≡ record { order = order; place = place; text = [] } }
    {
        CdrWriter {
            order,
            place,
            text: Vec::new(alloc),
        }
    }

    /// The same, with room for so many bytes, so that they need no memory of their own.
    pub fn with_room(
        alloc: Global,
        order: Order,
        place: u32,
        room: usize,
    ) -> Result<CdrWriter, NoMemory>
        ensures { IfOk result (λ writer. writer ≡ record { order = order; place = place; text = [] }) }
    {
        let text = Vec::with_capacity(alloc, room)?;
        Ok(CdrWriter { order, place, text })
    }

    /// The byte order.
    pub fn order(&self) -> Order
        ensures { result ≡ self.now.order }
    {
        self.order
    }

    /// The bytes so far.
    pub fn bytes(&self) -> &[u8]
        ensures { result.now ≡ self.now.text }
    {
        self.text.as_slice()
    }

    /// The text. It takes no memory.
    pub fn finish(self) -> Bytes
        ensures { result ≡ self.text }
    {
        Bytes::from_vec(self.into_vec())
    }

    /// The text as a vector. It takes no memory.
    pub fn into_vec(self) -> Vec<u8>
        ensures { result.items ≡ self.text }
    {
        let CdrWriter {
            order: _,
            place: _,
            text,
        } = self;
        text
    }

    /// Takes the text back to its first `length` bytes; a shorter text stays. It takes no memory.
    pub fn truncate(&mut self, length: usize)
        ensures { self.new ≡ record self.old { text = take length self.old.text } }
    {
        self.text.truncate(length);
    }

    /// How many zeros lead to a multiple of this size.
    #[inline(always)]
    fn skip(&self, size: usize) -> usize
        requires some { 0 < size }
        requires small { size ≤ 8 }
        ensures value { result ≡ padding (self.now.place + length self.now.text) size }
        ensures small { result < 8 }
    {
        let place = self.place as usize + self.text.len();
        (size - place % size) % size
    }

    /// A field of the text: zeros, then the digits of a number, then octets and the one that may end
    /// them. All room is taken before the first of them. It is inlined so that the compiler knows the
    /// size and the number of digits.
    #[inline(always)]
    fn put<const N: usize>(
        &mut self,
        size: usize,
        digits: &[u8; N],
        octets: &[u8],
        ending: Option<u8>,
    ) -> Result<(), NoMemory>
        requires some { 0 < size }
        requires small { size ≤ 8 }
        requires numbers { N ≤ 8 }
        requires counts { length octets.now < 2 ^ 32 }
        ensures written { OnOk result (self.new ≡ record self.old { text = self.old.text ++ replicate (padding (self.old.place + length self.old.text) size) 0 ++ digits.now ++ octets.now ++ option_to_list ending }) }
        ensures left { OnErr result (self.new ≡ self.old) }
    {
        let skip = self.skip(size);
        self.text
            .reserve(skip + N + octets.len() + usize::from(ending.is_some()))?;
        put_zeros(&mut self.text, skip);
        self.text.extend_from_slice(digits).unwrap();
        self.text.extend_from_slice(octets).unwrap();
        if let Some(octet) = ending {
            self.text.push(octet).unwrap();
        }
        Ok(())
    }

    /// A number at a multiple of its own size. Its digits are one store; callers choose the byte order
    /// around the call, since digits that are chosen before it are put together byte by byte.
    #[inline(always)]
    fn put_number<const N: usize>(&mut self, digits: &[u8; N]) -> Result<(), NoMemory>
        requires some { 0 < N }
        requires small { N ≤ 8 }
        ensures written { OnOk result (self.new ≡ appended (λ order place n. replicate (padding place N) 0 ++ digits.now) digits.now self.old) }
        ensures left { OnErr result (self.new ≡ self.old) }
    {
        let skip = self.skip(N);
        self.text.reserve(skip + N)?;
        put_zeros(&mut self.text, skip);
        self.text.extend_from_slice(digits).unwrap();
        Ok(())
    }

    /// Octets and the one that may end them, behind this count.
    #[inline(always)]
    fn put_counted(&mut self, count: u32, octets: &[u8], ending: Option<u8>) -> Result<(), NoMemory>
        requires { length octets.now < 2 ^ 32 }
        ensures written { OnOk result (self.new ≡ record self.old { text = self.old.text ++ replicate (padding (self.old.place + length self.old.text) 4) 0 ++ digits_in self.old.order 4 count ++ octets.now ++ option_to_list ending }) }
        ensures left { OnErr result (self.new ≡ self.old) }
    {
        match self.order {
            Order::Big => self.put(4, &count.to_be_bytes(), octets, ending),
            Order::Little => self.put(4, &count.to_le_bytes(), octets, ending),
        }
    }

    /// An octet.
    pub fn write_octet(&mut self, n: u8) -> Result<(), NoMemory>
        ensures written { OnOk result (self.new ≡ appended (number 1).written n self.old) }
        ensures left { OnErr result (self.new ≡ self.old) }
    {
        self.put_number(&[n])
    }

    /// An unsigned short.
    pub fn write_u16(&mut self, n: u16) -> Result<(), NoMemory>
        ensures written { OnOk result (self.new ≡ appended (number 2).written n self.old) }
        ensures left { OnErr result (self.new ≡ self.old) }
    {
        match self.order {
            Order::Big => self.put_number(&n.to_be_bytes()),
            Order::Little => self.put_number(&n.to_le_bytes()),
        }
    }

    /// An unsigned long.
    pub fn write_u32(&mut self, n: u32) -> Result<(), NoMemory>
        ensures written { OnOk result (self.new ≡ appended (number 4).written n self.old) }
        ensures left { OnErr result (self.new ≡ self.old) }
    {
        match self.order {
            Order::Big => self.put_number(&n.to_be_bytes()),
            Order::Little => self.put_number(&n.to_le_bytes()),
        }
    }

    /// An unsigned long long.
    pub fn write_u64(&mut self, n: u64) -> Result<(), NoMemory>
        ensures written { OnOk result (self.new ≡ appended (number 8).written n self.old) }
        ensures left { OnErr result (self.new ≡ self.old) }
    {
        match self.order {
            Order::Big => self.put_number(&n.to_be_bytes()),
            Order::Little => self.put_number(&n.to_le_bytes()),
        }
    }

    /// A short.
    pub fn write_i16(&mut self, n: i16) -> Result<(), NoMemory>
        ensures written { OnOk result (self.new ≡ appended (signed w16).written n self.old) }
        ensures left { OnErr result (self.new ≡ self.old) }
    {
        self.write_u16(n.cast_unsigned())
    }

    /// A long.
    pub fn write_i32(&mut self, n: i32) -> Result<(), NoMemory>
        ensures written { OnOk result (self.new ≡ appended (signed w32).written n self.old) }
        ensures left { OnErr result (self.new ≡ self.old) }
    {
        self.write_u32(n.cast_unsigned())
    }

    /// A long long.
    pub fn write_i64(&mut self, n: i64) -> Result<(), NoMemory>
        ensures written { OnOk result (self.new ≡ appended (signed w64).written n self.old) }
        ensures left { OnErr result (self.new ≡ self.old) }
    {
        self.write_u64(n.cast_unsigned())
    }

    /// A boolean: one octet, 0 or 1.
    pub fn write_bool(&mut self, value: bool) -> Result<(), NoMemory>
        ensures written { OnOk result (self.new ≡ appended boolean.written value self.old) }
        ensures left { OnErr result (self.new ≡ self.old) }
    {
        self.write_octet(if value { 1 } else { 0 })
    }

    /// A sequence of octets.
    pub fn write_octets(&mut self, content: &[u8]) -> Result<(), NoMemory>
        requires { length content.now < 2 ^ 32 }
        ensures written { OnOk result (self.new ≡ appended octets.written content.now self.old) }
        ensures left { OnErr result (self.new ≡ self.old) }
    {
        self.put_counted(content.len() as u32, content, None)
    }

    /// A string, which is given without its NUL.
    pub fn write_string(&mut self, string: &[u8]) -> Result<(), NoMemory>
        requires no_zero { zero_place string.now ≡ None }
        requires short { length string.now + 1 < 2 ^ 32 }
        ensures written { OnOk result (self.new ≡ appended text.written string.now self.old) }
        ensures left { OnErr result (self.new ≡ self.old) }
    {
        self.put_counted(string.len() as u32 + 1, string, Some(0))
    }

    /// Bytes without a count, at a multiple of `align`: the body of a message, or what another writer
    /// wrote of it.
    // Its callers name `align`, and where that is known no division is left.
    #[inline(always)]
    pub fn write_piece(&mut self, align: usize, piece: &[u8]) -> Result<(), NoMemory>
        requires some { 0 < align }
        requires small { align ≤ 8 }
        requires short { length piece.now < 2 ^ 32 }
        ensures written { OnOk result (self.new ≡ appended (written_piece align) piece.now self.old) }
        ensures left { OnErr result (self.new ≡ self.old) }
    {
        self.put(align, &[], piece, None)
    }

    /// An encapsulation: what another writer wrote, which began at place 0 with the octet of its own
    /// byte order.
    pub fn encapsulate(&mut self, inner: &CdrWriter) -> Result<(), NoMemory>
        requires { IsEncapsulated inner.now }
        ensures written { OnOk result (self.new ≡ appended octets.written inner.now.text self.old) }
        ensures left { OnErr result (self.new ≡ self.old) }
    {
        self.write_octets(inner.bytes())
    }
}
