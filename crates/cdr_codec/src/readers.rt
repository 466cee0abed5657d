ghost use Rattle.std.specs.Prelude.{◌≡◌, ◌≤◌, ◌<◌, ◌+◌, ◌^◌, ℕ, List, length, IfOk, IfSome, Some, None, option_map};
ghost use Rattle.std.specs.Int.{w16, w32, w64};
ghost use Rattle.ft_base.specs.Text.{zero_place};
ghost use Rattle.cdr_codec.specs.Reading.{reader_at, start, taken, digits_at};
ghost use Rattle.cdr_codec.specs.Formats.{number, octets};
ghost use Rattle.cdr_codec.specs.Values.{boolean, bool_of, text, text_of, signed};
ghost use Rattle.cdr_codec.specs.Calls.{Reads};

use crate::digits::{number_of_u8, number_of_u16, number_of_u32, number_of_u64};
use crate::faults::{CdrFault, CdrWhy};
use crate::orders::Order;
use ft_base::first_zero;
use std::marker::Model;

// A fault that is handed on whole, as by `?`, is moved as eight bytes. Beside a number of 64 bits, or a part of
// the input, these lie across its place, so that neither stays in a register. Where such are read, a fault is
// taken apart and built again.

/// Reads values from bytes, one behind the other. No call takes memory, and a call that answers a
/// fault leaves the reader where it was.
#[derive(Drop)]
pub struct CdrReader<'a> {
    order: Order,
    place: u32,
    rest: &'a [u8],
}

impl<'a> Model for CdrReader<'a> {
    ghost use Rattle.std.specs.Prelude.{◌+◌, ◌<◌, ◌^◌, length};
    ghost use Rattle.cdr_codec.specs.Reading.{Reader};

    ghost Value = { Reader };

    ghost view = { λ r. record { order = r.order; place = r.place; rest = r.rest.now } };

    ghost invariant = { λ r. r.place + length r.rest.now + 8 < 2 ^ 32 };
}

fn bool_of_octet(octet: u8) -> Option<bool>
    ensures { result ≡ bool_of octet }
{
    match octet {
        0 => Some(false),
        1 => Some(true),
        _ => None,
    }
}

#[tactic(auto, using(crate::proofs::Strings::zero_place_before))]
fn text_in(octets: &[u8]) -> Option<&[u8]>
    ensures value { option_map (λ text. text.now) result ≡ text_of octets.now }
    ensures no_zero { IfSome result (λ text. zero_place text.now ≡ None) }
    ensures shorter { IfSome result (λ text. length text.now < length octets.now) }
{
    match first_zero(octets) {
        Some(end) if end + 1 == octets.len() => Some(&octets[..end]),
        _ => None,
    }
}

impl<'a> CdrReader<'a> {
    /// A reader of an input, whose first byte has this place in its message or encapsulation.
    pub fn new(order: Order, place: u32, input: &'a [u8]) -> CdrReader<'a>
        requires { place + length input.now + 8 < 2 ^ 32 }
        ensures { result ≡ reader_at order place input.now }
    {
        CdrReader {
            order,
            place,
            rest: input,
        }
    }

    /// The byte order.
    pub fn order(&self) -> Order
        ensures { result ≡ self.now.order }
    {
        self.order
    }

    /// The place of the next byte.
    pub fn place(&self) -> u32
        ensures value { result ≡ self.now.place }
        ensures fits { self.now.place + length self.now.rest + 8 < 2 ^ 32 }
    {
        self.place
    }

    /// The bytes that are left.
    pub fn rest(&self) -> &'a [u8]
        ensures { result.now ≡ self.now.rest }
    {
        self.rest
    }

    /// A second reader at the same place, to read ahead.
    pub fn again(&self) -> CdrReader<'a>
        ensures { result ≡ self.now }
    {
        CdrReader {
            order: self.order,
            place: self.place,
            rest: self.rest,
        }
    }

    /// The place at which a value of this size begins, behind its padding.
    pub fn start(&self, size: u32) -> u32
        requires some { 0 < size }
        requires small { size ≤ 8 }
        ensures value { result ≡ start size self.now.place }
    {
        self.place + (size - self.place % size) % size
    }

    fn take(&mut self, skip: usize, count: usize, start: u32) -> Result<&'a [u8], CdrFault>
        requires skips { skip ≤ 8 }
        requires counts { count < 2 ^ 32 }
        ensures value { Reads (λ piece. piece.now) (taken skip count start) result self.old self.new }
        ensures sized { IfOk result (λ piece. length piece.now ≡ count) }
        ensures short { IfOk result (λ piece. length piece.now + 8 < 2 ^ 32) }
    {
        let end = skip + count;
        if self.rest.len() < end {
            return Err(CdrFault {
                why: CdrWhy::Short,
                place: start,
            });
        }
        let piece = &self.rest[skip..][..count];
        self.rest = &self.rest[end..];
        self.place += end as u32;
        Ok(piece)
    }

    fn digits(&mut self, size: u32) -> Result<&'a [u8], CdrFault>
        requires some { 0 < size }
        requires small { size ≤ 8 }
        ensures value { Reads (λ digits. digits.now) (digits_at size) result self.old self.new }
        ensures sized { IfOk result (λ digits. length digits.now ≡ size) }
    {
        let start = self.start(size);
        let skip = start - self.place();
        self.take(skip as usize, size as usize, start)
    }

    /// An octet.
    pub fn read_octet(&mut self) -> Result<u8, CdrFault>
        ensures { Reads (λ n. n) (number 1).read result self.old self.new }
    {
        let order = self.order();
        match self.digits(1) {
            Ok(digits) => Ok(number_of_u8(order, digits)),
            Err(CdrFault { why, place }) => Err(CdrFault { why, place }),
        }
    }

    /// An unsigned short.
    pub fn read_u16(&mut self) -> Result<u16, CdrFault>
        ensures { Reads (λ n. n) (number 2).read result self.old self.new }
    {
        let order = self.order();
        match self.digits(2) {
            Ok(digits) => Ok(number_of_u16(order, digits)),
            Err(CdrFault { why, place }) => Err(CdrFault { why, place }),
        }
    }

    /// An unsigned long.
    pub fn read_u32(&mut self) -> Result<u32, CdrFault>
        ensures { Reads (λ n. n) (number 4).read result self.old self.new }
    {
        let order = self.order();
        match self.digits(4) {
            Ok(digits) => Ok(number_of_u32(order, digits)),
            Err(CdrFault { why, place }) => Err(CdrFault { why, place }),
        }
    }

    /// An unsigned long long.
    pub fn read_u64(&mut self) -> Result<u64, CdrFault>
        ensures { Reads (λ n. n) (number 8).read result self.old self.new }
    {
        let order = self.order();
        match self.digits(8) {
            Ok(digits) => Ok(number_of_u64(order, digits)),
            Err(CdrFault { why, place }) => Err(CdrFault { why, place }),
        }
    }

    /// A short.
    pub fn read_i16(&mut self) -> Result<i16, CdrFault>
        ensures { Reads (λ n. n) (signed w16).read result self.old self.new }
    {
        let number = self.read_u16()?;
        Ok(number.cast_signed())
    }

    /// A long.
    pub fn read_i32(&mut self) -> Result<i32, CdrFault>
        ensures { Reads (λ n. n) (signed w32).read result self.old self.new }
    {
        let number = self.read_u32()?;
        Ok(number.cast_signed())
    }

    /// A long long.
    pub fn read_i64(&mut self) -> Result<i64, CdrFault>
        ensures { Reads (λ n. n) (signed w64).read result self.old self.new }
    {
        match self.read_u64() {
            Ok(number) => Ok(number.cast_signed()),
            Err(CdrFault { why, place }) => Err(CdrFault { why, place }),
        }
    }

    /// A boolean: one octet, 0 or 1.
    pub fn read_bool(&mut self) -> Result<bool, CdrFault>
        ensures { Reads (λ b. b) boolean.read result self.old self.new }
    {
        let place = self.start(1);
        let mut ahead = self.again();
        let octet = ahead.read_octet()?;
        match bool_of_octet(octet) {
            Some(value) => {
                *self = ahead;
                Ok(value)
            }
            None => Err(CdrFault {
                why: CdrWhy::BadBool,
                place,
            }),
        }
    }

    /// A sequence of octets: a part of the input.
    pub fn read_octets(&mut self) -> Result<&'a [u8], CdrFault>
        ensures value { Reads (λ piece. piece.now) octets.read result self.old self.new }
        ensures short { IfOk result (λ piece. length piece.now + 8 < 2 ^ 32) }
    {
        let place = self.start(4);
        let mut ahead = self.again();
        let count = ahead.read_u32()?;
        match ahead.take(0, count as usize, place) {
            Ok(octets) => {
                *self = ahead;
                Ok(octets)
            }
            Err(CdrFault { why, place }) => Err(CdrFault { why, place }),
        }
    }

    /// A string without its NUL: a part of the input.
    pub fn read_string(&mut self) -> Result<&'a [u8], CdrFault>
        ensures value { Reads (λ piece. piece.now) text.read result self.old self.new }
        ensures no_zero { IfOk result (λ piece. zero_place piece.now ≡ None) }
        ensures short { IfOk result (λ piece. length piece.now + 9 < 2 ^ 32) }
    {
        let place = self.start(4);
        let mut ahead = self.again();
        let octets = match ahead.read_octets() {
            Ok(octets) => octets,
            Err(CdrFault { why, place }) => return Err(CdrFault { why, place }),
        };
        match text_in(octets) {
            Some(text) => {
                *self = ahead;
                Ok(text)
            }
            None => Err(CdrFault {
                why: CdrWhy::BadString,
                place,
            }),
        }
    }
}
