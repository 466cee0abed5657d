//! The digits of a number, in either byte order.
ghost use Rattle.std.specs.Prelude.{◌≡◌, length};
ghost use Rattle.cdr_codec.specs.Reading.{number_in, digits_in};

use crate::orders::Order;
use byteorder::{BigEndian, ByteOrder, LittleEndian};

pub fn number_of_u8(order: Order, digits: &[u8]) -> u8
    requires { length digits.now ≡ 1 }
    ensures { result ≡ number_in order 1 digits.now }
{
    match order {
        Order::Big => digits[0],
        Order::Little => digits[0],
    }
}

pub fn number_of_u16(order: Order, digits: &[u8]) -> u16
    requires { length digits.now ≡ 2 }
    ensures { result ≡ number_in order 2 digits.now }
{
    match order {
        Order::Big => BigEndian::read_u16(digits),
        Order::Little => LittleEndian::read_u16(digits),
    }
}

pub fn number_of_u32(order: Order, digits: &[u8]) -> u32
    requires { length digits.now ≡ 4 }
    ensures { result ≡ number_in order 4 digits.now }
{
    match order {
        Order::Big => BigEndian::read_u32(digits),
        Order::Little => LittleEndian::read_u32(digits),
    }
}

pub fn number_of_u64(order: Order, digits: &[u8]) -> u64
    requires { length digits.now ≡ 8 }
    ensures { result ≡ number_in order 8 digits.now }
{
    match order {
        Order::Big => BigEndian::read_u64(digits),
        Order::Little => LittleEndian::read_u64(digits),
    }
}

/// The digits of an unsigned long, without padding.
pub fn digits_of_u32(order: Order, n: u32) -> [u8; 4]
    ensures { result ≡ digits_in order 4 n }
{
    match order {
        Order::Big => n.to_be_bytes(),
        Order::Little => n.to_le_bytes(),
    }
}

pub fn digits_of_u64(order: Order, n: u64) -> [u8; 8]
    ensures { result ≡ digits_in order 8 n }
{
    match order {
        Order::Big => n.to_be_bytes(),
        Order::Little => n.to_le_bytes(),
    }
}
