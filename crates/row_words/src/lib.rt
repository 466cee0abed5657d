//! The words of the rows that programs of tests answer, and how answers say bytes.
#![tactic(auto)]

ghost use Rattle.std.specs.Prelude.{◌≡◌, ◌<◌, ◌≤◌, ◌^◌, length, IfOk, None};
ghost use Rattle.ft_base.specs.Canonical.{HasSpelling};
ghost use Rattle.ft_base.specs.Text.{zero_place};

use cdr_codec::Order;
use ft_base::{Bytes, Name, NoMemory, Value};
use hex::FromHexError;
use std::alloc::{AllocError, AllocFailed, Global};
use std::num::{ParseIntError, TryFromIntError};
use thiserror::Error;

/// Why a row has no answer.
#[derive(Clone, Copy, Debug, Error)]
pub enum RowFault {
    /// A verb that there is not, or words that it does not take.
    #[error("no such row")]
    NoRow,
    #[error("no memory")]
    NoMemory,
}

impl From<NoMemory> for RowFault {
    fn from(_error: NoMemory) -> RowFault {
        RowFault::NoMemory
    }
}

impl From<AllocError> for RowFault {
    fn from(_error: AllocError) -> RowFault {
        RowFault::NoMemory
    }
}

impl<T: Drop> From<AllocFailed<T>> for RowFault {
    fn from(_error: AllocFailed<T>) -> RowFault {
        RowFault::NoMemory
    }
}

impl From<FromHexError> for RowFault {
    fn from(_error: FromHexError) -> RowFault {
        RowFault::NoRow
    }
}

impl From<ParseIntError> for RowFault {
    fn from(_error: ParseIntError) -> RowFault {
        RowFault::NoRow
    }
}

impl From<TryFromIntError> for RowFault {
    fn from(_error: TryFromIntError) -> RowFault {
        RowFault::NoRow
    }
}

/// No word of a row has so many bytes.
const BYTES_LIMIT: usize = 65_536;

/// The byte order of a row.
pub fn order_of(word: &str) -> Result<Order, RowFault> {
    match word {
        "be" => Ok(Order::Big),
        "le" => Ok(Order::Little),
        _ => Err(RowFault::NoRow),
    }
}

/// The word of a byte order.
pub fn order_word(order: Order) -> &'static str {
    match order {
        Order::Big => "be",
        Order::Little => "le",
    }
}

/// A number.
pub fn number(word: &str) -> Result<i64, RowFault> {
    Ok(word.parse::<i64>()?)
}

/// Bytes in hexadecimal digits, and as text between quotation marks: `0003"abc"00`.
pub fn bytes_of(alloc: Global, word: &str) -> Result<Vec<u8>, RowFault>
    ensures { IfOk result (λ bytes. length bytes.items < 2 ^ 17) }
{
    let mut bytes = Vec::new(alloc);
    let mut is_text = false;
    for piece in word.split('"') {
        if is_text {
            bytes.extend_from_slice(piece.as_bytes())?;
        } else {
            let digits = hex::decode(alloc, piece)?;
            bytes.extend_from_slice(digits.as_slice())?;
        }
        is_text = !is_text;
    }
    if bytes.len() > BYTES_LIMIT {
        return Err(RowFault::NoRow);
    }
    Ok(bytes)
}

/// A name: 1 to 255 bytes, none of them 0.
pub fn name_of(alloc: Global, word: &str) -> Result<Name, RowFault> {
    let bytes = bytes_of(alloc, word)?;
    Name::of(alloc, bytes.as_slice()).map_err(|_| RowFault::NoRow)
}

/// A text as a name may be.
pub fn text_of(alloc: Global, word: &str) -> Result<Bytes, RowFault>
    ensures no_zero { IfOk result (λ text. zero_place text ≡ None) }
    ensures short { IfOk result (λ text. length text ≤ 255) }
{
    let name = name_of(alloc, word)?;
    Ok(Bytes::of(alloc, name.bytes())?)
}

/// The value behind its type and a colon.
pub fn value_of(alloc: Global, word: &str) -> Result<Value, RowFault>
    ensures { IfOk result HasSpelling }
{
    let Some((kind, value)) = word.split_once(':') else {
        return Err(RowFault::NoRow);
    };
    match kind {
        "i64" => Ok(Value::I64(number(value)?)),
        "u32" => Ok(Value::U32(u32::try_from(number(value)?)?)),
        "bool" => Ok(Value::Bool(value == "true")),
        "text" => Ok(Value::Text(text_of(alloc, value)?)),
        "octets" => Ok(Value::Octets(Bytes::from_vec(bytes_of(alloc, value)?))),
        _ => Err(RowFault::NoRow),
    }
}

/// Writes bytes as hexadecimal digits.
pub fn put_hex(bytes: &[u8], out: &mut String) -> Result<(), AllocError> {
    for byte in bytes {
        write!(out, "{byte:02x}")?;
    }
    Ok(())
}

/// Writes the characters of bytes that are ASCII text.
pub fn put_text(bytes: &[u8], out: &mut String) -> Result<(), AllocError> {
    for byte in bytes {
        out.push(char::from(*byte))?;
    }
    Ok(())
}

/// Writes bytes between quotation marks, if all of them are letters, digits and marks, and else as hexadecimal digits.
pub fn put_bytes(bytes: &[u8], out: &mut String) -> Result<(), AllocError> {
    if !bytes.iter().all(|byte| byte.is_ascii_graphic()) {
        return put_hex(bytes, out);
    }
    out.push('"')?;
    put_text(bytes, out)?;
    out.push('"')
}

/// Writes what stands between two answers to a row: nothing before the first.
pub fn put_separator(separator: &str, out: &mut String) -> Result<(), AllocError> {
    if out.is_empty() {
        return Ok(());
    }
    out.push_str(separator)
}
