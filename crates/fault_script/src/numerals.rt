ghost use Rattle.std.specs.Prelude.{◌≡◌};
ghost use Rattle.fault_script.specs.Numbers.{capped, host_number, positive_number, decimal, signed_64, signed_32, unsigned_64, unsigned_32};

use decimal_numbers::read_number;

/// The number itself up to 64 bits, and the greatest of 64 bits in place of a greater one.
pub(crate) fn cap(value: u128) -> u64
    ensures { result ≡ capped value }
{
    if value > u64::MAX as u128 {
        u64::MAX
    } else {
        value as u64
    }
}

/// The number from 1 that a word is, if it is one.
pub(crate) fn read_positive(word: &[u8]) -> Option<u64>
    ensures { result ≡ positive_number word.now }
{
    match read_number(word) {
        Some(value) if value != 0 => Some(cap(value)),
        _ => None,
    }
}

/// The host whose number a word is, if it is a number.
pub(crate) fn read_host(word: &[u8]) -> Option<u64>
    ensures { result ≡ host_number word.now }
{
    let value = read_number(word)?;
    Some(cap(value))
}

fn read_decimal(word: &[u8]) -> Option<i128>
    ensures { result ≡ decimal word.now }
{
    if !word.is_empty() && word[0] == b'-' {
        let magnitude = read_number(&word[1..])?;
        Some(-(magnitude as i128))
    } else {
        let magnitude = read_number(word)?;
        Some(magnitude as i128)
    }
}

/// The signed number of 64 bits that a word is, if it is one.
pub(crate) fn read_i64(word: &[u8]) -> Option<i64>
    ensures { result ≡ signed_64 word.now }
{
    let value = read_decimal(word)?;
    if value < i64::MIN as i128 || value > i64::MAX as i128 {
        return None;
    }
    Some(value as i64)
}

/// The signed number of 32 bits that a word is, if it is one.
pub(crate) fn read_i32(word: &[u8]) -> Option<i32>
    ensures { result ≡ signed_32 word.now }
{
    let value = read_decimal(word)?;
    if value < i32::MIN as i128 || value > i32::MAX as i128 {
        return None;
    }
    Some(value as i32)
}

/// The number of 64 bits that a word is, if it is one.
pub(crate) fn read_u64(word: &[u8]) -> Option<u64>
    ensures { result ≡ unsigned_64 word.now }
{
    let value = read_number(word)?;
    if value > u64::MAX as u128 {
        return None;
    }
    Some(value as u64)
}

/// The number of 32 bits that a word is, if it is one.
pub(crate) fn read_u32(word: &[u8]) -> Option<u32>
    ensures { result ≡ unsigned_32 word.now }
{
    let value = read_number(word)?;
    if value > u32::MAX as u128 {
        return None;
    }
    Some(value as u32)
}
