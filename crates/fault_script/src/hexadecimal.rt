ghost use Rattle.std.specs.Prelude.{◌≡◌, ℕ, ◌+◌, ◌*◌, ◌%◌, ◌<◌, ◌≤◌, ◌↔◌, if◌then◌else◌, length, slice_index, IsTrue, Some, None};
ghost use Rattle.std.specs.Result.{result_ok};
ghost use Rattle.hex.specs.Hex.{decode_of};
ghost use Rattle.fault_script.specs.Arguments.{IsFound};
ghost use Rattle.fault_script.specs.Digits.{IsValue, AreSmall, HasOctet};

use crate::lines::LineFault;
use std::alloc::Global;
use std::simd::prelude::*;

// How many octets are made at once, of twice as many digits.
const AT_ONCE: usize = 16;

// The digit's value, or 255 where a byte is none.
#[inline(always)]
fn digit(byte: u8) -> u8
    ensures { IsValue byte result }
{
    match byte {
        b'0'..=b'9' => byte - b'0',
        b'a'..=b'f' => byte - b'a' + 10,
        b'A'..=b'F' => byte - b'A' + 10,
        _ => 255,
    }
}

// Fills the octets, and answers whether the word is of digits alone.
fn fill_singly(octets: &mut [u8], word: &[u8]) -> bool
    requires { length word.now ≡ 2 * length octets.old }
    ensures { result_ok (decode_of word.now) ≡ if result then Some octets.new else None }
{
    let mut greatest = 0u8;
    'octets: for i in 0..octets.len() {
        let high = digit(word[2 * i]);
        let low = digit(word[2 * i + 1]);
        greatest = greatest.max(high).max(low);
        // What is no digit is cut to four bits, so that this fits.
        octets[i] = (high % 16) * 16 + low % 16;
    }
    greatest < 16
}

// The digits' values. What is no digit has one of 16 or more.
#[inline(always)]
fn values(digits: u8x32) -> u8x32
    ensures len { length result ≡ 32 }
    ensures lanes { (k : ℕ) → k < 32 → IsValue (slice_index digits k) (slice_index result k) }
{
    // `0` to `9` become 246 to 255, and ten more wraps to their values. All else becomes 16 or more.
    let decimal = (digits + u8x32::splat(198)).simd_max(u8x32::splat(6)) + u8x32::splat(10);
    // The letters of either case become 0 to 5, and then their values. All else stays above, since it may not wrap.
    let from_a = (digits & u8x32::splat(0xdf)) - u8x32::splat(b'A');
    let letter = from_a.simd_min(u8x32::splat(245)) + u8x32::splat(10);
    decimal.simd_min(letter)
}

// The octets that pairs of values make.
#[inline(always)]
fn joined(values: u8x32) -> u8x16
    ensures len { length result ≡ 16 }
    ensures lanes { (k : ℕ) → k < 16
        → slice_index result k ≡ (slice_index values (2 * k) * 16 + slice_index values (2 * k + 1)) % 256 }
{
    let highs = values.swizzle([0, 2, 4, 6, 8, 10, 12, 14, 16, 18, 20, 22, 24, 26, 28, 30]);
    let lows = values.swizzle([1, 3, 5, 7, 9, 11, 13, 15, 17, 19, 21, 23, 25, 27, 29, 31]);
    highs * u8x16::splat(16) + lows
}

// The greater of each two lanes. It is small where both are.
#[inline(always)]
fn greater(a: u8x32, b: u8x32) -> u8x32
    ensures len { length result ≡ 32 }
    ensures small { AreSmall result ↔ (AreSmall a × AreSmall b) }
{
    a.simd_max(b)
}

// Whether all are values of digits.
#[inline(always)]
fn are_small(values: u8x32) -> bool
    ensures { IsTrue result ↔ AreSmall values }
{
    values.simd_ge(u8x32::splat(16)).to_bitmask() == 0
}

// Fills sixteen octets from place i on, and gives the values of their digits.
#[inline(always)]
fn fill_from(octets: &mut [u8], word: &[u8], i: usize) -> u8x32
    requires { (i + 16 ≤ length octets.old) × (2 * length octets.old ≤ length word.now) }
    ensures len { length result ≡ 32 }
    ensures lanes { (k : ℕ) → k < 32 → IsValue (slice_index word.now (2 * i + k)) (slice_index result k) }
    ensures kept { (k : ℕ) → k < i → slice_index octets.new k ≡ slice_index octets.old k }
    ensures filled { (k : ℕ) → i ≤ k → k < i + 16 → HasOctet word.now octets.new k }
{
    let values = values(u8x32::from_slice(&word[2 * i..]));
    joined(values).copy_to_slice(&mut octets[i..]);
    values
}

// The same, sixteen octets at once. The loop goes on where a byte is no digit, so that it has one test alone.
fn fill_at_once(octets: &mut [u8], word: &[u8]) -> bool
    requires { (16 ≤ length octets.old) × (length word.now ≡ 2 * length octets.old) }
    ensures { result_ok (decode_of word.now) ≡ if result then Some octets.new else None }
{
    let last = octets.len() - AT_ONCE;
    let mut greatest = u8x32::splat(0);
    let mut i = 0;
    'octets: while i < last {
        greatest = greater(greatest, fill_from(octets, word, i));
        i += AT_ONCE;
    }
    // The last sixteen. Those that are filled already get the same again.
    greatest = greater(greatest, fill_from(octets, word, last));
    are_small(greatest)
}

// The same, in the way that is faster.
fn fill(octets: &mut [u8], word: &[u8]) -> bool
    requires { length word.now ≡ 2 * length octets.old }
    ensures { result_ok (decode_of word.now) ≡ if result then Some octets.new else None }
{
    if octets.len() < AT_ONCE {
        fill_singly(octets, word)
    } else {
        fill_at_once(octets, word)
    }
}

/// The octets that are written in hexadecimal.
pub fn decode(alloc: Global, word: &[u8]) -> Result<Vec<u8>, LineFault>
    ensures { IsFound (λ octets. octets.items) result (result_ok (decode_of word.now)) }
{
    if word.len() % 2 != 0 {
        return Err(LineFault::Syntax);
    }
    let Ok(mut octets) = vec![in alloc; 0u8; word.len() / 2] else {
        return Err(LineFault::NoMemory);
    };
    if fill(octets.as_mut_slice(), word) {
        Ok(octets)
    } else {
        Err(LineFault::Syntax)
    }
}
