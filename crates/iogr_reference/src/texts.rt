//! References as texts.
ghost use Rattle.std.specs.Prelude.{◌≡◌, ◌+◌, ◌<◌, ◌≤◌, ◌^◌, ◌∷◌, length, position, not, IfOk, IfSome, true};
ghost use Rattle.hex.specs.Hex.{IsBytes, is_hex_digit};
ghost use Rattle.cdr_codec.specs.declared.orders.Order.TheVariants as orders;
ghost use Rattle.cdr_codec.specs.Calls.{field_fault, Tells, Refuses};
ghost use Rattle.cdr_codec.specs.Encapsulations.{encapsulated, held};
ghost use Rattle.iogr_reference.specs.Formats.{ior, AreShort, IsWritable};
ghost use Rattle.iogr_reference.specs.Texts.{text_of, is_either as is_one_of, has_prefix, digits_place as place_in, octets_in, ior_in_digits, ior_in_text};
ghost use Rattle.iogr_reference.specs.Faults.{text_refusal};
ghost use Rattle.iogr_reference.specs.Naming.{SpellsReference};
ghost use Rattle.iogr_reference.specs.declared.references.Ior.{Ior as AReference};

use crate::faults::{IorFault, TextFault};
use crate::reading::ior_in;
use crate::references::Ior;
use crate::writing::write_ior;
use cdr_codec::{Order, begin_encapsulation, open_encapsulation};
use ft_base::{Bytes, NoMemory};
use hex::FromHexError;
use std::alloc::Global;

fn are_bytes(content: &[u8])
    ensures { IsBytes content.now }
{}

fn ior_bytes(alloc: Global, reference: &Ior) -> Result<Bytes, NoMemory>
    requires { IsWritable reference.now }
    ensures value { IfOk result (λ bytes. bytes ≡ encapsulated orders.Big ior reference.now) }
    ensures valid { IfOk result (λ bytes. ior.Valid reference.now) }
    ensures bytes { IfOk result IsBytes }
{
    let mut writer = begin_encapsulation(alloc, Order::Big)?;
    write_ior(reference, &mut writer)?;
    let bytes = writer.finish();
    are_bytes(bytes.bytes());
    Ok(bytes)
}

fn text_in(alloc: Global, reference: &Ior) -> Result<Bytes, NoMemory>
    requires { IsWritable reference.now }
    ensures value { IfOk result (λ text. text ≡ text_of reference.now) }
    ensures valid { IfOk result (λ text. ior.Valid reference.now) }
    ensures bytes { IfOk result (λ text. IsBytes (encapsulated orders.Big ior reference.now)) }
{
    let bytes = ior_bytes(alloc, reference)?;
    let digits = hex::encode(alloc, bytes.bytes())?;
    let mut text = Vec::from_slice(alloc, b"IOR:")?;
    text.extend_from_slice(digits.as_bytes())?;
    Ok(Bytes::from_vec(text))
}

/// A reference as a text, in lower case.
pub fn to_text(alloc: Global, reference: &Ior) -> Result<Bytes, NoMemory>
    requires { IsWritable reference.now }
    ensures spelled { IfOk result (λ text. SpellsReference text reference.now) }
    ensures value { IfOk result (λ text. text ≡ text_of reference.now) }
{
    text_in(alloc, reference)
}

fn is_either(byte: u8, upper: u8, lower: u8) -> bool
    ensures { result ≡ is_one_of byte upper lower }
{
    byte == upper || byte == lower
}

fn begins(text: &[u8]) -> bool
    ensures value { result ≡ has_prefix text.now }
    ensures long { result ≡ true → 4 ≤ length text.now }
{
    match text {
        [i, o, r, colon, ..] => {
            is_either(*i, b'I', b'i')
                && is_either(*o, b'O', b'o')
                && is_either(*r, b'R', b'r')
                && *colon == b':'
        }
        _ => false,
    }
}

fn is_digit(byte: u8) -> bool
    ensures { result ≡ is_hex_digit byte }
{
    if 65 <= byte && byte <= 70 {
        true
    } else if 97 <= byte && byte <= 102 {
        true
    } else {
        48 <= byte && byte <= 57
    }
}

fn first_other(digits: &[u8]) -> Option<usize>
    ensures place { result ≡ position (λ digit. not (is_hex_digit digit)) digits.now }
    ensures within { IfSome result (λ place. place < length digits.now) }
{
    digits.iter().position(|digit| !is_digit(*digit))
}

fn digits_place(digits: &[u8]) -> usize
    ensures place { result ≡ place_in digits.now }
    ensures within { result ≤ length digits.now }
{
    match first_other(digits) {
        None => digits.len(),
        Some(place) => place,
    }
}

fn octets_of(alloc: Global, digits: &[u8]) -> Result<Vec<u8>, TextFault>
    requires { length digits.now < 2 ^ 32 }
    ensures octets { Tells (λ octets. octets.items) text_refusal result (octets_in digits.now) }
    ensures short { IfOk result (λ octets. length octets.items + 8 < 2 ^ 32) }
{
    match hex::decode(alloc, digits) {
        Ok(octets) => Ok(octets),
        Err(FromHexError::OutOfMemory) => Err(TextFault::NoMemory),
        Err(_) => Err(TextFault::Digits(digits_place(digits) as u32)),
    }
}

fn ior_inside(alloc: Global, content: &[u8]) -> Result<Ior, IorFault>
    requires { length content.now + 8 < 2 ^ 32 }
    ensures read { Tells (λ i. i) field_fault result (held ior content.now) }
    ensures short { IfOk result (λ i. AreShort i.profiles) }
{
    let mut reader = open_encapsulation(content)?;
    ior_in(alloc, &mut reader)
}

fn ior_of_digits(alloc: Global, digits: &[u8]) -> Result<Ior, TextFault>
    requires { length digits.now < 2 ^ 32 }
    ensures read { Tells (λ i. i) text_refusal result (ior_in_digits digits.now) }
    ensures short { IfOk result (λ i. AreShort i.profiles) }
{
    let octets = octets_of(alloc, digits)?;
    match ior_inside(alloc, octets.as_slice()) {
        Ok(reference) => Ok(reference),
        Err(IorFault::Bad(fault)) => Err(TextFault::Bad(fault)),
        Err(IorFault::NoMemory) => Err(TextFault::NoMemory),
    }
}

fn ior_of_text(alloc: Global, text: &[u8]) -> Result<Ior, TextFault>
    requires { length text.now < 2 ^ 32 }
    ensures read { Tells (λ i. i) text_refusal result (ior_in_text text.now) }
    ensures short { IfOk result (λ i. AreShort i.profiles) }
{
    if !begins(text) {
        return Err(TextFault::NoPrefix);
    }
    ior_of_digits(alloc, &text[4..])
}

/// The reference that a text spells. Digits are read in either case, and what follows the reference
/// inside the encapsulation is ignored.
pub fn from_text(alloc: Global, text: &[u8]) -> Result<Ior, TextFault>
    requires { length text.now < 2 ^ 32 }
    ensures found { IfOk result (SpellsReference text.now) }
    ensures refused { Refuses text_refusal result ((reference : AReference) → SpellsReference text.now reference → ⊥) }
    ensures read { Tells (λ i. i) text_refusal result (ior_in_text text.now) }
    ensures short { IfOk result (λ i. AreShort i.profiles) }
{
    ior_of_text(alloc, text)
}
