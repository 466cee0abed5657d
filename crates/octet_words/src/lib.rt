//! The words of rows that say octets, some of them many times, and how answers print octets, names and outcomes.
#![tactic(auto)]

ghost use Rattle.std.specs.Prelude.{◌<◌, length, IfOk};

use anyhow::{Result, anyhow, bail};
use ft_base::{Bytes, Name, NoMemory, Outcome};
use row_words::bytes_of;
use std::alloc::Global;

/// A word says fewer octets than these.
pub const OCTET_LIMIT: usize = 1_000_000;

/// The error of a row for which memory ran out.
pub fn no_memory(_error: NoMemory) -> anyhow::Error {
    anyhow!("no memory")
}

/// The first word, and what stands behind the blank after it.
pub fn first_word(text: &str) -> (&str, &str) {
    text.split_once(' ').unwrap_or((text, ""))
}

fn repeated(alloc: Global, piece: &[u8], times: u32) -> Result<Vec<u8>> {
    let mut octets = Vec::new(alloc);
    for _ in 0..times {
        octets.extend_from_slice(piece)?;
    }
    Ok(octets)
}

/// The octets of a word: hexadecimal digits or a text in quotes, `-` for none, and `"x"*255` for so many times the
/// same.
pub fn octets(alloc: Global, word: &str) -> Result<Vec<u8>>
    ensures { IfOk result (λ octets. length octets.items < OCTET_LIMIT) }
{
    if word == "-" {
        return Ok(Vec::new(alloc));
    }
    let (piece, times) = word.split_once('*').unwrap_or((word, "1"));
    let piece = bytes_of(alloc, piece)?;
    let octets = repeated(alloc, piece.as_slice(), times.parse::<u32>()?)?;
    if octets.len() >= OCTET_LIMIT {
        bail!("too many octets: {word}");
    }
    Ok(octets)
}

/// The octets of a word.
pub fn bytes(alloc: Global, word: &str) -> Result<Bytes> {
    let octets = octets(alloc, word)?;
    Ok(Bytes::from_vec(octets))
}

/// The name that a word is, without quotes.
pub fn name(alloc: Global, word: &str) -> Result<Name> {
    if word.len() >= OCTET_LIMIT {
        bail!("too long: {word}");
    }
    Ok(Name::of(alloc, word.as_bytes())?)
}

/// Octets as they are printed: hexadecimal digits, `-` for none, or how many there are of more than 64.
pub fn octets_text(alloc: Global, octets: &[u8]) -> Result<String> {
    if octets.is_empty() {
        return Ok(String::from_str(alloc, "-")?);
    }
    if octets.len() > 64 {
        return Ok(format!(in alloc; "{} octets", octets.len())?);
    }
    Ok(hex::encode(alloc, octets)?)
}

/// The bytes of a name as they are printed.
pub fn name_text(name: &[u8]) -> Result<&str> {
    Ok(std::str::from_utf8(name)?)
}

/// An outcome as it is printed.
pub fn outcome_text(alloc: Global, outcome: &Outcome) -> Result<String> {
    match outcome {
        Outcome::Value(value) => {
            let value = octets_text(alloc, value.bytes())?;
            Ok(format!(in alloc; "value {value}")?)
        }
        Outcome::User(name) => {
            let name = name_text(name.bytes())?;
            Ok(format!(in alloc; "user {name}")?)
        }
    }
}
