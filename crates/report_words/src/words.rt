ghost use Rattle.std.specs.Prelude.{◌≡◌, ◌++◌, ◌∷◌, [], ℕ, map, decimal, IfOk, OnOk};
ghost use Rattle.std.specs.Fmt.{signed_decimal};
ghost use Rattle.std.specs.List.{flat_map};
ghost use Rattle.report_words.specs.Words.{hosts_text, joined_text, line, octets_text, phrase_text, word_text};

use crate::hexadecimal::push_hexadecimal;
use ft_base::{Bytes, HostNo, Members, Name, NoMemory};
use itoa::Buffer;
use std::alloc::Global;

// Most lines are no longer, and so are made in one piece of memory.
const LINE_ROOM: usize = 64;

/// One word of a line. Texts that the line holds and texts that are made for it live for different
/// times.
#[derive(Clone, Copy)]
pub enum Word<'a, 'b> {
    /// A word of the line's form.
    Fixed(&'static [u8]),
    /// A text that the line holds.
    Text(&'a [u8]),
    /// A text that is made for the line.
    Made(&'b [u8]),
    Number(u64),
    /// A host's number; `-` for none.
    Host(Option<HostNo>),
    /// Where a host's objects are: `h` and the host's number.
    Location(HostNo),
}

#[inline(always)]
fn push_digits(text: &mut Vec<u8>, number: u64) -> Result<(), NoMemory>
    ensures { OnOk result (text.new.items ≡ text.old.items ++ decimal number) }
{
    let mut digits = Buffer::new();
    text.extend_from_slice(digits.format(number).as_bytes())?;
    Ok(())
}

/// Writes a number with its sign, where it has one.
#[inline(always)]
pub fn push_signed(text: &mut Vec<u8>, number: i64) -> Result<(), NoMemory>
    ensures { OnOk result (text.new.items ≡ text.old.items ++ signed_decimal number) }
{
    let mut digits = Buffer::new();
    text.extend_from_slice(digits.format(number).as_bytes())?;
    Ok(())
}

/// Writes a text, and a number behind it.
#[inline(always)]
pub fn push_numbered(text: &mut Vec<u8>, before: &'static [u8], number: u64) -> Result<(), NoMemory>
    ensures { OnOk result (text.new.items ≡ text.old.items ++ (before.now ++ decimal number)) }
{
    text.extend_from_slice(before)?;
    push_digits(text, number)
}

/// Writes a text, and a name behind it.
#[inline(always)]
pub fn push_named(text: &mut Vec<u8>, before: &'static [u8], name: &Name) -> Result<(), NoMemory>
    ensures { OnOk result (text.new.items ≡ text.old.items ++ (before.now ++ name.now)) }
{
    text.extend_from_slice(before)?;
    text.extend_from_slice(name.bytes())?;
    Ok(())
}

#[inline(always)]
fn push_word(text: &mut Vec<u8>, word: &Word) -> Result<(), NoMemory>
    ensures { OnOk result (text.new.items ≡ text.old.items ++ word_text word.now) }
{
    match word {
        Word::Fixed(part) => text.extend_from_slice(part)?,
        Word::Text(part) => text.extend_from_slice(part)?,
        Word::Made(part) => text.extend_from_slice(part)?,
        Word::Number(number) => push_digits(text, *number)?,
        Word::Host(None) => text.extend_from_slice(b"-")?,
        Word::Host(Some(host)) => push_digits(text, u64::from(host.0))?,
        Word::Location(host) => {
            text.push(b'h')?;
            push_digits(text, u64::from(host.0))?;
        }
    }
    Ok(())
}

#[inline(always)]
fn push_each(text: &mut Vec<u8>, separator: u8, words: &[Word]) -> Result<(), NoMemory>
    ensures { OnOk result (text.new.items ≡ text.old.items ++ flat_map (λ word. separator ∷ word_text word) words.now) }
{
    for word in words {
        text.push(separator)?;
        push_word(text, word)?;
    }
    Ok(())
}

fn push_words(text: &mut Vec<u8>, separator: u8, words: &[Word]) -> Result<(), NoMemory>
    ensures { OnOk result (text.new.items ≡ text.old.items ++ joined_text separator (map word_text words.now)) }
{
    if let Some((first, rest)) = words.split_first() {
        push_word(text, first)?;
        push_each(text, separator, rest)?;
    }
    Ok(())
}

fn join(alloc: Global, separator: u8, words: &[Word]) -> Result<Vec<u8>, NoMemory>
    ensures { IfOk result (λ text. text.items ≡ joined_text separator (map word_text words.now)) }
{
    let mut text = Vec::new(alloc);
    text.reserve(LINE_ROOM)?;
    push_words(&mut text, separator, words)?;
    Ok(text)
}

/// The words, with a space between each two.
pub fn phrase(alloc: Global, words: &[Word]) -> Result<Bytes, NoMemory>
    ensures { IfOk result (λ bytes. bytes ≡ phrase_text (map word_text words.now)) }
{
    let text = join(alloc, b' ', words)?;
    Ok(Bytes::from_vec(text))
}

/// Writes the words, with a space between each two.
pub fn push_phrase(text: &mut Vec<u8>, words: &[Word]) -> Result<(), NoMemory>
    ensures { OnOk result (text.new.items ≡ text.old.items ++ phrase_text (map word_text words.now)) }
{
    push_words(text, b' ', words)
}

/// Writes a line of the words, with its LF.
pub fn push_line(text: &mut Vec<u8>, words: &[Word]) -> Result<(), NoMemory>
    ensures { OnOk result (text.new.items ≡ text.old.items ++ line (map word_text words.now)) }
{
    push_words(text, b' ', words)?;
    text.push(b'\n')?;
    Ok(())
}

fn host_words(alloc: Global, hosts: &[u8]) -> Result<Vec<Word<'static, 'static>>, NoMemory>
    ensures { IfOk result (λ words. map word_text words.items ≡ map decimal hosts.now) }
{
    let mut words = Vec::new(alloc);
    for host in hosts {
        words.push(Word::Number(u64::from(*host)))?;
    }
    Ok(words)
}

/// Host numbers, with a comma between each two; `-` for none.
pub fn hosts(alloc: Global, members: &Members) -> Result<Bytes, NoMemory>
    ensures { IfOk result (λ bytes. bytes ≡ hosts_text members.now) }
{
    if members.len() == 0 {
        return Bytes::of(alloc, b"-");
    }
    let words = host_words(alloc, members.hosts())?;
    let text = join(alloc, b',', &words)?;
    Ok(Bytes::from_vec(text))
}

/// Writes octets in hexadecimal; `-` for none.
pub fn push_octets(text: &mut Vec<u8>, octets: &[u8]) -> Result<(), NoMemory>
    ensures { OnOk result (text.new.items ≡ text.old.items ++ octets_text octets.now) }
{
    if octets.is_empty() {
        text.push(b'-')?;
        return Ok(());
    }
    push_hexadecimal(text, octets)
}

/// Octets in hexadecimal; `-` for none.
pub fn octets(alloc: Global, bytes: &Bytes) -> Result<Bytes, NoMemory>
    ensures { IfOk result (λ text. text ≡ octets_text bytes.now) }
{
    let mut text = Vec::new(alloc);
    push_octets(&mut text, bytes.bytes())?;
    Ok(Bytes::from_vec(text))
}
