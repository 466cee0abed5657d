ghost use Rattle.fault_script.specs.Words.{texts};
ghost use Rattle.fault_script.specs.Arguments.{IsFound};
ghost use Rattle.fault_script.specs.Parts.{a_name, an_identifier, a_text, a_host, a_positive, a_kind};
ghost use Rattle.fault_script.specs.Grammar.{first_word, no_words};

use crate::keywords::find_kind;
use crate::lines::{KindWord, LineFault};
use crate::names::{read_identifier, read_name};
use crate::numerals::{read_host, read_positive};
use ft_base::{Bytes, Name, NoMemory};
use std::alloc::Global;

/// The next word, taken off those that are left.
#[inline(always)]
pub(crate) fn next_word<'a, 'b>(words: &mut &'b [&'a [u8]]) -> Result<&'a [u8], LineFault>
    ensures { IsFound (λ word. (word.now, texts words.new.now)) result (first_word a_text (texts words.old.now)) }
{
    if words.is_empty() {
        return Err(LineFault::Syntax);
    }
    let word = words[0];
    *words = &words[1..];
    Ok(word)
}

/// Refuses words that are left over.
#[inline(always)]
pub(crate) fn no_more(words: &[&[u8]]) -> Result<(), LineFault>
    ensures { IsFound (λ _. tt) result (no_words (texts words.now)) }
{
    if words.is_empty() {
        Ok(())
    } else {
        Err(LineFault::Syntax)
    }
}

/// The name of a group, a client or a subscriber.
pub(crate) fn take_name(alloc: Global, words: &mut &[&[u8]]) -> Result<Name, LineFault>
    ensures { IsFound (λ name. (name, texts words.new.now)) result (first_word a_name (texts words.old.now)) }
{
    let word = next_word(words)?;
    read_name(alloc, word)
}

/// An operation, or the name of a property.
pub(crate) fn take_identifier(alloc: Global, words: &mut &[&[u8]]) -> Result<Name, LineFault>
    ensures { IsFound (λ name. (name, texts words.new.now)) result (first_word an_identifier (texts words.old.now)) }
{
    let word = next_word(words)?;
    read_identifier(alloc, word)
}

/// Any word.
pub(crate) fn take_text(alloc: Global, words: &mut &[&[u8]]) -> Result<Bytes, LineFault>
    ensures { IsFound (λ text. (text, texts words.new.now)) result (first_word a_text (texts words.old.now)) }
{
    let word = next_word(words)?;
    match Bytes::of(alloc, word) {
        Ok(text) => Ok(text),
        Err(NoMemory) => Err(LineFault::NoMemory),
    }
}

/// A host's number.
pub(crate) fn take_host(words: &mut &[&[u8]]) -> Result<u64, LineFault>
    ensures { IsFound (λ host. (host, texts words.new.now)) result (first_word a_host (texts words.old.now)) }
{
    let word = next_word(words)?;
    read_host(word).ok_or(LineFault::Syntax)
}

/// A number from 1.
pub(crate) fn take_positive(words: &mut &[&[u8]]) -> Result<u64, LineFault>
    ensures { IsFound (λ count. (count, texts words.new.now)) result (first_word a_positive (texts words.old.now)) }
{
    let word = next_word(words)?;
    read_positive(word).ok_or(LineFault::Syntax)
}

/// A kind of servant.
pub(crate) fn take_kind(words: &mut &[&[u8]]) -> Result<KindWord, LineFault>
    ensures { IsFound (λ kind. (kind, texts words.new.now)) result (first_word a_kind (texts words.old.now)) }
{
    let word = next_word(words)?;
    find_kind(word).ok_or(LineFault::Syntax)
}
