ghost use Rattle.std.specs.Prelude.{◌≡◌, ◌+◌, ◌<◌, ◌==◌, [], ◌∷◌, ◌++◌, length, slice_index, take, drop, filter, IfSome, IsTrue, OnOk, MatchOption};
ghost use Rattle.std.specs.List.{list_all, slice_split};
ghost use Rattle.memchr.specs.Find.{IsFirstByte};
ghost use Rattle.fault_script.specs.Words.{is_blank, is_filled, words, is_comment, is_name_byte, is_script_name, texts};

use ft_base::NoMemory;
use memchr::memchr3;
use smallvec::SmallVec;

/// The longest name of a group or of a client, in bytes.
const SCRIPT_NAME_LIMIT: usize = 64;

/// As many words as most lines have at most.
const FEW_WORDS: usize = 6;

// Whether a word of one byte stands before a space.
fn is_one_byte(line: &[u8]) -> bool
    ensures { IsTrue result → (1 < length line.now) × (32 < slice_index line.now 0) × (slice_index line.now 1 ≡ 32) }
{
    line.len() > 1 && line[0] > b' ' && line[1] == b' '
}

// Most hosts have one digit. What stands behind it is looked at first, since the search reads many bytes at once.
#[tactic(auto, using(crate::proofs::SplitLemmas::one_byte_first))]
fn first_blank(line: &[u8]) -> Option<usize>
    ensures place { IsFirstByte is_blank line.now result }
    ensures within { IfSome result (λ place. place < length line.now) }
{
    if is_one_byte(line) {
        return Some(1);
    }
    memchr3(b' ', b'\t', b'\r', line)
}

// What stands before a place and what behind it.
fn parted(line: &[u8], place: usize) -> (&[u8], &[u8])
    requires { place < length line.now }
    ensures before { result.0.now ≡ take place line.now }
    ensures behind { result.1.now ≡ drop (place + 1) line.now }
{
    (&line[..place], &line[place + 1..])
}

// What stands before the first blank and what behind it.
fn cut(line: &[u8]) -> Option<(&[u8], &[u8])>
    ensures parts { MatchOption result (slice_split is_blank line.now ≡ line.now ∷ [])
        (λ parts. slice_split is_blank line.now ≡ parts.0.now ∷ slice_split is_blank parts.1.now) }
    ensures shorter { IfSome result (λ parts. length parts.1.now < length line.now) }
{
    match first_blank(line) {
        None => None,
        Some(place) => Some(parted(line, place)),
    }
}

/// The words of a line. The words of most lines take no memory.
pub type LineWords<'a> = SmallVec<&'a [u8], FEW_WORDS>;

// Between two blanks side by side there is no word.
fn push_filled<'a>(words: &mut LineWords<'a>, word: &'a [u8]) -> Result<(), NoMemory>
    ensures { OnOk result (texts words.new.items ≡ texts words.old.items ++ filter is_filled (word.now ∷ [])) }
{
    if !word.is_empty() {
        words.push(word)?;
    }
    Ok(())
}

/// Finds the words of a line, in order.
pub(crate) fn split_words<'a>(line: &'a [u8], found: &mut LineWords<'a>) -> Result<(), NoMemory>
    requires empty { found.old.items ≡ [] }
    ensures { OnOk result (texts found.new.items ≡ words line.now) }
{
    let mut rest = line;
    'words: while let Some((word, behind)) = cut(rest) {
        push_filled(found, word)?;
        rest = behind;
    }
    push_filled(found, rest)
}

/// Whether a line that begins with this word is a comment.
pub(crate) fn is_comment(word: &[u8]) -> bool
    ensures { result ≡ is_comment word.now }
{
    !word.is_empty() && word[0] == b'#'
}

fn is_name_byte(byte: u8) -> bool
    ensures { result ≡ is_name_byte byte }
{
    byte.is_ascii_alphanumeric() || byte == b'_' || byte == b'-' || byte == b'.'
}

fn all_name_bytes(word: &[u8]) -> bool
    ensures { result ≡ list_all is_name_byte word.now }
{
    word.iter().all(|byte| is_name_byte(*byte))
}

/// Whether a word may name a group or a client.
pub(crate) fn is_script_name(word: &[u8]) -> bool
    ensures { result ≡ is_script_name word.now }
{
    !word.is_empty()
        && word.len() <= SCRIPT_NAME_LIMIT
        && word[0].is_ascii_alphabetic()
        && all_name_bytes(word)
}

/// The first word, and those behind it.
pub(crate) fn split_first<'a, 'b>(words: &'b [&'a [u8]]) -> Option<(&'a [u8], &'b [&'a [u8]])>
    ensures { MatchOption result (texts words.now ≡ [])
        (λ parts. texts words.now ≡ parts.0.now ∷ texts parts.1.now) }
{
    if words.is_empty() {
        None
    } else {
        Some((words[0], &words[1..]))
    }
}
