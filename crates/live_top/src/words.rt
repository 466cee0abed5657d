//! The words of the command line, behind the program's name.
ghost use Rattle.std.specs.Prelude.{◌≡◌, ◌↔◌, codes, map, Some, IsTrue, IfOk, IfSome, string_bytes};
ghost use Rattle.live_run.specs.Runs.{CanRun};
ghost use Rattle.live_top.specs.Headline.{AsksFor, IsLive};

use ft_base::NoMemory;
use live_words::{LiveWords, read_live};
use std::alloc::Global;

fn is_live_word(word: &String) -> bool
    ensures { IsTrue result ↔ (string_bytes word.now ≡ codes "live") }
{
    word.as_str() == "live"
}

/// Whether the first word is `live`.
pub fn is_live(words: &[String]) -> bool
    ensures { IsTrue result ↔ IsLive (map string_bytes words.now) }
{
    match words {
        [first, ..] => is_live_word(first),
        [] => false,
    }
}

/// The run that the words ask for, if they do.
pub(crate) fn asked(alloc: Global, words: &[String]) -> Result<Option<LiveWords>, NoMemory>
    ensures can { IfOk result (λ asked. IfSome asked CanRun) }
    ensures asked { IfOk result (λ asked. (live : LiveWords) → (asked ≡ Some live) ↔ AsksFor (map string_bytes words.now) live) }
{
    match words {
        [first, rest @ ..] if is_live_word(first) => read_live(alloc, rest),
        _ => Ok(None),
    }
}
