//! The words of the command line, behind the program's name.
ghost use Rattle.std.specs.Prelude.{◌≡◌, ◌↔◌, ◌&&◌, ◌≤◌, codes, map, IfSome, IsTrue, string_bytes};
ghost use Rattle.std.specs.Str.{bytes_eq};
ghost use Rattle.run_top.specs.Words.{IsRun, rounds_asked, rounds_of};

use decimal_numbers::read_number;

/// The most rounds of a script that is made.
const ROUND_LIMIT: u128 = 50_000;

/// The words are the one word `run`.
pub(crate) fn is_run(words: &[String]) -> bool
    ensures { IsTrue result ↔ IsRun words.now }
{
    match words {
        [word] => word.as_str() == "run",
        _ => false,
    }
}

// A number of rounds.
fn rounds_of(word: &[u8]) -> Option<u32>
    ensures spelled { result ≡ rounds_of word.now }
    ensures few { IfSome result (λ rounds. rounds ≤ 50000) }
{
    match read_number(word) {
        Some(number) if number != 0 && number <= ROUND_LIMIT => Some(number as u32),
        _ => None,
    }
}

fn is_make(first: &str, second: &str) -> bool
    ensures { result ≡ (bytes_eq first.now (codes "run") && bytes_eq second.now (codes "--make")) }
{
    first == "run" && second == "--make"
}

/// The rounds of a script that is to be made, where the words are `run --make N`.
pub(crate) fn rounds_in(words: &[String]) -> Option<u32>
    ensures asked { result ≡ rounds_asked (map string_bytes words.now) }
    ensures few { IfSome result (λ rounds. rounds ≤ 50000) }
{
    match words {
        [first, second, third] if is_make(first.as_str(), second.as_str()) => rounds_of(
            third.as_bytes(),
        ),
        _ => None,
    }
}
