//! What the words ask for.
ghost use Rattle.std.specs.Prelude.{◌≡◌, ◌↔◌, ℕ, ◌≤◌, List, IfOk, Some, map, option_map, option_and_then, string_bytes};
ghost use Rattle.std.specs.List.{list_any};
ghost use Rattle.clap.specs.Words.{first_value, found_of};
ghost use Rattle.live_words.specs.Words.{Asks, IsAsked, after_of, is_end, kill_of, number_in, style_of};

use crate::options::live_command;
use clap::ArgMatches;
use clap::error::ErrorKind;
use decimal_numbers::read_number;
use ft_base::{HostNo, NoMemory, Style};
use std::alloc::Global;

/// What a live run is to be.
#[derive(Clone, Copy, Debug, PartialEq, Eq)]
pub struct LiveWords {
    pub hosts: u8,
    pub clients: u8,
    /// How many deposits each client makes.
    pub calls: u16,
    pub style: Style,
    /// The host that is crashed.
    pub kill: Option<HostNo>,
    /// How many requests the journal has at least when that host is crashed.
    pub after: u16,
}

// A number within these bounds.
fn number_in(low: u16, high: u16, word: &str) -> Option<u16>
    ensures { result ≡ number_in low high word.now }
{
    match read_number(word.as_bytes()) {
        Some(number) if number >= u128::from(low) && number <= u128::from(high) => Some(
            number as u16,
        ),
        _ => None,
    }
}

// The same below 256.
fn few_in(low: u8, high: u8, word: &str) -> Option<u8>
    ensures { result ≡ number_in low high word.now }
{
    match number_in(u16::from(low), u16::from(high), word) {
        Some(number) => Some(number as u8),
        None => None,
    }
}

fn style_of(word: &str) -> Option<Style>
    ensures { result ≡ style_of word.now }
{
    if word == "cold" {
        Some(Style::Cold)
    } else if word == "warm" {
        Some(Style::Warm)
    } else if word == "active" {
        Some(Style::Active)
    } else {
        None
    }
}

fn kill_of(hosts: u8, word: Option<&str>) -> Option<Option<HostNo>>
    requires { 1 ≤ hosts }
    ensures { result ≡ kill_of hosts (option_map (λ s. s.now) word.entry) }
{
    match word {
        None => Some(None),
        Some(word) => match few_in(0, hosts - 1, word) {
            Some(host) => Some(Some(HostNo(host))),
            None => None,
        },
    }
}

fn after_of(word: Option<&str>) -> Option<u16>
    ensures { result ≡ after_of (option_map (λ s. s.now) word.entry) }
{
    match word {
        None => Some(1),
        Some(word) => number_in(1, 64_000, word),
    }
}

// What the values of options ask for, if all do.
fn asked_by(matches: &ArgMatches<'_>) -> Option<LiveWords>
    ensures { (live : LiveWords) → (result ≡ Some live) ↔ IsAsked (first_value (found_of matches.now)) live }
{
    let hosts = few_in(1, 16, matches.get_str("hosts")?)?;
    let clients = few_in(1, 64, matches.get_str("clients")?)?;
    let calls = number_in(1, 1000, matches.get_str("calls")?)?;
    let style = style_of(matches.get_str("style")?)?;
    let kill = kill_of(hosts, matches.get_str("kill"))?;
    let after = after_of(matches.get_str("after"))?;
    Some(LiveWords {
        hosts,
        clients,
        calls,
        style,
        kill,
        after,
    })
}

fn is_end(word: &String) -> bool
    ensures { result ≡ is_end (string_bytes word.now) }
{
    word.as_str() == "--"
}

// A word is `--`, behind which `clap` would take no option for one.
fn has_end(words: &[String]) -> bool
    ensures { result ≡ list_any (λ word. is_end (string_bytes word)) words.now }
{
    words.iter().any(|word| is_end(word))
}

/// What the words behind `live` ask for, where they are of the form.
pub fn read_live(alloc: Global, words: &[String]) -> Result<Option<LiveWords>, NoMemory>
    ensures { IfOk result (λ read. (live : LiveWords) → (read ≡ Some live) ↔ Asks (map string_bytes words.now) live) }
{
    if has_end(words) {
        return Ok(None);
    }
    let command = live_command(alloc)?;
    match command.try_get_matches_from(words) {
        Ok(matches) => Ok(asked_by(&matches)),
        Err(error) => match error.kind() {
            ErrorKind::OutOfMemory => Err(NoMemory),
            _ => Ok(None),
        },
    }
}
