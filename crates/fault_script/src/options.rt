ghost use Rattle.std.specs.Prelude.{◌≡◌, ℕ, List, Some};
ghost use Rattle.fault_script.specs.Options.{with_option, options_of};

use crate::numerals::{read_i32, read_u64};
use ft_base::{Bytes, Retention, Tick};

/// What a call's options say.
#[derive(Clone, Copy, Debug, PartialEq, Eq)]
pub(crate) struct Options {
    pub retention: Option<Retention>,
    pub expiration: Option<Tick>,
    pub versioned: bool,
}

fn with_option(options: Options, word: &[u8]) -> Option<Options>
    ensures { result ≡ with_option word.now options }
{
    if word == b"nover".as_slice() {
        if !options.versioned {
            return None;
        }
        return Some(Options {
            versioned: false,
            ..options
        });
    }
    if let Some(value) = word.strip_prefix(b"ret=") {
        let id = read_i32(value)?;
        if options.retention.is_some() {
            return None;
        }
        return Some(Options {
            retention: Some(Retention(id)),
            ..options
        });
    }
    if let Some(value) = word.strip_prefix(b"exp=") {
        let tick = read_u64(value)?;
        if options.expiration.is_some() {
            return None;
        }
        return Some(Options {
            expiration: Some(Tick(tick)),
            ..options
        });
    }
    None
}

/// What these words say, if each of them is an option.
pub(crate) fn read_options(words: &[Bytes]) -> Option<Options>
    ensures { result ≡ options_of words.now }
{
    let mut options = Options {
        retention: None,
        expiration: None,
        versioned: true,
    };
    for word in words {
        match with_option(options, word.bytes()) {
            Some(more) => options = more,
            None => return None,
        }
    }
    Some(options)
}
