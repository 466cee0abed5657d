ghost use Rattle.std.specs.Prelude.{◌≡◌, ◌<◌, ◌++◌, map, OnOk};
ghost use Rattle.std.specs.List.{flat_map};
ghost use Rattle.report_words.specs.Words.{line, word_text};
ghost use Rattle.made_scripts.specs.Lines.{client};

use ft_base::NoMemory;
use report_words::{Word, push_line};

/// The name of a client by its number.
pub(crate) fn client(number: u32) -> Word<'static, 'static>
    requires { number < 4 }
    ensures { word_text result ≡ client number }
{
    match number {
        0 => Word::Fixed(b"c0"),
        1 => Word::Fixed(b"c1"),
        2 => Word::Fixed(b"c2"),
        _ => Word::Fixed(b"c3"),
    }
}

/// Writes lines, each of its words.
pub(crate) fn push_lines(text: &mut Vec<u8>, lines: &[&[Word]]) -> Result<(), NoMemory>
    ensures { OnOk result (text.new.items
        ≡ text.old.items ++ flat_map (λ words. line (map word_text words.now)) lines.now) }
{
    for words in lines {
        push_line(text, words)?;
    }
    Ok(())
}
