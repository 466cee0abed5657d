ghost use Rattle.std.specs.Prelude.{◌≡◌, ◌<◌, ◌^◌, ◌++◌, IfOk, OnOk};
ghost use Rattle.made_scripts.specs.Lines.{text_of};
ghost use Rattle.made_scripts.specs.Scripts.{ending, opening, script_text};

use crate::lines::push_lines;
use crate::rounds::push_rounds;
use ft_base::{Bytes, NoMemory};
use report_words::Word::{Fixed, Number};
use std::alloc::Global;

// Rounds have fewer bytes on the average, as long as messages have at most six digits.
const ROUND_ROOM: usize = 64;

// The lines before the rounds and behind them have no more.
const OUTER_ROOM: usize = 256;

#[tactic(auto, unfolding(crate::specs::Scripts::opening))]
fn push_opening(text: &mut Vec<u8>) -> Result<(), NoMemory>
    ensures { OnOk result (text.new.items ≡ text.old.items ++ text_of opening) }
{
    push_lines(
        text,
        &[
            &[Fixed(b"hosts"), Fixed(b"3")],
            &[
                Fixed(b"group"),
                Fixed(b"bank"),
                Fixed(b"account"),
                Fixed(b"warm"),
                Fixed(b"0"),
                Fixed(b"1"),
                Fixed(b"2"),
            ],
            &[Fixed(b"client"), Fixed(b"c0")],
            &[Fixed(b"client"), Fixed(b"c1")],
            &[Fixed(b"client"), Fixed(b"c2")],
            &[Fixed(b"client"), Fixed(b"c3")],
        ],
    )
}

#[tactic(auto, unfolding(crate::specs::Scripts::ending))]
fn push_ending(text: &mut Vec<u8>, sent: u64) -> Result<(), NoMemory>
    requires { sent < 2 ^ 40 }
    ensures { OnOk result (text.new.items ≡ text.old.items ++ text_of (ending sent)) }
{
    push_lines(
        text,
        &[
            &[Fixed(b"crash"), Fixed(b"0")],
            &[Fixed(b"report"), Fixed(b"bank"), Fixed(b"0")],
            &[Fixed(b"deliver"), Number(sent + 2)],
            &[Fixed(b"deliver"), Number(sent + 3)],
            &[Fixed(b"client"), Fixed(b"last")],
            &[
                Fixed(b"call"),
                Fixed(b"last"),
                Fixed(b"bank"),
                Fixed(b"balance"),
            ],
            &[Fixed(b"deliver"), Number(sent + 4)],
            &[Fixed(b"deliver"), Number(sent + 5)],
            &[Fixed(b"show"), Fixed(b"bank")],
        ],
    )
}

/// Makes the script of `--make`, of so many rounds.
pub fn make_script(alloc: Global, number: u32) -> Result<Bytes, NoMemory>
    ensures { IfOk result (λ script. script ≡ script_text number) }
{
    let mut text = Vec::new(alloc);
    text.reserve(number as usize * ROUND_ROOM + OUTER_ROOM)?;
    push_opening(&mut text)?;
    let sent = push_rounds(&mut text, number)?;
    push_ending(&mut text, sent)?;
    Ok(Bytes::from_vec(text))
}
