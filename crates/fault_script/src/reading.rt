ghost use Rattle.std.specs.Prelude.{◌≡◌, ◌<◌, ◌≤◌, if◌then◌else◌, [], length, Some, None, Ok, Err, IfOk, IfSome};
ghost use Rattle.fault_script.specs.Words.{words, texts};
ghost use Rattle.fault_script.specs.Faults.{IsAnswer, IsLeft};
ghost use Rattle.fault_script.specs.Forms.{form_of, as_some, parse_words, parse, IsSplit};
ghost use Rattle.fault_script.specs.Grammar.{Spells};
ghost use Rattle.fault_script.specs.declared.lines.Line.{Line};

use crate::criteria::read_create;
use crate::forms::{
    read_bind, read_call, read_change, read_crash, read_deliver, read_group, read_grow, read_hosts,
    read_inject, read_member, read_name_line, read_restart, read_subscribe, read_tick,
};
use crate::lines::{LimitName, Line, LineFault};
use crate::settings::{read_get, read_set, read_unset};
use crate::splitting::{LineWords, is_comment, split_first, split_words};
use crate::verbs::{Verb, find_verb};
use std::alloc::Global;

/// The longest line, in bytes without its end.
const LINE_LIMIT: usize = 4096;

/// Reads the line of some words, and writes it at the place that is given. What is of no form is refused as `syntax`; what
/// the place holds then is unspecified.
// A line is large: each form writes it where the caller wants it, so that it is never moved.
#[inline(never)]
pub fn read_words(alloc: Global, words: &[&[u8]], line: &mut Line) -> Result<(), LineFault>
    ensures { IsLeft result line.new (form_of (texts words.now)) }
{
    let Some((first, rest)) = split_first(words) else {
        return Err(LineFault::Syntax);
    };
    match find_verb(first) {
        None => Err(LineFault::Syntax),
        Some(Verb::Hosts) => read_hosts(rest, line),
        Some(Verb::Group) => read_group(alloc, rest, line),
        Some(Verb::Call) => read_call(alloc, rest, line),
        Some(Verb::Bind) => read_bind(alloc, rest, line),
        Some(Verb::Deliver) => read_deliver(rest, line),
        Some(Verb::Tick) => read_tick(rest, line),
        Some(Verb::MemberRef) => read_member(alloc, rest, line),
        Some(Verb::Inject) => read_inject(alloc, rest, line),
        Some(Verb::Change(change)) => read_change(alloc, change, rest, line),
        Some(Verb::Name(verb)) => read_name_line(alloc, verb, rest, line),
        Some(Verb::Crash) => read_crash(rest, line),
        Some(Verb::Restart) => read_restart(rest, line),
        Some(Verb::Create) => read_create(alloc, rest, line),
        Some(Verb::Set) => read_set(alloc, rest, line),
        Some(Verb::Unset) => read_unset(alloc, rest, line),
        Some(Verb::Get) => read_get(alloc, rest, line),
        Some(Verb::Grow) => read_grow(alloc, rest, line),
        Some(Verb::Subscribe) => read_subscribe(alloc, rest, line),
    }
}

// Whether a line stands in these words.
fn has_line(words: &[&[u8]]) -> bool
    ensures { parse_words (texts words.now) ≡ if result then as_some (form_of (texts words.now)) else Ok None }
{
    match split_first(words) {
        Some((first, _)) => !is_comment(first),
        None => false,
    }
}

/// Finds the words of a line of a script, without its end, and answers whether a line stands in them: none does where
/// there are no words, or a comment. A line that is too long is refused as `limit line`.
pub fn split_line<'a>(text: &'a [u8], words: &mut LineWords<'a>) -> Result<bool, LineFault>
    requires empty { words.old.items ≡ [] }
    ensures answer { IsSplit result text.now (texts words.new.items) }
    ensures long { 4096 < length text.now → result ≡ Err (LineFault.Limit LimitName.Line) }
{
    if text.len() > LINE_LIMIT {
        return Err(LineFault::Limit(LimitName::Line));
    }
    // Most comments are told by their first byte, and not divided into words.
    if is_comment(text) {
        return Ok(false);
    }
    split_words(text, words)?;
    Ok(has_line(words.as_slice()))
}

fn read_text(alloc: Global, text: &[u8]) -> Result<Option<Line>, LineFault>
    ensures answer { IsAnswer result (parse text.now) }
    ensures long { 4096 < length text.now → result ≡ Err (LineFault.Limit LimitName.Line) }
{
    let mut words = LineWords::new(alloc);
    if !split_line(text, &mut words)? {
        return Ok(None);
    }
    let mut line = Line::Hosts(0);
    read_words(alloc, words.as_slice(), &mut line)?;
    Ok(Some(line))
}

/// Reads a line of a script, without its end. `None`: nothing stands in it, or a comment does. A line is
/// refused as `limit line` or `syntax`, for the first of these that applies.
pub fn read_line(alloc: Global, text: &[u8]) -> Result<Option<Line>, LineFault>
    // The table of lines and refusals, exactly.
    ensures answer { IsAnswer result (parse text.now) }
    // What is read is of its form.
    ensures form { IfOk result (λ read. IfSome read (Spells (words text.now))) }
    // What is of a form is read.
    ensures read { (line : Line) → length text.now ≤ 4096 → Spells (words text.now) line
        → IsAnswer result (Ok (Some line)) }
    ensures long { 4096 < length text.now → result ≡ Err (LineFault.Limit LimitName.Line) }
{
    read_text(alloc, text)
}
