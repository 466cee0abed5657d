ghost use Rattle.std.specs.Prelude.{◌≡◌};
ghost use Rattle.fault_script.specs.Words.{texts, each};
ghost use Rattle.fault_script.specs.Faults.{IsLeft};
ghost use Rattle.fault_script.specs.Arguments.{IsFound};
ghost use Rattle.fault_script.specs.Parts.{a_host, word_value};
ghost use Rattle.fault_script.specs.Grammar.{name_line, form};
ghost use Rattle.fault_script.specs.Forms.{read_form};
ghost use Rattle.fault_script.specs.declared.verbs.Verb.TheVariants as verbs;

use crate::arguments::read_octets;
use crate::keywords::{find_stop, find_style};
use crate::lines::{HostNumbers, Line, LineFault, MemberChange, Words};
use crate::numerals::{read_host, read_u32};
use crate::steps::{
    next_word, no_more, take_host, take_identifier, take_kind, take_name, take_positive, take_text,
};
use crate::verbs::NameVerb;
use ft_base::{Bytes, Name, Stop};
use std::alloc::Global;

/// `hosts N`.
pub(crate) fn read_hosts(mut words: &[&[u8]], line: &mut Line) -> Result<(), LineFault>
    ensures { IsLeft result line.new (read_form (form verbs.Hosts) (texts words.now)) }
{
    let count = take_positive(&mut words)?;
    no_more(words)?;
    *line = Line::Hosts(count);
    Ok(())
}

fn read_members(alloc: Global, hosts: &[&[u8]]) -> Result<HostNumbers, LineFault>
    ensures { IsFound (λ members. members) result (each (word_value a_host) (texts hosts.now)) }
{
    let mut numbers = Vec::new(alloc);
    for word in hosts {
        let Some(host) = read_host(*word) else {
            return Err(LineFault::Syntax);
        };
        if numbers.push(host).is_err() {
            return Err(LineFault::NoMemory);
        }
    }
    Ok(HostNumbers::from_vec(numbers))
}

/// `group G KIND STYLE H..`.
pub(crate) fn read_group(
    alloc: Global,
    mut words: &[&[u8]],
    line: &mut Line,
) -> Result<(), LineFault>
    ensures { IsLeft result line.new (read_form (form verbs.Group) (texts words.now)) }
{
    let name = take_name(alloc, &mut words)?;
    let kind = take_kind(&mut words)?;
    let style = find_style(next_word(&mut words)?).ok_or(LineFault::Syntax)?;
    let members = read_members(alloc, words)?;
    *line = Line::Group {
        name,
        kind,
        style,
        members,
    };
    Ok(())
}

/// `call C G OP WORD..`.
pub(crate) fn read_call(
    alloc: Global,
    mut words: &[&[u8]],
    line: &mut Line,
) -> Result<(), LineFault>
    ensures { IsLeft result line.new (read_form (form verbs.Call) (texts words.now)) }
{
    let client = take_name(alloc, &mut words)?;
    let group = take_name(alloc, &mut words)?;
    let op = take_identifier(alloc, &mut words)?;
    let words = Words::of(alloc, words)?;
    *line = Line::Call {
        client,
        group,
        op,
        words,
    };
    Ok(())
}

/// `bind C G`.
pub(crate) fn read_bind(
    alloc: Global,
    mut words: &[&[u8]],
    line: &mut Line,
) -> Result<(), LineFault>
    ensures { IsLeft result line.new (read_form (form verbs.Bind) (texts words.now)) }
{
    let client = take_name(alloc, &mut words)?;
    let group = take_name(alloc, &mut words)?;
    no_more(words)?;
    *line = Line::Bind { client, group };
    Ok(())
}

/// `tick N`.
pub(crate) fn read_tick(mut words: &[&[u8]], line: &mut Line) -> Result<(), LineFault>
    ensures { IsLeft result line.new (read_form (form verbs.Tick) (texts words.now)) }
{
    let ticks = read_u32(next_word(&mut words)?).ok_or(LineFault::Syntax)?;
    no_more(words)?;
    *line = Line::Tick(ticks);
    Ok(())
}

/// `inject H HEX`.
pub(crate) fn read_inject(
    alloc: Global,
    mut words: &[&[u8]],
    line: &mut Line,
) -> Result<(), LineFault>
    ensures { IsLeft result line.new (read_form (form verbs.Inject) (texts words.now)) }
{
    let host = take_host(&mut words)?;
    let octets = read_octets(alloc, next_word(&mut words)?)?;
    no_more(words)?;
    *line = Line::Inject {
        host,
        bytes: Bytes::from_vec(octets),
    };
    Ok(())
}

/// `add G H` and its like.
pub(crate) fn read_change(
    alloc: Global,
    change: MemberChange,
    mut words: &[&[u8]],
    line: &mut Line,
) -> Result<(), LineFault>
    ensures { IsLeft result line.new (read_form (form (verbs.Change change)) (texts words.now)) }
{
    let group = take_name(alloc, &mut words)?;
    let host = take_host(&mut words)?;
    no_more(words)?;
    *line = Line::Change {
        change,
        group,
        host,
    };
    Ok(())
}

fn name_line(verb: NameVerb, name: Name) -> Line
    ensures { result ≡ name_line verb name }
{
    match verb {
        NameVerb::Client => Line::Client(name),
        NameVerb::Timeout => Line::Timeout(name),
        NameVerb::Show => Line::Show(name),
        NameVerb::Locations => Line::Locations(name),
        NameVerb::Id => Line::Id(name),
        NameVerb::Ref => Line::Ref(name),
        NameVerb::Delete => Line::Delete(name),
        NameVerb::Poll => Line::Poll(name),
        NameVerb::Sweep => Line::Sweep(name),
        NameVerb::Unsubscribe => Line::Unsubscribe(name),
        NameVerb::Pull => Line::Pull(name),
        NameVerb::Checkpoint => Line::Checkpoint(name),
        NameVerb::Update => Line::Update(name),
        NameVerb::LogFail => Line::LogFail(name),
    }
}

/// `show G` and its like.
pub(crate) fn read_name_line(
    alloc: Global,
    verb: NameVerb,
    mut words: &[&[u8]],
    line: &mut Line,
) -> Result<(), LineFault>
    ensures { IsLeft result line.new (read_form (form (verbs.Name verb)) (texts words.now)) }
{
    let name = take_name(alloc, &mut words)?;
    no_more(words)?;
    *line = name_line(verb, name);
    Ok(())
}

/// `deliver K`, alone or with a stop.
pub(crate) fn read_deliver(mut words: &[&[u8]], line: &mut Line) -> Result<(), LineFault>
    ensures { IsLeft result line.new (read_form (form verbs.Deliver) (texts words.now)) }
{
    let number = take_positive(&mut words)?;
    if words.is_empty() {
        *line = Line::Deliver {
            number,
            stop: Stop::Never,
        };
        return Ok(());
    }
    if next_word(&mut words)? != b"crash".as_slice() {
        return Err(LineFault::Syntax);
    }
    let stop = find_stop(next_word(&mut words)?).ok_or(LineFault::Syntax)?;
    no_more(words)?;
    *line = Line::Deliver { number, stop };
    Ok(())
}

/// `member G H`.
pub(crate) fn read_member(
    alloc: Global,
    mut words: &[&[u8]],
    line: &mut Line,
) -> Result<(), LineFault>
    ensures { IsLeft result line.new (read_form (form verbs.MemberRef) (texts words.now)) }
{
    let group = take_name(alloc, &mut words)?;
    let host = take_host(&mut words)?;
    no_more(words)?;
    *line = Line::MemberRef { group, host };
    Ok(())
}

/// `grow G H`.
pub(crate) fn read_grow(
    alloc: Global,
    mut words: &[&[u8]],
    line: &mut Line,
) -> Result<(), LineFault>
    ensures { IsLeft result line.new (read_form (form verbs.Grow) (texts words.now)) }
{
    let group = take_name(alloc, &mut words)?;
    let host = take_host(&mut words)?;
    no_more(words)?;
    *line = Line::Grow { group, host };
    Ok(())
}

/// `crash H`.
pub(crate) fn read_crash(mut words: &[&[u8]], line: &mut Line) -> Result<(), LineFault>
    ensures { IsLeft result line.new (read_form (form verbs.Crash) (texts words.now)) }
{
    let host = take_host(&mut words)?;
    no_more(words)?;
    *line = Line::Crash(host);
    Ok(())
}

/// `restart H`.
pub(crate) fn read_restart(mut words: &[&[u8]], line: &mut Line) -> Result<(), LineFault>
    ensures { IsLeft result line.new (read_form (form verbs.Restart) (texts words.now)) }
{
    let host = take_host(&mut words)?;
    no_more(words)?;
    *line = Line::Restart(host);
    Ok(())
}

/// `subscribe S FILTER`.
pub(crate) fn read_subscribe(
    alloc: Global,
    mut words: &[&[u8]],
    line: &mut Line,
) -> Result<(), LineFault>
    ensures { IsLeft result line.new (read_form (form verbs.Subscribe) (texts words.now)) }
{
    let subscriber = take_name(alloc, &mut words)?;
    let filter = take_text(alloc, &mut words)?;
    no_more(words)?;
    *line = Line::Subscribe { subscriber, filter };
    Ok(())
}
