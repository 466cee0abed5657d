ghost use Rattle.std.specs.Prelude.{◌≡◌, ◌++◌, IfOk, OnOk, option_map};
ghost use Rattle.live_report.specs.Lines.{call_line, client_line, reply_text, shown_reply, told_text};

use crate::replies::differs;
use client_retry::End;
use ft_base::{NoMemory, Outcome, Par};
use ft_report::{ReportOutcome, Worth, push_end, push_outcome};
use report_words::Word::{Fixed, Made, Number, Text};
use report_words::push_line;
use shown_ends::{shown_end, shown_outcome};
use std::alloc::Global;

// How a call ended, in words.
fn told_text(alloc: Global, end: &End) -> Result<Vec<u8>, NoMemory>
    ensures { IfOk result (λ text. text.items ≡ told_text end.now) }
{
    let shown = shown_end(alloc, Some(Par::I64), end)?;
    let mut text = Vec::new(alloc);
    push_end(&mut text, alloc, &shown)?;
    Ok(text)
}

fn shown_reply(alloc: Global, replied: Option<&Outcome>) -> Result<ReportOutcome, NoMemory>
    ensures { IfOk result (λ shown. shown ≡ shown_reply (option_map (λ reply. reply.now) replied.entry)) }
{
    match replied {
        None => Ok(ReportOutcome::Value(Worth::Void)),
        Some(outcome) => shown_outcome(alloc, Some(Par::I64), outcome),
    }
}

// The group's reply to a call, in words.
fn reply_text(alloc: Global, replied: Option<&Outcome>) -> Result<Vec<u8>, NoMemory>
    ensures { IfOk result (λ text. text.items ≡ reply_text (option_map (λ reply. reply.now) replied.entry)) }
{
    let shown = shown_reply(alloc, replied)?;
    let mut text = Vec::new(alloc);
    push_outcome(&mut text, alloc, &shown)?;
    Ok(text)
}

// Writes the line of a client's call, with its end in words, and the group's reply where it differs.
fn push_client_line(
    text: &mut Vec<u8>,
    client: u64,
    call: u64,
    end: &[u8],
    differs: Option<&[u8]>,
) -> Result<(), NoMemory>
    ensures { OnOk result (text.new.items ≡ text.old.items ++ client_line client call end.now (option_map (λ reply. reply.now) differs.entry)) }
{
    match differs {
        None => push_line(
            text,
            &[
                Fixed(b"client"),
                Number(client),
                Fixed(b"call"),
                Number(call),
                Text(end),
            ],
        ),
        Some(reply) => push_line(
            text,
            &[
                Fixed(b"client"),
                Number(client),
                Fixed(b"call"),
                Number(call),
                Text(end),
                Fixed(b"differs"),
                Made(reply),
            ],
        ),
    }
}

/// Writes the line of a client's call with this end. `replied` is the reply that the group has to it, if it has one.
pub fn push_call_line(
    alloc: Global,
    text: &mut Vec<u8>,
    client: u64,
    call: u64,
    end: &End,
    replied: Option<&Outcome>,
) -> Result<(), NoMemory>
    ensures { OnOk result (text.new.items ≡ text.old.items ++ call_line client call end.now (option_map (λ reply. reply.now) replied.entry)) }
{
    let told = told_text(alloc, end)?;
    if !differs(end, replied) {
        return push_client_line(text, client, call, told.as_slice(), None);
    }
    let reply = reply_text(alloc, replied)?;
    push_client_line(text, client, call, told.as_slice(), Some(reply.as_slice()))
}
