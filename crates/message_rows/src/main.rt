//! The rows of messages on a link: verbs and words come in, one row a line, and each is repeated with its answer below
//! it. A line that is empty or begins with `#` is repeated alone.
#![tactic(auto)]

mod answers;
mod forms;
mod messages;
mod streams;

use row_words::RowFault;
use std::alloc::Global;

// Answers a row of messages, links and replies.
fn answer_row(alloc: Global, verb: &str, words: &[&str], out: &mut String) -> Result<(), RowFault> {
    match verb {
        "message" => messages::message(alloc, words, out),
        "stream" => streams::stream(alloc, words, out),
        "cuts" => streams::cuts(alloc, words, out),
        "session" => streams::session(alloc, words, out),
        "replies" => streams::replies(alloc, words, out),
        "reply" => answers::reply(alloc, words, out),
        "size" => answers::size(alloc, words, out),
        "size-request" => answers::request_bytes(alloc, words, out),
        "size-exception" => answers::exception_bytes(alloc, words, out),
        "locate-reply" => answers::locate_reply(alloc, words, out),
        "message-error" => answers::message_error(alloc, out),
        _ => Err(RowFault::NoRow),
    }
}

// The answer to a row.
fn answer(alloc: Global, row: &str) -> Result<String, RowFault> {
    let words: Vec<&str> = row.split_whitespace().collect(alloc)?;
    let [verb, words @ ..] = words.as_slice() else {
        return Err(RowFault::NoRow);
    };
    let mut out = String::new(alloc);
    answer_row(alloc, *verb, words, &mut out)?;
    Ok(out)
}

fn main(rt: HostRuntime) -> anyhow::Result<()> {
    for line in rt.lines(rt.alloc()) {
        let line = line?;
        println!(rt; "{line}")?;
        if line.is_empty() || line.starts_with('#') {
            continue;
        }
        let answer = answer(rt.alloc(), line.as_str())?;
        println!(rt; "    {answer}")?;
    }
    Ok(())
}
