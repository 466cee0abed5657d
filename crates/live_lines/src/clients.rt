ghost use Rattle.std.specs.Prelude.{◌≡◌, ◌++◌, OnOk};
ghost use Rattle.live_lines.specs.Lines.{Replied, client_lines, told_lines};

use crate::replies::Replies;
use client_calls::Told;
use ft_base::NoMemory;
use live_report::push_call_line;
use std::alloc::Global;

// Writes the lines of the calls of the client with this number.
fn push_client_lines<R: Replies>(
    alloc: Global,
    text: &mut Vec<u8>,
    replies: &R,
    client: u64,
    told: &Told,
) -> Result<(), NoMemory>
    requires { (replied : Replied) × R.holds replies.now replied }
    ensures { (replied : Replied) → R.holds replies.now replied → OnOk result (text.new.items ≡ text.old.items ++ client_lines replied client told.now) }
{
    for place in 0..told.calls.len() {
        let call = place as u64 + 1;
        let reply = replies.reply(alloc, client, call)?;
        push_call_line(
            alloc,
            text,
            client,
            call,
            &told.calls[place].end,
            reply.as_ref(),
        )?;
    }
    Ok(())
}

/// Writes a line for each call of each client, in order: clients are numbered from 0, and the calls of each from 1.
pub fn push_told_lines<R: Replies>(
    alloc: Global,
    text: &mut Vec<u8>,
    replies: &R,
    tolds: &[Told],
) -> Result<(), NoMemory>
    requires { (replied : Replied) × R.holds replies.now replied }
    ensures { (replied : Replied) → R.holds replies.now replied → OnOk result (text.new.items ≡ text.old.items ++ told_lines replied 0 tolds.now) }
{
    for client in 0..tolds.len() {
        push_client_lines(alloc, text, replies, client as u64, &tolds[client])?;
    }
    Ok(())
}
