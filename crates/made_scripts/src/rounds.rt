ghost use Rattle.std.specs.Prelude.{◌≡◌, ◌-◌, ◌<◌, ◌≤◌, ◌^◌, ◌++◌, OnOk, IfOk};
ghost use Rattle.report_words.specs.Words.{line};
ghost use Rattle.made_scripts.specs.Lines.{text_of};
ghost use Rattle.made_scripts.specs.Scripts.{again, call_lines, delivery, deposit, next_drawn, round_lines, rounds_lines, sent_by_call, sent_by_round, sent_by_transfer, sent_in, transfer, transfer_lines};

use crate::lines::{client, push_lines};
use ft_base::NoMemory;
use report_words::Word::{Fixed, Number};
use report_words::push_line;

fn next_drawn(last: u64) -> u64
    requires { last < 2 ^ 32 }
    ensures value { result ≡ next_drawn last }
    ensures small { result < 2 ^ 31 }
{
    (1_103_515_245 * last + 12_345) % (1 << 31)
}

fn push_delivery(text: &mut Vec<u8>, message: u64) -> Result<(), NoMemory>
    ensures { OnOk result (text.new.items ≡ text.old.items ++ line (delivery message)) }
{
    push_line(text, &[Fixed(b"deliver"), Number(message)])
}

fn push_deposit(text: &mut Vec<u8>, round: u32, drawn: u64) -> Result<(), NoMemory>
    ensures { OnOk result (text.new.items ≡ text.old.items ++ line (deposit round drawn)) }
{
    push_line(
        text,
        &[
            Fixed(b"call"),
            client(round % 4),
            Fixed(b"bank"),
            Fixed(b"deposit"),
            Number(drawn % 1000),
        ],
    )
}

fn push_again(text: &mut Vec<u8>, drawn: u64, request: u64) -> Result<(), NoMemory>
    ensures { OnOk result (text.new.items ≡ text.old.items ++ text_of (again drawn request)) }
{
    if drawn % 5 == 0 {
        push_delivery(text, request)?;
    }
    Ok(())
}

fn push_call(text: &mut Vec<u8>, round: u32, drawn: u64, sent: u64) -> Result<(), NoMemory>
    requires { sent < 2 ^ 40 }
    ensures { OnOk result (text.new.items ≡ text.old.items ++ text_of (call_lines round drawn sent)) }
{
    push_deposit(text, round, drawn)?;
    push_delivery(text, sent + 1)?;
    push_again(text, drawn, sent + 1)?;
    push_delivery(text, sent + 2)?;
    Ok(())
}

fn sent_by_call(drawn: u64) -> u64
    ensures value { result ≡ sent_by_call drawn }
    ensures few { result ≤ 3 }
{
    if drawn % 5 == 0 { 3 } else { 2 }
}

fn transfer(rounds: u32) -> &'static [u8]
    ensures { result.now ≡ transfer rounds }
{
    if rounds % 1000 == 0 {
        b"checkpoint"
    } else {
        b"update"
    }
}

#[tactic(auto, unfolding(crate::specs::Scripts::transfer_lines))]
fn push_transfer(text: &mut Vec<u8>, rounds: u32, sent: u64) -> Result<(), NoMemory>
    requires { sent < 2 ^ 40 }
    ensures { OnOk result (text.new.items ≡ text.old.items ++ text_of (transfer_lines rounds sent)) }
{
    if rounds % 100 != 0 {
        return Ok(());
    }
    push_lines(
        text,
        &[
            &[Fixed(transfer(rounds)), Fixed(b"bank")],
            &[Fixed(b"deliver"), Number(sent + 1)],
            &[Fixed(b"deliver"), Number(sent + 2)],
            &[Fixed(b"tick"), Fixed(b"1")],
        ],
    )
}

fn sent_by_transfer(rounds: u32) -> u64
    ensures value { result ≡ sent_by_transfer rounds }
    ensures few { result ≤ 2 }
{
    if rounds % 100 == 0 { 2 } else { 0 }
}

fn push_round(text: &mut Vec<u8>, round: u32, drawn: u64, sent: u64) -> Result<(), NoMemory>
    requires early { round < 2 ^ 32 - 1 }
    requires few { sent < 2 ^ 39 }
    ensures { OnOk result (text.new.items ≡ text.old.items ++ text_of (round_lines round drawn sent)) }
{
    push_call(text, round, drawn, sent)?;
    push_transfer(text, round + 1, sent + sent_by_call(drawn))
}

fn sent_by_round(round: u32, drawn: u64) -> u64
    requires { round < 2 ^ 32 - 1 }
    ensures value { result ≡ sent_by_round round drawn }
    ensures few { result ≤ 5 }
{
    sent_by_call(drawn) + sent_by_transfer(round + 1)
}

/// Writes so many rounds, and tells how many messages they send.
pub(crate) fn push_rounds(text: &mut Vec<u8>, number: u32) -> Result<u64, NoMemory>
    ensures text { OnOk result (text.new.items ≡ text.old.items ++ text_of (rounds_lines number number)) }
    ensures sent { IfOk result (λ sent. sent ≡ sent_in number number) }
    ensures few { IfOk result (λ sent. sent < 2 ^ 39) }
{
    let mut drawn = u64::from(number);
    let mut sent = 0;
    for round in 0..number {
        drawn = next_drawn(drawn);
        push_round(text, round, drawn, sent)?;
        sent += sent_by_round(round, drawn);
    }
    Ok(sent)
}
