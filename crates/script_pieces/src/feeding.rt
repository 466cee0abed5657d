ghost use Rattle.std.specs.Prelude.{◌≡◌, ℕ, ◌+◌, ◌<◌, ◌≤◌, ◌==◌, ◌∷◌, ◌++◌, [], length, take, drop, MatchOption, IfSome, IfOk, nat_lt};
ghost use Rattle.memchr.specs.Find.{IsFirstByte, is_byte};
ghost use Rattle.script_pieces.specs.Runs.{script_limit};
ghost use Rattle.script_pieces.specs.Feeds.{IfGoes, IsInLine, IsActed, IsFed, IsDone, IfOn, Trace, trace, point, resume, start, kept_limit, place_after_line};

use crate::actors::{Actor, LineResult};
use ft_base::{NoMemory, Steps};
use ft_outside::{Sink, WholeWrite, write_all};
use memchr::memchr;
use std::alloc::Global;
use std::marker::Model;
use std::sync::ledger::Ledger;

/// The most bytes of a script: 64 MiB.
pub const SCRIPT_LIMIT: usize = 67_108_864;

const KEPT_LIMIT: usize = 4_097;

/// What feeding a part of a script did. `Refused` has the number of the refused line, from 1, and
/// why it was refused.
#[derive(Debug, Drop)]
pub enum FeedResult<F> {
    On,
    Refused(u64, F),
    WriteFailed,
    NoMemory,
}

/// A script that comes in pieces, between two of them: where it stands, and the text of the line
/// that is begun.
#[derive(Debug, Drop)]
pub struct Pieces {
    number: u64,
    read: usize,
    begun: Vec<u8>,
}

impl Model for Pieces {
    ghost use Rattle.std.specs.Prelude.{◌+◌, ◌≤◌, vec_len, vec_capacity};
    ghost use Rattle.script_pieces.specs.Runs.{script_limit};
    ghost use Rattle.script_pieces.specs.Feeds.{Place, kept_limit};

    ghost Value = { Place };

    ghost view = { λ p. record { number = p.number; read = p.read; begun = p.begun.items } };

    ghost invariant = { λ p. (p.number ≤ p.read + 1) × (p.read ≤ script_limit)
        × (vec_len p.begun ≤ kept_limit) × (kept_limit ≤ vec_capacity p.begun) };
}

impl Pieces {
    /// The start of a script.
    pub fn new(alloc: Global) -> Result<Pieces, NoMemory>
        ensures { IfOk result (λ pieces. pieces ≡ start) }
    {
        let begun = Vec::with_capacity(alloc, KEPT_LIMIT)?;
        Ok(Pieces {
            number: 1,
            read: 0,
            begun,
        })
    }

    /// Feeds a piece of the script: acts each line that ends in it, and writes the output of one to
    /// the sink, where it may wait, before the next is acted. It stops at the first refusal or fault,
    /// and has then no more use. Whoever feeds flushes the sink before the next piece is read.
    pub fn feed<A: Actor, B: Sink, L: Ledger>(
        &mut self,
        alloc: Global,
        acts: &mut A,
        piece: &[u8],
        out: &mut B,
        steps: &mut Steps<L>,
    ) -> FeedResult<A::Fault>
        requires { A.may_act acts.old self.old.number }
        ensures fed { IsFed A.rules (point acts.old self.old piece.now) (trace (B.holds out.old) (B.count out.old) steps.old)
            (point acts.new self.new []) (trace (B.holds out.new) (B.count out.new) steps.new) result }
        ensures within { IfOn result (self.new.read ≤ script_limit) }
        ensures next { IfOn result (A.may_act acts.new self.new.number) }
    {
        let mut rest = piece;
        'lines: while let Some((text, behind)) = split_line(rest) {
            match self.feed_line(alloc, acts, text, out, steps) {
                FeedResult::On => rest = behind,
                FeedResult::Refused(number, why) => return FeedResult::Refused(number, why),
                FeedResult::WriteFailed => return FeedResult::WriteFailed,
                FeedResult::NoMemory => return FeedResult::NoMemory,
            }
        }
        self.feed_rest(acts, rest)
    }

    /// Ends the script: acts the line that is begun, if there is one.
    pub fn finish<A: Actor, B: Sink, L: Ledger>(
        &mut self,
        alloc: Global,
        acts: &mut A,
        out: &mut B,
        steps: &mut Steps<L>,
    ) -> FeedResult<A::Fault>
        requires { A.may_act acts.old self.old.number }
        ensures { IsDone (resume A.rules acts.old self.old []) (trace (B.holds out.old) (B.count out.old) steps.old)
            (trace (B.holds out.new) (B.count out.new) steps.new) result }
    {
        if self.is_fresh() {
            return FeedResult::On;
        }
        match acts.act(alloc, self.begun(), steps) {
            LineResult::NoMemory => FeedResult::NoMemory,
            LineResult::Stops(fault) => FeedResult::Refused(self.number(), fault),
            LineResult::Goes(printed) => match write_all(out, printed.bytes()) {
                WholeWrite::All => FeedResult::On,
                WholeWrite::Failed => FeedResult::WriteFailed,
            },
        }
    }

    /// The number of the line that is begun or comes next, from 1.
    pub fn number(&self) -> u64
        ensures { result ≡ self.now.number }
    {
        self.number
    }

    fn is_past(&self, count: usize) -> bool
        ensures past { result ≡ nat_lt script_limit (self.now.read + count) }
        ensures within { self.now.read ≤ script_limit }
    {
        SCRIPT_LIMIT - self.read < count
    }

    fn is_fresh(&self) -> bool
        ensures fresh { result ≡ (length self.now.begun == 0) }
        ensures few { self.now.number ≤ script_limit + 1 }
    {
        self.begun.is_empty()
    }

    fn begun(&self) -> &[u8]
        ensures { result.now ≡ self.now.begun }
    {
        self.begun.as_slice()
    }

    fn keep(&mut self, text: &[u8])
        ensures kept { self.new ≡ record self.old { begun = take kept_limit (self.old.begun ++ text.now) } }
        ensures fits { length self.old.begun ≤ kept_limit }
    {
        let front = front(text, KEPT_LIMIT - self.begun.len());
        self.begun.extend_from_slice(front).unwrap();
    }

    fn advance(&mut self, count: usize)
        requires { self.old.read + count ≤ script_limit }
        ensures { self.new ≡ record self.old { read = self.old.read + count } }
    {
        self.read += count;
    }

    fn end_line(&mut self, count: usize)
        requires some { 0 < count }
        requires fits { self.old.read + count ≤ script_limit }
        ensures { self.new ≡ place_after_line self.old count }
    {
        self.number += 1;
        self.read += count;
        self.begun.clear();
    }

    fn act<A: Actor, L: Ledger>(
        &mut self,
        alloc: Global,
        acts: &mut A,
        text: &[u8],
        steps: &mut Steps<L>,
    ) -> LineResult<A::Fault>
        requires { A.may_act acts.old self.old.number }
        ensures acted { IsActed (A.rules.effect acts.old (self.old.begun ++ text.now)) acts.new steps.old steps.new result }
        ensures next { IfGoes result (A.may_act acts.new (self.old.number + 1)) }
        ensures number { self.new.number ≡ self.old.number }
        ensures read { self.new.read ≡ self.old.read }
    {
        if self.is_fresh() {
            return acts.act(alloc, text, steps);
        }
        self.keep(text);
        acts.act(alloc, self.begun(), steps)
    }

    // The line stands here without its LF.
    fn feed_line<A: Actor, B: Sink, L: Ledger>(
        &mut self,
        alloc: Global,
        acts: &mut A,
        text: &[u8],
        out: &mut B,
        steps: &mut Steps<L>,
    ) -> FeedResult<A::Fault>
        requires line { IsInLine text.now }
        requires may { A.may_act acts.old self.old.number }
        ensures fed { IsFed A.rules (point acts.old self.old (text.now ++ 10 ∷ [])) (trace (B.holds out.old) (B.count out.old) steps.old)
            (point acts.new self.new []) (trace (B.holds out.new) (B.count out.new) steps.new) result }
        ensures next { IfOn result (A.may_act acts.new self.new.number) }
    {
        if self.is_past(text.len() + 1) {
            return FeedResult::Refused(self.number(), acts.past());
        }
        match self.act(alloc, acts, text, steps) {
            LineResult::NoMemory => FeedResult::NoMemory,
            LineResult::Stops(why) => FeedResult::Refused(self.number(), why),
            LineResult::Goes(printed) => {
                self.end_line(text.len() + 1);
                match write_all(out, printed.bytes()) {
                    WholeWrite::All => FeedResult::On,
                    WholeWrite::Failed => FeedResult::WriteFailed,
                }
            }
        }
    }

    fn feed_rest<A: Actor>(&mut self, acts: &A, text: &[u8]) -> FeedResult<A::Fault>
        requires { IsInLine text.now }
        ensures fed { (before : Trace) → IsFed A.rules (point acts.now self.old text.now) before (point acts.now self.new []) before result }
        ensures within { self.new.read ≤ script_limit }
        ensures number { self.new.number ≡ self.old.number }
    {
        if self.is_past(text.len()) {
            return FeedResult::Refused(self.number(), acts.past());
        }
        self.keep(text);
        self.advance(text.len());
        FeedResult::On
    }
}

pub(crate) fn front(text: &[u8], count: usize) -> &[u8]
    ensures { result.now ≡ take count text.now }
{
    &text[..count.min(text.len())]
}

fn behind(text: &[u8], count: usize) -> &[u8]
    requires { count ≤ length text.now }
    ensures { result.now ≡ drop count text.now }
{
    &text[count..]
}

fn line_end(bytes: &[u8]) -> Option<usize>
    ensures place { IsFirstByte (is_byte 10) bytes.now result }
    ensures within { IfSome result (λ place. place < length bytes.now) }
{
    memchr(b'\n', bytes)
}

fn split_line(bytes: &[u8]) -> Option<(&[u8], &[u8])>
    ensures { MatchOption result (IsInLine bytes.now)
        (λ parts. IsInLine parts.0.now × (bytes.now ≡ parts.0.now ++ 10 ∷ parts.1.now)) }
{
    match line_end(bytes) {
        None => None,
        Some(end) => Some((front(bytes, end), behind(bytes, end + 1))),
    }
}
