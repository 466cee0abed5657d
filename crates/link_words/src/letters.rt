//! A port whose answers are told beforehand.
ghost use Rattle.cdr_codec.specs.declared.orders.Order.{Order as ByteOrder};
ghost use Rattle.ft_base.specs.Canonical.{HasSpelling};
ghost use Rattle.host_server.specs.Replies.{CanReply, IsReply};

use cdr_codec::canonical;
use ft_base::{Bytes, HostNo, Name, Outcome, RESULT_LIMIT, Value};
use group_model::Asked;
use host_server::PortAnswer;
use link_session::{GroupPort, system};
use std::alloc::Global;
use sys_faults::{Completed, SysFault, SysKind};

/// So many octets are a large value.
const LARGE: usize = 60_000;

/// How many requests were asked by a pass, and how many looks were made.
#[derive(Drop)]
pub struct Turns {
    pub asks: u32,
    pub looks: u32,
}

impl Turns {
    pub fn new() -> Turns {
        Turns { asks: 0, looks: 0 }
    }
}

/// A host whose answers are told by letters, one for each request of a pass in the order in which they come, whatever
/// they ask; past the last the first comes again. `l` is a large value, `u` the user exception Overflow, `s` and `t` the
/// system exceptions BAD_OPERATION and TRANSIENT, `n` no object; at `d` the host is down, and at `m` memory is wanted. Any
/// other letter is a long long: the request's number. The object of the key `k` is there.
#[derive(Clone, Copy)]
pub struct LetterPort<'a> {
    alloc: Global,
    letters: &'a [u8],
}

impl<'a> LetterPort<'a> {
    pub fn new(alloc: Global, letters: &'a [u8]) -> LetterPort<'a> {
        LetterPort { alloc, letters }
    }

    // The letter of the request behind so many.
    fn letter(&self, asks: u32) -> u8 {
        if self.letters.is_empty() {
            return b'v';
        }
        self.letters[asks as usize % self.letters.len()]
    }
}

fn valued(alloc: Global, value: Value) -> PortAnswer
    requires { HasSpelling value }
    ensures { IsReply result → (order : ByteOrder) → CanReply order result }
{
    match canonical(alloc, std::slice::from_ref(&value)) {
        Ok(form) if form.bytes().len() <= RESULT_LIMIT => PortAnswer::Done {
            outcome: Outcome::Value(form),
            gives: Some(value.par()),
        },
        _ => PortAnswer::NoMemory,
    }
}

fn large(alloc: Global) -> PortAnswer
    ensures { IsReply result → (order : ByteOrder) → CanReply order result }
{
    let mut octets = Vec::new(alloc);
    match octets.resize(LARGE, 7) {
        Ok(()) => valued(alloc, Value::Octets(Bytes::from_vec(octets))),
        Err(_) => PortAnswer::NoMemory,
    }
}

fn overflow(alloc: Global) -> PortAnswer
    ensures { IsReply result → (order : ByteOrder) → CanReply order result }
{
    match Name::of(alloc, b"Overflow") {
        Ok(name) => PortAnswer::Done {
            outcome: Outcome::User(name),
            gives: None,
        },
        Err(_) => PortAnswer::NoMemory,
    }
}

fn bad_operation() -> PortAnswer
    ensures { (order : ByteOrder) → CanReply order result }
{
    system(SysFault {
        kind: SysKind::BadOperation,
        minor: 1,
        completed: Completed::No,
    })
}

fn transient() -> PortAnswer
    ensures { (order : ByteOrder) → CanReply order result }
{
    system(SysFault {
        kind: SysKind::Transient,
        minor: 1,
        completed: Completed::No,
    })
}

fn lettered(alloc: Global, letter: u8, number: u32) -> PortAnswer
    ensures { IsReply result → (order : ByteOrder) → CanReply order result }
{
    match letter {
        b'l' => large(alloc),
        b'u' => overflow(alloc),
        b's' => bad_operation(),
        b't' => transient(),
        b'n' => PortAnswer::NoGroup,
        b'd' => PortAnswer::Down,
        b'm' => PortAnswer::NoMemory,
        _ => valued(alloc, Value::I64(i64::from(number))),
    }
}

impl GroupPort for LetterPort<'_> {
    type Pass = Turns;

    ghost fits = { λ port pass. Unit {0} };

    ghost exchanges = { λ port old exchange new. Unit {0} };

    fn ask(&self, pass: &mut Turns, _host: HostNo, _key: &Bytes, _asked: Asked) -> PortAnswer {
        let letter = self.letter(pass.asks);
        pass.asks = pass.asks.saturating_add(1);
        lettered(self.alloc, letter, pass.asks)
    }

    fn here(&self, pass: &mut Turns, _host: HostNo, key: &Bytes) -> bool {
        pass.looks = pass.looks.saturating_add(1);
        key.bytes() == b"k".as_slice()
    }
}
