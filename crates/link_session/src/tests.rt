ghost use Rattle.std.specs.Prelude.{◌≡◌, [], ◌∷◌, ◌++◌, IfOk, OnOk};
ghost use Rattle.giop_stream.specs.Spelled.{IsSpelled};
ghost use Rattle.link_session.specs.Ports.{ended, linked, step as stepped, writes};
ghost use Rattle.cdr_codec.specs.declared.orders.Order.{Order as ByteOrder};
ghost use Rattle.host_server.specs.Replies.{CanReply, IsReply};
ghost use Rattle.link_session.specs.Samples.{counted_on, lonely};

use crate::{GroupPort, Stepped, end_bytes, step, system};
use cdr_codec::canonical;
use ft_base::{Bytes, HostNo, Name, NoMemory, Outcome, Value};
use giop_messages::{Form, Message};
use giop_stream::{Session, SessionStep, StreamEnd};
use group_model::Asked;
use host_server::PortAnswer;
use iogr_reference::{Ior, Profiles};
use std::alloc::Global;
use std::marker::Model;
use sys_faults::{Completed, SysFault, SysKind};

// What a host wrote.
#[derive(Drop)]
struct Written {
    all: Vec<Bytes>,
}

impl Model for Written {
    ghost use Rattle.std.specs.Prelude.{ℕ, List};

    ghost Value = { List (List ℕ) };

    ghost view = { λ w. w.all.items };
}

impl Written {
    fn new(alloc: Global) -> Written
        ensures { result ≡ [] }
    {
        Written {
            all: Vec::new(alloc),
        }
    }

    fn push(&mut self, bytes: Bytes) -> Result<(), NoMemory>
        ensures { OnOk result (self.new ≡ self.old ++ bytes ∷ []) }
    {
        self.all.push(bytes)?;
        Ok(())
    }

    fn write(&mut self, bytes: Option<Bytes>) -> Result<(), NoMemory>
        ensures { OnOk result (self.new ≡ writes lonely self.old bytes) }
    {
        match bytes {
            None => Ok(()),
            Some(bytes) => self.push(bytes),
        }
    }
}

// A host with one object, and no group.
struct Lonely;

impl GroupPort for Lonely {
    ghost use Rattle.link_session.specs.Functions.{exchanges_of};
    ghost use Rattle.link_session.specs.Samples.{lonely};

    type Pass = Written;

    ghost fits = { λ port pass. Unit {0} };

    ghost exchanges = { λ port. exchanges_of lonely };

    fn ask(&self, _pass: &mut Written, _host: HostNo, _key: &Bytes, _asked: Asked) -> PortAnswer {
        PortAnswer::NoGroup
    }

    fn here(&self, _pass: &mut Written, _host: HostNo, key: &Bytes) -> bool {
        key.bytes() == b"k".as_slice()
    }
}

#[tactic(auto, using(crate::specs::Functions::is_step))]
fn take(received: (Message, Form), written: &mut Written, alloc: Global) -> Result<(), NoMemory>
    requires { IsSpelled received }
    ensures { OnOk result (written.new ≡ stepped lonely written.old received.0 received.1) }
{
    match step(alloc, &Lonely, written, HostNo(0), received)? {
        Stepped::Write(bytes) => written.push(bytes),
        Stepped::Silent => Ok(()),
        Stepped::Down => Err(NoMemory),
    }
}

fn end(end: StreamEnd, mut written: Written, alloc: Global) -> Result<Written, NoMemory>
    ensures { IfOk result (λ all. all ≡ ended lonely written end) }
{
    let bytes = end_bytes(alloc, end)?;
    written.write(bytes)?;
    Ok(written)
}

// All that the host writes on this link.
fn serve(alloc: Global, link: &[u8]) -> Result<Written, NoMemory>
    ensures { IfOk result (λ all. all ≡ linked lonely [] link.now) }
{
    let mut session = Session::new(alloc);
    session.feed(link)?;
    let mut written = Written::new(alloc);
    'messages: loop {
        match session.next() {
            Ok(SessionStep::Serve(received)) => take(received, &mut written, alloc)?,
            Ok(SessionStep::Wait) => return end(session.at_end(), written, alloc),
            Ok(SessionStep::End(how)) => return end(how, written, alloc),
            Err(NoMemory) => return Err(NoMemory),
        }
    }
}

// A Request of `balance` with id 7, whose flags ask for a reply, and the Reply that there is no object of its key.
const REQUEST: &[u8] =
    b"GIOP\x01\x02\0\0\0\0\0\x2c\0\0\0\x07\x03\0\0\0\0\0\0\0\0\0\0\x0cFTOG\0\0\0\0\0\0\0\x01\0\0\0\x08balance\0\0\0\0\0";

const REPLY: &str = concat!(
    "47494f500102000100000040000000070000000200000000",
    "0000002749444c3a6f6d672e6f72672f434f5242412f",
    "4f424a4543545f4e4f545f45584953543a312e300000",
    "0000000100000001",
);

// The same Request, whose flags ask for none.
const ONEWAY: &[u8] =
    b"GIOP\x01\x02\0\0\0\0\0\x2c\0\0\0\x07\x02\0\0\0\0\0\0\0\0\0\0\x0cFTOG\0\0\0\0\0\0\0\x01\0\0\0\x08balance\0\0\0\0\0";

// LocateRequests for the keys `k` and `x`, and their LocateReplies.
const LOCATE: &[u8] = b"GIOP\x01\x02\0\x03\0\0\0\x0d\0\0\0\x05\0\0\0\0\0\0\0\x01k";

const LOCATE_OTHER: &[u8] = b"GIOP\x01\x02\0\x03\0\0\0\x0d\0\0\0\x06\0\0\0\0\0\0\0\x01x";

const HERE: &str = "47494f5001020004000000080000000500000001";

const NOT_HERE: &str = "47494f5001020004000000080000000600000000";

// A Request of 1.0 in little endian order, whose key is `n`, and a LocateRequest of 1.1.
const REQUEST_1_0: &[u8] =
    b"GIOP\x01\0\x01\0 \0\0\0\0\0\0\0\x07\0\0\0\x01\0\0\0\x01\0\0\0n\0\0\0\x03\0\0\0op\0\0\0\0\0\0";

const REPLY_1_0: &str = concat!(
    "47494f5001000101400000000000000007000000",
    "020000002700000049444c3a6f6d672e6f72672f",
    "434f5242412f4f424a4543545f4e4f545f455849",
    "53543a312e3000000100000001000000",
);

const LOCATE_1_1: &[u8] = b"GIOP\x01\x01\x01\x03\x09\0\0\0\x08\0\0\0\x01\0\0\0k";

const HERE_1_1: &str = "47494f5001010104080000000800000001000000";

const MESSAGE_ERROR: &str = "47494f500102000600000000";

// The links of a table, and what is written on each.
const LINKS: [(&[&[u8]], &[&str]); 11] = [
    (&[REQUEST], &[REPLY]),
    (&[ONEWAY], &[]),
    (&[LOCATE, REQUEST, LOCATE_OTHER], &[HERE, REPLY, NOT_HERE]),
    // a CancelRequest
    (&[b"GIOP\x01\x02\0\x02\0\0\0\x04\0\0\0\x09"], &[]),
    // a CloseConnection, behind which nothing is read
    (&[b"GIOP\x01\x02\0\x05\0\0\0\0", REQUEST], &[]),
    // a Reply to a server, and another protocol
    (
        &[LOCATE, b"GIOP\x01\x02\0\x01\0\0\0\0"],
        &[HERE, MESSAGE_ERROR],
    ),
    (&[b"HTTP/1.1 200"], &[MESSAGE_ERROR]),
    // a message that is cut off, and one of more than 1 MiB
    (&[b"GIOP\x01\x02\0\x03\0\0\0\x0d\0\0"], &[]),
    (&[b"GIOP\x01\x02\0\0\0\x10\0\0"], &[MESSAGE_ERROR]),
    // each message is answered in its own version and byte order
    (
        &[REQUEST_1_0, LOCATE, LOCATE_1_1, REQUEST],
        &[REPLY_1_0, HERE, HERE_1_1, REPLY],
    ),
    (&[LOCATE_1_1, b"GIOP\x01\x03"], &[HERE_1_1]),
];

fn joined(alloc: Global, parts: &[&[u8]]) -> Result<Vec<u8>, NoMemory> {
    let mut all = Vec::new(alloc);
    for part in parts {
        all.extend_from_slice(*part)?;
    }
    Ok(all)
}

// Whether these texts, one behind the other, are what was written.
fn is_text(alloc: Global, written: &Written, parts: &[&str]) -> Result<bool, NoMemory> {
    let mut found = Vec::new(alloc);
    for bytes in &written.all {
        let digits = hex::encode(alloc, bytes.bytes())?;
        found.extend_from_slice(digits.as_bytes())?;
    }
    let mut wanted = Vec::new(alloc);
    for part in parts {
        wanted.extend_from_slice(part.as_bytes())?;
    }
    Ok(found.as_slice() == wanted.as_slice())
}

#[test]
fn links_are_answered(rt: HostRuntime) -> Result<(), NoMemory> {
    let alloc = rt.alloc();
    for (link, wanted) in LINKS {
        let link = joined(alloc, link)?;
        let written = serve(alloc, link.as_slice())?;
        assert!(rt; is_text(alloc, &written, wanted)?);
    }
    Ok(())
}

// Gives the answer that a key names by its letter.
#[derive(Clone, Copy)]
struct Sampler {
    alloc: Global,
}

// How many requests were asked of it, and how many looks were made.
#[derive(Drop)]
struct Turns {
    asks: u32,
    looks: u32,
}

impl Model for Turns {
    ghost use Rattle.std.specs.Prelude.{ℕ};

    ghost Value = { ℕ × ℕ };

    ghost view = { λ t. (t.asks, t.looks) };
}

impl Turns {
    fn ask(&mut self)
        ensures { self.new ≡ (counted_on self.old.0, self.old.1) }
    {
        self.asks = counted_on(self.asks);
    }

    fn look(&mut self)
        ensures { self.new ≡ (self.old.0, counted_on self.old.1) }
    {
        self.looks = counted_on(self.looks);
    }
}

fn counted_on(count: u32) -> u32
    ensures { result ≡ counted_on count }
{
    if count == u32::MAX { count } else { count + 1 }
}

// A reference that leads nowhere.
#[tactic(auto, using(crate::proofs::Nil::nil_is_sent))]
fn forward(alloc: Global, perm: bool) -> PortAnswer
    ensures { (order : ByteOrder) → CanReply order result }
{
    PortAnswer::Forward {
        perm,
        body: Ior {
            type_id: Bytes::from_vec(Vec::new(alloc)),
            profiles: Profiles::from_vec(Vec::new(alloc)),
        },
    }
}

fn value(alloc: Global) -> PortAnswer
    ensures { IsReply result → (order : ByteOrder) → CanReply order result }
{
    let value = Value::I64(5);
    match canonical(alloc, std::slice::from_ref(&value)) {
        Ok(form) if form.bytes().len() < 1000 => PortAnswer::Done {
            outcome: Outcome::Value(form),
            gives: Some(value.par()),
        },
        _ => PortAnswer::NoMemory,
    }
}

fn user(alloc: Global) -> PortAnswer
    ensures { IsReply result → (order : ByteOrder) → CanReply order result }
{
    match Name::of(alloc, b"QueueEmpty") {
        Ok(name) => PortAnswer::Done {
            outcome: Outcome::User(name),
            gives: None,
        },
        Err(_) => PortAnswer::NoMemory,
    }
}

fn no_memory() -> PortAnswer
    ensures { (order : ByteOrder) → CanReply order result }
{
    system(SysFault {
        kind: SysKind::NoMemory,
        minor: 1,
        completed: Completed::Maybe,
    })
}

fn sample(alloc: Global, letter: u8) -> PortAnswer
    ensures { IsReply result → (order : ByteOrder) → CanReply order result }
{
    match letter {
        b'f' => forward(alloc, false),
        b'p' => forward(alloc, true),
        b'v' => value(alloc),
        b'u' => user(alloc),
        b's' => no_memory(),
        b'd' => PortAnswer::Down,
        b'm' => PortAnswer::NoMemory,
        _ => PortAnswer::NoGroup,
    }
}

impl GroupPort for Sampler {
    ghost use Rattle.link_session.specs.Samples.{counted};

    type Pass = Turns;

    ghost fits = { λ port pass. Unit {0} };

    ghost exchanges = { λ port. counted };

    fn ask(&self, pass: &mut Turns, _host: HostNo, key: &Bytes, _asked: Asked) -> PortAnswer {
        pass.ask();
        match key.bytes().first() {
            Some(letter) => sample(self.alloc, *letter),
            None => PortAnswer::NoGroup,
        }
    }

    fn here(&self, pass: &mut Turns, _host: HostNo, key: &Bytes) -> bool {
        pass.look();
        key.bytes() == b"v".as_slice()
    }
}

// A Request with id 7 and these flags for the object of this letter. (GIOP 1.2, big endian.)
fn asking(letter: u8, flags: u8) -> [u8; 44] {
    let mut bytes =
        *b"GIOP\x01\x02\0\0\0\0\0 \0\0\0\x07\0\0\0\0\0\0\0\0\0\0\0\x01k\0\0\0\0\0\0\x03op\0\0\0\0\0\0";
    bytes[16] = flags;
    bytes[28] = letter;
    bytes
}

// What the first message of a link comes to.
fn first(alloc: Global, turns: &mut Turns, link: &[u8]) -> Result<Stepped, NoMemory> {
    let mut session = Session::new(alloc);
    session.feed(link)?;
    match session.next()? {
        SessionStep::Serve(received) => step(alloc, &Sampler { alloc }, turns, HostNo(3), received),
        SessionStep::Wait | SessionStep::End(_) => Ok(Stepped::Silent),
    }
}

// Whether a message comes to this: a Reply in hexadecimal digits, or a word.
fn comes_to(alloc: Global, turns: &mut Turns, link: &[u8], wanted: &str) -> Result<bool, NoMemory> {
    match first(alloc, turns, link) {
        Ok(Stepped::Write(bytes)) => {
            let found = hex::encode(alloc, bytes.bytes())?;
            Ok(found.as_bytes() == wanted.as_bytes())
        }
        Ok(Stepped::Silent) => Ok(wanted == "silent"),
        Ok(Stepped::Down) => Ok(wanted == "down"),
        Err(NoMemory) => Ok(wanted == "no memory"),
    }
}

const VALUE: &str = "47494f5001020001000000140000000700000000000000000000000000000005";

const USER: &str =
    "47494f5001020001000000270000000700000001000000000000001749444c3a6674632f5175657565456d7074793a312e3000";

const FORWARD: &str = "47494f500102000100000018000000070000000300000000000000010000000000000000";

const FORWARD_PERM: &str =
    "47494f500102000100000018000000070000000400000000000000010000000000000000";

const WANT_OF_MEMORY: &str = concat!(
    "47494f5001020001000000380000000700000002000000000000002049444c3a",
    "6f6d672e6f72672f434f5242412f4e4f5f4d454d4f52593a312e300000000001",
    "00000002",
);

// Letters and flags, and what comes of them.
const ANSWERS: [(u8, u8, &str); 10] = [
    (b'n', 3, REPLY),
    (b'f', 3, FORWARD),
    (b'p', 3, FORWARD_PERM),
    (b'v', 3, VALUE),
    (b'u', 3, USER),
    (b's', 3, WANT_OF_MEMORY),
    (b'v', 2, "silent"),
    (b'd', 3, "down"),
    (b'd', 2, "down"),
    (b'm', 3, "no memory"),
];

#[test]
fn answers_are_told(rt: HostRuntime) -> Result<(), NoMemory> {
    let alloc = rt.alloc();
    let mut turns = Turns { asks: 0, looks: 0 };
    for (letter, flags, wanted) in ANSWERS {
        let link = asking(letter, flags);
        assert!(rt; comes_to(alloc, &mut turns, &link, wanted)?, "{letter}");
    }
    assert_eq!(rt; turns.asks, 10);
    assert_eq!(rt; turns.looks, 0);
    Ok(())
}

// Links of one message each, and what comes of it: a LocateRequest, a permanent forward in 1.0, a value in little
// endian order, and a CancelRequest.
const SINGLE: [(&[u8], &str); 5] = [
    (LOCATE_OTHER, NOT_HERE),
    (
        b"GIOP\x01\x02\0\x03\0\0\0\x0d\0\0\0\x06\0\0\0\0\0\0\0\x01v",
        "47494f5001020004000000080000000600000001",
    ),
    (
        b"GIOP\x01\0\0\0\0\0\0 \0\0\0\0\0\0\0\x07\x01\0\0\0\0\0\0\x01p\0\0\0\0\0\0\x03op\0\0\0\0\0\0",
        "47494f500100000100000018000000000000000700000003000000010000000000000000",
    ),
    (
        b"GIOP\x01\x01\x01\0 \0\0\0\0\0\0\0\x07\0\0\0\x01\0\0\0\x01\0\0\0v\0\0\0\x03\0\0\0op\0\0\0\0\0\0",
        "47494f5001010101140000000000000007000000000000000500000000000000",
    ),
    (b"GIOP\x01\x02\0\x02\0\0\0\x04\0\0\0\x09", "silent"),
];

#[test]
fn a_look_is_no_request(rt: HostRuntime) -> Result<(), NoMemory> {
    let alloc = rt.alloc();
    let mut turns = Turns { asks: 0, looks: 0 };
    for (link, wanted) in SINGLE {
        assert!(rt; comes_to(alloc, &mut turns, link, wanted)?, "{wanted}");
    }
    assert_eq!(rt; turns.asks, 2);
    assert_eq!(rt; turns.looks, 2);
    Ok(())
}
