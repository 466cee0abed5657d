use crate::{Ended, serve_link, serve_visit};
use ft_base::{Bytes, HostNo, NoMemory};
use giop_messages::Why;
use group_model::Asked;
use host_server::PortAnswer;
use link_session::GroupPort;
use outside_links::MemLink;
use std::alloc::Global;
use std::sync::Wait;

// A host with one object, `k`, and no group. At the key `d` it is down, and at `m` it wants memory. Its pass counts the
// requests that were asked.
struct Lonely;

impl GroupPort for Lonely {
    type Pass = u32;

    ghost fits = { λ port pass. Unit {0} };

    ghost exchanges = { λ port old exchange new. Unit {0} };

    fn ask(&self, pass: &mut u32, _host: HostNo, key: &Bytes, _asked: Asked) -> PortAnswer {
        *pass = pass.saturating_add(1);
        match key.bytes().first() {
            Some(b'd') => PortAnswer::Down,
            Some(b'm') => PortAnswer::NoMemory,
            _ => PortAnswer::NoGroup,
        }
    }

    fn here(&self, _pass: &mut u32, _host: HostNo, key: &Bytes) -> bool {
        key.bytes() == b"k".as_slice()
    }
}

// Requests of `op` for the keys `n`, `d` and `m`, the first in little endian order of 1.0 too, and the Replies that there
// is no such object.
const REQUEST: &[u8] =
    b"GIOP\x01\x02\0\0\0\0\0 \0\0\0\x07\x03\0\0\0\0\0\0\0\0\0\0\x01n\0\0\0\0\0\0\x03op\0\0\0\0\0\0";

const ONEWAY: &[u8] =
    b"GIOP\x01\x02\0\0\0\0\0 \0\0\0\x07\0\0\0\0\0\0\0\0\0\0\0\x01n\0\0\0\0\0\0\x03op\0\0\0\0\0\0";

const TO_DOWN: &[u8] =
    b"GIOP\x01\x02\0\0\0\0\0 \0\0\0\x07\x03\0\0\0\0\0\0\0\0\0\0\x01d\0\0\0\0\0\0\x03op\0\0\0\0\0\0";

const TO_FULL: &[u8] =
    b"GIOP\x01\x02\0\0\0\0\0 \0\0\0\x07\x03\0\0\0\0\0\0\0\0\0\0\x01m\0\0\0\0\0\0\x03op\0\0\0\0\0\0";

const REQUEST_1_0: &[u8] =
    b"GIOP\x01\0\x01\0 \0\0\0\0\0\0\0\x07\0\0\0\x01\0\0\0\x01\0\0\0n\0\0\0\x03\0\0\0op\0\0\0\0\0\0";

const REPLY: &str = concat!(
    "47494f500102000100000040000000070000000200000000",
    "0000002749444c3a6f6d672e6f72672f434f5242412f",
    "4f424a4543545f4e4f545f45584953543a312e300000",
    "0000000100000001",
);

const REPLY_1_0: &str = concat!(
    "47494f5001000101400000000000000007000000",
    "020000002700000049444c3a6f6d672e6f72672f",
    "434f5242412f4f424a4543545f4e4f545f455849",
    "53543a312e3000000100000001000000",
);

const LOCATE_1_1: &[u8] = b"GIOP\x01\x01\x01\x03\x09\0\0\0\x08\0\0\0\x01\0\0\0k";

const HERE_1_1: &str = "47494f5001010104080000000800000001000000";

const CLOSE: &[u8] = b"GIOP\x01\x02\0\x05\0\0\0\0";

const ERROR: &str = "47494f500102000600000000";

// The messages of a link, the number of the read or write that fails (0 for none), how the link is left, what is
// written, and how many requests were asked.
const LINKS: [(&[&[u8]], u64, Ended, &[&str], u32); 15] = [
    (&[], 0, Ended::Closed, &[], 0),
    (
        &[REQUEST, ONEWAY, LOCATE_1_1, REQUEST_1_0],
        0,
        Ended::Closed,
        &[REPLY, HERE_1_1, REPLY_1_0],
        3,
    ),
    // a link that is cut off, one of another protocol, and one with a message of more than 1 MiB
    (
        &[LOCATE_1_1, b"GIOP\x01\x02\0\0\0"],
        0,
        Ended::Malformed {
            why: Why::Cut,
            place: 9,
        },
        &[HERE_1_1],
        0,
    ),
    (
        &[LOCATE_1_1, b"HTTP/1.1 200"],
        0,
        Ended::Malformed {
            why: Why::Magic,
            place: 0,
        },
        &[HERE_1_1, ERROR],
        0,
    ),
    (
        &[b"GIOP\x01\x02\0\0\0\x10\0\0"],
        0,
        Ended::TooLarge(1_048_588),
        &[ERROR],
        0,
    ),
    (&[CLOSE, REQUEST], 0, Ended::Closed, &[], 0),
    (&[REQUEST, CLOSE], 0, Ended::Closed, &[REPLY], 1),
    (&[b"GIOP\x01\x02\0\x06\0\0\0\0"], 0, Ended::Closed, &[], 0),
    (&[LOCATE_1_1, TO_DOWN], 0, Ended::Down, &[HERE_1_1], 1),
    (
        &[LOCATE_1_1, TO_FULL, REQUEST],
        0,
        Ended::NoMemory,
        &[HERE_1_1],
        1,
    ),
    // the first read, the first write, the second write, and the last read
    (&[REQUEST, LOCATE_1_1], 1, Ended::ReadFault, &[], 0),
    (&[REQUEST, LOCATE_1_1], 2, Ended::WriteFault, &[], 1),
    (&[REQUEST, LOCATE_1_1], 3, Ended::WriteFault, &[REPLY], 1),
    (
        &[REQUEST, LOCATE_1_1],
        4,
        Ended::ReadFault,
        &[REPLY, HERE_1_1],
        1,
    ),
    (&[b"HTTP/1.1 200"], 2, Ended::WriteFault, &[], 0),
];

fn joined(alloc: Global, parts: &[&[u8]]) -> Result<Vec<u8>, NoMemory> {
    let mut all = Vec::new(alloc);
    for part in parts {
        all.extend_from_slice(*part)?;
    }
    Ok(all)
}

// Whether these texts, one behind the other, say these bytes in hexadecimal digits.
fn is_text(alloc: Global, bytes: &[u8], parts: &[&str]) -> Result<bool, NoMemory> {
    let found = hex::encode(alloc, bytes)?;
    let mut wanted = Vec::new(alloc);
    for part in parts {
        wanted.extend_from_slice(part.as_bytes())?;
    }
    Ok(found.as_bytes() == wanted.as_slice())
}

// A link in memory with these messages.
fn link_of(alloc: Global, messages: &[&[u8]], fails: u64) -> Result<MemLink, NoMemory> {
    let bytes = joined(alloc, messages)?;
    MemLink::new(alloc, bytes.as_slice(), 1000, &[fails])
}

#[test]
fn links_are_served(rt: HostRuntime) -> Result<(), NoMemory> {
    let alloc = rt.alloc();
    for (messages, fails, ended, written, asks) in LINKS {
        let mut link = link_of(alloc, messages, fails)?;
        let mut turns = 0;
        let left = serve_link(&rt, alloc, HostNo(3), &Lonely, &mut turns, &mut link);
        assert_eq!(rt; left, ended);
        assert!(rt; is_text(alloc, link.held(), written)?);
        assert_eq!(rt; turns, asks);
    }
    Ok(())
}

// Whether a link's first message is CloseConnection.
const FIRST: [(&[&[u8]], bool); 6] = [
    (&[], false),
    (&[CLOSE], true),
    (&[CLOSE, REQUEST], true),
    (&[REQUEST, CLOSE], false),
    (&[b"GIOP\x01\x02\0\x06\0\0\0\0"], false),
    // cut off
    (&[b"GIOP\x01\x02\0\x05\0\0\0\x01"], false),
];

#[test]
fn a_first_close_is_told(rt: HostRuntime) -> Result<(), NoMemory> {
    let alloc = rt.alloc();
    for (messages, is_first) in FIRST {
        let mut link = link_of(alloc, messages, 0)?;
        let mut turns = 0;
        let visit = serve_visit(&rt, alloc, HostNo(3), &Lonely, &mut turns, &mut link);
        assert_eq!(rt; visit.is_farewell, is_first);
    }
    Ok(())
}
