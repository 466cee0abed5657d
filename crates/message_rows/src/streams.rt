//! Links, whose bytes come in pieces.

use crate::messages::{put_message, put_reply};
use giop_stream::{Framer, ReplySession, ReplyStep, Session, SessionStep, StreamEnd, StreamFault};
use row_words::{RowFault, bytes_of, number, put_separator};
use std::alloc::Global;

// The bytes of a link: its parts, among which `zeros:COUNT` stands for so many zeros.
fn link_of(alloc: Global, parts: &[&str]) -> Result<Vec<u8>, RowFault> {
    let mut link = Vec::new(alloc);
    for part in parts {
        match part.strip_prefix("zeros:") {
            Some(count) => {
                for _ in 0..number(count)? {
                    link.push(0)?;
                }
            }
            None => link.extend_from_slice(bytes_of(alloc, *part)?.as_slice())?,
        }
    }
    Ok(link)
}

// Says the messages that are whole now, and gives the fault behind them, if there is one.
fn drain(framer: &mut Framer, out: &mut String) -> Result<Option<StreamFault>, RowFault> {
    'messages: loop {
        match framer.next() {
            Ok(Some(message)) => {
                put_message(&message.0, message.1, out)?;
                out.push_str("; ")?;
            }
            Ok(None) => return Ok(None),
            Err(fault) => return Ok(Some(fault)),
        }
    }
}

// Feeds a piece, and says the messages that are whole then, and how many bytes belong to none.
fn put_fed(framer: &mut Framer, piece: &[u8], out: &mut String) -> Result<(), RowFault> {
    framer.feed(piece)?;
    let left = framer.unfinished();
    match drain(framer, out)? {
        Some(fault) => Ok(write!(out, "refused {fault}")?),
        None => Ok(write!(out, "{left} and {} left", framer.unfinished())?),
    }
}

/// `stream SIZE PART..`: the messages of a link that is fed in pieces of so many bytes.
pub fn stream(alloc: Global, words: &[&str], out: &mut String) -> Result<(), RowFault> {
    let [size, parts @ ..] = words else {
        return Err(RowFault::NoRow);
    };
    let size = usize::try_from(number(*size)?)?;
    if size == 0 {
        return Err(RowFault::NoRow);
    }
    let link = link_of(alloc, parts)?;
    let mut framer = Framer::new(alloc);
    let mut fault = None;
    let mut left = 0;
    for piece in link.as_slice().chunks(size) {
        framer.feed(piece)?;
        left = framer.unfinished();
        fault = drain(&mut framer, out)?;
    }
    match fault {
        Some(fault) => Ok(write!(out, "refused {fault}")?),
        None => Ok(write!(out, "{left} and {} left", framer.unfinished())?),
    }
}

/// `cuts PART..`: the messages of a link that is fed in two pieces, cut at each place.
pub fn cuts(alloc: Global, words: &[&str], out: &mut String) -> Result<(), RowFault> {
    let link = link_of(alloc, words)?;
    for cut in 0..link.len() {
        let mut framer = Framer::new(alloc);
        put_separator("\n    ", out)?;
        write!(out, "{cut}: ")?;
        put_fed(&mut framer, &link.as_slice()[..cut], out)?;
        out.push_str(", then ")?;
        put_fed(&mut framer, &link.as_slice()[cut..], out)?;
    }
    Ok(())
}

fn put_end(end: StreamEnd, out: &mut String) -> Result<(), RowFault> {
    match end {
        StreamEnd::Closed => out.push_str("closed")?,
        StreamEnd::Malformed { why, place } => write!(out, "refused {why:?} at {place}")?,
        StreamEnd::TooLarge(size) => write!(out, "refused a message of {size} bytes")?,
    }
    Ok(())
}

fn serve(session: &mut Session, out: &mut String) -> Result<StreamEnd, RowFault> {
    'messages: loop {
        match session.next()? {
            SessionStep::Serve(message) => {
                put_message(&message.0, message.1, out)?;
                out.push_str("; ")?;
            }
            SessionStep::Wait => return Ok(session.at_end()),
            SessionStep::End(end) => return Ok(end),
        }
    }
}

/// `session PART..`: the messages of a link that a server serves, and how the link ends.
pub fn session(alloc: Global, words: &[&str], out: &mut String) -> Result<(), RowFault> {
    let link = link_of(alloc, words)?;
    let mut session = Session::new(alloc);
    session.feed(link.as_slice())?;
    let end = serve(&mut session, out)?;
    put_end(end, out)
}

fn listen(session: &mut ReplySession, out: &mut String) -> Result<StreamEnd, RowFault> {
    'replies: loop {
        match session.next()? {
            ReplyStep::Reply(reply) => {
                put_reply(&reply, out)?;
                out.push_str("; ")?;
            }
            ReplyStep::Wait => return Ok(session.at_end()),
            ReplyStep::End(end) => return Ok(end),
        }
    }
}

/// `replies PART..`: the Replies that a client reads of a link, and how the link ends.
pub fn replies(alloc: Global, words: &[&str], out: &mut String) -> Result<(), RowFault> {
    let link = link_of(alloc, words)?;
    let mut session = ReplySession::new(alloc);
    session.feed(link.as_slice())?;
    let end = listen(&mut session, out)?;
    put_end(end, out)
}
