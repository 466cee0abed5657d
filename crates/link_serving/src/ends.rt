//! How a link is left.
ghost use Rattle.std.specs.Prelude.{◌≡◌};
ghost use Rattle.link_serving.specs.Ends.{ended_by, is_closed, HasEnded};
ghost use Rattle.link_serving.specs.Wires.{wire};
ghost use Rattle.link_session.specs.Ports.{end_error};

use ft_base::NoMemory;
use ft_outside::WholeWrite;
use giop_messages::Why;
use giop_stream::StreamEnd;
use link_session::end_bytes;
use outside_links::{Link, send_all};
use std::alloc::Global;

/// How a link was left.
#[derive(Clone, Copy, Debug, PartialEq, Eq)]
pub enum Ended {
    /// The bytes ended behind a whole message, or the peer closed the link by a message.
    Closed,
    /// The bytes are no message to a server, or are cut off in one (`Cut`, with how many belong to no whole message).
    /// A MessageError was written, unless they are cut off.
    Malformed { why: Why, place: u32 },
    /// A message of so many bytes came. A MessageError was written.
    TooLarge(u64),
    ReadFault,
    WriteFault,
    /// A request was asked, and the host was down.
    Down,
    NoMemory,
}

fn ended_by(end: StreamEnd) -> Ended
    ensures { result ≡ ended_by end }
{
    match end {
        StreamEnd::Closed => Ended::Closed,
        StreamEnd::Malformed { why, place } => Ended::Malformed { why, place },
        StreamEnd::TooLarge(size) => Ended::TooLarge(size),
    }
}

pub(crate) fn is_closed(ended: Ended) -> bool
    ensures { result ≡ is_closed ended }
{
    match ended {
        Ended::Closed => true,
        Ended::Malformed { .. } | Ended::TooLarge(_) => false,
        Ended::ReadFault | Ended::WriteFault | Ended::Down | Ended::NoMemory => false,
    }
}

/// The session of a link has ended: what is owed for that is written.
pub(crate) fn end_link<K: Link>(alloc: Global, link: &mut K, end: StreamEnd) -> Ended
    ensures ended { HasEnded (end_error end) end (wire (K.left link.old) (K.holds link.old) (K.faults link.old)) (wire (K.left link.new) (K.holds link.new) (K.faults link.new)) result }
    ensures closed { K.closed link.new ≡ K.closed link.old }
{
    match end_bytes(alloc, end) {
        Ok(None) => ended_by(end),
        Ok(Some(bytes)) => match send_all(link, bytes.bytes()) {
            WholeWrite::All => ended_by(end),
            WholeWrite::Failed => Ended::WriteFault,
        },
        Err(NoMemory) => Ended::NoMemory,
    }
}
