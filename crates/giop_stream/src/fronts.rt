ghost use Rattle.std.specs.Prelude.{◌≡◌, ◌≤◌, IfOk, length};
ghost use Rattle.giop_stream.specs.Fronts.{total, framed, head_at, header_at_front, fronted, front, IsJudgedHead, IsWithin};

use crate::faults::StreamFault;
use giop_messages::{HEAD_LENGTH, Head, MESSAGE_LIMIT, Why, read_head};

/// What stands at the front of the bytes of a link.
#[derive(Clone, Copy)]
pub enum Front {
    /// Less than a message or part, and so far nothing wrong.
    Partly,
    /// A header that is wrong.
    Wrong(StreamFault),
    /// A whole message or part.
    Whole(Head),
}

fn judge(head: Head) -> Result<Head, StreamFault>
    ensures value { result ≡ framed head }
    ensures small { IfOk result (λ h. total h ≤ MESSAGE_LIMIT) }
{
    let total = HEAD_LENGTH as u64 + u64::from(head.size);
    if total > MESSAGE_LIMIT as u64 {
        return Err(StreamFault::TooLarge(total));
    }
    if !head.flags_fit() {
        return Err(StreamFault::Malformed {
            why: Why::Flags,
            place: 6,
        });
    }
    if head.more() && total % 8 != 0 {
        return Err(StreamFault::Malformed {
            why: Why::Length,
            place: 8,
        });
    }
    Ok(head)
}

#[tactic(auto, unfolding(crate::specs::Fronts::head_at))]
fn judged_head(bytes: &[u8]) -> Result<Head, StreamFault>
    requires { length bytes.now ≡ HEAD_LENGTH }
    ensures value { result ≡ head_at bytes.now }
    ensures small { IfOk result (λ h. total h ≤ MESSAGE_LIMIT) }
{
    match read_head(bytes) {
        Ok(head) => judge(head),
        Err(wrong) => Err(StreamFault::Malformed {
            why: wrong.why,
            place: wrong.place,
        }),
    }
}

/// The header at the front of these bytes, if its twelve bytes are there.
pub fn read_header(bytes: &[u8]) -> Result<Option<Head>, StreamFault>
    ensures value { result ≡ header_at_front bytes.now }
    ensures judged { IsJudgedHead result bytes.now }
{
    if bytes.len() < HEAD_LENGTH {
        return Ok(None);
    }
    match judged_head(&bytes[..HEAD_LENGTH]) {
        Ok(head) => Ok(Some(head)),
        Err(fault) => Err(fault),
    }
}

/// What stands at the front of these bytes, by its header.
pub fn front_by(head: Head, bytes: &[u8]) -> Front
    requires { total head ≤ MESSAGE_LIMIT }
    ensures value { result ≡ fronted bytes.now (Ok head) }
    ensures within { IsWithin result bytes.now }
{
    if bytes.len() < HEAD_LENGTH + head.size as usize {
        Front::Partly
    } else {
        Front::Whole(head)
    }
}

pub fn read_front(bytes: &[u8]) -> Front
    ensures value { result ≡ front bytes.now }
    ensures within { IsWithin result bytes.now }
{
    match read_header(bytes) {
        Ok(None) => Front::Partly,
        Ok(Some(head)) => front_by(head, bytes),
        Err(fault) => Front::Wrong(fault),
    }
}
