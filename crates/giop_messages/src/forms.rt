//! The forms of a message, and where in each its body begins.
ghost use Rattle.std.specs.Prelude.{◌≡◌, ◌≤◌, ◌<◌};
ghost use Rattle.giop_messages.specs.Messages.{body_align, body_boundary};

use cdr_codec::Order;

/// How a message is spelled: in which minor version of GIOP 1, and in which byte order.
#[derive(Clone, Copy, Debug, PartialEq, Eq)]
pub struct Form {
    /// 0, 1 or 2.
    pub minor: u8,
    pub order: Order,
}

/// A body begins at a multiple of this: in 1.0 and 1.1 right behind the fields.
pub fn body_boundary(minor: u8) -> u8
    ensures value { result ≡ body_boundary minor }
    ensures some { 0 < result }
    ensures small { result ≤ 8 }
{
    if minor == 2 { 8 } else { 1 }
}

/// The place modulo 8 at which these bytes of a body begin; 0 where there are none.
pub fn body_align(minor: u8, place: u32, bytes: &[u8]) -> u8
    ensures { result ≡ body_align minor place bytes.now }
{
    if minor == 2 || bytes.is_empty() {
        0
    } else {
        (place % 8) as u8
    }
}
