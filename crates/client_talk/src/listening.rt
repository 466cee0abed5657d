//! The next Reply of a link.
ghost use Rattle.std.specs.Prelude.{◌≡◌, ℕ, List, Option, IfOk};
ghost use Rattle.giop_messages.specs.declared.messages.ReplyMsg.{ReplyMsg as ReplyPicture};
ghost use Rattle.client_talk.specs.Hearing.{HasCame, Hears, IsRead, OnHeard, counted};
ghost use Rattle.client_replies.specs.Heards.{IsReadable};

use crate::items::Item;
use ft_base::NoMemory;
use ft_outside::Got;
use giop_messages::messages_are_within;
use giop_stream::{ReplySession, ReplyStep};
use outside_links::Link;
use std::sync::Wait;

/// What came on a link.
#[derive(Clone, Copy)]
enum Came {
    /// Bytes, which the session was fed.
    Some,
    /// Nothing more.
    End,
    Failed,
    /// Bytes, for which there was no memory.
    NoMemory,
}

/// The most bytes that are read at once.
const PIECE: usize = 4096;

// Reads a piece of a link, and feeds the session with it.
fn receive<L: Link>(link: &mut L, session: &mut ReplySession) -> Came
    ensures came { HasCame (L.left link.old) (L.left link.new) (L.faults link.old) (L.faults link.new) session.old session.new result }
    ensures holds { L.holds link.new ≡ L.holds link.old }
{
    let mut buffer = [0; PIECE];
    match link.receive(&mut buffer) {
        Got::Bytes(count) => match session.feed(&buffer[..count]) {
            Ok(()) => Came::Some,
            Err(NoMemory) => Came::NoMemory,
        },
        Got::End => Came::End,
        Got::Failed => Came::Failed,
    }
}

/// The next of a link: a Reply, its end, or that it failed. Whatever bytes the link had when it was dialled, and
/// whatever Replies were heard on it before.
pub(crate) fn listen<R: Wait, L: Link>(
    rt: &R,
    link: &mut L,
    session: &mut ReplySession,
) -> Result<Item, NoMemory>
    ensures heard { IfOk result (λ item. (whole : Option (List ℕ)) (given : List ReplyPicture) → IsRead whole given (L.left link.old) session.old
        → Hears whole given (L.left link.new) session.new item) }
    ensures readable { IfOk result (λ item. OnHeard item (λ reply. IsReadable reply.body)) }
    ensures holds { L.holds link.new ≡ L.holds link.old }
    ensures faults { IfOk result (λ item. L.faults link.new ≡ counted item (L.faults link.old)) }
{
    messages_are_within();
    for _ in rt.forever() {
        match session.next() {
            Ok(ReplyStep::Reply(reply)) => return Ok(Item::Reply(reply)),
            Ok(ReplyStep::Wait) => match receive(link, session) {
                Came::Some => {}
                Came::End => {
                    let _end = session.at_end();
                    return Ok(Item::Ended);
                }
                Came::Failed => return Ok(Item::Failed),
                Came::NoMemory => return Err(NoMemory),
            },
            Ok(ReplyStep::End(_)) => return Ok(Item::Ended),
            Err(NoMemory) => return Err(NoMemory),
        }
    }
    unreachable!()
}
