//! A request, and what is heard behind it.
ghost use Rattle.std.specs.Prelude.{◌≡◌, IfOk};
ghost use Rattle.client_talk.specs.Hearing.{OnHeard};
ghost use Rattle.client_talk.specs.Talking.{Exchanges, IsTalk, Talk};
ghost use Rattle.client_replies.specs.Heards.{IsReadable};

use crate::items::Item;
use crate::lines::Line;
use crate::listening::listen;
use ft_base::NoMemory;
use ft_outside::WholeWrite;
use outside_links::{Link, send_all};
use std::sync::Wait;

/// Writes a request to an open link, and hears what comes next.
pub(crate) fn exchange<R: Wait, L: Link + Drop>(
    rt: &R,
    line: &mut Line<L>,
    request: &[u8],
) -> Result<Item, NoMemory>
    ensures exchanged { IfOk result (λ item. (talk : Talk) → IsTalk L.left L.holds L.faults talk line.old
        → (after : Talk) × IsTalk L.left L.holds L.faults after line.new × Exchanges request.now item talk after) }
    ensures readable { IfOk result (λ item. OnHeard item (λ reply. IsReadable reply.body)) }
{
    match send_all(&mut line.link, request) {
        WholeWrite::Failed => return Ok(Item::Failed),
        WholeWrite::All => {}
    }
    listen(rt, &mut line.link, &mut line.session)
}
