//! An attempt of a client.
ghost use Rattle.std.specs.Prelude.{◌≡◌, ℕ, Option, None, IfOk, OnErr, IfSome};
ghost use Rattle.outside_links.specs.Lending.{IsLent};
ghost use Rattle.client_talk.specs.Hearing.{OnHeard};
ghost use Rattle.client_talk.specs.Talking.{AreOut, AreTalks, Attempts, Talk, dialing};
ghost use Rattle.client_replies.specs.Heards.{IsReadable};

use crate::exchanges::exchange;
use crate::items::Item;
use crate::lines::{Line, give_back, reach};
use ft_base::{Name, NoMemory};
use outside_links::{Dialer, Link};
use std::alloc::Global;
use std::sync::Wait;

/// Writes a request to a target, and hears what comes next. An empty request is none: it only hears. Gives the link
/// where it stays open, which it does exactly where a Reply was heard. After NoMemory it has gone back.
pub fn attempt<R: Wait, L: Link + Drop, D: Dialer<L>>(
    rt: &R,
    alloc: Global,
    dialer: &mut D,
    line: Option<Line<L>>,
    host: &Name,
    port: u16,
    request: &[u8],
) -> (Option<Line<L>>, Result<Item, NoMemory>)
    requires { IfSome line (λ _. IsLent (D.lent dialer.old)) }
    ensures heard { IfOk result.1 (λ item. (talk : Option Talk) → AreTalks L.left L.holds L.faults talk line
        → (next : Option Talk) × AreTalks L.left L.holds L.faults next result.0
        × Attempts record { host = host.now; port = port } request.now item talk (dialing (D.links dialer.old) (D.targets dialer.old) (D.sent dialer.old) (D.count dialer.old))
        next (dialing (D.links dialer.new) (D.targets dialer.new) (D.sent dialer.new) (D.count dialer.new))) }
    ensures readable { IfOk result.1 (λ item. OnHeard item (λ reply. IsReadable reply.body)) }
    ensures out { (others : Option ℕ) → AreOut others line (D.lent dialer.old) → AreOut others result.0 (D.lent dialer.new) }
    ensures lent { IfSome result.0 (λ _. IsLent (D.lent dialer.new)) }
    ensures back { OnErr result.1 (result.0 ≡ None) }
{
    match reach(alloc, dialer, line, host, port) {
        None => (None, Ok(Item::Dial)),
        Some(mut line) => match exchange(rt, &mut line, request) {
            Ok(Item::Reply(reply)) => (Some(line), Ok(Item::Reply(reply))),
            Ok(Item::Ended) => {
                give_back(dialer, line);
                (None, Ok(Item::Ended))
            }
            Ok(Item::Failed) => {
                give_back(dialer, line);
                (None, Ok(Item::Failed))
            }
            // never: an exchange dials nothing
            Ok(Item::Dial) => {
                give_back(dialer, line);
                (None, Ok(Item::Dial))
            }
            Err(NoMemory) => {
                give_back(dialer, line);
                (None, Err(NoMemory))
            }
        },
    }
}
