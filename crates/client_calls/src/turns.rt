//! What a client makes of what it hears.
ghost use Rattle.std.specs.Prelude.{◌≡◌, ℕ, Option, None, IfOk, OnErr, IfSome};
ghost use Rattle.outside_links.specs.Lending.{IsLent};
ghost use Rattle.client_retry.specs.Clients.{Client, hearing};
ghost use Rattle.client_retry.specs.Counters.{StandsFor};
ghost use Rattle.client_replies.specs.Heards.{IsReadable};
ghost use Rattle.client_talk.specs.declared.items.Item.{Item as AnItem};
ghost use Rattle.client_talk.specs.Hearing.{OnHeard};
ghost use Rattle.client_talk.specs.Talking.{AreOut, AreTalks, Attempts, Talk, dialing};
ghost use Rattle.client_calls.specs.Calls.{Turns, news_of, says};

use crate::aims::Aim;
use crate::answers::Hearing;
use client_replies::heard_of;
use client_retry::{Act, ClientCore};
use client_talk::{Item, Line, attempt, hang_up};
use ft_base::{NoMemory, Tick};
use outside_links::{Dialer, Link};
use std::alloc::Global;
use std::sync::Wait;

/// The moment of all that a live client hears, since it counts no time.
const MOMENT: Tick = Tick(0);

fn says(alloc: Global, item: &Item) -> Result<Hearing, NoMemory>
    requires { OnHeard item.now (λ reply. IsReadable reply.body) }
    ensures { IfOk result (λ told. told ≡ says item.now) }
{
    match item {
        Item::Reply(reply) => {
            let heard = heard_of(alloc, reply)?;
            Ok(Hearing::Reply {
                id: reply.id,
                heard,
            })
        }
        Item::Dial => Ok(Hearing::Dial),
        Item::Failed => Ok(Hearing::Failed),
        Item::Ended => Ok(Hearing::Ended),
    }
}

fn tell(core: &mut ClientCore, told: Hearing) -> Act
    ensures { (client : Client) → StandsFor client core.old → (result ≡ (hearing client (news_of told)).act) × StandsFor (hearing client (news_of told)).client core.new }
{
    match told {
        Hearing::Reply { id, heard } => core.reply(id, heard, MOMENT),
        Hearing::Dial | Hearing::Failed | Hearing::Ended => core.fault(MOMENT),
    }
}

// What is told, and what the client does then. A Reply is read twice, since the client keeps what it is given.
fn turn(alloc: Global, core: &mut ClientCore, item: &Item) -> Result<(Hearing, Act), NoMemory>
    requires { OnHeard item.now (λ reply. IsReadable reply.body) }
    ensures { IfOk result (λ x. Turns core.old core.new item.now x.0 x.1) }
{
    let told = says(alloc, item)?;
    let news = says(alloc, item)?;
    let act = tell(core, news);
    Ok((told, act))
}

/// An attempt, what is told of it, and what the client does then. After NoMemory the link has gone back.
pub(crate) fn hear<R: Wait, L: Link + Drop, D: Dialer<L>>(
    rt: &R,
    alloc: Global,
    dialer: &mut D,
    line: Option<Line<L>>,
    aim: &Aim,
    core: &mut ClientCore,
) -> (Option<Line<L>>, Result<(Hearing, Act), NoMemory>)
    requires { IfSome line (λ _. IsLent (D.lent dialer.old)) }
    ensures heard { IfOk result.1 (λ x. (talk : Option Talk) → AreTalks L.left L.holds L.faults talk line
        → (item : AnItem) × (next : Option Talk) × AreTalks L.left L.holds L.faults next result.0
        × Attempts aim.now.to aim.now.text item talk (dialing (D.links dialer.old) (D.targets dialer.old) (D.sent dialer.old) (D.count dialer.old))
        next (dialing (D.links dialer.new) (D.targets dialer.new) (D.sent dialer.new) (D.count dialer.new))
        × Turns core.old core.new item x.0 x.1) }
    ensures out { (others : Option ℕ) → AreOut others line (D.lent dialer.old) → AreOut others result.0 (D.lent dialer.new) }
    ensures lent { IfSome result.0 (λ _. IsLent (D.lent dialer.new)) }
    ensures back { OnErr result.1 (result.0 ≡ None) }
{
    let (next, item) = attempt(rt, alloc, dialer, line, aim.host(), aim.port(), aim.text());
    match item {
        Err(NoMemory) => (next, Err(NoMemory)),
        Ok(item) => match turn(alloc, core, &item) {
            Ok(turn) => (next, Ok(turn)),
            Err(NoMemory) => {
                hang_up(dialer, next);
                (None, Err(NoMemory))
            }
        },
    }
}
