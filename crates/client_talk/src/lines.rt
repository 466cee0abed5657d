//! The link that a client has open.
ghost use Rattle.std.specs.Prelude.{◌≡◌, ◌↔◌, ℕ, List, Option, Some, IfSome, IsTrue, MatchOption};
ghost use Rattle.outside_links.specs.Lending.{IsLent};
ghost use Rattle.client_talk.specs.Talking.{Apart, AreOut, AreTalks, Dialled, IsTalk, Reaches, Talk, begun, dialing, hung_up, refused};

use ft_base::Name;
use giop_stream::ReplySession;
use outside_links::{Dialer, Link, Target};
use std::alloc::Global;

/// A link that is open: what was read of it so far, and where it leads.
#[derive(Drop)]
pub struct Line<L> {
    pub link: L,
    pub session: ReplySession,
    pub to: Target,
}

fn leads_to(to: &Target, host: &Name, port: u16) -> bool
    ensures { IsTrue result ↔ (to.now ≡ record { host = host.now; port = port }) }
{
    to.port() == port && to.host() == host.bytes()
}

// A new link to a target.
fn dial<L: Link + Drop, D: Dialer<L>>(
    alloc: Global,
    dialer: &mut D,
    host: &Name,
    port: u16,
) -> Option<Line<L>>
    ensures dialled { MatchOption result
        (dialing (D.links dialer.new) (D.targets dialer.new) (D.sent dialer.new) (D.count dialer.new)
        ≡ refused (dialing (D.links dialer.old) (D.targets dialer.old) (D.sent dialer.old) (D.count dialer.old)))
        (λ line. (whole : Option (List ℕ)) × IsTalk L.left L.holds L.faults (begun record { host = host.now; port = port } whole) line
        × Dialled record { host = host.now; port = port } whole (dialing (D.links dialer.old) (D.targets dialer.old) (D.sent dialer.old) (D.count dialer.old))
        (dialing (D.links dialer.new) (D.targets dialer.new) (D.sent dialer.new) (D.count dialer.new))) }
    ensures out { (others : Option ℕ) → D.lent dialer.old ≡ others → AreOut others result (D.lent dialer.new) }
    ensures lent { IfSome result (λ _. IsLent (D.lent dialer.new)) }
{
    match dialer.dial(host, port) {
        None => None,
        Some(link) => Some(Line {
            link,
            session: ReplySession::new(alloc),
            to: Target::new(host, port),
        }),
    }
}

/// A link goes back to its dialer.
pub(crate) fn give_back<L: Link + Drop, D: Dialer<L>>(dialer: &mut D, line: Line<L>)
    requires { IsLent (D.lent dialer.old) }
    ensures back { (talk : Talk) → IsTalk L.left L.holds L.faults talk line
        → dialing (D.links dialer.new) (D.targets dialer.new) (D.sent dialer.new) (D.count dialer.new)
        ≡ hung_up (Some talk) (dialing (D.links dialer.old) (D.targets dialer.old) (D.sent dialer.old) (D.count dialer.old)) }
    ensures out { (others : Option ℕ) → AreOut others (Some line) (D.lent dialer.old) → D.lent dialer.new ≡ others }
{
    let Line {
        link,
        session: _,
        to: _,
    } = line;
    dialer.take_back(link);
}

/// The open link goes back to its dialer, if there is one.
pub fn hang_up<L: Link + Drop, D: Dialer<L>>(dialer: &mut D, line: Option<Line<L>>)
    requires { IfSome line (λ _. IsLent (D.lent dialer.old)) }
    ensures back { (talk : Option Talk) → AreTalks L.left L.holds L.faults talk line
        → dialing (D.links dialer.new) (D.targets dialer.new) (D.sent dialer.new) (D.count dialer.new)
        ≡ hung_up talk (dialing (D.links dialer.old) (D.targets dialer.old) (D.sent dialer.old) (D.count dialer.old)) }
    ensures out { (others : Option ℕ) → AreOut others line (D.lent dialer.old) → D.lent dialer.new ≡ others }
{
    match line {
        None => {}
        Some(line) => give_back(dialer, line),
    }
}

/// The link to a target: the one that is open, where it leads there, else a new one, and the other goes back.
pub(crate) fn reach<L: Link + Drop, D: Dialer<L>>(
    alloc: Global,
    dialer: &mut D,
    line: Option<Line<L>>,
    host: &Name,
    port: u16,
) -> Option<Line<L>>
    requires { IfSome line (λ _. IsLent (D.lent dialer.old)) }
    ensures reached { (talk : Option Talk) → AreTalks L.left L.holds L.faults talk line → MatchOption result
        (Apart record { host = host.now; port = port } talk × (dialing (D.links dialer.new) (D.targets dialer.new) (D.sent dialer.new) (D.count dialer.new)
        ≡ refused (hung_up talk (dialing (D.links dialer.old) (D.targets dialer.old) (D.sent dialer.old) (D.count dialer.old)))))
        (λ now. (t : Talk) × IsTalk L.left L.holds L.faults t now
        × Reaches record { host = host.now; port = port } talk (dialing (D.links dialer.old) (D.targets dialer.old) (D.sent dialer.old) (D.count dialer.old)) t
        (dialing (D.links dialer.new) (D.targets dialer.new) (D.sent dialer.new) (D.count dialer.new))) }
    ensures out { (others : Option ℕ) → AreOut others line (D.lent dialer.old) → AreOut others result (D.lent dialer.new) }
    ensures lent { IfSome result (λ _. IsLent (D.lent dialer.new)) }
{
    match line {
        None => dial(alloc, dialer, host, port),
        Some(line) => {
            if leads_to(&line.to, host, port) {
                return Some(line);
            }
            give_back(dialer, line);
            dial(alloc, dialer, host, port)
        }
    }
}
