ghost use Rattle.std.specs.Prelude.{◌≡◌, ◌<◌, ℕ, List, MatchOption, false, if◌then◌else◌};
ghost use Rattle.ft_base.specs.declared.limits.TheConstants.{HOST_LIMIT};
ghost use Rattle.giop_stream.specs.Spelled.{IsSpelled};
ghost use Rattle.link_serving.specs.Ends.{is_closed};
ghost use Rattle.link_serving.specs.Fronts.{is_close_in};
ghost use Rattle.link_serving.specs.Serving.{IsAmid, IsServed, IsServedLink, IsVisited, IsWaiting, Took};
ghost use Rattle.link_serving.specs.Wires.{Wire, wire};

use crate::ends::{Ended, end_link, is_closed};
use crate::fronts::Front;
use crate::receiving::{Came, receive};
use ft_base::{HostNo, NoMemory};
use ft_outside::WholeWrite;
use giop_messages::{Form, Message};
use giop_stream::{Session, SessionStep};
use link_session::{GroupPort, Stepped, step};
use outside_links::{Link, send_all};
use std::alloc::Global;
use std::sync::Wait;

/// What became of a link.
#[derive(Clone, Copy, Debug, PartialEq, Eq)]
pub struct Visit {
    pub ended: Ended,
    /// Whether its first message was CloseConnection.
    pub is_farewell: bool,
}

// A message is answered. None where that is done, else how the link is left.
fn take<G: GroupPort, K: Link>(
    alloc: Global,
    host: HostNo,
    port: &G,
    pass: &mut G::Pass,
    link: &mut K,
    received: (Message, Form),
) -> Option<Ended>
    requires fits { G.fits port.now pass.old }
    requires host { host.0 < HOST_LIMIT }
    requires spelled { IsSpelled received }
    ensures fits { G.fits port.now pass.new }
    ensures took { Took (G.exchanges port.now) host.0 received pass.old pass.new
        (wire (K.left link.old) (K.holds link.old) (K.faults link.old)) (wire (K.left link.new) (K.holds link.new) (K.faults link.new)) result }
    ensures closed { K.closed link.new ≡ K.closed link.old }
{
    match step(alloc, port, pass, host, received) {
        Ok(Stepped::Write(bytes)) => match send_all(link, bytes.bytes()) {
            WholeWrite::All => None,
            WholeWrite::Failed => Some(Ended::WriteFault),
        },
        Ok(Stepped::Silent) => None,
        Ok(Stepped::Down) => Some(Ended::Down),
        Err(NoMemory) => Some(Ended::NoMemory),
    }
}

// Serves all messages that are whole. None where more bytes are wanted, else how the link is left.
fn serve_fed<G: GroupPort, K: Link>(
    alloc: Global,
    host: HostNo,
    port: &G,
    pass: &mut G::Pass,
    link: &mut K,
    session: &mut Session,
) -> Option<Ended>
    requires fits { G.fits port.now pass.old }
    requires host { host.0 < HOST_LIMIT }
    ensures fits { G.fits port.now pass.new }
    ensures served { (fed : List ℕ) (p : G.Pass) (w : Wire)
        → IsAmid (G.exchanges port.now) host.0 fed p w pass.old (wire (K.left link.old) (K.holds link.old) (K.faults link.old)) session.old
        → MatchOption result
        (IsWaiting (G.exchanges port.now) host.0 fed p w pass.new (wire (K.left link.new) (K.holds link.new) (K.faults link.new)) session.new)
        (λ ended. IsServed (G.exchanges port.now) host.0 fed p w pass.new (wire (K.left link.new) (K.holds link.new) (K.faults link.new)) ended) }
    ensures closed { K.closed link.new ≡ K.closed link.old }
{
    'messages: loop {
        match session.next() {
            Ok(SessionStep::Serve(received)) => {
                match take(alloc, host, port, pass, link, received) {
                    None => {}
                    Some(ended) => return Some(ended),
                }
            }
            Ok(SessionStep::Wait) => return None,
            Ok(SessionStep::End(end)) => return Some(end_link(alloc, link, end)),
            Err(NoMemory) => return Some(Ended::NoMemory),
        }
    }
}

fn visit_of(ended: Ended, front: &Front) -> Visit
    ensures ended { result.ended ≡ ended }
    ensures farewell { result.is_farewell ≡ (if is_closed ended then is_close_in front.now else false) }
{
    Visit {
        ended,
        is_farewell: is_closed(ended) && front.is_close(),
    }
}

/// `serve_link`, which also tells whether the link's first message was CloseConnection.
pub fn serve_visit<R: Wait, G: GroupPort, K: Link>(
    rt: &R,
    alloc: Global,
    host: HostNo,
    port: &G,
    pass: &mut G::Pass,
    link: &mut K,
) -> Visit
    requires fits { G.fits port.now pass.old }
    requires host { host.0 < HOST_LIMIT }
    ensures fits { G.fits port.now pass.new }
    ensures visited { IsVisited (G.exchanges port.now) host.0 pass.old (wire (K.left link.old) (K.holds link.old) (K.faults link.old))
        pass.new (wire (K.left link.new) (K.holds link.new) (K.faults link.new)) result }
    ensures closed { K.closed link.new ≡ K.closed link.old }
{
    let mut session = Session::new(alloc);
    let mut front = Front::new();
    for _ in rt.forever() {
        match serve_fed(alloc, host, port, pass, link, &mut session) {
            None => {}
            Some(ended) => return visit_of(ended, &front),
        }
        match receive(link, &mut session, &mut front) {
            Came::Some => {}
            Came::End => return visit_of(end_link(alloc, link, session.at_end()), &front),
            Came::Failed => return visit_of(Ended::ReadFault, &front),
            Came::NoMemory => return visit_of(Ended::NoMemory, &front),
        }
    }
    unreachable!()
}

/// A host serves a link until that ends. What it writes answers the messages of the bytes that were read, each once it
/// is whole, before more is read. It closes nothing.
pub fn serve_link<R: Wait, G: GroupPort, K: Link>(
    rt: &R,
    alloc: Global,
    host: HostNo,
    port: &G,
    pass: &mut G::Pass,
    link: &mut K,
) -> Ended
    requires fits { G.fits port.now pass.old }
    requires host { host.0 < HOST_LIMIT }
    ensures fits { G.fits port.now pass.new }
    ensures served { IsServedLink (G.exchanges port.now) host.0 pass.old (wire (K.left link.old) (K.holds link.old) (K.faults link.old))
        pass.new (wire (K.left link.new) (K.holds link.new) (K.faults link.new)) result }
    ensures closed { K.closed link.new ≡ K.closed link.old }
{
    serve_visit(rt, alloc, host, port, pass, link).ended
}
