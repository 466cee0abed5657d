ghost use Rattle.std.specs.Prelude.{◌≡◌};
ghost use Rattle.link_serving.specs.Wires.{HasCame, wire};

use crate::fronts::Front;
use ft_base::NoMemory;
use ft_outside::Got;
use giop_stream::Session;
use outside_links::Link;

/// What came on a link.
#[derive(Clone, Copy)]
pub(crate) enum Came {
    /// Bytes, which the session was fed.
    Some,
    /// Nothing more.
    End,
    Failed,
    /// Bytes, for which there was no memory.
    NoMemory,
}

/// The most bytes that are read at once.
const PIECE: usize = 4096;

/// Reads a piece of a link, and feeds the session with it.
pub(crate) fn receive<K: Link>(link: &mut K, session: &mut Session, front: &mut Front) -> Came
    ensures came { HasCame session.old session.new front.old front.new (wire (K.left link.old) (K.holds link.old) (K.faults link.old)) (wire (K.left link.new) (K.holds link.new) (K.faults link.new)) result }
    ensures closed { K.closed link.new ≡ K.closed link.old }
{
    let mut buffer = [0; PIECE];
    match link.receive(&mut buffer) {
        Got::Bytes(count) => {
            let piece = &buffer[..count];
            front.take(piece);
            match session.feed(piece) {
                Ok(()) => Came::Some,
                Err(NoMemory) => Came::NoMemory,
            }
        }
        Got::End => Came::End,
        Got::Failed => Came::Failed,
    }
}
