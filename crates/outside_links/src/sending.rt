ghost use Rattle.std.specs.Prelude.{◌≡◌};
ghost use Rattle.ft_outside.specs.Outside.{IsWrittenWhole};

use crate::links::Link;
use ft_outside::{Put, WholeWrite, behind};

/// Sends a whole text, in as many pieces as the link asks for, and stops at the first fault. An empty text is sent with
/// no call.
pub fn send_all<L: Link>(link: &mut L, text: &[u8]) -> WholeWrite
    ensures sent { IsWrittenWhole (L.holds link.old) (L.holds link.new) (L.faults link.old) (L.faults link.new) text.now result }
    ensures left { L.left link.new ≡ L.left link.old }
    ensures closed { L.closed link.new ≡ L.closed link.old }
{
    let mut done = 0;
    while done < text.len() {
        match link.send(behind(text, done)) {
            Put::Took(count) => done += count,
            Put::Failed => return WholeWrite::Failed,
        }
    }
    WholeWrite::All
}
