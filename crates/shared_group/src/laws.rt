//! What may be asked behind a group's lock, and what looks find. The functions do nothing: their contracts are facts.
ghost use Rattle.shared_group.specs.Laws.{CallsStayPossible, EntriesFoundStay, FreeCallsMayBeMade, LastEntriesFoundAreAll, LooksAreAnswered, SentMayBeBrought};

use crate::books::Book;
use ft_base::Servant;
use ft_outside::Keeper;
use group_core::cores_tell;
use group_model::{steps_go_on, what_is_sent_agrees};
use hist_lock::may_continues;

/// What comes from outside of the group may come whatever was seen; and so may a carry, a checkpoint or a look be asked for.
pub fn free_calls_may_be_made<S: Servant>()
    ensures { FreeCallsMayBeMade S.machine }
{}

/// What may be asked may be asked after a further turn of the pass. (After what it saw by a join or a note it may by
/// hist_lock's `may_continues`.)
pub fn calls_stay_possible<S: Servant + Drop, K: Keeper>()
    ensures { CallsStayPossible S.machine }
{
    may_continues::<Book<S, K>>();
}

/// What an event sent may be brought, from the turn on in which it was sent.
pub fn sent_may_be_brought<S: Servant>()
    ensures { SentMayBeBrought S.machine }
{
    what_is_sent_agrees();
}

/// A look at the figures is answered by them, and the entries that it finds stay.
pub fn entries_found_stay<S: Servant>()
    ensures answered { LooksAreAnswered S.machine }
    ensures stay { EntriesFoundStay S.machine }
    ensures last { LastEntriesFoundAreAll S.machine }
{
    cores_tell();
    steps_go_on();
}
