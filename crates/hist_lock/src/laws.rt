//! The law of what may be asked. The function does nothing: its contract is a fact.
ghost use Rattle.std.specs.Prelude.{ℕ, List};
ghost use Rattle.hist_lock.specs.declared.standings.Turn.{Turn};
ghost use Rattle.hist_lock.specs.Histories.{calls, Continues};

use crate::objects::Object;

/// An event that may be acted may be acted after whatever continues what was seen.
pub fn may_continues<O: Object>()
    ensures { (opening : O) (numbers : List ℕ) (seen history : List (Turn O.Event O.Answer)) (event : O.Event)
        → Continues numbers seen history → O.may opening (calls seen) event → O.may opening (calls history) event }
{
    O::lasts();
}
