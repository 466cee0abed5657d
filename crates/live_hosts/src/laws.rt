//! What stays of hosts that have ended. The function does nothing: its contract is a fact.
ghost use Rattle.live_hosts.specs.Laws.{StaysEndedAfterJoins, StaysEndedAfterTurns, StaysEndedInTheWhole};

/// The turns of a host that has ended are what they were, after a turn of the run's own, after it has taken in another pass,
/// and in the whole history, once the lock is closed.
pub fn ended_hosts_stay()
    ensures turns { StaysEndedAfterTurns }
    ensures joins { StaysEndedAfterJoins }
    ensures whole { StaysEndedInTheWhole }
{}
