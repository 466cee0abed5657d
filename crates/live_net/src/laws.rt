//! Which links each caller has. The function does nothing: its contract is a fact.
ghost use Rattle.live_net.specs.Callers.{HaveLinksInOrder};

/// Of callers that were handed out one after another each has the links that the network told for its place.
pub fn callers_are_in_order()
    ensures { HaveLinksInOrder }
{}
