//! What follows of all clients of a run.
ghost use Rattle.std.specs.Prelude.{ℕ, List};
ghost use Rattle.client_calls.specs.declared.answers.Told.{Told};
ghost use Rattle.client_calls.specs.Calls.{HasRisen};
ghost use Rattle.live_clients.specs.Clients.{AreNewCallers, AreTold, Task, all_faults};

use outside_links::{Dialer, Link};

/// What the network counted of the clients' callers is what all clients were told of refused dials and failed calls, as
/// far as the end of its count.
pub fn faults_are_counted<L: Link, D: Dialer<L>>()
    ensures { (tasks : List (Task D)) (tolds : List Told) (before now : ℕ) → AreNewCallers D.count tasks
        → AreTold D.links D.targets D.sent D.count tasks tolds before now → HasRisen (all_faults tolds) before now }
{}
