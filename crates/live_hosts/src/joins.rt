//! Hosts that have ended are joined.
ghost use Rattle.std.specs.Prelude.{◌≡◌};
ghost use Rattle.std.specs.List.{AllByRecursion};
ghost use Rattle.hist_lock.specs.Passes.{IsOf};
ghost use Rattle.live_hosts.specs.Posts.{HasEnded, HasSeenMore, IsPosted};

use crate::posts::Host;
use ft_base::Servant;
use ft_outside::Keeper;
use outside_links::{Acceptor, Link};
use shared_group::{Pass, SharedGroup};
use std::sync::Wait;
use std::thread::Threads;

/// Waits for the end of all hosts, and takes their passes into the run's. That has then seen all that they had, and what
/// the history has under the number of a host's pass are that host's turns.
pub fn join_hosts<
    R: Threads + Wait + Drop + Send + 'static,
    S: Servant + Drop + Send + 'static,
    K: Keeper + Drop + Send + 'static,
    L: Link + Drop + Send + 'static,
    A: Acceptor<L> + Send + 'static,
>(rt: &R, group: &SharedGroup<S, K>, main: &mut Pass<S, K>, hosts: Vec<Host<R, S, K, L, A>>)
    requires own { IsOf group.now.lock main.old }
    requires posted { AllByRecursion (IsPosted group.now) hosts.items }
    ensures own { IsOf group.now.lock main.new }
    ensures main { HasSeenMore main.old main.new }
    ensures ended { AllByRecursion (λ post. HasEnded post main.new) hosts.items }
{
    for host in hosts {
        let gone = host.join(rt);
        group.join(main, gone);
    }
}
