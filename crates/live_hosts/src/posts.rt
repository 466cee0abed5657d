//! A host that was started.
ghost use Rattle.std.specs.Prelude.{◌≡◌};
ghost use Rattle.std.specs.Arc.{arc_value};
ghost use Rattle.hist_lock.specs.Passes.{IsOf};
ghost use Rattle.shared_port.specs.Turns.{Moves};

use crate::jobs::HostJob;
use ft_base::Servant;
use ft_outside::Keeper;
use outside_crews::Running;
use outside_links::{Acceptor, Link};
use shared_group::Pass;
use std::alloc::Global;
use std::marker::Model;
use std::sync::atomic::{AtomicBool, Ordering};
use std::sync::{Arc, Wait};
use std::thread::Threads;

/// A host that was started. Contracts see where it was posted: its number, its group, and the pass that it was given.
#[derive(Drop)]
pub struct Host<
    R: Wait + Drop + Send + 'static,
    S: Servant + Drop + Send + 'static,
    K: Keeper + Drop + Send + 'static,
    L: Link + Drop + Send + 'static,
    A: Acceptor<L> + Send + 'static,
> {
    running: Running<HostJob<R, S, K, L, A>>,
    ended: Arc<AtomicBool, Global>,
}

impl<
    R: Wait + Drop + Send + 'static,
    S: Servant + Drop + Send + 'static,
    K: Keeper + Drop + Send + 'static,
    L: Link + Drop + Send + 'static,
    A: Acceptor<L> + Send + 'static,
> Model for Host<R, S, K, L, A> {
    ghost use Rattle.std.specs.Arc.{arc_value};
    ghost use Rattle.live_hosts.specs.Posts.{Post};

    ghost Value = { Post };

    ghost view = { λ h. record { host = h.running.host.0; group = arc_value h.running.group; pass = h.running.pass } };
}

impl<
    R: Threads + Wait + Drop + Send + 'static,
    S: Servant + Drop + Send + 'static,
    K: Keeper + Drop + Send + 'static,
    L: Link + Drop + Send + 'static,
    A: Acceptor<L> + Send + 'static,
> Host<R, S, K, L, A> {
    /// A job that runs, and the flag that it sets.
    pub(crate) fn new(
        running: Running<HostJob<R, S, K, L, A>>,
        ended: Arc<AtomicBool, Global>,
    ) -> Host<R, S, K, L, A>
        ensures host { result.host ≡ running.host.0 }
        ensures group { result.group ≡ arc_value running.group }
        ensures pass { result.pass ≡ running.pass }
    {
        Host { running, ended }
    }

    /// Whether its flag is set: its door is closed, and a join waits no longer. No clause says so.
    pub fn is_ended(&self) -> bool {
        self.ended.load(Ordering::SeqCst)
    }

    /// Waits for its end, and gives its pass.
    pub(crate) fn join(self, rt: &R) -> Pass<S, K>
        ensures own { IsOf self.group.lock result }
        ensures moves { Moves self.host self.pass result }
    {
        let Host {
            running,
            ended: _ended,
        } = self;
        running.join(rt)
    }
}
