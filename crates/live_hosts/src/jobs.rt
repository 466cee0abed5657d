//! A host as a job.
ghost use Rattle.std.specs.Prelude.{◌≡◌, ◌<◌};
ghost use Rattle.ft_base.specs.declared.limits.TheConstants.{HOST_LIMIT};
ghost use Rattle.hist_lock.specs.Passes.{IsOf};
ghost use Rattle.shared_port.specs.Turns.{Moves};

use ft_base::{HostNo, Servant};
use ft_outside::Keeper;
use outside_crews::Job;
use outside_links::{Acceptor, Link};
use shared_group::{Pass, SharedGroup};
use shared_port::serve_group;
use std::alloc::Global;
use std::marker::PhantomData;
use std::sync::atomic::{AtomicBool, Ordering};
use std::sync::{Arc, Wait};

/// A host that serves the links of its door, one after another, and gives its pass. As its last act it sets its flag, on
/// which no clause rests.
#[derive(Drop)]
pub struct HostJob<
    R: Wait + Drop,
    S: Servant + Drop,
    K: Keeper + Drop,
    L: Link + Drop,
    A: Acceptor<L>,
> {
    pub rt: R,
    pub alloc: Global,
    pub host: HostNo,
    pub group: Arc<SharedGroup<S, K>, Global>,
    pub pass: Pass<S, K>,
    pub door: A,
    pub ended: Arc<AtomicBool, Global>,
    pub link: PhantomData<L>,
}

// Serves the links of a door, up to a failed accept or a link whose first message is CloseConnection.
fn serve_door<R: Wait, S: Servant + Drop, K: Keeper + Drop, L: Link + Drop, A: Acceptor<L>>(
    rt: &R,
    alloc: Global,
    host: HostNo,
    group: &SharedGroup<S, K>,
    pass: &mut Pass<S, K>,
    door: &mut A,
)
    requires own { IsOf group.now.lock pass.old }
    requires host { host.0 < HOST_LIMIT }
    ensures own { IsOf group.now.lock pass.new }
    ensures moves { Moves host.0 pass.old pass.new }
{
    for _ in rt.forever() {
        let Some(mut link) = door.accept() else {
            return;
        };
        let visit = serve_group(rt, alloc, host, group, pass, &mut link);
        if visit.is_farewell {
            return;
        }
    }
    unreachable!()
}

impl<
    R: Wait + Drop + Send + 'static,
    S: Servant + Drop + Send + 'static,
    K: Keeper + Drop + Send + 'static,
    L: Link + Drop + Send + 'static,
    A: Acceptor<L> + Send + 'static,
> Job for HostJob<R, S, K, L, A> {
    type Gives = Pass<S, K>;

    ghost use Rattle.std.specs.Prelude.{◌<◌};
    ghost use Rattle.std.specs.Arc.{arc_value};
    ghost use Rattle.ft_base.specs.declared.limits.TheConstants.{HOST_LIMIT};
    ghost use Rattle.hist_lock.specs.Passes.{IsOf};
    ghost use Rattle.shared_port.specs.Turns.{Moves};

    ghost ready = { λ job. IsOf (arc_value job.group).lock job.pass × (job.host.0 < HOST_LIMIT) };

    ghost owes = { λ job pass. IsOf (arc_value job.group).lock pass × Moves job.host.0 job.pass pass };

    fn run(self) -> Pass<S, K> {
        let HostJob {
            rt,
            alloc,
            host,
            group,
            mut pass,
            mut door,
            ended,
            link: _,
        } = self;
        serve_door::<R, S, K, L, A>(&rt, alloc, host, &group, &mut pass, &mut door);
        drop(door);
        ended.store(true, Ordering::SeqCst);
        pass
    }
}
