//! Hosts are started.
ghost use Rattle.std.specs.Prelude.{◌≡◌, ◌<◌, ◌≤◌, ◌⊎◌, [], length, map, None, IfOk};
ghost use Rattle.std.specs.Arc.{arc_value};
ghost use Rattle.std.specs.List.{AllByRecursion, range_with_len};
ghost use Rattle.ft_base.specs.declared.limits.TheConstants.{HOST_LIMIT};
ghost use Rattle.hist_lock.specs.Passes.{IsOf, child_of, own_turns, parent_after};
ghost use Rattle.live_hosts.specs.Posts.{HandsOut, IsPosted, Rises, after_starts, started_by};

use crate::jobs::HostJob;
use crate::posts::Host;
use ft_base::{HostNo, NoMemory, Servant};
use ft_outside::Keeper;
use outside_crews::{Crew, Started};
use outside_links::{Acceptor, Link};
use shared_group::{Pass, SharedGroup};
use std::alloc::Global;
use std::marker::PhantomData;
use std::sync::atomic::AtomicBool;
use std::sync::{Arc, Wait};
use std::thread::Threads;

/// Why a host was not started.
#[derive(Clone, Copy, Debug, PartialEq, Eq)]
pub enum StartFault {
    /// The crew refused.
    Refused,
    NoMemory,
}

/// The hosts that were started, in the order of their doors, and why there is no further one.
#[derive(Drop)]
pub struct Hosts<
    R: Wait + Drop + Send + 'static,
    S: Servant + Drop + Send + 'static,
    K: Keeper + Drop + Send + 'static,
    L: Link + Drop + Send + 'static,
    A: Acceptor<L> + Send + 'static,
> {
    pub started: Vec<Host<R, S, K, L, A>>,
    pub fault: Option<StartFault>,
}

// The host of the door at this place.
fn host_at(place: usize) -> HostNo
    requires { place < HOST_LIMIT }
    ensures { result.0 ≡ place }
{
    HostNo(place as u8)
}

// Starts a host, with a pass that is split from the run's. One that is refused is let go with its pass, which had no turn.
fn start_host<
    R: Threads + Wait + Clone + Drop + Send + 'static,
    S: Servant + Drop + Send + 'static,
    K: Keeper + Drop + Send + 'static,
    L: Link + Drop + Send + 'static,
    A: Acceptor<L> + Send + 'static,
>(
    rt: &R,
    alloc: Global,
    crew: &mut Crew<R>,
    host: HostNo,
    group: &Arc<SharedGroup<S, K>, Global>,
    main: &mut Pass<S, K>,
    door: A,
) -> Result<Host<R, S, K, L, A>, StartFault>
    requires own { IsOf (arc_value group.now).lock main.old }
    requires host { host.0 < HOST_LIMIT }
    ensures main { (main.new ≡ main.old) ⊎ (main.new ≡ parent_after main.old) }
    ensures started { IfOk result (λ post. (main.new ≡ parent_after main.old) × (post ≡ record { host = host.0; group = arc_value group.now; pass = child_of main.old })) }
    ensures fresh { IfOk result (λ post. own_turns post.pass ≡ []) }
    ensures faults { crew.new.faults ≡ after_starts (started_by result) crew.old.faults }
{
    let Ok(ended) = Arc::new(alloc, AtomicBool::new(false)) else {
        return Err(StartFault::NoMemory);
    };
    let Ok(flag) = Arc::try_clone(&ended) else {
        return Err(StartFault::NoMemory);
    };
    let Ok(theirs) = Arc::try_clone(group) else {
        return Err(StartFault::NoMemory);
    };
    let Ok(handle) = rt.clone() else {
        return Err(StartFault::NoMemory);
    };
    let pass = match group.split(main) {
        Ok(pass) => pass,
        Err(NoMemory) => return Err(StartFault::NoMemory),
    };
    let job = HostJob::<R, S, K, L, A> {
        rt: handle,
        alloc,
        host,
        group: theirs,
        pass,
        door,
        ended: flag,
        link: PhantomData,
    };
    match crew.start(job) {
        Started::Running(running) => Ok(Host::new(running, ended)),
        Started::Refused => Err(StartFault::Refused),
    }
}

/// Starts a host for each door, whose number is the door's place. Each has a pass of its own, which is split from the run's.
/// At the first that can't be started it stops; those that run are given all the same, and the run has to end and join them.
pub fn start_hosts<
    R: Threads + Wait + Clone + Drop + Send + 'static,
    S: Servant + Drop + Send + 'static,
    K: Keeper + Drop + Send + 'static,
    L: Link + Drop + Send + 'static,
    A: Acceptor<L> + Send + 'static,
>(
    rt: &R,
    alloc: Global,
    crew: &mut Crew<R>,
    group: &Arc<SharedGroup<S, K>, Global>,
    main: &mut Pass<S, K>,
    doors: Vec<A>,
) -> Hosts<R, S, K, L, A>
    requires own { IsOf (arc_value group.now).lock main.old × (0 < main.old.stride) }
    requires few { length doors.items ≤ HOST_LIMIT }
    ensures main { HandsOut main.old main.new }
    ensures all { result.fault ≡ None → length result.started.items ≡ length doors.items }
    ensures hosts { map (λ post. post.host) result.started.items ≡ range_with_len 0 (length result.started.items) }
    ensures posted { AllByRecursion (IsPosted (arc_value group.now)) result.started.items }
    ensures numbers { Rises main.old.number (map (λ post. post.pass.number) result.started.items) }
    ensures faults { crew.new.faults ≡ after_starts result.fault crew.old.faults }
{
    let mut started: Vec<Host<R, S, K, L, A>> = Vec::new(alloc);
    let Ok(()) = started.reserve(doors.len()) else {
        return Hosts {
            started,
            fault: Some(StartFault::NoMemory),
        };
    };
    for door in doors {
        let place = started.len();
        let host = host_at(place);
        match start_host(rt, alloc, crew, host, group, main, door) {
            Ok(host) => started.push_reserved(host),
            Err(fault) => {
                return Hosts {
                    started,
                    fault: Some(fault),
                };
            }
        }
    }
    Hosts {
        started,
        fault: None,
    }
}
