//! A client in a thread of its own.
ghost use Rattle.std.specs.Prelude.{◌≡◌, IfOk};
ghost use Rattle.client_talk.specs.Talking.{dialing};
ghost use Rattle.client_calls.specs.Calls.{IsTold};
ghost use Rattle.client_calls.specs.Requests.{HasHosts};

use client_calls::{Told, client_calls};
use ft_base::{Name, NoMemory};
use iogr_reference::GroupRef;
use outside_crews::Job;
use outside_links::{Dialer, Link};
use std::alloc::Global;
use std::marker::PhantomData;
use std::sync::atomic::{AtomicBool, Ordering};
use std::sync::{Arc, Wait};
use std::time::Clock;

/// A client of a live run: it makes its calls by a caller of its own. Its flag tells those who wait that it has ended,
/// and no contract rests on it.
#[derive(Drop)]
pub struct ClientJob<R: Wait + Clock + Drop, L: Link + Drop, D: Dialer<L>> {
    pub rt: R,
    pub alloc: Global,
    pub name: Name,
    pub reference: GroupRef,
    pub calls: u16,
    pub caller: D,
    pub ended: Arc<AtomicBool, Global>,
    pub link: PhantomData<L>,
}

/// What a client's job gives: what it was told, if memory didn't run out, and its caller.
#[derive(Drop)]
pub struct ClientEnd<D: Drop> {
    pub told: Result<Told, NoMemory>,
    pub caller: D,
}

impl<
    R: Wait + Clock + Drop + Send + 'static,
    L: Link + Drop + Send + 'static,
    D: Dialer<L> + Send + 'static,
> Job for ClientJob<R, L, D> {
    type Gives = ClientEnd<D>;

    ghost use Rattle.std.specs.Prelude.{◌≡◌, IfOk};
    ghost use Rattle.client_talk.specs.Talking.{dialing};
    ghost use Rattle.client_calls.specs.Calls.{IsTold};
    ghost use Rattle.client_calls.specs.Requests.{HasHosts};

    ghost ready = { λ job. HasHosts job.reference };

    ghost owes = { λ job gives. IfOk gives.told (λ told. IsTold job.name job.reference job.calls
        (dialing (D.links job.caller) (D.targets job.caller) (D.sent job.caller) (D.count job.caller))
        (dialing (D.links gives.caller) (D.targets gives.caller) (D.sent gives.caller) (D.count gives.caller)) told.calls.items)
        × (D.lent gives.caller ≡ D.lent job.caller) };

    fn run(self) -> ClientEnd<D> {
        let ClientJob {
            rt,
            alloc,
            name,
            reference,
            calls,
            mut caller,
            ended,
            link: _,
        } = self;
        let told = client_calls(&rt, alloc, &name, reference, calls, &mut caller);
        ended.store(true, Ordering::SeqCst);
        ClientEnd { told, caller }
    }
}
