//! The same core behind a std `Mutex`.
ghost use Rattle.std.specs.Prelude.{◌≡◌};
ghost use Rattle.group_model.specs.Agreeing.{IsShortAsked};
ghost use Rattle.group_core.specs.Trying.{IsSome, MayCome};

use deposit_callers::deposit_of;
use ft_base::{HostNo, NoMemory, Servant, Steps, Stop, Tick};
use ft_outside::Keeper;
use group_core::GroupCore;
use group_model::{Asked, Event, GroupAnswer};
use std::alloc::Global;
use std::marker::{Brand, Model};
use std::sync::ledger::{Blank, Ledger};
use std::sync::{Mutex, Wait};
use std::thread;
use std::thread::Threads;

// Acts an event that may come, and counts the servant's calls in a ledger of their own.
fn act<S: Servant + Drop, K: Keeper, L: Ledger>(
    alloc: Global,
    core: &mut GroupCore<S, K>,
    event: Event,
    blank: Blank,
) -> GroupAnswer
    requires name { blank.name ≡ L.name }
    requires parts { blank.parts ≡ L.parts }
    requires some { blank.parts ≡ 1 }
    requires stands { IsSome S.machine core.old }
    requires may { MayCome S.machine core.old event }
    ensures { IsSome S.machine core.new }
{
    let mut steps = Steps::<L>::new(blank);
    core.act(alloc, event, &mut steps)
}

/// A core that stands for some group.
#[derive(Drop)]
pub struct SomeCore<S: Servant + Drop, K: Keeper> {
    core: GroupCore<S, K>,
}

impl<S: Servant + Drop, K: Keeper> Model for SomeCore<S, K> {
    ghost use Rattle.group_core.specs.Cores.{CorePicture};
    ghost use Rattle.group_core.specs.Trying.{IsSome};

    ghost Value = { CorePicture };

    ghost view = { λ c. c.core };

    ghost invariant = { λ c. IsSome S.machine c.core };
}

impl<S: Servant + Drop, K: Keeper> SomeCore<S, K> {
    pub fn new(core: GroupCore<S, K>) -> SomeCore<S, K>
        requires { IsSome S.machine core }
    {
        SomeCore { core }
    }

    // Asks the first host. Whether there is a reply.
    #[tactic(auto, using(crate::proofs::Going::may_ask))]
    fn ask(&mut self, alloc: Global, asked: Asked) -> bool
        requires { IsShortAsked asked }
    {
        let event = Event::Request {
            host: HostNo(0),
            clock: Tick(0),
            asked,
            stop: Stop::Never,
        };
        let answer = act::<S, K, Brand>(alloc, &mut self.core, event, Blank::new(1));
        matches!(answer, GroupAnswer::Reply { .. })
    }
}

// How many of so many deposits have a reply, each in a hold of the mutex.
fn deposit<R: Wait, S: Servant + Drop, K: Keeper>(
    rt: &R,
    alloc: Global,
    core: &Mutex<SomeCore<S, K>>,
    first: u32,
    count: u32,
) -> u64 {
    let mut replies: u64 = 0;
    for id in first..first.wrapping_add(count) {
        if let Ok(asked) = deposit_of(alloc, id, 1) {
            let mut held = core.lock(rt);
            if held.ask(alloc, asked) {
                replies = replies.wrapping_add(1);
            }
        }
    }
    replies
}

/// So many threads make so many deposits each. Gives how many had a reply.
pub fn deposit_in_threads<R: Threads + Wait + Sync, S: Servant + Drop + Send, K: Keeper + Send>(
    rt: &R,
    alloc: Global,
    core: &Mutex<SomeCore<S, K>>,
    threads: u32,
    each: u32,
) -> Result<u64, NoMemory> {
    let deposit = move |number| deposit(rt, alloc, core, (number as u32).wrapping_mul(each), each);
    let replies = thread::map_indices(rt, alloc, threads as usize, &deposit)?;
    Ok(
        replies
            .iter()
            .fold(0, |sum: u64, count| sum.wrapping_add(*count)),
    )
}
