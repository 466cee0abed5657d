//! A caller that asks on.
ghost use Rattle.hist_lock.specs.Passes.{IsOf};

use crate::deposits::{deposit_of, value_of};
use crate::upsets::HOST_COUNT;
use ft_base::{HostNo, NoMemory, Servant, View};
use ft_outside::Keeper;
use group_model::GroupAnswer;
use shared_group::{AskAnswer, Pass, SharedGroup};
use std::alloc::Global;
use std::sync::Wait;
use sys_faults::Answer;

/// How often a deposit is asked for at most.
const ASK_LIMIT: u32 = 100_000;

/// The host that is asked next, and the version of the reference that the caller has.
#[derive(Clone, Copy)]
pub struct Target {
    pub host: u8,
    pub version: u32,
}

impl Target {
    /// The first host, and the first version.
    pub fn first() -> Target {
        Target {
            host: 0,
            version: 1,
        }
    }

    // The primary of the view that an answer names, or its first member; else the next host.
    fn next(self, named: &Option<View>) -> Target {
        let Some(view) = named else {
            return self.neighbour(self.version);
        };
        let version = view.version.0;
        match view.primary.or(view.members.first()) {
            Some(host) => Target {
                host: host.0,
                version,
            },
            None => self.neighbour(version),
        }
    }

    fn neighbour(self, version: u32) -> Target {
        Target {
            host: (self.host % HOST_COUNT + 1) % HOST_COUNT,
            version,
        }
    }
}

/// Asks once for the deposit with the key of this number.
pub fn ask<R: Wait, S: Servant + Drop, K: Keeper + Drop>(
    rt: &R,
    alloc: Global,
    group: &SharedGroup<S, K>,
    pass: &mut Pass<S, K>,
    at: Target,
    id: u32,
) -> Result<AskAnswer, NoMemory>
    requires { IsOf group.now.lock pass.old }
    ensures { IsOf group.now.lock pass.new }
{
    let asked = deposit_of(alloc, id, at.version)?;
    Ok(group.ask(rt, pass, HostNo(at.host % HOST_COUNT), asked))
}

/// The deposit's value, or where to ask on.
pub fn heard(ask: &AskAnswer, at: Target) -> Result<u64, Target> {
    if let GroupAnswer::Reply {
        answer: Some(Answer::Done(outcome)),
        ..
    } = &ask.queued.answer
    {
        return value_of(outcome).ok_or(at);
    }
    Err(at.next(&ask.view))
}

/// Asks for the deposit with the key of this number until it has a value, as often as is tried.
pub fn ask_on<R: Wait, S: Servant + Drop, K: Keeper + Drop>(
    rt: &R,
    alloc: Global,
    group: &SharedGroup<S, K>,
    pass: &mut Pass<S, K>,
    at: &mut Target,
    id: u32,
) -> Option<u64>
    requires { IsOf group.now.lock pass.old }
    ensures { IsOf group.now.lock pass.new }
{
    for _ in 0..ASK_LIMIT {
        if let Ok(answer) = ask(rt, alloc, group, pass, *at, id) {
            match heard(&answer, *at) {
                Ok(value) => return Some(value),
                Err(next) => *at = next,
            }
        }
    }
    None
}
