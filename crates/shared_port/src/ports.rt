//! The port.
ghost use Rattle.std.specs.Prelude.{◌≡◌};
ghost use Rattle.shared_port.specs.Answers.{names_group};

use crate::answering::port_answer;
use ft_base::{Bytes, HostNo, Servant};
use ft_outside::Keeper;
use group_model::{Asked, answers_are_given};
use host_server::PortAnswer;
use iogr_reference::group_of_key;
use link_session::GroupPort;
use shared_group::{Pass, SharedGroup};
use std::alloc::Global;
use std::marker::Model;
use std::sync::Wait;

/// A group behind a lock as a port of links. Contracts see it as the group.
///
/// A request with the group's object key is a turn of the link's pass, and so is a look; one with another key is no turn.
#[derive(Drop)]
pub struct LockedPort<'a, S: Servant + Drop, K: Keeper + Drop, R: Wait> {
    rt: &'a R,
    alloc: Global,
    group: &'a SharedGroup<S, K>,
}

impl<'a, S: Servant + Drop, K: Keeper + Drop, R: Wait> Model for LockedPort<'a, S, K, R> {
    ghost use Rattle.shared_group.specs.Turns.{SharedValue};

    ghost Value = { SharedValue };

    ghost view = { λ port. port.group.now };
}

impl<'a, S: Servant + Drop, K: Keeper + Drop, R: Wait> LockedPort<'a, S, K, R> {
    pub fn new(rt: &'a R, alloc: Global, group: &'a SharedGroup<S, K>) -> LockedPort<'a, S, K, R>
        ensures { result ≡ group.now }
    {
        LockedPort { rt, alloc, group }
    }

    // Whether an object key is the group's.
    fn names_group(&self, key: &Bytes) -> bool
        ensures { result ≡ names_group self.now key.now }
    {
        match group_of_key(key.bytes()) {
            None => false,
            Some(group) => group.0 == self.group.group().0,
        }
    }
}

impl<'a, S: Servant + Drop, K: Keeper + Drop, R: Wait> GroupPort for LockedPort<'a, S, K, R> {
    type Pass = Pass<S, K>;

    ghost use Rattle.hist_lock.specs.Passes.{IsOf};
    ghost use Rattle.shared_port.specs.Turns.{Exchanges};

    ghost fits = { λ port pass. IsOf port.lock pass };

    ghost exchanges = { λ port. Exchanges S.machine port };

    fn ask(&self, pass: &mut Pass<S, K>, host: HostNo, key: &Bytes, asked: Asked) -> PortAnswer {
        answers_are_given();
        if !self.names_group(key) {
            return PortAnswer::NoGroup;
        }
        let ask = self.group.ask(self.rt, pass, host, asked);
        port_answer(self.alloc, self.group, ask)
    }

    fn here(&self, pass: &mut Pass<S, K>, host: HostNo, key: &Bytes) -> bool {
        self.names_group(key) && self.group.here(self.rt, pass, host)
    }
}
