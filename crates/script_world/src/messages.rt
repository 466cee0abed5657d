ghost use Rattle.std.specs.Prelude.{◌≡◌, IfOk};

use ft_base::{GroupId, HostNo, NoMemory, Par};
use group_model::{Inner, Out};
use script_clients::Attempt;
use std::alloc::Global;
use std::marker::Model;
use sys_faults::Answer;

/// A value in memory of its own, so that what has it is as small as without it.
#[derive(Drop)]
pub struct Apart<T: Drop> {
    boxed: Box<T>,
}

impl<T: Drop> Model for Apart<T> {
    ghost Value = { T };

    ghost view = { λ a. a.boxed.value };
}

impl<T: Drop> Apart<T> {
    /// Moves a value into memory of its own.
    pub fn of(alloc: Global, value: T) -> Result<Apart<T>, NoMemory>
        ensures { IfOk result (λ apart. apart ≡ value) }
    {
        let boxed = Box::new(alloc, value)?;
        Ok(Apart { boxed })
    }

    /// The value itself.
    #[inline(always)]
    pub fn get(&self) -> &T
        ensures { result.now ≡ self.now }
    {
        &self.boxed
    }
}

/// A host's reply, on its way to a client.
#[derive(Drop)]
pub struct Reply {
    /// The place of the client among all clients.
    pub client: usize,
    pub group: GroupId,
    pub host: HostNo,
    /// The id of the request that it answers.
    pub id: u32,
    pub answer: Answer,
    /// What the request's operation gives.
    pub gives: Option<Par>,
}

/// A message that was sent. It can be delivered any number of times.
#[derive(Drop)]
pub enum Message {
    /// A client's request, on its way to a host. The client has its place among all clients.
    Request {
        client: usize,
        host: HostNo,
        attempt: Apart<Attempt>,
    },
    Reply(Reply),
    /// What one host of a group sends to another, or the manager to a host.
    Carried {
        group: GroupId,
        out: Apart<Out>,
    },
    /// The monitor asks a member of a group, on this host, whether it is alive.
    Ping {
        group: GroupId,
        host: HostNo,
    },
    /// A host answers the monitor that it is alive, for this group.
    Pong {
        group: GroupId,
        host: HostNo,
    },
}

fn copy_inner(alloc: Global, carried: &Inner) -> Result<Inner, NoMemory>
    ensures { IfOk result (λ copied. copied ≡ carried.now) }
{
    match carried {
        Inner::View { version } => Ok(Inner::View { version: *version }),
        Inner::State { position, state } => {
            let position = *position;
            let state = state.copy(alloc)?;
            Ok(Inner::State { position, state })
        }
        Inner::Update { from, to, update } => {
            let from = *from;
            let to = *to;
            let update = update.copy(alloc)?;
            Ok(Inner::Update { from, to, update })
        }
        Inner::Order { index, request } => {
            let index = *index;
            let request = request.copy(alloc)?;
            Ok(Inner::Order { index, request })
        }
    }
}

fn copy_answer(alloc: Global, answer: &Answer) -> Result<Answer, NoMemory>
    ensures { IfOk result (λ copied. copied ≡ answer.now) }
{
    match answer {
        Answer::Done(outcome) => {
            let outcome = outcome.copy(alloc)?;
            Ok(Answer::Done(outcome))
        }
        Answer::System(fault) => {
            let fault = fault.copy(alloc)?;
            Ok(Answer::System(fault))
        }
        Answer::Forward(version) => Ok(Answer::Forward(*version)),
        Answer::ForwardPerm(version) => Ok(Answer::ForwardPerm(*version)),
    }
}

impl Reply {
    /// An equal reply.
    pub fn copy(&self, alloc: Global) -> Result<Reply, NoMemory>
        ensures { IfOk result (λ reply. reply ≡ self.now) }
    {
        let answer = copy_answer(alloc, &self.answer)?;
        Ok(Reply {
            client: self.client,
            group: self.group,
            host: self.host,
            id: self.id,
            answer,
            gives: self.gives,
        })
    }
}

/// An equal message from one host to another.
pub fn copy_out(alloc: Global, out: &Out) -> Result<Out, NoMemory>
    ensures { IfOk result (λ copied. copied ≡ out.now) }
{
    let to = out.to;
    let carried = copy_inner(alloc, &out.carried)?;
    Ok(Out { to, carried })
}
