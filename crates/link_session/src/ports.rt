//! What the requests on a link come to, whatever it is.
ghost use Rattle.std.specs.Prelude.{◌≡◌, ◌<◌, IfOk, OnErr};
ghost use Rattle.cdr_codec.specs.declared.orders.Order.{Order as ByteOrder};
ghost use Rattle.ft_base.specs.declared.limits.TheConstants.{HOST_LIMIT};
ghost use Rattle.giop_stream.specs.Spelled.{IsSpelled};
ghost use Rattle.host_server.specs.Replies.{CanReply, IsReply};
ghost use Rattle.link_session.specs.Calls.{IsShortCalling, calling_of};
ghost use Rattle.link_session.specs.Serving.{IsShort, IsStepped, Replies, written};

use crate::answering::reply;
use crate::calls::{Calling, calling_of};
use ft_base::{Bytes, HostNo, NoMemory};
use giop_messages::{Form, Message};
use group_model::Asked;
use host_server::{PortAnswer, locate_reply_bytes};
use std::alloc::Global;

/// What a message came to at a host.
#[derive(Drop)]
pub enum Stepped {
    /// These bytes are to be written.
    Write(Bytes),
    /// Nothing is answered.
    Silent,
    /// The host is down.
    Down,
}

/// What answers requests on links to hosts. Each link has a pass of its own, by which it asks.
pub trait GroupPort {
    ghost use Rattle.std.specs.Prelude.{◌<◌};
    ghost use Rattle.cdr_codec.specs.declared.orders.Order.{Order as ByteOrder};
    ghost use Rattle.ft_base.specs.declared.limits.TheConstants.{HOST_LIMIT};
    ghost use Rattle.group_model.specs.Agreeing.{IsShortAsked};
    ghost use Rattle.host_server.specs.Replies.{CanReply, IsReply};
    ghost use Rattle.link_session.specs.Exchanges.{Exchanging, Look, Request};

    type Pass;

    // The pass is one of this port's.
    ghost fits: { Self → Self.Pass → Type 0 };

    // What an exchange leaves of a pass. Of one that is answered with `NoMemory` it says what was gained all the same.
    ghost exchanges: { Self → Exchanging Self.Pass };

    /// A request with this object key comes to a host.
    fn ask(&self, pass: &mut Self::Pass, host: HostNo, key: &Bytes, asked: Asked) -> PortAnswer
        requires fits { fits self.now pass.old }
        requires host { host.0 < HOST_LIMIT }
        requires short { IsShortAsked asked }
        ensures fits { fits self.now pass.new }
        ensures asks { exchanges self.now pass.old (Request host.0 key.now asked result) pass.new }
        ensures can { IsReply result → (order : ByteOrder) → CanReply order result };

    /// Whether the object with this key is at a host.
    fn here(&self, pass: &mut Self::Pass, host: HostNo, key: &Bytes) -> bool
        requires fits { fits self.now pass.old }
        requires host { host.0 < HOST_LIMIT }
        ensures fits { fits self.now pass.new }
        ensures looks { exchanges self.now pass.old (Look host.0 key.now result) pass.new };
}

// What is to be written, if anything.
fn written(bytes: Option<Bytes>) -> Stepped
    ensures { result ≡ written bytes }
{
    match bytes {
        Some(bytes) => Stepped::Write(bytes),
        None => Stepped::Silent,
    }
}

// What a port's answer to a request comes to.
fn replied(
    alloc: Global,
    id: u32,
    flags: u8,
    form: Form,
    answer: &PortAnswer,
) -> Result<Stepped, NoMemory>
    requires known { form.minor < 3 }
    requires can { IsReply answer.now → (order : ByteOrder) → CanReply order answer.now }
    ensures { Replies id flags form answer.now result }
{
    match answer {
        PortAnswer::Down => Ok(Stepped::Down),
        PortAnswer::NoMemory => Err(NoMemory),
        PortAnswer::NoGroup
        | PortAnswer::Forward { .. }
        | PortAnswer::Done { .. }
        | PortAnswer::System(_) => {
            let bytes = reply(alloc, id, flags, form, answer)?;
            Ok(written(bytes))
        }
    }
}

fn called<G: GroupPort>(
    alloc: Global,
    port: &G,
    pass: &mut G::Pass,
    host: HostNo,
    form: Form,
    calling: Calling,
) -> Result<Stepped, NoMemory>
    requires fits { G.fits port.now pass.old }
    requires host { host.0 < HOST_LIMIT }
    requires known { form.minor < 3 }
    requires short { IsShortCalling calling }
    ensures fits { G.fits port.now pass.new }
    ensures stepped { IfOk result (λ stepped. IsStepped (G.exchanges port.now) host.0 form calling stepped pass.old pass.new) }
    ensures short { OnErr result (IsShort (G.exchanges port.now) host.0 calling pass.old pass.new) }
{
    match calling {
        Calling::Ask {
            id,
            flags,
            key,
            asked,
        } => {
            let answer = port.ask(pass, host, &key, asked);
            replied(alloc, id, flags, form, &answer)
        }
        Calling::Locate { id, key } => {
            let here = port.here(pass, host, &key);
            let bytes = locate_reply_bytes(alloc, id, form, here)?;
            Ok(Stepped::Write(bytes))
        }
        Calling::Nothing => Ok(Stepped::Silent),
    }
}

/// A message that a session gave comes to a host. After want of memory the pass may have gained the one turn that the
/// message calls for.
pub fn step<G: GroupPort>(
    alloc: Global,
    port: &G,
    pass: &mut G::Pass,
    host: HostNo,
    received: (Message, Form),
) -> Result<Stepped, NoMemory>
    requires fits { G.fits port.now pass.old }
    requires host { host.0 < HOST_LIMIT }
    requires spelled { IsSpelled received }
    ensures fits { G.fits port.now pass.new }
    ensures stepped { IfOk result (λ stepped. IsStepped (G.exchanges port.now) host.0 received.1 (calling_of received.0) stepped pass.old pass.new) }
    ensures short { OnErr result (IsShort (G.exchanges port.now) host.0 (calling_of received.0) pass.old pass.new) }
{
    let form = received.1;
    let calling = calling_of(alloc, received)?;
    called(alloc, port, pass, host, form, calling)
}
