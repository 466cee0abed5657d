//! The bodies of replies (GIOP chapter, "Reply Body").
ghost use Rattle.std.specs.Prelude.{◌≡◌, IfOk};
ghost use Rattle.cdr_codec.specs.Values.{text};
ghost use Rattle.sys_faults.specs.Bodies.{OnUnknown};
ghost use Rattle.iogr_reference.specs.Choices.{repository_id};
ghost use Rattle.iogr_reference.specs.Formats.{ior};
ghost use Rattle.host_server.specs.Replies.{no_group, fault_body, outcome_body, body_of, IsShortBody, IsShortId, IsForward, CanGive, CanReply};

use crate::answers::PortAnswer;
use cdr_codec::{CdrWriter, Order, result_in};
use ft_base::{Bytes, Name, NoMemory, Outcome, Par};
use iogr_reference::{Ior, repository_id, write_ior};
use std::alloc::Global;
use sys_faults::{Completed, SysFault, SysKind, write_fault};

/// What is answered where there is no object of a key: OBJECT_NOT_EXIST, minor code 1.
pub fn no_group() -> SysFault
    ensures { result ≡ no_group }
{
    SysFault {
        kind: SysKind::ObjectNotExist,
        minor: 1,
        completed: Completed::No,
    }
}

fn system_body(alloc: Global, order: Order, fault: &SysFault) -> Result<Bytes, NoMemory>
    requires { OnUnknown fault.now.kind IsShortId }
    ensures value { IfOk result (λ bytes. bytes ≡ fault_body order fault.now) }
    ensures short { IfOk result IsShortBody }
{
    write_fault(alloc, fault, order)
}

fn user_body(alloc: Global, order: Order, name: &Name) -> Result<Bytes, NoMemory>
    ensures value { IfOk result (λ bytes. bytes ≡ text.written order 0 (repository_id name.now)) }
    ensures short { IfOk result IsShortBody }
{
    let id = repository_id(alloc, name)?;
    let mut writer = CdrWriter::new(alloc, order, 0);
    writer.write_string(id.bytes())?;
    Ok(writer.finish())
}

fn forward_body(alloc: Global, order: Order, body: &Ior) -> Result<Bytes, NoMemory>
    requires { IsForward order body.now }
    ensures value { IfOk result (λ bytes. bytes ≡ ior.written order 0 body.now) }
    ensures short { IfOk result IsShortBody }
{
    let mut writer = CdrWriter::new(alloc, order, 0);
    write_ior(body, &mut writer)?;
    Ok(writer.finish())
}

fn outcome_bytes(
    alloc: Global,
    order: Order,
    gives: Option<Par>,
    outcome: &Outcome,
) -> Result<Bytes, NoMemory>
    requires { CanGive gives outcome.now }
    ensures value { IfOk result (λ bytes. bytes ≡ outcome_body order gives outcome.now) }
    ensures short { IfOk result IsShortBody }
{
    match outcome {
        Outcome::Value(value) => result_in(alloc, order, gives, value.bytes()),
        Outcome::User(name) => user_body(alloc, order, name),
    }
}

/// The body of the Reply with this answer.
pub fn body_bytes(alloc: Global, order: Order, answer: &PortAnswer) -> Result<Bytes, NoMemory>
    requires { CanReply order answer.now }
    ensures value { IfOk result (λ bytes. bytes ≡ body_of order answer.now) }
    ensures short { IfOk result IsShortBody }
{
    match answer {
        PortAnswer::NoGroup => system_body(alloc, order, &no_group()),
        PortAnswer::Forward { perm: _, body } => forward_body(alloc, order, body),
        PortAnswer::Done { outcome, gives } => outcome_bytes(alloc, order, *gives, outcome),
        PortAnswer::System(fault) => system_body(alloc, order, fault),
        PortAnswer::Down | PortAnswer::NoMemory => unreachable!(),
    }
}
