//! What a host answers, and how many bytes the messages of a script have.
ghost use Rattle.std.specs.Prelude.{Some, IfOk};
ghost use Rattle.cdr_codec.specs.declared.orders.Order.TheVariants.{Big};
ghost use Rattle.sys_faults.specs.Bodies.{OnUnknown};
ghost use Rattle.iogr_reference.specs.Formats.{IsWritable};
ghost use Rattle.host_server.specs.Replies.{CanReply, IsResult, IsShortId};

use crate::forms::form_of;
use cdr_codec::{CdrWriter, Order, Raw, canonical};
use ft_base::{Bytes, GroupId, Key, Outcome, Par, Request, Retention, Tick, Version};
use giop_messages::Form;
use host_server::{PART_LIMIT, PortAnswer, locate_reply_bytes, message_error_bytes, reply_bytes};
use iogr_reference::{Ior, Profile, Profiles, write_ior};
use message_sizes::{fault_size, forward_size, outcome_size, request_size};
use row_words::{RowFault, bytes_of, name_of, number, order_of, put_hex, text_of, value_of};
use script_clients::Attempt;
use std::alloc::Global;
use sys_faults::{Completed, SysFault, SysKind, read_fault};

// No value of a row has more bytes in canonical form.
const VALUE_LIMIT: usize = 1000;

// The canonical form of a value, and its type.
fn canonical_of(alloc: Global, word: &str) -> Result<(Bytes, Par), RowFault>
    ensures { IfOk result (λ x. IsResult (Some x.1) x.0) }
{
    let value = value_of(alloc, word)?;
    let par = value.par();
    let form = canonical(alloc, std::slice::from_ref(&value))?;
    if form.bytes().len() > VALUE_LIMIT {
        return Err(RowFault::NoRow);
    }
    Ok((form, par))
}

fn kind_of(word: &str) -> Result<SysKind, RowFault>
    ensures { IfOk result (λ kind. OnUnknown kind IsShortId) }
{
    match word {
        "BAD_CONTEXT" => Ok(SysKind::BadContext),
        "INV_OBJREF" => Ok(SysKind::InvObjref),
        "IMP_LIMIT" => Ok(SysKind::ImpLimit),
        _ => Err(RowFault::NoRow),
    }
}

fn fault_of(kind: &str, minor: &str) -> Result<SysFault, RowFault>
    ensures { IfOk result (λ fault. OnUnknown fault.kind IsShortId) }
{
    Ok(SysFault {
        kind: kind_of(kind)?,
        minor: u32::try_from(number(minor)?)?,
        completed: Completed::No,
    })
}

fn nil(alloc: Global) -> Ior
    ensures { IsWritable result }
{
    Ior {
        type_id: Bytes::from_vec(Vec::new(alloc)),
        profiles: Profiles::from_vec(Vec::new(alloc)),
    }
}

// A reference with one IIOP profile.
fn reference(alloc: Global, type_id: &str, content: &str) -> Result<Ior, RowFault>
    ensures { IfOk result IsWritable }
{
    let content = Bytes::from_vec(bytes_of(alloc, content)?);
    let mut profiles = Vec::new(alloc);
    profiles.push(Profile { tag: 0, content })?;
    Ok(Ior {
        type_id: text_of(alloc, type_id)?,
        profiles: Profiles::from_vec(profiles),
    })
}

fn forward_answer(
    alloc: Global,
    order: Order,
    perm: bool,
    body: Ior,
) -> Result<PortAnswer, RowFault>
    requires { IsWritable body }
    ensures { IfOk result (CanReply order) }
{
    let mut writer = CdrWriter::new(alloc, order, 0);
    write_ior(&body, &mut writer)?;
    if writer.bytes().len() > PART_LIMIT {
        return Err(RowFault::NoRow);
    }
    Ok(PortAnswer::Forward { perm, body })
}

fn answer_of(alloc: Global, order: Order, words: &[&str]) -> Result<PortAnswer, RowFault>
    ensures { IfOk result (CanReply order) }
{
    match *words {
        ["no-group"] => Ok(PortAnswer::NoGroup),
        ["value", word] => {
            let (value, par) = canonical_of(alloc, word)?;
            Ok(PortAnswer::Done {
                outcome: Outcome::Value(value),
                gives: Some(par),
            })
        }
        ["user", word] => Ok(PortAnswer::Done {
            outcome: Outcome::User(name_of(alloc, word)?),
            gives: None,
        }),
        ["system", kind, minor] => Ok(PortAnswer::System(fault_of(kind, minor)?)),
        ["forward", "nil"] => forward_answer(alloc, order, false, nil(alloc)),
        ["forward-perm", "nil"] => forward_answer(alloc, order, true, nil(alloc)),
        ["forward", type_id, profile] => {
            forward_answer(alloc, order, false, reference(alloc, type_id, profile)?)
        }
        _ => Err(RowFault::NoRow),
    }
}

/// `reply FORM ID ANSWER`: the bytes of the Reply with an answer. An answer is `value TYPE:VALUE`, `user NAME`,
/// `system NAME MINOR`, `no-group`, `forward TYPE PROFILE`, `forward nil` or `forward-perm nil`.
pub fn reply(alloc: Global, words: &[&str], out: &mut String) -> Result<(), RowFault> {
    let [form, id, answer @ ..] = words else {
        return Err(RowFault::NoRow);
    };
    let form = form_of(*form)?;
    let answer = answer_of(alloc, form.order, answer)?;
    let bytes = reply_bytes(alloc, u32::try_from(number(*id)?)?, form, &answer)?;
    Ok(put_hex(bytes.bytes(), out)?)
}

fn size_of(alloc: Global, answer: &PortAnswer) -> Result<u128, RowFault>
    requires { CanReply Big answer.now }
{
    match answer {
        PortAnswer::NoGroup => Err(RowFault::NoRow),
        PortAnswer::Done { outcome, gives } => Ok(outcome_size(*gives, outcome)),
        PortAnswer::System(fault) => Ok(fault_size(fault)),
        PortAnswer::Forward { perm: _, body } => Ok(forward_size(alloc, body)?),
        PortAnswer::Down | PortAnswer::NoMemory => unreachable!(),
    }
}

/// `size ANSWER`: the bytes of the Reply of GIOP 1.2 with an answer, counted, and of the same Reply written.
pub fn size(alloc: Global, words: &[&str], out: &mut String) -> Result<(), RowFault> {
    let answer = answer_of(alloc, Order::Big, words)?;
    let size = size_of(alloc, &answer)?;
    let form = Form {
        minor: 2,
        order: Order::Big,
    };
    let bytes = reply_bytes(alloc, 7, form, &answer)?;
    Ok(write!(out, "counted {size}, written {}", bytes.bytes().len())?)
}

/// `size-exception ORDER BODY`: the bytes of the Reply with a system exception, counted.
pub fn exception_bytes(alloc: Global, words: &[&str], out: &mut String) -> Result<(), RowFault> {
    let [order, body] = words else {
        return Err(RowFault::NoRow);
    };
    let body = Raw {
        order: order_of(*order)?,
        align: 0,
        bytes: Bytes::from_vec(bytes_of(alloc, *body)?),
    };
    match read_fault(alloc, &body) {
        Ok(fault) => Ok(write!(out, "counted {}", fault_size(&fault))?),
        Err(fault) => Ok(write!(out, "refused {fault}")?),
    }
}

fn key_of(alloc: Global, client: &str) -> Result<Option<Key>, RowFault> {
    if client == "-" {
        return Ok(None);
    }
    Ok(Some(Key {
        client: name_of(alloc, client)?,
        retention: Retention(1),
        expiration: Tick(1000),
    }))
}

/// `size-request VERSION CLIENT OPERATION ARGUMENTS`: the bytes of a client's Request, counted. A dash stands for no
/// version, and for no client.
pub fn request_bytes(alloc: Global, words: &[&str], out: &mut String) -> Result<(), RowFault> {
    let [version, client, op, args] = words else {
        return Err(RowFault::NoRow);
    };
    let version = match *version {
        "-" => None,
        version => Some(Version(u32::try_from(number(version)?)?)),
    };
    let request = Request {
        key: key_of(alloc, *client)?,
        op: name_of(alloc, *op)?,
        args: Bytes::from_vec(bytes_of(alloc, *args)?),
    };
    let attempt = Attempt {
        group: GroupId(1),
        port: 2000,
        id: 7,
        version,
        request,
    };
    Ok(write!(out, "counted {}", request_size(&attempt))?)
}

/// `locate-reply FORM ID here` or `locate-reply FORM ID unknown`: the bytes of a LocateReply.
pub fn locate_reply(alloc: Global, words: &[&str], out: &mut String) -> Result<(), RowFault> {
    let [form, id, place] = words else {
        return Err(RowFault::NoRow);
    };
    let here = match *place {
        "here" => true,
        "unknown" => false,
        _ => return Err(RowFault::NoRow),
    };
    let id = u32::try_from(number(*id)?)?;
    let bytes = locate_reply_bytes(alloc, id, form_of(*form)?, here)?;
    Ok(put_hex(bytes.bytes(), out)?)
}

/// `message-error`: the bytes of a MessageError.
pub fn message_error(alloc: Global, out: &mut String) -> Result<(), RowFault> {
    let bytes = message_error_bytes(alloc)?;
    Ok(put_hex(bytes.bytes(), out)?)
}
