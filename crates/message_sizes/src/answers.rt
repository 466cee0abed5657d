//! The Replies to requests. Their header, id, status and count of contexts have 24 bytes, so that no padding
//! stands before the body.
ghost use Rattle.std.specs.Prelude.{◌≡◌, ◌<◌, ◌^◌, Bool, length, IfOk};
ghost use Rattle.cdr_codec.specs.declared.orders.Order.TheVariants.{Big};
ghost use Rattle.sys_faults.specs.Bodies.{id_of};
ghost use Rattle.host_server.specs.declared.answers.PortAnswer.TheVariants.{Forward, Done, System};
ghost use Rattle.host_server.specs.Replies.{outcome_body, fault_body, CanGive, IsForward};
ghost use Rattle.message_sizes.specs.Sizes.{answer_size};

use crate::places::{number_end, text_end};
use cdr_codec::{CdrWriter, Order};
use ft_base::{NoMemory, Outcome, Par, canonical_forms_are_of_values};
use iogr_reference::{Ior, write_ior};
use std::alloc::Global;
use sys_faults::{SysFault, SysKind};

/// The bytes of a Reply without contexts, up to its body.
const REPLY_HEAD: u128 = 24;

/// The bytes of a user exception's repository id, beside its name.
const OWN_ID: u128 = 12;

/// The bytes of a standard exception's repository id, beside its name.
const STANDARD_ID: u128 = 22;

/// The bytes of the body with an outcome.
#[tactic(auto, using(crate::proofs::ReplyLengths::value_length, crate::proofs::ReplyLengths::user_length))]
fn outcome_length(gives: Option<Par>, outcome: &Outcome) -> u128
    requires { CanGive gives outcome.now }
    ensures value { result ≡ length (outcome_body Big gives outcome.now) }
    ensures near { result < 2 ^ 66 }
{
    canonical_forms_are_of_values();
    match outcome {
        Outcome::Value(value) => value.bytes().len() as u128,
        Outcome::User(name) => text_end(0, OWN_ID + name.bytes().len() as u128),
    }
}

/// The bytes of the Reply with an outcome. It takes no memory.
#[tactic(auto, using(crate::proofs::ReplyLengths::outcome_answered))]
pub fn outcome_size(gives: Option<Par>, outcome: &Outcome) -> u128
    requires { CanGive gives outcome.now }
    ensures { result ≡ answer_size (Done outcome.now gives) }
{
    REPLY_HEAD + outcome_length(gives, outcome)
}

/// The bytes of an exception's repository id.
#[tactic(auto, using(crate::proofs::ReplyLengths::named_length, crate::proofs::ReplyLengths::nameless))]
fn id_length(kind: &SysKind) -> u128
    ensures value { result ≡ length (id_of kind.now) }
    ensures near { result < 2 ^ 65 }
{
    if let SysKind::Unknown(id) = kind {
        return id.bytes().len() as u128;
    }
    match kind.name() {
        Some(name) => STANDARD_ID + name.len() as u128,
        None => unreachable!(),
    }
}

/// The bytes of the Reply with a system exception. It takes no memory.
#[tactic(auto, using(crate::proofs::ReplyLengths::fault_length))]
pub fn fault_size(fault: &SysFault) -> u128
    ensures { result ≡ answer_size (System fault.now) }
{
    let id_end = text_end(0, id_length(&fault.kind));
    let minor_end = number_end(id_end);
    REPLY_HEAD + number_end(minor_end)
}

/// The bytes of the Reply that tells a reference to ask at, for once or from now on. It writes the reference.
#[tactic(auto, using(crate::proofs::ReplyLengths::forward_answered))]
pub fn forward_size(alloc: Global, body: &Ior) -> Result<u128, NoMemory>
    requires { IsForward Big body.now }
    ensures { IfOk result (λ size. (perm : Bool) → size ≡ answer_size (Forward perm body.now)) }
{
    let mut writer = CdrWriter::new(alloc, Order::Big, 0);
    write_ior(body, &mut writer)?;
    let bytes = writer.finish();
    Ok(REPLY_HEAD + bytes.bytes().len() as u128)
}
