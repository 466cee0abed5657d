//! What a Reply says.
ghost use Rattle.std.specs.Prelude.{◌≡◌, IfOk};
ghost use Rattle.iogr_reference.specs.Formats.{AreShort};
ghost use Rattle.client_replies.specs.Heards.{IsReadable, fault_heard, forward_heard, forward_in, group_heard, heard_of, name_heard, user_in, value_heard, value_in};
ghost use Rattle.sys_faults.specs.Bodies.{fault_in};
ghost use Rattle.iogr_reference.specs.Groups.{group_of};

use crate::bodies::{forward_in, text_in, value_in};
use crate::hosts::are_hosts;
use crate::names::name_in;
use cdr_codec::Raw;
use client_retry::Heard;
use ft_base::{Bytes, NoMemory, Outcome};
use giop_messages::{
    LOCATION_FORWARD, LOCATION_FORWARD_PERM, NO_EXCEPTION, ReplyMsg, SYSTEM_EXCEPTION,
    USER_EXCEPTION,
};
use iogr_reference::{Ior, RefFault, group_ref_of};
use std::alloc::Global;
use sys_faults::{SysReadFault, read_fault};

fn value_heard(alloc: Global, body: &Raw) -> Result<Heard, NoMemory>
    requires { IsReadable body.now }
    ensures { IfOk result (λ heard. heard ≡ value_heard (value_in body.now)) }
{
    match value_in(body) {
        Some(number) => {
            let value = Bytes::of(alloc, &number.to_be_bytes())?;
            Ok(Heard::Outcome(Outcome::Value(value)))
        }
        None => Ok(Heard::Unreadable),
    }
}

fn user_heard(alloc: Global, body: &Raw) -> Result<Heard, NoMemory>
    requires { IsReadable body.now }
    ensures { IfOk result (λ heard. heard ≡ name_heard (user_in body.now)) }
{
    match text_in(body) {
        Some(id) => match name_in(alloc, id) {
            Ok(Some(name)) => Ok(Heard::Outcome(Outcome::User(name))),
            Ok(None) => Ok(Heard::Unreadable),
            Err(NoMemory) => Err(NoMemory),
        },
        None => Ok(Heard::Unreadable),
    }
}

fn fault_heard(alloc: Global, body: &Raw) -> Result<Heard, NoMemory>
    requires { IsReadable body.now }
    ensures { IfOk result (λ heard. heard ≡ fault_heard (fault_in body.now)) }
{
    match read_fault(alloc, body) {
        Ok(fault) => Ok(Heard::System(fault)),
        Err(SysReadFault::Bad(_)) => Ok(Heard::Unreadable),
        Err(SysReadFault::BadCompleted(_)) => Ok(Heard::Unreadable),
        Err(SysReadFault::NoMemory) => Err(NoMemory),
    }
}

fn group_heard(alloc: Global, reference: &Ior) -> Result<Heard, NoMemory>
    requires { AreShort reference.now.profiles }
    ensures { IfOk result (λ heard. heard ≡ group_heard (group_of reference.now)) }
{
    match group_ref_of(alloc, reference) {
        Ok(group) => {
            if are_hosts(group.profiles.as_slice()) {
                Ok(Heard::Forward(group))
            } else {
                Ok(Heard::Unreadable)
            }
        }
        Err(RefFault::NoMemory) => Err(NoMemory),
        Err(RefFault::Bad(_)) => Ok(Heard::Unreadable),
        Err(RefFault::NotAGroup) => Ok(Heard::Unreadable),
        Err(RefFault::Unequal(_)) => Ok(Heard::Unreadable),
        Err(RefFault::TwoPrimaries) => Ok(Heard::Unreadable),
    }
}

fn forward_heard(alloc: Global, body: &Raw) -> Result<Heard, NoMemory>
    requires { IsReadable body.now }
    ensures { IfOk result (λ heard. heard ≡ forward_heard (forward_in body.now)) }
{
    match forward_in(alloc, body) {
        Ok(Some(reference)) => group_heard(alloc, &reference),
        Ok(None) => Ok(Heard::Unreadable),
        Err(NoMemory) => Err(NoMemory),
    }
}

/// What a Reply says. A redirect counts only where it is to a reference of an object group each of whose hosts can be
/// called by its text. What follows the last field of a system exception says nothing; any other body is one value.
pub fn heard_of(alloc: Global, reply: &ReplyMsg) -> Result<Heard, NoMemory>
    requires { IsReadable reply.now.body }
    ensures { IfOk result (λ heard. heard ≡ heard_of reply.now) }
{
    let body = &reply.body;
    match reply.status {
        NO_EXCEPTION => value_heard(alloc, body),
        USER_EXCEPTION => user_heard(alloc, body),
        SYSTEM_EXCEPTION => fault_heard(alloc, body),
        LOCATION_FORWARD | LOCATION_FORWARD_PERM => forward_heard(alloc, body),
        _ => Ok(Heard::Unreadable),
    }
}
