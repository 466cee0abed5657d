//! Where an attempt is sent, and what.
ghost use Rattle.std.specs.Prelude.{◌≡◌, ◌<◌, [], length, true, Some, IfOk};
ghost use Rattle.client_replies.specs.Heards.{is_host};
ghost use Rattle.client_calls.specs.Requests.{CanAct, HasHosts, IsAimedAt, IsSentTo, IsStep, IsThere, aim_at};

use crate::requests::spelling;
use client_retry::{Act, ClientCore, End};
use ft_base::{Bytes, Name, NameFault, NoMemory, Request};
use iogr_reference::{GroupRef, Iiop};
use script_clients::Attempt;
use std::alloc::Global;
use std::marker::Model;

/// A member of a group, and the bytes that are sent there.
#[derive(Drop)]
pub(crate) struct Aim {
    host: Name,
    port: u16,
    text: Bytes,
}

impl Model for Aim {
    ghost use Rattle.client_calls.specs.Aims.{Aim};

    ghost Value = { Aim };

    ghost view = { λ a. record { to = record { host = a.host; port = a.port }; text = a.text } };
}

/// What a client does next.
#[derive(Drop)]
pub(crate) enum Step {
    Sends(Aim),
    /// Its call has ended.
    Ends(End),
}

fn host_of(alloc: Global, profile: &Iiop) -> Result<Name, NoMemory>
    requires { is_host profile.now ≡ true }
    ensures { IfOk result (λ name. name ≡ profile.now.host) }
{
    match Name::of(alloc, profile.host.bytes()) {
        Ok(name) => Ok(name),
        Err(NameFault::NoMemory) => Err(NoMemory),
        Err(_) => unreachable!(),
    }
}

fn attempt_at(
    alloc: Global,
    request: &Request,
    reference: &GroupRef,
    port: u16,
    id: u32,
) -> Result<Attempt, NoMemory>
    ensures { IfOk result (λ attempt. attempt ≡ record { group = reference.now.group; port = port; id = id; version = Some reference.now.version; request = request.now }) }
{
    let request = request.copy(alloc)?;
    Ok(Attempt {
        group: reference.group,
        port,
        id,
        version: Some(reference.version),
        request,
    })
}

impl Aim {
    pub(crate) fn host(&self) -> &Name
        ensures { result.now ≡ self.now.to.host }
    {
        &self.host
    }

    pub(crate) fn port(&self) -> u16
        ensures { result ≡ self.now.to.port }
    {
        self.port
    }

    pub(crate) fn text(&self) -> &[u8]
        ensures { result.now ≡ self.now.text }
    {
        self.text.bytes()
    }

    /// The same member, to which nothing is sent.
    fn silent(self, alloc: Global) -> Aim
        ensures { result ≡ record self { text = [] } }
    {
        let Aim { host, port, .. } = self;
        Aim {
            host,
            port,
            text: Bytes::from_vec(Vec::new(alloc)),
        }
    }

    // A member, to which the request is sent with this id.
    fn to(
        alloc: Global,
        request: &Request,
        reference: &GroupRef,
        profile: &Iiop,
        id: u32,
    ) -> Result<Aim, NoMemory>
        requires { is_host profile.now ≡ true }
        ensures { IfOk result (λ aim. aim ≡ aim_at request.now reference.now profile.now id) }
    {
        let host = host_of(alloc, profile)?;
        let attempt = attempt_at(alloc, request, reference, profile.port, id)?;
        let text = spelling(alloc, &attempt)?;
        Ok(Aim {
            host,
            port: profile.port,
            text,
        })
    }

    /// The member at this place of a reference.
    fn at(
        alloc: Global,
        request: &Request,
        reference: &GroupRef,
        place: u16,
        id: u32,
    ) -> Result<Aim, NoMemory>
        requires within { place < length reference.now.profiles }
        requires hosts { HasHosts reference.now }
        ensures { IfOk result (IsAimedAt request.now reference.now place id) }
    {
        let profile = &reference.profiles.as_slice()[place as usize];
        Aim::to(alloc, request, reference, profile, id)
    }

    /// The same by the reference that a client goes by.
    fn by(
        alloc: Global,
        request: &Request,
        core: &ClientCore,
        place: u16,
        id: u32,
    ) -> Result<Aim, NoMemory>
        requires { IsThere place core.now.reference }
        ensures { IfOk result (IsSentTo request.now core.now.reference place id) }
    {
        match core.reference() {
            Some(reference) => Aim::at(alloc, request, reference, place, id),
            None => unreachable!(),
        }
    }
}

/// What this act of a client comes to, behind the attempt before. Where it does nothing it hears on at that member.
pub(crate) fn next_step(
    alloc: Global,
    request: &Request,
    core: &ClientCore,
    act: Act,
    last: Option<Aim>,
) -> Result<Step, NoMemory>
    requires { CanAct core.now act last }
    ensures { IfOk result (IsStep request.now core.now.reference act last) }
{
    match act {
        Act::Send { place, id } => match Aim::by(alloc, request, core, place, id) {
            Ok(aim) => Ok(Step::Sends(aim)),
            Err(NoMemory) => Err(NoMemory),
        },
        Act::Adopted { place, id, .. } => match Aim::by(alloc, request, core, place, id) {
            Ok(aim) => Ok(Step::Sends(aim)),
            Err(NoMemory) => Err(NoMemory),
        },
        Act::Done(end) => Ok(Step::Ends(end)),
        Act::Nothing => match last {
            Some(aim) => Ok(Step::Sends(aim.silent(alloc))),
            None => unreachable!(),
        },
    }
}
