//! What an act of the retrying client is to an open call.
ghost use Rattle.std.specs.Prelude.{◌≡◌, option_copied, slice_get, IfOk};
ghost use Rattle.script_clients.specs.Clients.{attempt as the_attempt, port_of_profile, told_of, version_asked};

use crate::answers::{Attempt, Call, Told};
use client_retry::Act;
use ft_base::{NoMemory, Version};
use iogr_reference::GroupRef;
use std::alloc::Global;

fn port_at(reference: &GroupRef, place: u16) -> u16
    ensures { result ≡ port_of_profile (slice_get reference.now.profiles place) }
{
    match reference.profiles.as_slice().get(place as usize) {
        None => 0,
        Some(profile) => profile.port,
    }
}

fn version_asked(versioned: bool, version: Version) -> Option<Version>
    ensures { result ≡ version_asked versioned version }
{
    if versioned { Some(version) } else { None }
}

fn attempt(
    alloc: Global,
    call: &Call,
    reference: &GroupRef,
    place: u16,
    id: u32,
) -> Result<Attempt, NoMemory>
    ensures { IfOk result (λ attempt. attempt ≡ the_attempt call.now reference.now place id) }
{
    let request = call.request.copy(alloc)?;
    Ok(Attempt {
        group: reference.group,
        port: port_at(reference, place),
        id,
        version: version_asked(call.versioned, reference.version),
        request,
    })
}

/// What this act is to a call, by the reference that the call then goes by.
pub(crate) fn told_of(
    alloc: Global,
    call: &Call,
    reference: Option<&GroupRef>,
    act: Act,
) -> Result<Told, NoMemory>
    ensures { IfOk result (λ told. told ≡ told_of call.now (option_copied reference.entry) act) }
{
    let Some(reference) = reference else {
        return Ok(Told::Nothing);
    };
    match act {
        Act::Send { place, id } => {
            let attempt = attempt(alloc, call, reference, place, id)?;
            Ok(Told::Attempt(attempt))
        }
        Act::Adopted { version, place, id } => {
            let attempt = attempt(alloc, call, reference, place, id)?;
            Ok(Told::Adopted {
                group: reference.group,
                version,
                attempt,
            })
        }
        Act::Done(end) => Ok(Told::Ended {
            number: call.number,
            end,
        }),
        Act::Nothing => Ok(Told::Nothing),
    }
}
