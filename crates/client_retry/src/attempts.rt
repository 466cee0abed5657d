//! Where the next attempt goes, or how the invocation ends without one.
ghost use Rattle.std.specs.Prelude.{◌≡◌, ◌<◌, ◌≤◌, ◌*◌, length, IfOk};
ghost use Rattle.iogr_reference.specs.declared.choices.TheConstants.{PROFILE_LIMIT};
ghost use Rattle.client_retry.specs.Attempts.{target, at_first, at_fault};

use crate::answers::End;
use crate::limits::{LAST_ID, ROUNDS};
use ft_base::Tick;
use iogr_reference::GroupRef;

/// The place of the target's profile, after so many faults.
fn target(reference: &GroupRef, faults: u32) -> u16
    requires some { 0 < length reference.now.profiles }
    requires few { faults ≤ 3 * length reference.now.profiles }
    ensures { result ≡ target reference.now faults }
{
    let profiles = reference.profiles.as_slice().len() as u32;
    let first = reference.primary.unwrap_or(0) as u32;
    ((first + faults) % profiles) as u16
}

/// The place of the first attempt over a reference, behind the client's last id.
pub(crate) fn at_first(reference: &GroupRef, last: u32) -> Result<u16, End>
    ensures value { result ≡ at_first reference.now last }
    ensures id { IfOk result (λ place. last < LAST_ID) }
    ensures some { IfOk result (λ place. 0 < length reference.now.profiles) }
    ensures limit { length reference.now.profiles ≤ PROFILE_LIMIT }
{
    if reference.profiles.as_slice().is_empty() {
        return Err(End::Transient {
            faults: 0,
            profiles: 0,
        });
    }
    if last == LAST_ID {
        return Err(End::IdsSpent);
    }
    Ok(target(reference, 0))
}

/// The place of the next attempt at a fault, which is the last of `faults` over this reference.
pub(crate) fn at_fault(
    reference: &GroupRef,
    faults: u32,
    last: u32,
    expiration: Tick,
    now: Tick,
) -> Result<u16, End>
    requires some { 0 < length reference.now.profiles }
    requires few { faults ≤ 3 * length reference.now.profiles }
    ensures value { result ≡ at_fault reference.now faults last expiration now }
    ensures id { IfOk result (λ place. last < LAST_ID) }
    ensures again { IfOk result (λ place. faults < 3 * length reference.now.profiles) }
{
    let profiles = reference.profiles.as_slice().len() as u16;
    if expiration.0 <= now.0 {
        return Err(End::NoResponse { expiration, now });
    }
    if faults == ROUNDS * profiles as u32 {
        return Err(End::Transient { faults, profiles });
    }
    if last == LAST_ID {
        return Err(End::IdsSpent);
    }
    Ok(target(reference, faults))
}
