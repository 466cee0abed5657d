//! One call of a client.
ghost use Rattle.std.specs.Prelude.{◌≡◌, ℕ, Option, None, IfOk, OnErr, IfSome};
ghost use Rattle.outside_links.specs.Lending.{IsLent};
ghost use Rattle.client_talk.specs.Talking.{AreOut, dialing};
ghost use Rattle.client_calls.specs.Calls.{IsCalled, IsResting, Resting};
ghost use Rattle.client_calls.specs.Requests.{HasHosts};

use crate::aims::{Step, next_step};
use crate::answers::ToldCall;
use crate::pauses::pause;
use crate::requests::NEVER;
use crate::turns::hear;
use client_retry::ClientCore;
use client_talk::{Line, hang_up};
use ft_base::{NoMemory, Request};
use iogr_reference::GroupRef;
use outside_links::{Dialer, Link};
use std::alloc::Global;
use std::sync::Wait;
use std::time::Clock;

/// Makes a call: the request is tried at one member after another until the call ends. Gives the link that stays open,
/// what is told, and the reference that the client goes by then. After NoMemory the link has gone back.
pub(crate) fn call<R: Wait + Clock, L: Link + Drop, D: Dialer<L>>(
    rt: &R,
    alloc: Global,
    dialer: &mut D,
    line: Option<Line<L>>,
    core: &mut ClientCore,
    request: &Request,
    reference: GroupRef,
) -> (Option<Line<L>>, Result<(ToldCall, GroupRef), NoMemory>)
    requires lent { IfSome line (λ _. IsLent (D.lent dialer.old)) }
    requires idle { core.old.progress ≡ None }
    requires hosts { HasHosts reference }
    requires rests { (s : Resting) × (s.reference ≡ reference)
        × IsResting L.left L.holds L.faults core.old line (dialing (D.links dialer.old) (D.targets dialer.old) (D.sent dialer.old) (D.count dialer.old)) s }
    ensures called { IfOk result.1 (λ told. (s : Resting) → s.reference ≡ reference
        → IsResting L.left L.holds L.faults core.old line (dialing (D.links dialer.old) (D.targets dialer.old) (D.sent dialer.old) (D.count dialer.old)) s
        → (t : Resting) × (t.reference ≡ told.1) × IsCalled request.now told.0 s t
        × IsResting L.left L.holds L.faults core.new result.0 (dialing (D.links dialer.new) (D.targets dialer.new) (D.sent dialer.new) (D.count dialer.new)) t) }
    ensures idle { IfOk result.1 (λ _. core.new.progress ≡ None) }
    ensures hosts { IfOk result.1 (λ told. HasHosts told.1) }
    ensures out { (others : Option ℕ) → AreOut others line (D.lent dialer.old) → AreOut others result.0 (D.lent dialer.new) }
    ensures lent { IfSome result.0 (λ _. IsLent (D.lent dialer.new)) }
    ensures back { OnErr result.1 (result.0 ≡ None) }
{
    let mut line = line;
    let mut heard = Vec::new(alloc);
    let mut act = core.start(reference, NEVER);
    let mut last = None;
    let mut pauses = 0;
    for _ in rt.forever() {
        match next_step(alloc, request, core, act, last) {
            Ok(Step::Ends(end)) => match core.take_reference() {
                Some(reference) => return (line, Ok((ToldCall { heard, end }, reference))),
                None => unreachable!(),
            },
            Ok(Step::Sends(aim)) => {
                let (now, turn) = hear(rt, alloc, dialer, line, &aim, core);
                match turn {
                    Ok((told, then)) => {
                        if heard.push(told).is_err() {
                            hang_up(dialer, now);
                            return (None, Err(NoMemory));
                        }
                        pauses = pause(rt, &then, pauses);
                        line = now;
                        act = then;
                        last = Some(aim);
                    }
                    Err(NoMemory) => return (now, Err(NoMemory)),
                }
            }
            Err(NoMemory) => {
                hang_up(dialer, line);
                return (None, Err(NoMemory));
            }
        }
    }
    unreachable!()
}
