//! The calls of a client, one after another.
ghost use Rattle.std.specs.Prelude.{◌≡◌, IfOk};
ghost use Rattle.outside_links.specs.Lending.{IsLent};
ghost use Rattle.client_talk.specs.Talking.{dialing};
ghost use Rattle.client_calls.specs.Calls.{IsTold};
ghost use Rattle.client_calls.specs.Requests.{HasHosts};

use crate::answers::Told;
use crate::calling::call;
use crate::requests::deposit_of;
use client_retry::ClientCore;
use client_talk::hang_up;
use ft_base::{Name, NoMemory};
use iogr_reference::GroupRef;
use outside_links::{Dialer, Link};
use std::alloc::Global;
use std::sync::Wait;
use std::time::Clock;

/// Makes so many calls of a client with this name, the first over this reference. Each deposits 1, with its number as its
/// retention id. One link is open at a time, and a client waits a little behind a fault before it sends again. Each has gone back in the end, after NoMemory too.
pub fn client_calls<R: Wait + Clock, L: Link + Drop, D: Dialer<L>>(
    rt: &R,
    alloc: Global,
    name: &Name,
    reference: GroupRef,
    calls: u16,
    dialer: &mut D,
) -> Result<Told, NoMemory>
    requires { HasHosts reference }
    ensures told { IfOk result (λ told. IsTold name.now reference calls
        (dialing (D.links dialer.old) (D.targets dialer.old) (D.sent dialer.old) (D.count dialer.old))
        (dialing (D.links dialer.new) (D.targets dialer.new) (D.sent dialer.new) (D.count dialer.new)) told.calls.items) }
    ensures back { D.lent dialer.new ≡ D.lent dialer.old }
{
    let mut core = ClientCore::new();
    let mut line = None;
    let mut held = reference;
    let mut told = Vec::new(alloc);
    for done in 0..calls {
        let request = match deposit_of(alloc, name, done + 1) {
            Ok(request) => request,
            Err(NoMemory) => {
                hang_up(dialer, line);
                return Err(NoMemory);
            }
        };
        let (now, called) = call(rt, alloc, dialer, line, &mut core, &request, held);
        match called {
            Ok((call, next)) => {
                if told.push(call).is_err() {
                    hang_up(dialer, now);
                    return Err(NoMemory);
                }
                line = now;
                held = next;
            }
            Err(NoMemory) => return Err(NoMemory),
        }
    }
    hang_up(dialer, line);
    Ok(Told { calls: told })
}
