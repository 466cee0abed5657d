//! What the host that is asked sends to the other members.
ghost use Rattle.std.specs.Prelude.{◌≡◌, ◌∷◌, ◌++◌, [], nat_eq, if◌then◌else◌, IfOk, OnOk};
ghost use Rattle.message_log.specs.Picture.{length_of};
ghost use Rattle.group_model.specs.Views.{without, sent_to, host_no};
ghost use Rattle.active_sequencer.specs.Sequences.{sending, sent_with};

use ft_base::{Decision, HostNo, NoMemory, Request};
use ft_outside::Keeper;
use group_model::{Inner, Out, OutList};
use message_log::Log;
use passive_dispatch::Replied;
use std::alloc::Global;

/// Adds the order of an entry to one member, unless that is the sender.
fn send_to(
    alloc: Global,
    items: &mut Vec<Out>,
    host: HostNo,
    member: u8,
    index: u32,
    request: &Request,
) -> Result<(), NoMemory>
    ensures { OnOk result (items.new.items ≡ items.old.items ++
        (if nat_eq member host.0 then [] else record { to = host_no member; carried = Inner.Order index request.now } ∷ [])) }
{
    if member == host.0 {
        return Ok(());
    }
    let request = request.copy(alloc)?;
    items.push(Out {
        to: HostNo(member),
        carried: Inner::Order { index, request },
    })?;
    Ok(())
}

/// The order of an entry to each of these members but the sender, in order.
fn send_to_others(
    alloc: Global,
    members: &[u8],
    host: HostNo,
    index: u32,
    request: &Request,
) -> Result<OutList, NoMemory>
    ensures { IfOk result (λ out. out ≡ sent_to (without host.0 members.now) (Inner.Order index request.now)) }
{
    let mut items = Vec::new(alloc);
    for member in members {
        if let Err(NoMemory) = send_to(alloc, &mut items, host, *member, index, request) {
            return Err(NoMemory);
        }
    }
    Ok(OutList::from_vec(items))
}

/// The orders of the journal's next entry, should it be this request.
pub(crate) fn next_orders<K: Keeper>(
    alloc: Global,
    log: &Log<K>,
    host: HostNo,
    request: &Request,
) -> Result<OutList, NoMemory>
    ensures { IfOk result (λ out. out ≡ sent_to (without host.0 log.now.newest.members) (Inner.Order (length_of log.now) request.now)) }
{
    let members = log.newest().members.hosts();
    send_to_others(alloc, members, host, log.length(), request)
}

/// What a request came to, with what is sent: orders go out where the entry was appended and its host
/// didn't stop. It takes no memory.
pub(crate) fn with_orders(alloc: Global, replied: Replied, orders: OutList) -> Replied
    ensures { result ≡ sending (sent_with replied.decision replied.answer orders) replied }
{
    let out = match (replied.decision, &replied.answer) {
        (Decision::Append(_), Some(_)) => orders,
        _ => OutList::new(alloc),
    };
    Replied { out, ..replied }
}
