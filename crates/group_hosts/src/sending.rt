//! What a host sends to the other members of its group.
ghost use Rattle.std.specs.Prelude.{◌≡◌, ◌∷◌, ◌++◌, [], nat_eq, IfOk, OnOk, if◌then◌else◌};
ghost use Rattle.group_model.specs.Views.{host_no, is_warm, sent_to, without};
ghost use Rattle.group_hosts.specs.Taking.{state_of, update_of};

use ft_base::{HostNo, NoMemory, Servant, Style, View};
use ft_replica::Replica;
use group_model::{Inner, Out, OutList};
use std::alloc::Global;

/// The same once more.
fn copied(alloc: Global, carried: &Inner) -> Result<Inner, NoMemory>
    ensures { IfOk result (λ it. it ≡ carried.now) }
{
    match carried {
        Inner::View { version } => Ok(Inner::View { version: *version }),
        Inner::State { position, state } => {
            let state = state.copy(alloc)?;
            Ok(Inner::State {
                position: *position,
                state,
            })
        }
        Inner::Update { from, to, update } => {
            let update = update.copy(alloc)?;
            Ok(Inner::Update {
                from: *from,
                to: *to,
                update,
            })
        }
        Inner::Order { index, request } => {
            let request = request.copy(alloc)?;
            Ok(Inner::Order {
                index: *index,
                request,
            })
        }
    }
}

/// Sends the same to one member, unless that is the sender.
fn send_to(
    alloc: Global,
    items: &mut Vec<Out>,
    host: HostNo,
    member: u8,
    carried: &Inner,
) -> Result<(), NoMemory>
    ensures { OnOk result (items.new.items ≡ items.old.items ++
        (if nat_eq member host.0 then [] else record { to = host_no member; carried = carried.now } ∷ [])) }
{
    if member == host.0 {
        return Ok(());
    }
    let carried = copied(alloc, carried)?;
    items.push(Out {
        to: HostNo(member),
        carried,
    })?;
    Ok(())
}

/// The same to each of these members but the sender, in order.
#[tactic(auto, using(crate::proofs::Sends::sent_more))]
fn to_others(
    alloc: Global,
    members: &[u8],
    host: HostNo,
    carried: &Inner,
) -> Result<OutList, NoMemory>
    ensures { IfOk result (λ out. out ≡ sent_to (without host.0 members.now) carried.now) }
{
    let mut items = Vec::new(alloc);
    for member in members {
        if let Err(NoMemory) = send_to(alloc, &mut items, host, *member, carried) {
            return Err(NoMemory);
        }
    }
    Ok(OutList::from_vec(items))
}

/// Whether its primary sends its state and updates to the other members.
pub fn is_warm(style: Style) -> bool
    ensures { result ≡ is_warm style }
{
    match style {
        Style::Warm => true,
        Style::Cold | Style::Active => false,
    }
}

/// A replica's state to each other member of a warm group.
pub(crate) fn states_out<S: Servant + Drop>(
    alloc: Global,
    style: Style,
    view: &View,
    host: HostNo,
    replica: &Replica<S>,
) -> Result<OutList, NoMemory>
    ensures { IfOk result (λ out. out ≡ (if is_warm style then sent_to (without host.0 view.now.members) (state_of replica.now) else [])) }
{
    if !is_warm(style) {
        return Ok(OutList::new(alloc));
    }
    let state = replica.state(alloc)?;
    let carried = Inner::State {
        position: replica.position(),
        state,
    };
    to_others(alloc, view.members.hosts(), host, &carried)
}

/// The update from a replica's base to its position to each other member.
pub(crate) fn updates_out<S: Servant + Drop>(
    alloc: Global,
    view: &View,
    host: HostNo,
    replica: &Replica<S>,
) -> Result<OutList, NoMemory>
    ensures { IfOk result (λ out. out ≡ sent_to (without host.0 view.now.members) (update_of (S.machine replica.now.kind) replica.now)) }
{
    let update = replica.delta(alloc)?;
    let carried = Inner::Update {
        from: replica.base(),
        to: replica.position(),
        update,
    };
    to_others(alloc, view.members.hosts(), host, &carried)
}
