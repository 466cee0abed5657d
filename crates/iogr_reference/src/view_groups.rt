//! The group that a view's reference names, as clients know it.
ghost use Rattle.std.specs.Prelude.{◌≡◌, ◌<◌, ◌≤◌, length, map, position, IfOk, IfSome};
ghost use Rattle.std.specs.List.{All};
ghost use Rattle.ft_base.specs.Views.{is_led_by};
ghost use Rattle.iogr_reference.specs.Views.{group_of_view, iiop_of_host};

use crate::choices::{ADDRESS, DOMAIN};
use crate::keys::object_key;
use crate::lists::{Components, IiopList, Ports};
use crate::references::{GroupRef, Iiop};
use crate::views::member_components;
use ft_base::{Bytes, GroupId, HostNo, MEMBER_LIMIT, Name, NoMemory, View};
use std::alloc::Global;

/// What the profile of a member holds.
fn member_iiop(
    alloc: Global,
    group: GroupId,
    view: &View,
    ports: &Ports,
    host: u8,
) -> Result<Iiop, NoMemory>
    requires { host < length ports.now }
    ensures { IfOk result (λ iiop. iiop ≡ iiop_of_host group view.now ports.now host) }
{
    let is_primary = view.is_led_by(HostNo(host));
    let components = member_components(alloc, group, view.version, is_primary)?;
    let address = Bytes::of(alloc, ADDRESS.as_slice())?;
    let key = object_key(alloc, group)?;
    Ok(Iiop {
        minor: 2,
        host: address,
        port: ports.as_slice()[host as usize],
        key,
        components: Components::from_vec(components),
    })
}

fn member_iiops(
    alloc: Global,
    group: GroupId,
    view: &View,
    ports: &Ports,
) -> Result<IiopList, NoMemory>
    requires { All (λ host. host < length ports.now) view.now.members }
    ensures { IfOk result (λ iiops. iiops ≡ map (iiop_of_host group view.now ports.now) view.now.members) }
{
    let mut iiops = Vec::with_capacity(alloc, view.members.len())?;
    for host in view.members.hosts() {
        let iiop = member_iiop(alloc, group, view, ports, *host)?;
        iiops.push(iiop)?;
    }
    Ok(IiopList::from_vec(iiops))
}

/// The place of the primary among the members.
fn primary_place(view: &View) -> Option<u16>
    ensures { result ≡ position (is_led_by view.now) view.now.members }
{
    match first_primary(view) {
        None => None,
        Some(place) => Some(place as u16),
    }
}

fn first_primary(view: &View) -> Option<usize>
    ensures place { result ≡ position (is_led_by view.now) view.now.members }
    ensures within { IfSome result (λ place. place < MEMBER_LIMIT) }
{
    let _few = view.members.len();
    view.members
        .hosts()
        .iter()
        .position(|host| view.is_led_by(HostNo(*host)))
}

/// The reference of a group's view, also of one without members, which has no profiles. `ports` has the
/// port of each member's host.
pub fn view_reference(
    alloc: Global,
    group: GroupId,
    type_id: &Name,
    view: &View,
    ports: &Ports,
) -> Result<GroupRef, NoMemory>
    requires { All (λ host. host < length ports.now) view.now.members }
    ensures { IfOk result (λ reference. reference ≡ group_of_view group type_id.now view.now ports.now) }
{
    let domain = Bytes::of(alloc, DOMAIN.as_slice())?;
    let type_id = Bytes::of(alloc, type_id.bytes())?;
    let profiles = member_iiops(alloc, group, view, ports)?;
    Ok(GroupRef {
        domain,
        group,
        version: view.version,
        type_id,
        profiles,
        primary: primary_place(view),
    })
}
