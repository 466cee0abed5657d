//! The members of a group whose membership the infrastructure controls. (Chapter 23, `MembershipStyle`.)
ghost use Rattle.std.specs.Prelude.{◌≡◌, ◌<◌, ◌≤◌, Some, length, slice_get};
ghost use Rattle.std.specs.List.{AllByRecursion};
ghost use Rattle.ft_base.specs.declared.limits.TheConstants.{HOST_LIMIT};
ghost use Rattle.ft_base.specs.declared.views.TheConstants.{MEMBER_LIMIT};
ghost use Rattle.group_model.specs.Changes.{host_of_change, spares_of};
ghost use Rattle.group_model.specs.Views.{without};
ghost use Rattle.script_groups.specs.Groups.{ScriptGroup as Group};
ghost use Rattle.script_world.specs.Sound.{IsKeptWorld};
ghost use Rattle.world_management.specs.Membership.{can_make, first_fitting, first_members, fit, fits, has_object, hosts_of, lack, number_of, objects_at, report_of, spares, value_of};

use ft_base::{HostNo, MEMBER_LIMIT, Members};
use generic_factory::OBJECT_LIMIT;
use group_model::Change;
use property_manager::{
    MembershipStyle, Property, PropertyName, effective_in, factories, number_of_replicas,
};
use script_world::World;

/// A property as the group at this place has it.
pub(crate) fn value_of(world: &World, place: usize, name: PropertyName) -> &[u8]
    requires { place < length world.now.groups }
    ensures { (g : Group) → slice_get world.now.groups place ≡ Some g → result.now ≡ value_of world.now g name }
{
    match world.properties().value(world.group(place).id(), name) {
        Some(value) => value,
        None => name.built_in(),
    }
}

// The number of replicas that a value is.
fn number_of(text: &[u8]) -> usize
    ensures value { result ≡ number_of text.now }
    ensures few { result ≤ MEMBER_LIMIT }
{
    match number_of_replicas(text) {
        Some(number) => number as usize,
        None => 0,
    }
}

// Whether the host's factory has an object that is a member of the group at this place.
fn has_object(world: &World, place: usize, host: HostNo) -> bool
    requires within { place < length world.now.groups }
    requires kept { IsKeptWorld world.now }
    ensures { (g : Group) → slice_get world.now.groups place ≡ Some g → result ≡ has_object world.now host.0 g }
{
    if world.is_deleted(place) {
        return false;
    }
    world.group(place).newest().members.has(host)
}

// How many objects a host's factory has.
fn objects_at(world: &World, host: HostNo) -> usize
    requires { IsKeptWorld world.now }
    ensures { result ≡ objects_at world.now host.0 }
{
    let mut objects = 0;
    for place in 0..world.group_count() {
        if has_object(world, place, host) {
            objects += 1;
        }
    }
    objects
}

/// Whether the host is up, and its factory isn't full.
pub(crate) fn can_make(world: &World, host: HostNo) -> bool
    requires { IsKeptWorld world.now }
    ensures { result ≡ can_make world.now host.0 }
{
    world.is_up(host) && objects_at(world, host) < OBJECT_LIMIT
}

fn fits(world: &World, members: &Members, host: HostNo) -> bool
    requires { IsKeptWorld world.now }
    ensures { result ≡ fits world.now members.now host.0 }
{
    !members.has(host) && can_make(world, host)
}

// Of the hosts that a value lists the first that fit, and no more than so many.
fn first_fitting(world: &World, members: &Members, count: usize, listed: &[u8]) -> Members
    requires kept { IsKeptWorld world.now }
    requires few { count ≤ MEMBER_LIMIT }
    ensures value { result ≡ first_fitting world.now members.now count (hosts_of listed.now) }
    ensures hosts { AllByRecursion (λ host. host < HOST_LIMIT) result }
{
    let mut chosen = Members::new();
    let Some(listed) = factories(listed) else {
        return chosen;
    };
    for host in listed.hosts() {
        if chosen.len() < count && fits(world, members, HostNo(*host)) {
            chosen.join(HostNo(*host));
        }
    }
    chosen
}

/// The hosts on which the first members may be made of a group that is made by these properties.
pub(crate) fn fit(world: &World, full: &[Property]) -> Members
    requires { IsKeptWorld world.now }
    ensures { result ≡ fit world.now full.now }
{
    let listed = effective_in(full, PropertyName::Factories);
    first_fitting(world, &Members::new(), MEMBER_LIMIT, listed)
}

/// Those on which they are made.
#[tactic(auto, unfolding(crate::specs::Membership::first_members))]
pub(crate) fn first_members(world: &World, full: &[Property]) -> Members
    requires { IsKeptWorld world.now }
    ensures value { result ≡ first_members world.now full.now }
    ensures hosts { AllByRecursion (λ host. host < HOST_LIMIT) result }
{
    if !MembershipStyle::is_infrastructure(effective_in(full, PropertyName::MembershipStyle)) {
        return Members::new();
    }
    let initial = number_of(effective_in(full, PropertyName::InitialNumberReplicas));
    let listed = effective_in(full, PropertyName::Factories);
    first_fitting(world, &Members::new(), initial, listed)
}

// How many members there are but this one.
fn others(members: &Members, host: HostNo) -> usize
    ensures { result ≡ length (without host.0 members.now) }
{
    members
        .hosts()
        .iter()
        .filter(|member| **member != host.0)
        .count()
}

// How many members the group at this place lacks of its minimum without this host.
fn lack(world: &World, place: usize, host: HostNo) -> usize
    requires within { place < length world.now.groups }
    requires kept { IsKeptWorld world.now }
    ensures value { (g : Group) → slice_get world.now.groups place ≡ Some g → result ≡ lack world.now g host.0 }
    ensures few { result ≤ MEMBER_LIMIT }
{
    let minimum = number_of(value_of(world, place, PropertyName::MinimumNumberReplicas));
    minimum.saturating_sub(others(&world.group(place).newest().members, host))
}

// The hosts that come in a host's place in the group at this place.
fn spares(world: &World, place: usize, host: HostNo) -> Members
    requires within { place < length world.now.groups }
    requires kept { IsKeptWorld world.now }
    ensures value { (g : Group) → slice_get world.now.groups place ≡ Some g → result ≡ spares world.now g host.0 }
    ensures hosts { AllByRecursion (λ spare. spare < HOST_LIMIT) result }
{
    let lack = lack(world, place, host);
    let listed = value_of(world, place, PropertyName::Factories);
    first_fitting(world, &world.group(place).newest().members, lack, listed)
}

/// What is asked of the group at this place where the host is reported as faulty.
#[tactic(auto, unfolding(crate::specs::Membership::report_of))]
pub(crate) fn report_of(world: &World, place: usize, host: HostNo) -> Change
    requires within { place < length world.now.groups }
    requires kept { IsKeptWorld world.now }
    ensures value { (g : Group) → slice_get world.now.groups place ≡ Some g → result ≡ report_of world.now g host }
    ensures host { host_of_change result ≡ host }
    ensures spares { AllByRecursion (λ spare. spare < HOST_LIMIT) (spares_of result) }
{
    let style = value_of(world, place, PropertyName::MembershipStyle);
    if MembershipStyle::is_infrastructure(style) {
        let spares = spares(world, place, host);
        Change::Replace { host, spares }
    } else {
        Change::Report(host)
    }
}
