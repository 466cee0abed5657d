//! The members of the next view, and its primary.
ghost use Rattle.std.specs.Prelude.{◌≡◌, ◌∷◌, ◌++◌, [], ◌<◌, true, false, length};
ghost use Rattle.ft_base.specs.Members.{is_member, AreDifferent};
ghost use Rattle.ft_base.specs.declared.views.TheConstants.{MEMBER_LIMIT};
ghost use Rattle.group_model.specs.Changes.{host_of_change, joins, kept_or_first, leads, members_then, primary_then};
ghost use Rattle.group_model.specs.Spares.{with_spare, with_spares};
ghost use Rattle.group_model.specs.Views.{without};

use ft_base::{HostNo, MEMBER_LIMIT, Members, Style};
use group_model::Change;

/// The members but this one.
fn without(host: HostNo, members: &Members) -> Members
    requires { AreDifferent members.now }
    ensures { result ≡ without host.0 members.now }
{
    // so many at most are kept, and so each of them has room
    let _count = members.len();
    let mut kept = Members::new();
    for member in members.hosts() {
        if *member != host.0 {
            kept.join(HostNo(*member));
        }
    }
    kept
}

/// The members, and this one as the last.
fn joined(host: HostNo, members: &Members) -> Members
    requires room { length members.now < MEMBER_LIMIT }
    requires new { is_member host.0 members.now ≡ false }
    ensures { result ≡ members.now ++ host.0 ∷ [] }
{
    let mut joined = members.copy();
    joined.join(host);
    joined
}

/// A spare comes as the last, unless it is a member or there is no room.
fn come(members: &mut Members, spare: HostNo)
    ensures { members.new ≡ with_spare members.old spare.0 }
{
    if members.has(spare) || members.len() >= MEMBER_LIMIT {
        return;
    }
    members.join(spare);
}

/// The members, and each of the spares in order that may come, but the host that they replace.
fn with_spares(host: HostNo, spares: &Members, mut members: Members) -> Members
    ensures { result ≡ with_spares host.0 spares.now members }
{
    for spare in spares.hosts() {
        if *spare != host.0 {
            come(&mut members, HostNo(*spare));
        }
    }
    members
}

/// The members after a change.
pub(crate) fn members_then(change: &Change, members: &Members) -> Members
    requires different { AreDifferent members.now }
    requires new { joins change.now ≡ true → is_member (host_of_change change.now).0 members.now ≡ false }
    requires room { joins change.now ≡ true → length members.now < MEMBER_LIMIT }
    ensures { result ≡ members_then change.now members.now }
{
    match change {
        Change::Report(host) => without(*host, members),
        Change::Remove(host) => without(*host, members),
        Change::Add(host) => joined(*host, members),
        Change::Create { host, .. } => joined(*host, members),
        Change::Primary(_) => members.copy(),
        Change::Replace { host, spares } => with_spares(*host, spares, without(*host, members)),
    }
}

/// The primary stays while it is a member; else the first member is.
fn kept_or_first(primary: Option<HostNo>, members: &Members) -> Option<HostNo>
    ensures { result ≡ kept_or_first primary members.now }
{
    match primary {
        None => members.first(),
        Some(primary) => {
            if members.has(primary) {
                Some(primary)
            } else {
                members.first()
            }
        }
    }
}

/// The primary after a change, with the members of then.
pub(crate) fn primary_then(
    style: Style,
    change: &Change,
    primary: Option<HostNo>,
    members: &Members,
) -> Option<HostNo>
    ensures { result ≡ primary_then style change.now primary members.now }
{
    if !style.is_passive() {
        return None;
    }
    match change {
        Change::Primary(host) => Some(*host),
        Change::Report(_) => kept_or_first(primary, members),
        Change::Remove(_) => kept_or_first(primary, members),
        Change::Add(_) => kept_or_first(primary, members),
        Change::Create { .. } => kept_or_first(primary, members),
        Change::Replace { .. } => kept_or_first(primary, members),
    }
}
