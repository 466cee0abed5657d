//! Why a change of members is refused.
ghost use Rattle.std.specs.Prelude.{◌≡◌, ◌<◌, true, false, length, IfNone};
ghost use Rattle.ft_base.specs.Members.{is_member};
ghost use Rattle.ft_base.specs.declared.limits.TheConstants.{VIEW_LIMIT};
ghost use Rattle.ft_base.specs.declared.views.TheConstants.{MEMBER_LIMIT};
ghost use Rattle.group_model.specs.Changes.{change_rows, first_fault, host_of_change, is_unlisted, is_unmade, joins, leads};

use ft_base::{HostNo, MEMBER_LIMIT, Style, VIEW_LIMIT, View};
use group_model::{Change, ManageFault};

fn host_of_change(change: &Change) -> HostNo
    ensures { result ≡ host_of_change change.now }
{
    match change {
        Change::Report(host) => *host,
        Change::Remove(host) => *host,
        Change::Add(host) => *host,
        Change::Create { host, .. } => *host,
        Change::Primary(host) => *host,
        Change::Replace { host, .. } => *host,
    }
}

pub(crate) fn joins(change: &Change) -> bool
    ensures { result ≡ joins change.now }
{
    match change {
        Change::Add(_) | Change::Create { .. } => true,
        Change::Report(_) | Change::Remove(_) | Change::Primary(_) | Change::Replace { .. } =>
            false,
    }
}

pub(crate) fn leads(change: &Change) -> bool
    ensures { result ≡ leads change.now }
{
    match change {
        Change::Primary(_) => true,
        Change::Report(_)
        | Change::Remove(_)
        | Change::Add(_)
        | Change::Create { .. }
        | Change::Replace { .. } => false,
    }
}

fn is_unlisted(change: &Change) -> bool
    ensures { result ≡ is_unlisted change.now }
{
    match change {
        Change::Create { listed, .. } => !*listed,
        Change::Report(_)
        | Change::Remove(_)
        | Change::Add(_)
        | Change::Primary(_)
        | Change::Replace { .. } => false,
    }
}

fn is_unmade(change: &Change) -> bool
    ensures { result ≡ is_unmade change.now }
{
    match change {
        Change::Create { made, .. } => !*made,
        Change::Report(_)
        | Change::Remove(_)
        | Change::Add(_)
        | Change::Primary(_)
        | Change::Replace { .. } => false,
    }
}

/// The first cause for which a change is refused.
pub(crate) fn fault_of(style: Style, view: &View, change: &Change) -> Option<ManageFault>
    ensures first { result ≡ first_fault (change_rows style view.now change.now) }
    ensures new { IfNone result (joins change.now ≡ true → is_member (host_of_change change.now).0 view.now.members ≡ false) }
    ensures room { IfNone result (joins change.now ≡ true → length view.now.members < MEMBER_LIMIT) }
    ensures more { IfNone result (view.now.version.0 < VIEW_LIMIT) }
{
    let host = host_of_change(change);
    let is_in = view.members.has(host);
    if is_unlisted(change) {
        return Some(ManageFault::NoFactory(host));
    }
    if joins(change) && is_in {
        return Some(ManageFault::MemberAlreadyPresent(host));
    }
    if joins(change) && view.members.len() >= MEMBER_LIMIT {
        return Some(ManageFault::ObjectNotAdded(MEMBER_LIMIT as u8));
    }
    if is_unmade(change) {
        return Some(ManageFault::ObjectNotCreated(host));
    }
    if leads(change) && !style.is_passive() {
        return Some(ManageFault::BadReplicationStyle);
    }
    if !joins(change) && !is_in {
        return Some(ManageFault::MemberNotFound(host));
    }
    if leads(change) && view.is_led_by(host) {
        return Some(ManageFault::PrimaryNotSet(host));
    }
    if view.version.0 >= VIEW_LIMIT {
        return Some(ManageFault::ViewsFull(VIEW_LIMIT));
    }
    None
}
