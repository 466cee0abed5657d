ghost use Rattle.std.specs.Prelude.{◌≡◌, ◌+◌, ◌<◌, None, Some, true, false, length, IfOk, IfErr};
ghost use Rattle.std.specs.List.{AllByRecursion};
ghost use Rattle.ft_base.specs.Members.{is_member, AreDifferent};
ghost use Rattle.ft_base.specs.declared.limits.TheConstants.{HOST_LIMIT, VIEW_LIMIT};
ghost use Rattle.ft_base.specs.declared.views.TheConstants.{MEMBER_LIMIT};
ghost use Rattle.message_log.specs.Picture.{IsLogged};
ghost use Rattle.group_model.specs.Changes.{NamesHosts, change_rows, first_fault, host_of_change, joins, next_view};
ghost use Rattle.group_manager.specs.Managing.{changed_as};

use crate::members::{members_then, primary_then};
use crate::refusals::fault_of;
use ft_base::{Style, Version, View};
use group_model::{Change, ManageFault};
use group_stands::views_join;

fn next_view(style: Style, view: &View, change: &Change) -> View
    requires different { AreDifferent view.now.members }
    requires new { joins change.now ≡ true → is_member (host_of_change change.now).0 view.now.members ≡ false }
    requires room { joins change.now ≡ true → length view.now.members < MEMBER_LIMIT }
    requires more { view.now.version.0 < VIEW_LIMIT }
    ensures { result ≡ next_view style view.now change.now }
{
    let members = members_then(change, &view.members);
    let primary = primary_then(style, change, view.primary, &members);
    View {
        version: Version(view.version.0 + 1),
        members,
        primary,
    }
}

/// A group's next view after a change of its members, or the first cause for which the change is
/// refused. It takes no memory.
///
/// The members of a view differ always; a caller has to say so, as it sees them as a list.
pub fn changed(view: &View, style: Style, change: &Change) -> Result<View, ManageFault>
    requires { AreDifferent view.now.members }
    ensures value { result ≡ changed_as style view.now change.now }
    ensures may { IfOk result (λ next. first_fault (change_rows style view.now change.now) ≡ None) }
    ensures next { IfOk result (λ next. next ≡ next_view style view.now change.now) }
    ensures numbered { IfOk result (λ next. next.version.0 ≡ view.now.version.0 + 1) }
    ensures logged { IfOk result (λ next. AllByRecursion (λ host. host < HOST_LIMIT) view.now.members → NamesHosts change.now → IsLogged next) }
    ensures refused { IfErr result (λ fault. first_fault (change_rows style view.now change.now) ≡ Some fault) }
{
    views_join();
    if let Some(fault) = fault_of(style, view, change) {
        return Err(fault);
    }
    Ok(next_view(style, view, change))
}
