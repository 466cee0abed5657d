//! A change of a group's members.
ghost use Rattle.std.specs.Prelude.{ℕ};
ghost use Rattle.ft_base.specs.Machine.{Machine};
ghost use Rattle.group_model.specs.declared.events.Event.TheVariants as events;
ghost use Rattle.group_model.specs.Plain.{Common, Host};
ghost use Rattle.group_hosts.specs.Keeping.{WroteFor};
ghost use Rattle.group_hosts.specs.Managing.{CanManage, IsManaged};

use ft_base::Style;
use ft_outside::Keeper;
use group_manager::{changed, view_sent};
use group_model::{Change, GroupAnswer, ManageFault};
use group_stands::{logs_go_on, logs_tell, views_join};
use message_log::{Log, LogFault};
use std::alloc::Global;

/// Changes a group's members: the next view is written, and then the old members and those that joined are
/// told. No host is changed by it, and what is sent is made before the log is written.
pub(crate) fn manage<K: Keeper>(
    alloc: Global,
    style: Style,
    log: &mut Log<K>,
    change: Change,
) -> GroupAnswer
    requires { (machines : ℕ → Machine) × (c : Common) × CanManage machines c style change log.old }
    ensures managed { (machines : ℕ → Machine) (c : Common) (h : Host) → CanManage machines c style change log.old → IsManaged machines c h change result log.new }
    ensures wrote { WroteFor (events.Manage change) result log.old log.new }
{
    logs_tell();
    logs_go_on();
    views_join();
    let view = match changed(log.newest(), style, &change) {
        Ok(view) => view,
        Err(fault) => return GroupAnswer::Refused(fault),
    };
    let Ok(out) = view_sent(alloc, log.newest(), &view) else {
        return GroupAnswer::NoMemory;
    };
    let told = view.copy();
    match log.new_view(alloc, view) {
        Ok(()) => GroupAnswer::Changed { view: told, out },
        Err(LogFault::Failed) => GroupAnswer::Refused(ManageFault::LogFault),
        Err(LogFault::ViewsFull) => unreachable!(),
        Err(LogFault::NoMemory) => GroupAnswer::NoMemory,
    }
}
