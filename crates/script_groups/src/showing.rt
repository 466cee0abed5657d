//! What `show` prints of a group.
ghost use Rattle.std.specs.Prelude.{◌≡◌, ◌<◌, IfOk};
ghost use Rattle.ft_base.specs.declared.limits.TheConstants.{HOST_LIMIT};
ghost use Rattle.script_groups.specs.Acting.{IsKept};
ghost use Rattle.script_groups.specs.Groups.{knows_as_member};
ghost use Rattle.script_groups.specs.Showing.{shown};

use crate::groups::ScriptGroup;
use ft_base::{HostNo, NoMemory};
use ft_report::ReportLines;
use group_core::cores_tell;
use group_looks::{figures_of, show_lines};
use std::alloc::Global;

impl ScriptGroup {
    /// Whether a host is a member of the view that it knows.
    pub fn knows_as_member(&self, host: HostNo) -> bool
        requires kept { IsKept self.now }
        requires host { host.0 < HOST_LIMIT }
        ensures { result ≡ knows_as_member self.now host.0 }
    {
        cores_tell();
        match self.view(self.core().known(host)) {
            None => false,
            Some(view) => view.members.has(host),
        }
    }

    /// What `show` prints: the group, its members, and the other hosts that have a servant still.
    pub fn shown(&self, alloc: Global) -> Result<ReportLines, NoMemory>
        requires { IsKept self.now }
        ensures { IfOk result (λ report. report ≡ shown self.now) }
    {
        let figures = figures_of(alloc, self.core())?;
        show_lines(alloc, self.name(), self.style(), figures)
    }
}
