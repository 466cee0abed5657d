//! What lines read of a group: where its members are, its number, and its references as texts. (Chapter 23,
//! `locations_of_members`, `get_object_group_id`, `get_object_group_ref`, `get_member_ref`.)
ghost use Rattle.std.specs.Prelude.{◌≡◌, ◌<◌, IfOk};
ghost use Rattle.ft_base.specs.declared.limits.TheConstants.{HOST_LIMIT};
ghost use Rattle.host_ports.specs.Ports.{all_ports};
ghost use Rattle.script_groups.specs.Acting.{IsKept};
ghost use Rattle.script_groups.specs.Reading.{identified, located, member_at, member_referred, referred};

use crate::groups::ScriptGroup;
use ft_base::{HostNo, NoMemory};
use ft_report::ReportLine;
use group_model::ManageFault;
use iogr_reference::{Ports, to_text};
use std::alloc::Global;

impl ScriptGroup {
    /// The hosts of its members, in order of joining.
    pub fn located(&self, alloc: Global) -> Result<ReportLine, NoMemory>
        requires { IsKept self.now }
        ensures { IfOk result (λ line. line ≡ located self.now) }
    {
        let group = self.name().copy(alloc)?;
        let members = self.newest().members.copy();
        Ok(ReportLine::Locations { group, members })
    }

    /// Its number.
    pub fn identified(&self, alloc: Global) -> Result<ReportLine, NoMemory>
        ensures { IfOk result (λ line. line ≡ identified self.now) }
    {
        let group = self.name().copy(alloc)?;
        let id = self.id();
        Ok(ReportLine::Id { group, id })
    }

    /// Its newest reference, as text.
    pub fn referred(&self, alloc: Global, ports: &Ports) -> Result<ReportLine, NoMemory>
        requires kept { IsKept self.now }
        requires ports { ports.now ≡ all_ports }
        ensures { IfOk result (λ line. line ≡ referred self.now) }
    {
        let group = self.name().copy(alloc)?;
        let reference = self.newest_ior(alloc, ports)?;
        let text = to_text(alloc, &reference)?;
        Ok(ReportLine::Ref { group, text })
    }

    fn member_at(&self, alloc: Global, host: HostNo, ports: &Ports) -> Result<ReportLine, NoMemory>
        requires ports { ports.now ≡ all_ports }
        requires host { host.0 < HOST_LIMIT }
        ensures { IfOk result (λ line. line ≡ member_at self.now host) }
    {
        let group = self.name().copy(alloc)?;
        let reference = self.member_ior(alloc, host, ports)?;
        let text = to_text(alloc, &reference)?;
        Ok(ReportLine::MemberRef { group, host, text })
    }

    /// The plain reference of the member on a host, as text; refused where the host is no member.
    pub fn member_referred(
        &self,
        alloc: Global,
        host: HostNo,
        ports: &Ports,
    ) -> Result<ReportLine, NoMemory>
        requires kept { IsKept self.now }
        requires ports { ports.now ≡ all_ports }
        requires host { host.0 < HOST_LIMIT }
        ensures { IfOk result (λ line. line ≡ member_referred self.now host) }
    {
        if !self.newest().members.has(host) {
            return Ok(ReportLine::Refused(ManageFault::MemberNotFound(host)));
        }
        self.member_at(alloc, host, ports)
    }
}
