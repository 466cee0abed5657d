//! References of a group, as clients have them and as they go over links.
ghost use Rattle.std.specs.Prelude.{◌≡◌, ◌<◌, IfOk};
ghost use Rattle.std.specs.List.{AllByRecursion};
ghost use Rattle.ft_base.specs.declared.limits.TheConstants.{HOST_LIMIT};
ghost use Rattle.host_ports.specs.Ports.{all_ports};
ghost use Rattle.script_groups.specs.Acting.{IsKept};
ghost use Rattle.iogr_reference.specs.Formats.{IsWritable};
ghost use Rattle.script_groups.specs.References.{ior_at, ior_in, member_ior, newest_ior, newest_reference, reference_at, reference_in};
ghost use Rattle.shipped_servants.specs.Kinds.{type_id};

use crate::groups::ScriptGroup;
use ft_base::{HostNo, NoMemory, Version, View};
use host_ports::every_host_has_a_port;
use iogr_reference::{GroupRef, Ior, Ports, plain_ref, ref_of, view_reference};
use std::alloc::Global;

impl ScriptGroup {
    fn reference_in(&self, alloc: Global, view: &View, ports: &Ports) -> Result<GroupRef, NoMemory>
        requires ports { ports.now ≡ all_ports }
        requires hosts { AllByRecursion (λ host. host < HOST_LIMIT) view.now.members }
        ensures { IfOk result (λ reference. reference ≡ reference_in self.now view.now) }
    {
        let type_id = self.kind().type_name(alloc)?;
        view_reference(alloc, self.id(), &type_id, view, ports)
    }

    /// The reference of its newest view.
    pub fn newest_reference(&self, alloc: Global, ports: &Ports) -> Result<GroupRef, NoMemory>
        requires kept { IsKept self.now }
        requires ports { ports.now ≡ all_ports }
        ensures { IfOk result (λ reference. reference ≡ newest_reference self.now) }
    {
        self.is_sound();
        self.reference_in(alloc, self.newest(), ports)
    }

    /// The reference of its view of a version; none exactly where it has had no such view.
    pub fn reference_at(
        &self,
        alloc: Global,
        version: Version,
        ports: &Ports,
    ) -> Result<Option<GroupRef>, NoMemory>
        requires kept { IsKept self.now }
        requires ports { ports.now ≡ all_ports }
        ensures { IfOk result (λ reference. reference ≡ reference_at self.now version.0) }
    {
        self.is_sound();
        match self.view(version) {
            None => Ok(None),
            Some(view) => {
                let reference = self.reference_in(alloc, view, ports)?;
                Ok(Some(reference))
            }
        }
    }

    fn ior_in(&self, alloc: Global, view: &View, ports: &Ports) -> Result<Ior, NoMemory>
        requires ports { ports.now ≡ all_ports }
        requires hosts { AllByRecursion (λ host. host < HOST_LIMIT) view.now.members }
        ensures reference { IfOk result (λ ior. ior ≡ ior_in self.now view.now) }
        ensures writable { IfOk result IsWritable }
    {
        let type_id = self.kind().type_name(alloc)?;
        ref_of(alloc, self.id(), &type_id, view, ports)
    }

    /// The same as it goes over a link.
    pub fn ior_at(
        &self,
        alloc: Global,
        version: Version,
        ports: &Ports,
    ) -> Result<Option<Ior>, NoMemory>
        requires kept { IsKept self.now }
        requires ports { ports.now ≡ all_ports }
        ensures { IfOk result (λ ior. ior ≡ ior_at self.now version.0) }
    {
        self.is_sound();
        match self.view(version) {
            None => Ok(None),
            Some(view) => {
                let ior = self.ior_in(alloc, view, ports)?;
                Ok(Some(ior))
            }
        }
    }

    /// That of its newest view; it can be written as a text.
    pub(crate) fn newest_ior(&self, alloc: Global, ports: &Ports) -> Result<Ior, NoMemory>
        requires kept { IsKept self.now }
        requires ports { ports.now ≡ all_ports }
        ensures reference { IfOk result (λ ior. ior ≡ newest_ior self.now) }
        ensures writable { IfOk result IsWritable }
    {
        self.is_sound();
        self.ior_in(alloc, self.newest(), ports)
    }

    /// The plain reference of a member on this host; it can be written as a text.
    pub(crate) fn member_ior(
        &self,
        alloc: Global,
        host: HostNo,
        ports: &Ports,
    ) -> Result<Ior, NoMemory>
        requires ports { ports.now ≡ all_ports }
        requires host { host.0 < HOST_LIMIT }
        ensures reference { IfOk result (λ ior. ior ≡ member_ior self.now host.0) }
        ensures writable { IfOk result IsWritable }
    {
        every_host_has_a_port();
        let type_id = self.kind().type_name(alloc)?;
        plain_ref(alloc, self.id(), &type_id, host, ports)
    }
}
