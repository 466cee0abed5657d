//! The calls on a group of the directory.
ghost use Rattle.std.specs.Prelude.{◌≡◌, ◌<◌, length, Ok, IfOk};
ghost use Rattle.std.specs.List.{All};
ghost use Rattle.ft_base.specs.Members.{is_member, AreDifferent};
ghost use Rattle.iogr_reference.specs.Formats.{AreShort, IsWritable};
ghost use Rattle.group_manager.specs.Directory.{info_of};
ghost use Rattle.group_manager.specs.Managing.{changed_as, group_ref, if_there, member_ref, Comes};

use crate::changing::changed;
use crate::directory::Groups;
use ft_base::{GroupId, HostNo, Members, NoMemory, Style, View};
use group_model::{Change, ManageFault};
use iogr_reference::{Ior, Ports, plain_ref, ref_of};
use std::alloc::Global;

impl Groups {
    /// A change of a group that is there.
    fn change(
        &self,
        group: GroupId,
        view: &View,
        style: Style,
        change: &Change,
    ) -> Result<View, ManageFault>
        requires { AreDifferent view.now.members }
        ensures { result ≡ if_there (info_of self.now group.0) (λ info. changed_as style view.now change.now) }
    {
        if let Err(fault) = self.find(group) {
            return Err(fault);
        }
        changed(view, style, change)
    }

    /// `create_member`: the host's factory, if it is among the group's, makes an object, which joins.
    pub fn create_member(
        &self,
        group: GroupId,
        view: &View,
        style: Style,
        host: HostNo,
        listed: bool,
        made: bool,
    ) -> Result<View, ManageFault>
        requires { AreDifferent view.now.members }
        ensures { result ≡ if_there (info_of self.now group.0) (λ info. changed_as style view.now (Change.Create host listed made)) }
    {
        let change = Change::Create { host, listed, made };
        self.change(group, view, style, &change)
    }

    /// `add_member`: the host joins.
    pub fn add_member(
        &self,
        group: GroupId,
        view: &View,
        style: Style,
        host: HostNo,
    ) -> Result<View, ManageFault>
        requires { AreDifferent view.now.members }
        ensures { result ≡ if_there (info_of self.now group.0) (λ info. changed_as style view.now (Change.Add host)) }
    {
        self.change(group, view, style, &Change::Add(host))
    }

    /// `remove_member`: the host leaves.
    pub fn remove_member(
        &self,
        group: GroupId,
        view: &View,
        style: Style,
        host: HostNo,
    ) -> Result<View, ManageFault>
        requires { AreDifferent view.now.members }
        ensures { result ≡ if_there (info_of self.now group.0) (λ info. changed_as style view.now (Change.Remove host)) }
    {
        self.change(group, view, style, &Change::Remove(host))
    }

    /// `set_primary_member`: the host is the primary from now on.
    pub fn set_primary_member(
        &self,
        group: GroupId,
        view: &View,
        style: Style,
        host: HostNo,
    ) -> Result<View, ManageFault>
        requires { AreDifferent view.now.members }
        ensures { result ≡ if_there (info_of self.now group.0) (λ info. changed_as style view.now (Change.Primary host)) }
    {
        self.change(group, view, style, &Change::Primary(host))
    }

    /// A fault of the host is reported, and it leaves.
    pub fn report(
        &self,
        group: GroupId,
        view: &View,
        style: Style,
        host: HostNo,
    ) -> Result<View, ManageFault>
        requires { AreDifferent view.now.members }
        ensures { result ≡ if_there (info_of self.now group.0) (λ info. changed_as style view.now (Change.Report host)) }
    {
        self.change(group, view, style, &Change::Report(host))
    }

    /// `locations_of_members`: the hosts of a group's members, in order of joining.
    pub fn locations_of_members(&self, group: GroupId, view: &View) -> Result<Members, ManageFault>
        ensures { result ≡ if_there (info_of self.now group.0) (λ info. Ok view.now.members) }
    {
        if let Err(fault) = self.find(group) {
            return Err(fault);
        }
        Ok(view.members.copy())
    }

    /// `get_object_group_id`: the number of a group that is there.
    pub fn get_object_group_id(&self, group: GroupId) -> Result<GroupId, ManageFault>
        ensures { result ≡ if_there (info_of self.now group.0) (λ info. Ok group) }
    {
        if let Err(fault) = self.find(group) {
            return Err(fault);
        }
        Ok(group)
    }

    /// `get_object_group_ref`: the reference of a group's view.
    pub fn get_object_group_ref(
        &self,
        alloc: Global,
        group: GroupId,
        view: &View,
        ports: &Ports,
    ) -> Result<Ior, ManageFault>
        requires { All (λ host. host < length ports.now) view.now.members }
        ensures reference { Comes (if_there (info_of self.now group.0) (group_ref group view.now ports.now)) result }
        ensures writable { IfOk result IsWritable }
        ensures short { IfOk result (λ i. AreShort i.profiles) }
    {
        let info = match self.find(group) {
            Ok(info) => info,
            Err(fault) => return Err(fault),
        };
        match ref_of(alloc, group, &info.type_id, view, ports) {
            Ok(reference) => Ok(reference),
            Err(NoMemory) => Err(ManageFault::NoMemory),
        }
    }

    /// `get_member_ref`: the plain reference of one member of a group. It names no group, so a client
    /// reaches that member alone.
    pub fn get_member_ref(
        &self,
        alloc: Global,
        group: GroupId,
        view: &View,
        host: HostNo,
        ports: &Ports,
    ) -> Result<Ior, ManageFault>
        requires { All (λ host. host < length ports.now) view.now.members }
        ensures reference { Comes (if_there (info_of self.now group.0) (member_ref group view.now host ports.now)) result }
        ensures writable { IfOk result IsWritable }
        ensures short { IfOk result (λ i. AreShort i.profiles) }
    {
        let info = match self.find(group) {
            Ok(info) => info,
            Err(fault) => return Err(fault),
        };
        if !view.members.has(host) {
            return Err(ManageFault::MemberNotFound(host));
        }
        match plain_ref(alloc, group, &info.type_id, host, ports) {
            Ok(reference) => Ok(reference),
            Err(NoMemory) => Err(ManageFault::NoMemory),
        }
    }
}
