//! What all clients of a run have in common.
ghost use Rattle.std.specs.Prelude.{◌≡◌, IfOk};
ghost use Rattle.client_calls.specs.Requests.{HasHosts};
ghost use Rattle.live_clients.specs.Clients.{HasPorts, client_name, reference_of};

use ft_base::{GroupId, Name, NameFault, NoMemory, View};
use iogr_reference::{GroupRef, Ports, view_reference};
use report_words::push_numbered;
use std::alloc::Global;

/// What all clients of a run have in common: the group that they call, by its first view, and how many calls each makes.
#[derive(Drop)]
pub struct ClientSetting<'a> {
    pub group: GroupId,
    pub type_id: &'a Name,
    pub view: &'a View,
    pub ports: &'a Ports,
    pub calls: u16,
}

/// A client's name.
#[tactic(auto, using(crate::proofs::Names::name_short, crate::proofs::Names::is_a_name))]
pub(crate) fn client_name(alloc: Global, number: u64) -> Result<Name, NoMemory>
    ensures { IfOk result (λ name. name ≡ client_name number) }
{
    let mut text = Vec::new(alloc);
    push_numbered(&mut text, b"c", number)?;
    match Name::of(alloc, text.as_slice()) {
        Ok(name) => Ok(name),
        Err(NameFault::NoMemory) => Err(NoMemory),
        Err(_) => unreachable!(),
    }
}

/// The reference over which a client's first call goes.
pub(crate) fn client_reference(
    alloc: Global,
    setting: &ClientSetting<'_>,
) -> Result<GroupRef, NoMemory>
    requires { HasPorts setting.now }
    ensures is { IfOk result (λ reference. reference ≡ reference_of setting.now) }
    ensures hosts { IfOk result (λ reference. HasHosts reference) }
{
    view_reference(
        alloc,
        setting.group,
        setting.type_id,
        setting.view,
        setting.ports,
    )
}
