ghost use Rattle.std.specs.Prelude.{◌≡◌, IfOk};

use ft_base::{GroupId, HostNo, Name, NoMemory};
use std::alloc::Global;

/// A member of a group has failed (chapter 23, the event type `ObjectCrashFault`).
#[derive(Debug, Drop)]
pub struct FaultEvent {
    /// The fault tolerance domain (`FTDomainId`).
    pub domain: Name,
    /// The member's host (`Location`).
    pub host: HostNo,
    /// The group's repository id (`TypeId`).
    pub type_id: Name,
    /// The group (`ObjectGroupId`).
    pub group: GroupId,
}

impl FaultEvent {
    pub fn copy(&self, alloc: Global) -> Result<FaultEvent, NoMemory>
        ensures { IfOk result (λ event. event ≡ self.now) }
    {
        Ok(FaultEvent {
            domain: self.domain.copy(alloc)?,
            host: self.host,
            type_id: self.type_id.copy(alloc)?,
            group: self.group,
        })
    }
}
