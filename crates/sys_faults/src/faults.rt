ghost use Rattle.std.specs.Prelude.{◌≡◌, Some, None, option_map, IfOk};
ghost use Rattle.sys_faults.specs.Kinds.{kind_name};

use ft_base::{Bytes, NoMemory};
use std::alloc::Global;

/// Whether the request was run before the exception came (`completion_status`).
#[derive(Clone, Copy, Debug, PartialEq, Eq)]
pub enum Completed {
    Yes,
    No,
    Maybe,
}

/// Which of the standard exceptions it is.
#[derive(Debug, Drop)]
pub enum SysKind {
    ObjectNotExist,
    BadContext,
    InvObjref,
    Transient,
    BadOperation,
    Marshal,
    ImpLimit,
    NoResources,
    PersistStore,
    CommFailure,
    NoResponse,
    ObjAdapter,
    NoMemory,
    /// An exception of another name, by its repository id.
    Unknown(Bytes),
}

/// A system exception. Its minor code tells causes of one exception apart.
#[derive(Debug, Drop)]
pub struct SysFault {
    pub kind: SysKind,
    pub minor: u32,
    pub completed: Completed,
}

impl SysKind {
    /// The exception's name in IDL; none for one that is known by its repository id alone.
    pub fn name(&self) -> Option<&'static [u8]>
        ensures { option_map (λ name. name.now) result ≡ kind_name self.now }
    {
        match self {
            SysKind::ObjectNotExist => Some(b"OBJECT_NOT_EXIST"),
            SysKind::BadContext => Some(b"BAD_CONTEXT"),
            SysKind::InvObjref => Some(b"INV_OBJREF"),
            SysKind::Transient => Some(b"TRANSIENT"),
            SysKind::BadOperation => Some(b"BAD_OPERATION"),
            SysKind::Marshal => Some(b"MARSHAL"),
            SysKind::ImpLimit => Some(b"IMP_LIMIT"),
            SysKind::NoResources => Some(b"NO_RESOURCES"),
            SysKind::PersistStore => Some(b"PERSIST_STORE"),
            SysKind::CommFailure => Some(b"COMM_FAILURE"),
            SysKind::NoResponse => Some(b"NO_RESPONSE"),
            SysKind::ObjAdapter => Some(b"OBJ_ADAPTER"),
            SysKind::NoMemory => Some(b"NO_MEMORY"),
            SysKind::Unknown(_) => None,
        }
    }

    /// An equal kind.
    pub fn copy(&self, alloc: Global) -> Result<SysKind, NoMemory>
        ensures { IfOk result (λ kind. kind ≡ self.now) }
    {
        let kind = match self {
            SysKind::ObjectNotExist => SysKind::ObjectNotExist,
            SysKind::BadContext => SysKind::BadContext,
            SysKind::InvObjref => SysKind::InvObjref,
            SysKind::Transient => SysKind::Transient,
            SysKind::BadOperation => SysKind::BadOperation,
            SysKind::Marshal => SysKind::Marshal,
            SysKind::ImpLimit => SysKind::ImpLimit,
            SysKind::NoResources => SysKind::NoResources,
            SysKind::PersistStore => SysKind::PersistStore,
            SysKind::CommFailure => SysKind::CommFailure,
            SysKind::NoResponse => SysKind::NoResponse,
            SysKind::ObjAdapter => SysKind::ObjAdapter,
            SysKind::NoMemory => SysKind::NoMemory,
            SysKind::Unknown(id) => {
                let id = id.copy(alloc)?;
                return Ok(SysKind::Unknown(id));
            }
        };
        Ok(kind)
    }
}

impl SysFault {
    /// An equal exception.
    pub fn copy(&self, alloc: Global) -> Result<SysFault, NoMemory>
        ensures { IfOk result (λ fault. fault ≡ self.now) }
    {
        let kind = self.kind.copy(alloc)?;
        Ok(SysFault {
            kind,
            minor: self.minor,
            completed: self.completed,
        })
    }
}
