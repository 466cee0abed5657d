//! The repository ids of exceptions.
ghost use Rattle.std.specs.Prelude.{◌≡◌, ◌+◌, ◌<◌, ◌^◌, length, None};
ghost use Rattle.ft_base.specs.Text.{zero_place};
ghost use Rattle.sys_faults.specs.Bodies.{id_of, kind_named, IsOtherId, OnUnknown};

use crate::faults::SysKind;

/// The named exception with this id.
pub(crate) fn find_kind(id: &[u8]) -> Option<SysKind>
    ensures { result ≡ kind_named id.now }
{
    if id == b"IDL:omg.org/CORBA/OBJECT_NOT_EXIST:1.0".as_slice() {
        Some(SysKind::ObjectNotExist)
    } else if id == b"IDL:omg.org/CORBA/BAD_CONTEXT:1.0".as_slice() {
        Some(SysKind::BadContext)
    } else if id == b"IDL:omg.org/CORBA/INV_OBJREF:1.0".as_slice() {
        Some(SysKind::InvObjref)
    } else if id == b"IDL:omg.org/CORBA/TRANSIENT:1.0".as_slice() {
        Some(SysKind::Transient)
    } else if id == b"IDL:omg.org/CORBA/BAD_OPERATION:1.0".as_slice() {
        Some(SysKind::BadOperation)
    } else if id == b"IDL:omg.org/CORBA/MARSHAL:1.0".as_slice() {
        Some(SysKind::Marshal)
    } else if id == b"IDL:omg.org/CORBA/IMP_LIMIT:1.0".as_slice() {
        Some(SysKind::ImpLimit)
    } else if id == b"IDL:omg.org/CORBA/NO_RESOURCES:1.0".as_slice() {
        Some(SysKind::NoResources)
    } else if id == b"IDL:omg.org/CORBA/PERSIST_STORE:1.0".as_slice() {
        Some(SysKind::PersistStore)
    } else if id == b"IDL:omg.org/CORBA/COMM_FAILURE:1.0".as_slice() {
        Some(SysKind::CommFailure)
    } else if id == b"IDL:omg.org/CORBA/NO_RESPONSE:1.0".as_slice() {
        Some(SysKind::NoResponse)
    } else if id == b"IDL:omg.org/CORBA/OBJ_ADAPTER:1.0".as_slice() {
        Some(SysKind::ObjAdapter)
    } else if id == b"IDL:omg.org/CORBA/NO_MEMORY:1.0".as_slice() {
        Some(SysKind::NoMemory)
    } else {
        None
    }
}

/// An exception's id.
pub(crate) fn id_of(kind: &SysKind) -> &[u8]
    requires { OnUnknown kind.now IsOtherId }
    ensures id { result.now ≡ id_of kind.now }
    ensures no_zero { zero_place (id_of kind.now) ≡ None }
    ensures short { length (id_of kind.now) + 1 < 2 ^ 32 }
{
    match kind {
        SysKind::ObjectNotExist => b"IDL:omg.org/CORBA/OBJECT_NOT_EXIST:1.0",
        SysKind::BadContext => b"IDL:omg.org/CORBA/BAD_CONTEXT:1.0",
        SysKind::InvObjref => b"IDL:omg.org/CORBA/INV_OBJREF:1.0",
        SysKind::Transient => b"IDL:omg.org/CORBA/TRANSIENT:1.0",
        SysKind::BadOperation => b"IDL:omg.org/CORBA/BAD_OPERATION:1.0",
        SysKind::Marshal => b"IDL:omg.org/CORBA/MARSHAL:1.0",
        SysKind::ImpLimit => b"IDL:omg.org/CORBA/IMP_LIMIT:1.0",
        SysKind::NoResources => b"IDL:omg.org/CORBA/NO_RESOURCES:1.0",
        SysKind::PersistStore => b"IDL:omg.org/CORBA/PERSIST_STORE:1.0",
        SysKind::CommFailure => b"IDL:omg.org/CORBA/COMM_FAILURE:1.0",
        SysKind::NoResponse => b"IDL:omg.org/CORBA/NO_RESPONSE:1.0",
        SysKind::ObjAdapter => b"IDL:omg.org/CORBA/OBJ_ADAPTER:1.0",
        SysKind::NoMemory => b"IDL:omg.org/CORBA/NO_MEMORY:1.0",
        SysKind::Unknown(id) => id.bytes(),
    }
}
