//! The body of a system exception, read.
ghost use Rattle.std.specs.Prelude.{◌≡◌, ◌+◌, ◌<◌, ◌^◌, length, IfOk};
ghost use Rattle.cdr_codec.specs.Calls.{value_fault, Gives, Tells, Refuses};
ghost use Rattle.sys_faults.specs.declared.faults.SysFault.{SysFault as Exception};
ghost use Rattle.sys_faults.specs.Bodies.{kind_of, completed_of, told, told_with, fault_of, fault_in, wrong_body, SpellsFault};

use crate::faults::{Completed, SysFault, SysKind};
use crate::ids::find_kind;
use cdr_codec::{CdrFault, CdrReader, Order, Raw};
use ft_base::{Bytes, NoMemory};
use std::alloc::Global;
use thiserror::Error;

/// Why a body is no system exception.
#[derive(Clone, Copy, Debug, PartialEq, Eq, Error)]
pub enum SysReadFault {
    /// A field can't be read. Its place counts from the last multiple of 8 of the message that isn't
    /// behind the body's first byte: in an aligned body, from that byte.
    #[error("{0}")]
    Bad(CdrFault),
    /// A completion status that is none, with its number.
    #[error("completion status {0}")]
    BadCompleted(u32),
    #[error("no memory")]
    NoMemory,
}

fn completed_of(status: u32) -> Option<Completed>
    ensures { result ≡ completed_of status }
{
    match status {
        0 => Some(Completed::Yes),
        1 => Some(Completed::No),
        2 => Some(Completed::Maybe),
        _ => None,
    }
}

fn kind_of(alloc: Global, id: &[u8]) -> Result<SysKind, NoMemory>
    ensures { IfOk result (λ kind. kind ≡ kind_of id.now) }
{
    match find_kind(id) {
        Some(kind) => Ok(kind),
        None => {
            let id = Bytes::of(alloc, id)?;
            Ok(SysKind::Unknown(id))
        }
    }
}

fn fields_at<'a>(reader: &mut CdrReader<'a>) -> Result<(&'a [u8], u32, u32), CdrFault>
    ensures { Gives (λ x. told_with x.0.now x.1 x.2) value_fault result (told.read reader.old) reader.new }
{
    let id = reader.read_string()?;
    let minor = reader.read_u32()?;
    let status = reader.read_u32()?;
    Ok((id, minor, status))
}

fn fault_of(alloc: Global, id: &[u8], minor: u32, status: u32) -> Result<SysFault, SysReadFault>
    ensures { Tells (λ fault. fault) wrong_body result (fault_of (told_with id.now minor status)) }
{
    match completed_of(status) {
        None => Err(SysReadFault::BadCompleted(status)),
        Some(completed) => match kind_of(alloc, id) {
            Ok(kind) => Ok(SysFault {
                kind,
                minor,
                completed,
            }),
            Err(NoMemory) => Err(SysReadFault::NoMemory),
        },
    }
}

fn read_exactly(alloc: Global, body: &Raw) -> Result<SysFault, SysReadFault>
    requires { body.now.align + length body.now.bytes + 8 < 2 ^ 32 }
    ensures { Tells (λ fault. fault) wrong_body result (fault_in body.now) }
{
    let mut reader = CdrReader::new(body.order, body.align as u32, body.bytes.bytes());
    match fields_at(&mut reader) {
        Ok((id, minor, status)) => fault_of(alloc, id, minor, status),
        Err(wrong) => Err(SysReadFault::Bad(wrong)),
    }
}

/// The system exception in the body of a reply. What follows its last field is ignored.
pub fn read_fault(alloc: Global, body: &Raw) -> Result<SysFault, SysReadFault>
    requires { body.now.align + length body.now.bytes + 8 < 2 ^ 32 }
    ensures found { IfOk result (SpellsFault body.now) }
    ensures refused { Refuses wrong_body result ((fault : Exception) → SpellsFault body.now fault → ⊥) }
    ensures value { Tells (λ fault. fault) wrong_body result (fault_in body.now) }
{
    read_exactly(alloc, body)
}
