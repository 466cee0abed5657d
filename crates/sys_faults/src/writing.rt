//! The body of a system exception, written.
ghost use Rattle.std.specs.Prelude.{◌≡◌, IfOk, OnOk, Ok};
ghost use Rattle.cdr_codec.specs.Calls.{appended};
ghost use Rattle.sys_faults.specs.Bodies.{status_of, told, told_of, fault_in, IsOtherId, OnUnknown};

use crate::faults::{Completed, SysFault};
use crate::ids::id_of;
use cdr_codec::{CdrWriter, Order};
use ft_base::{Bytes, NoMemory};
use std::alloc::Global;

fn status_of(completed: Completed) -> u32
    ensures { result ≡ status_of completed }
{
    match completed {
        Completed::Yes => 0,
        Completed::No => 1,
        Completed::Maybe => 2,
    }
}

#[tactic(auto, using(crate::proofs::BodyLaws::told_written, crate::proofs::BodyLaws::fault_valid))]
fn write_fields(writer: &mut CdrWriter, fault: &SysFault) -> Result<(), NoMemory>
    requires { OnUnknown fault.now.kind IsOtherId }
    ensures valid { OnOk result (told.Valid (told_of fault.now)) }
    ensures written { OnOk result (writer.new ≡ appended told.written (told_of fault.now) writer.old) }
{
    let minor = fault.minor;
    let status = status_of(fault.completed);
    writer.write_string(id_of(&fault.kind))?;
    writer.write_u32(minor)?;
    writer.write_u32(status)?;
    Ok(())
}

fn write_exactly(alloc: Global, fault: &SysFault, order: Order) -> Result<Bytes, NoMemory>
    requires { OnUnknown fault.now.kind IsOtherId }
    ensures valid { IfOk result (λ bytes. told.Valid (told_of fault.now)) }
    ensures written { IfOk result (λ bytes. bytes ≡ told.written order 0 (told_of fault.now)) }
{
    let mut writer = CdrWriter::new(alloc, order, 0);
    write_fields(&mut writer, fault)?;
    Ok(writer.finish())
}

/// The body of this exception, in this byte order. An id of an `Unknown` has no zero byte, fits a
/// string, and is no named exception's.
pub fn write_fault(alloc: Global, fault: &SysFault, order: Order) -> Result<Bytes, NoMemory>
    requires { OnUnknown fault.now.kind IsOtherId }
    ensures written { IfOk result (λ bytes. bytes ≡ told.written order 0 (told_of fault.now)) }
    ensures read { IfOk result (λ bytes. fault_in (record { order = order; align = 0; bytes = bytes }) ≡ Ok fault.now) }
{
    write_exactly(alloc, fault, order)
}
