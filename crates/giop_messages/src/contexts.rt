//! The service contexts of a request or a reply (GIOP chapter, `IOP::ServiceContextList`).
ghost use Rattle.std.specs.Prelude.{◌≡◌, ◌<◌, ◌^◌, length, OnOk};
ghost use Rattle.cdr_codec.specs.Calls.{Gives, appended};
ghost use Rattle.giop_messages.specs.Faults.{read_fault};
ghost use Rattle.giop_messages.specs.Fields.{contexts};
ghost use Rattle.giop_messages.specs.Writing.{AreContexts, AreNumbered};

use crate::faults::ReadFault;
use cdr_codec::{CdrReader, CdrWriter, read_all_tagged, write_all_tagged};
use ft_base::NoMemory;
use ft_contexts::Contexts;
use std::alloc::Global;

/// The contexts, in order.
pub fn read_contexts(alloc: Global, reader: &mut CdrReader) -> Result<Contexts, ReadFault>
    ensures { Gives (λ list. list) read_fault result (contexts.read reader.old) reader.new }
{
    let list = read_all_tagged(alloc, reader)?;
    Ok(Contexts::from_vec(list))
}

/// The contexts, in order.
pub fn write_contexts(list: &Contexts, writer: &mut CdrWriter) -> Result<(), NoMemory>
    requires { AreContexts list.now }
    ensures written { OnOk result (writer.new ≡ appended contexts.written list.now writer.old) }
    ensures numbered { OnOk result (AreNumbered list.now) }
{
    write_all_tagged(list.as_slice(), writer)
}
