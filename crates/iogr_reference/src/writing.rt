ghost use Rattle.std.specs.Prelude.{◌≡◌, OnOk, OnErr};
ghost use Rattle.cdr_codec.specs.Calls.{appended, Keeps};
ghost use Rattle.iogr_reference.specs.Formats.{ior, AreNumbered, IsWritable};
ghost use Rattle.iogr_reference.specs.Laws.{Wrote};

use crate::references::Ior;
use cdr_codec::{CdrWriter, write_all_tagged};
use ft_base::NoMemory;

#[tactic(auto, using(crate::proofs::ViewLemmas::ior_written))]
fn write_parts(reference: &Ior, writer: &mut CdrWriter) -> Result<(), NoMemory>
    requires { IsWritable reference.now }
    ensures written { OnOk result (writer.new ≡ appended ior.written reference.now writer.old) }
    ensures numbered { OnOk result (AreNumbered reference.now.profiles) }
    ensures kept { OnErr result (Keeps writer.old writer.new) }
{
    writer.write_string(reference.type_id.bytes())?;
    write_all_tagged(reference.profiles.as_slice(), writer)?;
    Ok(())
}

fn write_exactly(reference: &Ior, writer: &mut CdrWriter) -> Result<(), NoMemory>
    requires { IsWritable reference.now }
    ensures written { OnOk result (writer.new ≡ appended ior.written reference.now writer.old) }
    ensures numbered { OnOk result (AreNumbered reference.now.profiles) }
    ensures left { OnErr result (writer.new ≡ writer.old) }
{
    let length = writer.bytes().len();
    match write_parts(reference, writer) {
        Ok(()) => Ok(()),
        Err(NoMemory) => {
            writer.truncate(length);
            Err(NoMemory)
        }
    }
}

/// Writes a reference. A call that finds no memory leaves the writer as it was.
pub fn write_ior(reference: &Ior, writer: &mut CdrWriter) -> Result<(), NoMemory>
    requires { IsWritable reference.now }
    ensures spelled { OnOk result (Wrote ior writer.old reference.now writer.new) }
    ensures valid { OnOk result (ior.Valid reference.now) }
    ensures written { OnOk result (writer.new ≡ appended ior.written reference.now writer.old) }
    ensures left { OnErr result (writer.new ≡ writer.old) }
{
    write_exactly(reference, writer)
}
