ghost use Rattle.std.specs.Prelude.{◌≡◌, ◌+◌, ◌<◌, ◌^◌, length, MatchResult, IfOk, OnErr, Ok, Err};
ghost use Rattle.cdr_codec.specs.Calls.{fault};
ghost use Rattle.cdr_codec.specs.Encapsulations.{begun, opened, IsOpened, IsUnopened, IsEncapsulated};

use crate::faults::{CdrFault, CdrWhy};
use crate::orders::Order;
use crate::readers::CdrReader;
use crate::writers::CdrWriter;
use ft_base::NoMemory;
use std::alloc::Global;

// Most encapsulations are no longer, and so are written in one piece of memory.
const ENCAPSULATION_ROOM: usize = 96;

/// A writer that began an encapsulation: the octet of its byte order is written.
pub fn begin_encapsulation(alloc: Global, order: Order) -> Result<CdrWriter, NoMemory>
    ensures begun { IfOk result (λ writer. writer ≡ begun order) }
    ensures encapsulated { IfOk result IsEncapsulated }
{
    let mut writer = CdrWriter::with_room(alloc, order, 0, ENCAPSULATION_ROOM)?;
    writer.write_octet(order.sign())?;
    Ok(writer)
}

fn open_exactly(piece: &[u8]) -> Result<CdrReader<'_>, CdrFault>
    requires { length piece.now + 8 < 2 ^ 32 }
    ensures { MatchResult result (λ reader. opened piece.now ≡ Ok reader) (λ wrong. opened piece.now ≡ Err (fault wrong)) }
{
    match piece {
        [] => Err(CdrFault {
            why: CdrWhy::Short,
            place: 0,
        }),
        [0, rest @ ..] => Ok(CdrReader::new(Order::Big, 1, rest)),
        [1, rest @ ..] => Ok(CdrReader::new(Order::Little, 1, rest)),
        [_, ..] => Err(CdrFault {
            why: CdrWhy::BadOrder,
            place: 0,
        }),
    }
}

/// A reader of what an encapsulation holds, in its own byte order. Its places begin at the octet of
/// the byte order, which is read already.
pub fn open_encapsulation(piece: &[u8]) -> Result<CdrReader<'_>, CdrFault>
    requires { length piece.now + 8 < 2 ^ 32 }
    ensures found { IfOk result (IsOpened piece.now) }
    ensures refused { OnErr result (IsUnopened piece.now) }
    ensures read { MatchResult result (λ reader. opened piece.now ≡ Ok reader) (λ wrong. opened piece.now ≡ Err (fault wrong)) }
{
    open_exactly(piece)
}
