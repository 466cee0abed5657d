//! System exceptions.

use cdr_codec::{Order, Raw};
use ft_base::{Bytes, NoMemory};
use row_words::{RowFault, bytes_of, number, order_of, put_bytes, put_hex, put_text};
use std::alloc::{AllocError, Global};
use sys_faults::{SysFault, SysKind, read_fault, write_fault};

// The bytes of an exception that has a name.
fn rewritten(alloc: Global, fault: &SysFault, order: Order) -> Result<Option<Bytes>, NoMemory> {
    match &fault.kind {
        SysKind::Unknown(_) => Ok(None),
        _ => Ok(Some(write_fault(alloc, fault, order)?)),
    }
}

fn put_kind(kind: &SysKind, out: &mut String) -> Result<(), AllocError> {
    match kind.name() {
        Some(name) => put_text(name, out),
        None => match kind {
            SysKind::Unknown(id) => put_bytes(id.bytes(), out),
            _ => Ok(()),
        },
    }
}

/// `exception ORDER PLACE BYTES`: the system exception of a body that has this place in its message, and, where it has
/// a name, its bytes once it is written again.
pub fn exception(alloc: Global, words: &[&str], out: &mut String) -> Result<(), RowFault> {
    let [order, place, bytes] = words else {
        return Err(RowFault::NoRow);
    };
    let body = Raw {
        order: order_of(*order)?,
        align: u8::try_from(number(*place)?)?,
        bytes: Bytes::from_vec(bytes_of(alloc, *bytes)?),
    };
    match read_fault(alloc, &body) {
        Ok(fault) => put_fault(alloc, body.order, &fault, out),
        Err(fault) => Ok(write!(out, "refused {fault}")?),
    }
}

fn put_fault(
    alloc: Global,
    order: Order,
    fault: &SysFault,
    out: &mut String,
) -> Result<(), RowFault> {
    let fault = fault.copy(alloc)?;
    put_kind(&fault.kind, out)?;
    write!(
        out,
        ", minor {}, completed {:?}",
        fault.minor, fault.completed
    )?;
    if let Some(bytes) = rewritten(alloc, &fault, order)? {
        out.push_str(", again ")?;
        put_hex(bytes.bytes(), out)?;
    }
    Ok(())
}
