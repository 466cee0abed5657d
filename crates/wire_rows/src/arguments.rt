//! Parameters and results, and their canonical form.

use cdr_codec::{Order, Raw, args_of, canonical, read_one, read_two, result_in};
use ft_base::{Bytes, Par, Signature, Value};
use row_words::{RowFault, bytes_of, number, order_of, put_bytes, put_hex, value_of};
use std::alloc::{AllocError, Global};

// The type of this name; none for a dash.
fn par_of(word: &str) -> Result<Option<Par>, RowFault> {
    match word {
        "i64" => Ok(Some(Par::I64)),
        "u32" => Ok(Some(Par::U32)),
        "bool" => Ok(Some(Par::Bool)),
        "text" => Ok(Some(Par::Text)),
        "octets" => Ok(Some(Par::Octets)),
        "-" => Ok(None),
        _ => Err(RowFault::NoRow),
    }
}

/// `args ORDER PLACE TYPE TYPE BYTES`: the canonical form of parameters of these types, which are a body that has this
/// place in its message.
pub fn args(alloc: Global, words: &[&str], out: &mut String) -> Result<(), RowFault> {
    let [order, place, first, second, bytes] = words else {
        return Err(RowFault::NoRow);
    };
    let signature = Signature {
        first: par_of(*first)?,
        second: par_of(*second)?,
        gives: None,
    };
    let body = Raw {
        order: order_of(*order)?,
        align: u8::try_from(number(*place)?)?,
        bytes: Bytes::from_vec(bytes_of(alloc, *bytes)?),
    };
    match args_of(alloc, &body, &signature) {
        Ok(args) => Ok(put_hex(args.bytes(), out)?),
        Err(fault) => Ok(write!(out, "refused {fault}")?),
    }
}

fn put_value(value: &Value, out: &mut String) -> Result<(), AllocError> {
    match value {
        Value::I64(number) => write!(out, "{number}"),
        Value::U32(number) => write!(out, "{number}"),
        Value::Bool(flag) => write!(out, "{flag}"),
        Value::Text(text) => put_bytes(text.bytes(), out),
        Value::Octets(octets) => put_bytes(octets.bytes(), out),
    }
}

/// `form TYPE:VALUE`: the canonical form of a value, the same in little endian order, and the value that is read from
/// the form.
pub fn form(alloc: Global, words: &[&str], out: &mut String) -> Result<(), RowFault> {
    let [value] = words else {
        return Err(RowFault::NoRow);
    };
    let value = value_of(alloc, *value)?;
    let par = value.par();
    let form = canonical(alloc, std::slice::from_ref(&value))?;
    if form.bytes().len() > 1000 {
        return Err(RowFault::NoRow);
    }
    put_hex(form.bytes(), out)?;
    out.push_str(", le ")?;
    let turned = result_in(alloc, Order::Little, Some(par), form.bytes())?;
    put_hex(turned.bytes(), out)?;
    out.push_str(", read ")?;
    let again = read_one(alloc, par, form.bytes())?;
    Ok(put_value(&again, out)?)
}

/// `forms TYPE:VALUE TYPE:VALUE`: the canonical form of two values, and the values that are read from it.
pub fn forms(alloc: Global, words: &[&str], out: &mut String) -> Result<(), RowFault> {
    let [first, second] = words else {
        return Err(RowFault::NoRow);
    };
    let (first, second) = (value_of(alloc, *first)?, value_of(alloc, *second)?);
    let (one, other) = (first.par(), second.par());
    let form = canonical(alloc, &[first, second])?;
    if form.bytes().len() > 1000 {
        return Err(RowFault::NoRow);
    }
    put_hex(form.bytes(), out)?;
    out.push_str(", read ")?;
    let (first, second) = read_two(alloc, one, other, form.bytes())?;
    put_value(&first, out)?;
    out.push_str(" and ")?;
    Ok(put_value(&second, out)?)
}
