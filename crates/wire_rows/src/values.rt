//! Values, one behind the other.
ghost use Rattle.std.specs.Prelude.{IfOk};
ghost use Rattle.cdr_codec.specs.Encapsulations.{IsEncapsulated};

use cdr_codec::{
    CdrFault, CdrReader, CdrWriter, FieldFault, Order, begin_encapsulation, open_encapsulation,
    read_all_tagged, write_all_tagged,
};
use ft_base::NoMemory;
use iogr_reference::Component;
use row_words::{
    RowFault, bytes_of, name_of, number, order_of, order_word, put_bytes, put_hex, put_separator,
};
use std::alloc::{AllocError, Global};
use std::fmt::Display;

fn put_value<T: Display + Drop>(
    read: Result<T, CdrFault>,
    out: &mut String,
) -> Result<(), AllocError> {
    match read {
        Ok(value) => write!(out, "{value}, "),
        Err(fault) => write!(out, "refused {fault}, "),
    }
}

fn put_piece(read: Result<&[u8], CdrFault>, out: &mut String) -> Result<(), AllocError> {
    match read {
        Ok(piece) => {
            put_bytes(piece, out)?;
            out.push_str(", ")
        }
        Err(fault) => write!(out, "refused {fault}, "),
    }
}

// Reads a value of this type, and says it.
fn read_one(kind: &str, reader: &mut CdrReader, out: &mut String) -> Result<(), RowFault> {
    match kind {
        "octet" => put_value(reader.read_octet(), out)?,
        "bool" => put_value(reader.read_bool(), out)?,
        "u16" => put_value(reader.read_u16(), out)?,
        "u32" => put_value(reader.read_u32(), out)?,
        "u64" => put_value(reader.read_u64(), out)?,
        "i16" => put_value(reader.read_i16(), out)?,
        "i32" => put_value(reader.read_i32(), out)?,
        "i64" => put_value(reader.read_i64(), out)?,
        "string" => put_piece(reader.read_string(), out)?,
        "octets" => put_piece(reader.read_octets(), out)?,
        _ => return Err(RowFault::NoRow),
    }
    Ok(())
}

// Reads a value of each type, and says where the reader stands then.
fn read_all(reader: &mut CdrReader, kinds: &[&str], out: &mut String) -> Result<(), RowFault> {
    for kind in kinds {
        read_one(*kind, reader, out)?;
    }
    write!(out, "at {}, {} left", reader.place(), reader.rest().len())?;
    Ok(())
}

/// `read ORDER PLACE BYTES TYPE..`: values of these types from bytes, the first of which has this place.
pub fn read(alloc: Global, words: &[&str], out: &mut String) -> Result<(), RowFault> {
    let [order, place, bytes, kinds @ ..] = words else {
        return Err(RowFault::NoRow);
    };
    let order = order_of(*order)?;
    let place = u16::try_from(number(*place)?)?;
    let bytes = bytes_of(alloc, *bytes)?;
    let mut reader = CdrReader::new(order, u32::from(place), bytes.as_slice());
    read_all(&mut reader, kinds, out)
}

fn write_number(kind: &str, value: i64, writer: &mut CdrWriter) -> Result<(), RowFault> {
    match kind {
        "octet" => writer.write_octet(u8::try_from(value)?)?,
        "u16" => writer.write_u16(u16::try_from(value)?)?,
        "u32" => writer.write_u32(u32::try_from(value)?)?,
        "u64" => writer.write_u64(u64::try_from(value)?)?,
        "i16" => writer.write_i16(i16::try_from(value)?)?,
        "i32" => writer.write_i32(i32::try_from(value)?)?,
        "i64" => writer.write_i64(value)?,
        "truncate" => writer.truncate(usize::try_from(value)?),
        _ => return Err(RowFault::NoRow),
    }
    Ok(())
}

fn write_string(alloc: Global, word: &str, writer: &mut CdrWriter) -> Result<(), RowFault> {
    let name = name_of(alloc, word)?;
    Ok(writer.write_string(name.bytes())?)
}

// Writes a value, which stands behind its type and a colon.
fn write_one(alloc: Global, value: &str, writer: &mut CdrWriter) -> Result<(), RowFault> {
    let Some((kind, value)) = value.split_once(':') else {
        return Err(RowFault::NoRow);
    };
    match kind {
        "bool" => writer.write_bool(value == "true")?,
        "string" => write_string(alloc, value, writer)?,
        "octets" => writer.write_octets(bytes_of(alloc, value)?.as_slice())?,
        "piece1" => writer.write_piece(1, bytes_of(alloc, value)?.as_slice())?,
        "piece8" => writer.write_piece(8, bytes_of(alloc, value)?.as_slice())?,
        _ => write_number(kind, number(value)?, writer)?,
    }
    Ok(())
}

fn write_all(
    alloc: Global,
    order: &str,
    place: &str,
    values: &[&str],
) -> Result<CdrWriter, RowFault> {
    let place = u32::try_from(number(place)?)?;
    let mut writer = CdrWriter::new(alloc, order_of(order)?, place);
    for value in values {
        write_one(alloc, *value, &mut writer)?;
    }
    Ok(writer)
}

/// `write ORDER PLACE TYPE:VALUE..`: the bytes of these values, the first of which has this place.
pub fn write(alloc: Global, words: &[&str], out: &mut String) -> Result<(), RowFault> {
    let [order, place, values @ ..] = words else {
        return Err(RowFault::NoRow);
    };
    let writer = write_all(alloc, *order, *place, values)?;
    Ok(put_hex(writer.finish().bytes(), out)?)
}

/// `both ORDER PLACE TYPE:VALUE`: the bytes of a value, and the value that is read from them again.
pub fn both(alloc: Global, words: &[&str], out: &mut String) -> Result<(), RowFault> {
    let [order, place, value] = words else {
        return Err(RowFault::NoRow);
    };
    let writer = write_all(alloc, *order, *place, &[*value])?;
    put_hex(writer.bytes(), out)?;
    out.push_str(", read ")?;
    let Some((kind, _)) = value.split_once(':') else {
        return Err(RowFault::NoRow);
    };
    let place = u16::try_from(number(*place)?)?;
    if writer.bytes().len() > 100 {
        return Err(RowFault::NoRow);
    }
    let mut reader = CdrReader::new(order_of(*order)?, u32::from(place), writer.bytes());
    read_all(&mut reader, &[kind], out)
}

/// `orders FLAGS..`: the byte order that each number of flags names.
pub fn orders(words: &[&str], out: &mut String) -> Result<(), RowFault> {
    for word in words {
        let flags = u8::try_from(number(*word)?)?;
        put_separator(" ", out)?;
        out.push_str(order_word(Order::of_flags(flags)))?;
    }
    Ok(())
}

/// `encapsulation BYTES TYPE..`: the byte order of an encapsulation, and values of these types from it.
pub fn encapsulation(alloc: Global, words: &[&str], out: &mut String) -> Result<(), RowFault> {
    let [bytes, kinds @ ..] = words else {
        return Err(RowFault::NoRow);
    };
    let bytes = bytes_of(alloc, *bytes)?;
    match open_encapsulation(bytes.as_slice()) {
        Ok(mut reader) => {
            write!(out, "{}: ", order_word(reader.order()))?;
            read_all(&mut reader, kinds, out)
        }
        Err(fault) => Ok(write!(out, "refused {fault}")?),
    }
}

/// `begin ORDER TYPE:VALUE..`: an encapsulation of these values.
pub fn begin(alloc: Global, words: &[&str], out: &mut String) -> Result<(), RowFault> {
    let [order, values @ ..] = words else {
        return Err(RowFault::NoRow);
    };
    let mut writer = begin_encapsulation(alloc, order_of(*order)?)?;
    for value in values {
        write_one(alloc, *value, &mut writer)?;
    }
    Ok(put_hex(writer.bytes(), out)?)
}

// The key of a request in big endian order: the client ann, retention id 1, expiration 1000.
fn inner_of(alloc: Global) -> Result<CdrWriter, NoMemory>
    ensures { IfOk result IsEncapsulated }
{
    let mut inner = begin_encapsulation(alloc, Order::Big)?;
    inner.write_string(b"ann")?;
    inner.write_i32(1)?;
    inner.write_u64(1000)?;
    Ok(inner)
}

/// `encapsulate ORDER PLACE`: the encapsulation of a request's key, as octets of which the first has this place, and
/// the octets `!` behind it.
pub fn encapsulate(alloc: Global, words: &[&str], out: &mut String) -> Result<(), RowFault> {
    let [order, place] = words else {
        return Err(RowFault::NoRow);
    };
    let place = u32::try_from(number(*place)?)?;
    let mut writer = CdrWriter::new(alloc, order_of(*order)?, place);
    writer.encapsulate(&inner_of(alloc)?)?;
    writer.write_octets(b"!")?;
    Ok(put_hex(writer.bytes(), out)?)
}

fn put_components(components: &[Component], out: &mut String) -> Result<(), AllocError> {
    for one in components {
        write!(out, "{} ", one.tag)?;
        put_bytes(one.content.bytes(), out)?;
        out.push_str(", ")?;
    }
    Ok(())
}

/// `components ORDER BYTES`: a list of components from bytes, and its bytes once it is written again.
pub fn components(alloc: Global, words: &[&str], out: &mut String) -> Result<(), RowFault> {
    let [order, bytes] = words else {
        return Err(RowFault::NoRow);
    };
    let (order, bytes) = (order_of(*order)?, bytes_of(alloc, *bytes)?);
    let mut reader = CdrReader::new(order, 0, bytes.as_slice());
    let read: Result<Vec<Component>, FieldFault> = read_all_tagged(alloc, &mut reader);
    match read {
        Ok(components) if components.len() < 100 => {
            put_components(components.as_slice(), out)?;
            let mut writer = CdrWriter::new(alloc, order, 0);
            write_all_tagged(components.as_slice(), &mut writer)?;
            write!(out, "{} left, again ", reader.rest().len())?;
            Ok(put_hex(writer.bytes(), out)?)
        }
        Ok(_) => Err(RowFault::NoRow),
        Err(fault) => Ok(write!(out, "refused {fault}")?),
    }
}
