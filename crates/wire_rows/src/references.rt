//! References of objects and of groups.
ghost use Rattle.std.specs.Prelude.{◌<◌, length, IfOk};
ghost use Rattle.iogr_reference.specs.Formats.{IsWritable, AreShort};

use cdr_codec::{CdrReader, CdrWriter};
use ft_base::{Bytes, GroupId, HostNo, Members, Version, View};
use iogr_reference::{
    GroupRef, Iiop, Ior, Ports, Profile, from_text, group_of_key, group_ref_of, key_of, name_of_id,
    object_key, port_of, read_ior, read_profile, ref_of, repository_id, to_text, write_ior,
};
use row_words::{
    RowFault, bytes_of, name_of, number, order_of, put_bytes, put_hex, put_separator, put_text,
};
use std::alloc::{AllocError, Global};

fn ports_of(alloc: Global, words: [&str; 3]) -> Result<Ports, RowFault>
    ensures { IfOk result (λ ports. 2 < length ports) }
{
    let [first, second, third] = words;
    let first = u16::try_from(number(first)?)?;
    let second = u16::try_from(number(second)?)?;
    let third = u16::try_from(number(third)?)?;
    Ok(Ports::from_vec(Vec::from_slice(alloc, &[first, second, third])?))
}

// The reference of a group of the hosts 0, 1 and 2.
fn reference_of(alloc: Global, words: &[&str]) -> Result<Ior, RowFault>
    ensures { IfOk result IsWritable }
{
    let [group, type_id, version, primary, first, second, third] = words else {
        return Err(RowFault::NoRow);
    };
    let mut members = Members::new();
    members.join(HostNo(0));
    members.join(HostNo(1));
    members.join(HostNo(2));
    let view = View {
        version: Version(u32::try_from(number(*version)?)?),
        members,
        primary: Some(HostNo(u8::try_from(number(*primary)?)?)),
    };
    let ports = ports_of(alloc, [*first, *second, *third])?;
    let group = GroupId(u64::try_from(number(*group)?)?);
    Ok(ref_of(alloc, group, &name_of(alloc, *type_id)?, &view, &ports)?)
}

/// `reference GROUP TYPE VERSION PRIMARY PORT PORT PORT`: the reference of a group of the hosts 0, 1 and 2, as a text.
pub fn reference(alloc: Global, words: &[&str], out: &mut String) -> Result<(), RowFault> {
    let reference = reference_of(alloc, words)?;
    let text = to_text(alloc, &reference)?;
    Ok(put_text(text.bytes(), out)?)
}

/// `reference-in ORDER GROUP TYPE VERSION PRIMARY PORT PORT PORT`: the same, as bytes.
pub fn reference_in(alloc: Global, words: &[&str], out: &mut String) -> Result<(), RowFault> {
    let [order, words @ ..] = words else {
        return Err(RowFault::NoRow);
    };
    let reference = reference_of(alloc, words)?;
    let mut writer = CdrWriter::new(alloc, order_of(*order)?, 0);
    write_ior(&reference, &mut writer)?;
    Ok(put_hex(writer.bytes(), out)?)
}

fn put_profile(profile: &Profile, out: &mut String) -> Result<(), AllocError> {
    write!(out, "profile {} ", profile.tag)?;
    put_bytes(profile.content.bytes(), out)
}

fn put_reference(reference: &Ior, out: &mut String) -> Result<(), AllocError> {
    out.push_str("type ")?;
    put_bytes(reference.type_id.bytes(), out)?;
    for profile in reference.profiles.as_slice() {
        out.push_str(", ")?;
        put_profile(profile, out)?;
    }
    Ok(())
}

fn put_member(iiop: &Iiop, out: &mut String) -> Result<(), AllocError> {
    write!(out, ", 1.{} ", iiop.minor)?;
    put_bytes(iiop.host.bytes(), out)?;
    write!(out, " {} ", iiop.port)?;
    put_bytes(iiop.key.bytes(), out)
}

fn put_group(group: &GroupRef, out: &mut String) -> Result<(), AllocError> {
    write!(out, "group {} in ", group.group.0)?;
    put_bytes(group.domain.bytes(), out)?;
    write!(out, ", version {}, type ", group.version.0)?;
    put_bytes(group.type_id.bytes(), out)?;
    match group.primary {
        Some(place) => write!(out, ", primary {place}")?,
        None => out.push_str(", no primary")?,
    }
    for iiop in group.profiles.as_slice() {
        put_member(iiop, out)?;
    }
    Ok(())
}

fn put_group_of(alloc: Global, reference: &Ior, out: &mut String) -> Result<(), AllocError>
    requires { AreShort reference.now.profiles }
{
    match group_ref_of(alloc, reference) {
        Ok(group) => put_group(&group, out),
        Err(fault) => write!(out, "refused {fault}"),
    }
}

// No text of a reference is longer.
const TEXT_LIMIT: usize = 65_536;

/// `ior TEXT`: the reference that a text spells.
pub fn ior(alloc: Global, words: &[&str], out: &mut String) -> Result<(), RowFault> {
    let text = match words {
        [text] => text.as_bytes(),
        _ => b"",
    };
    if text.len() > TEXT_LIMIT {
        return Err(RowFault::NoRow);
    }
    match from_text(alloc, text) {
        Ok(reference) => Ok(put_reference(&reference, out)?),
        Err(fault) => Ok(write!(out, "refused {fault}")?),
    }
}

/// `group TEXT`: the group that the reference of a text names.
pub fn group(alloc: Global, words: &[&str], out: &mut String) -> Result<(), RowFault> {
    let [text] = words else {
        return Err(RowFault::NoRow);
    };
    if text.len() > TEXT_LIMIT {
        return Err(RowFault::NoRow);
    }
    match from_text(alloc, text.as_bytes()) {
        Ok(reference) => Ok(put_group_of(alloc, &reference, out)?),
        Err(fault) => Ok(write!(out, "refused {fault}")?),
    }
}

/// `group-in ORDER BYTES`: the same, of a reference as bytes; and where the reader stands then.
pub fn group_in(alloc: Global, words: &[&str], out: &mut String) -> Result<(), RowFault> {
    let [order, bytes] = words else {
        return Err(RowFault::NoRow);
    };
    let bytes = bytes_of(alloc, *bytes)?;
    let mut reader = CdrReader::new(order_of(*order)?, 0, bytes.as_slice());
    match read_ior(alloc, &mut reader) {
        Ok(reference) => put_group_of(alloc, &reference, out)?,
        Err(fault) => write!(out, "refused {fault}")?,
    }
    Ok(write!(out, ", at {}, {} left", reader.place(), reader.rest().len())?)
}

/// `profiles ORDER BYTES`: two profiles, one behind the other, and where the reader stands behind each.
pub fn profiles(alloc: Global, words: &[&str], out: &mut String) -> Result<(), RowFault> {
    let [order, bytes] = words else {
        return Err(RowFault::NoRow);
    };
    let bytes = bytes_of(alloc, *bytes)?;
    let mut reader = CdrReader::new(order_of(*order)?, 0, bytes.as_slice());
    for _ in 0..2 {
        put_separator("; ", out)?;
        match read_profile(alloc, &mut reader) {
            Ok(profile) => put_profile(&profile, out)?,
            Err(fault) => write!(out, "refused {fault}")?,
        }
        write!(out, ", at {}", reader.place())?;
    }
    Ok(())
}

/// `key TAG BYTES`: the object key of a profile.
pub fn key(alloc: Global, words: &[&str], out: &mut String) -> Result<(), RowFault> {
    let [tag, content] = words else {
        return Err(RowFault::NoRow);
    };
    let tag = u32::try_from(number(*tag)?)?;
    let content = Bytes::from_vec(bytes_of(alloc, *content)?);
    match key_of(alloc, &Profile { tag, content })? {
        Some(key) => Ok(put_bytes(key.bytes(), out)?),
        None => Ok(out.push_str("no key")?),
    }
}

/// `object-key GROUP`: the object key of a group.
pub fn key_of_group(alloc: Global, words: &[&str], out: &mut String) -> Result<(), RowFault> {
    let [group] = words else {
        return Err(RowFault::NoRow);
    };
    let key = object_key(alloc, GroupId(u64::try_from(number(*group)?)?))?;
    Ok(put_hex(key.bytes(), out)?)
}

/// `group-of BYTES`: the group whose object key this is.
pub fn group_of(alloc: Global, words: &[&str], out: &mut String) -> Result<(), RowFault> {
    let [key] = words else {
        return Err(RowFault::NoRow);
    };
    let key = bytes_of(alloc, *key)?;
    match group_of_key(key.as_slice()) {
        Some(group) => Ok(write!(out, "{}", group.0)?),
        None => Ok(out.push_str("no group")?),
    }
}

/// `port HOST`: the port at which a host listens.
pub fn port(words: &[&str], out: &mut String) -> Result<(), RowFault> {
    let [host] = words else {
        return Err(RowFault::NoRow);
    };
    let port = port_of(HostNo(u8::try_from(number(*host)?)?));
    Ok(write!(out, "{port}")?)
}

/// `id NAME`: the repository id of a type or of a user exception.
pub fn id(alloc: Global, words: &[&str], out: &mut String) -> Result<(), RowFault> {
    let [name] = words else {
        return Err(RowFault::NoRow);
    };
    let id = repository_id(alloc, &name_of(alloc, *name)?)?;
    Ok(put_bytes(id.bytes(), out)?)
}

/// `name-of BYTES`: the name whose repository id this is.
pub fn name_in(alloc: Global, words: &[&str], out: &mut String) -> Result<(), RowFault> {
    let [id] = words else {
        return Err(RowFault::NoRow);
    };
    let id = bytes_of(alloc, *id)?;
    match name_of_id(alloc, id.as_slice())? {
        Some(name) => Ok(put_bytes(name.bytes(), out)?),
        None => Ok(out.push_str("no name")?),
    }
}
