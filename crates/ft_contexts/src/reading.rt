//! What the content of a context holds.
ghost use Rattle.std.specs.Prelude.{◌≡◌, ◌+◌, ◌<◌, ◌^◌, length};
ghost use Rattle.cdr_codec.specs.Calls.{field_fault, Gives, Tells};
ghost use Rattle.cdr_codec.specs.Encapsulations.{held};
ghost use Rattle.ft_contexts.specs.Contents.{group_version, client_id, request};

use cdr_codec::{CdrFault, CdrReader, CdrWhy, FieldFault, open_encapsulation};
use ft_base::{Key, Name, NameFault, Retention, Tick, Version};
use std::alloc::Global;

/// The version that a content holds.
pub(crate) fn version_in(piece: &[u8]) -> Result<Version, FieldFault>
    requires { length piece.now + 8 < 2 ^ 32 }
    ensures { Tells (λ version. version) field_fault result (held group_version piece.now) }
{
    let mut reader = open_encapsulation(piece)?;
    let number = reader.read_u32()?;
    Ok(Version(number))
}

fn client_at(alloc: Global, reader: &mut CdrReader) -> Result<Name, FieldFault>
    ensures { Gives (λ name. name) field_fault result (client_id.read reader.old) reader.new }
{
    let place = reader.place();
    let start = place + (4 - place % 4) % 4;
    let text = reader.read_string()?;
    match Name::of(alloc, text) {
        Ok(name) => Ok(name),
        Err(NameFault::NoMemory) => Err(FieldFault::NoMemory),
        Err(_) => Err(FieldFault::Bad(CdrFault {
            why: CdrWhy::BadString,
            place: start,
        })),
    }
}

fn key_at(alloc: Global, reader: &mut CdrReader) -> Result<Key, FieldFault>
    ensures { Gives (λ key. key) field_fault result (request.read reader.old) reader.new }
{
    let client = client_at(alloc, reader)?;
    let retention = reader.read_i32()?;
    let expiration = reader.read_u64()?;
    Ok(Key {
        client,
        retention: Retention(retention),
        expiration: Tick(expiration),
    })
}

/// The key that a content holds.
pub(crate) fn key_in(alloc: Global, piece: &[u8]) -> Result<Key, FieldFault>
    requires { length piece.now + 8 < 2 ^ 32 }
    ensures { Tells (λ key. key) field_fault result (held request piece.now) }
{
    let mut reader = open_encapsulation(piece)?;
    key_at(alloc, &mut reader)
}
