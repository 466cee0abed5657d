//! The object keys of groups, and the ports of hosts.
ghost use Rattle.std.specs.Prelude.{◌≡◌, ◌≢◌, ◌≤◌, ◌<◌, ◌^◌, length, IfOk, IfSome, IfNone, None};
ghost use Rattle.ft_base.specs.declared.numbers.GroupId.{GroupId as AGroup};
ghost use Rattle.iogr_reference.specs.Choices.{object_key, group_of_key, port_of};

use crate::choices::{FIRST_PORT, KEY_LENGTH, KEY_SIGN};
use byteorder::{BigEndian, ByteOrder};
use ft_base::{Bytes, GroupId, HostNo, NoMemory};
use std::alloc::Global;

/// The object key of a group.
pub fn object_key(alloc: Global, group: GroupId) -> Result<Bytes, NoMemory>
    ensures key { IfOk result (λ key. key ≡ object_key group) }
    ensures short { IfOk result (λ key. length key ≡ KEY_LENGTH) }
{
    let mut key = Vec::from_slice(alloc, KEY_SIGN.as_slice())?;
    key.extend_from_slice(&group.0.to_be_bytes())?;
    Ok(Bytes::from_vec(key))
}

fn group_in_key(key: &[u8]) -> Option<GroupId>
    ensures { result ≡ group_of_key key.now }
{
    if key.len() != KEY_LENGTH {
        return None;
    }
    if &key[..4] == KEY_SIGN.as_slice() {
        Some(GroupId(BigEndian::read_u64(&key[4..])))
    } else {
        None
    }
}

/// The group whose object key this is.
pub fn group_of_key(key: &[u8]) -> Option<GroupId>
    ensures named { IfSome result (λ group. key.now ≡ object_key group) }
    ensures other { IfNone result ((group : AGroup) → group.0 < 2 ^ 64 → key.now ≢ object_key group) }
    ensures value { result ≡ group_of_key key.now }
{
    group_in_key(key)
}

/// The port at which a host listens.
pub fn port_of(host: HostNo) -> u16
    ensures { result ≡ port_of host.0 }
{
    FIRST_PORT + u16::from(host.0)
}
