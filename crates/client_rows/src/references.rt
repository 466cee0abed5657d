//! The reference with which a client begins.
ghost use Rattle.std.specs.Prelude.{◌≤◌, length, IfOk};

use anyhow::{Result, anyhow, bail};
use ft_base::{Bytes, GroupId, Version};
use iogr_reference::{Component, Components, GroupRef, Iiop, IiopList, PROFILE_LIMIT};
use octet_words::{name, no_memory};
use std::alloc::Global;

// `HOST:PORT`
fn profile(alloc: Global, word: &str) -> Result<Iiop> {
    let Some((host, port)) = word.split_once(':') else {
        bail!("no profile: {word}");
    };
    let host = name(alloc, host)?;
    let components: Vec<Component> = Vec::new(alloc);
    Ok(Iiop {
        minor: 2,
        host: Bytes::of(alloc, host.bytes()).map_err(no_memory)?,
        port: port.parse::<u16>()?,
        key: Bytes::from_vec(Vec::new(alloc)),
        components: Components::from_vec(components),
    })
}

fn profiles(alloc: Global, word: &str) -> Result<Vec<Iiop>> {
    let mut profiles = Vec::new(alloc);
    if word == "-" {
        return Ok(profiles);
    }
    for one in word.split(',') {
        profiles.push(profile(alloc, one)?)?;
    }
    Ok(profiles)
}

/// Group 1 in version 1, with these profiles: a dash for none, else `HOST:PORT` of each with commas between. The first is
/// the primary's.
pub fn reference(alloc: Global, word: &str) -> Result<GroupRef> {
    let profiles = profiles(alloc, word)?;
    if profiles.len() > PROFILE_LIMIT {
        return Err(anyhow!("too many profiles"));
    }
    Ok(GroupRef {
        domain: Bytes::from_vec(Vec::new(alloc)),
        group: GroupId(1),
        version: Version(1),
        type_id: Bytes::from_vec(Vec::new(alloc)),
        profiles: IiopList::from_vec(profiles),
        primary: None,
    })
}
