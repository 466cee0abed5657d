//! Service contexts.
ghost use Rattle.std.specs.Prelude.{IfOk};
ghost use Rattle.std.specs.List.{All};
ghost use Rattle.ft_contexts.specs.Finding.{IsShort};

use ft_base::{Bytes, Key, Retention, Tick, Version};
use ft_contexts::{Context, Contexts, FtContexts, find_contexts, write_contexts};
use row_words::{RowFault, bytes_of, name_of, number, put_bytes, put_hex, put_separator};
use std::alloc::{AllocError, Global};

// A context from its id, a colon and its content.
fn context_of(alloc: Global, word: &str) -> Result<Context, RowFault>
    ensures { IfOk result IsShort }
{
    let Some((id, content)) = word.split_once(':') else {
        return Err(RowFault::NoRow);
    };
    let id = u32::try_from(number(id)?)?;
    let content = Bytes::from_vec(bytes_of(alloc, content)?);
    Ok(Context { id, content })
}

fn contexts_of(alloc: Global, words: &[&str]) -> Result<Contexts, RowFault>
    ensures { IfOk result (λ contexts. All IsShort contexts) }
{
    let mut contexts = Vec::new(alloc);
    for word in words {
        contexts.push(context_of(alloc, *word)?)?;
    }
    Ok(Contexts::from_vec(contexts))
}

fn put_key(key: &Key, out: &mut String) -> Result<(), AllocError> {
    out.push_str(", client ")?;
    put_bytes(key.client.bytes(), out)?;
    let (retention, expiration) = (key.retention.0, key.expiration.0);
    write!(out, ", retention id {retention}, expiration {expiration}")
}

fn put_found(found: &FtContexts, out: &mut String) -> Result<(), AllocError> {
    match found.version {
        Some(version) => write!(out, "version {}", version.0)?,
        None => out.push_str("no version")?,
    }
    match &found.key {
        Some(key) => put_key(key, out),
        None => out.push_str(", no key"),
    }
}

/// `contexts ID:BYTES..`: what these contexts tell a host of a group.
pub fn contexts(alloc: Global, words: &[&str], out: &mut String) -> Result<(), RowFault> {
    let contexts = contexts_of(alloc, words)?;
    match find_contexts(alloc, &contexts) {
        Ok(found) => Ok(put_found(&found, out)?),
        Err(fault) => Ok(write!(out, "refused {fault}")?),
    }
}

/// `write-contexts VERSION CLIENT RETENTION EXPIRATION`: the contexts that tell these.
pub fn write(alloc: Global, words: &[&str], out: &mut String) -> Result<(), RowFault> {
    let [version, client, retention, expiration] = words else {
        return Err(RowFault::NoRow);
    };
    let version = Version(u32::try_from(number(*version)?)?);
    let key = Key {
        client: name_of(alloc, *client)?,
        retention: Retention(i32::try_from(number(*retention)?)?),
        expiration: Tick(u64::try_from(number(*expiration)?)?),
    };
    let contexts = write_contexts(alloc, Some(version), Some(&key))?;
    for context in contexts.as_slice() {
        put_separator(" ", out)?;
        write!(out, "{}:", context.id)?;
        put_hex(context.content.bytes(), out)?;
    }
    Ok(())
}
