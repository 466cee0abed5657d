//! Requests as words.

use anyhow::Result;
use ft_base::{Key, Request, Retention, Tick};
use octet_words::{bytes, first_word, name};
use std::alloc::Global;

/// The request that words say: `CLIENT RETENTION EXPIRATION OP OCTETS`.
pub fn request_of(alloc: Global, words: &str) -> Result<Request> {
    let (client, words) = first_word(words);
    let (retention, words) = first_word(words);
    let (expiration, words) = first_word(words);
    let (op, args) = first_word(words);
    let key = Key {
        client: name(alloc, client)?,
        retention: Retention(retention.parse::<i32>()?),
        expiration: Tick(expiration.parse::<u64>()?),
    };
    Ok(Request {
        key: Some(key),
        op: name(alloc, op)?,
        args: bytes(alloc, args)?,
    })
}
