//! A deposit, and the value that it has.
ghost use Rattle.std.specs.Prelude.{◌<◌, IfOk};
ghost use Rattle.std.specs.List.{AllByRecursion};
ghost use Rattle.group_model.specs.Agreeing.{IsShortAsked};

use cdr_codec::{Order, Raw};
use ft_base::{Bytes, Key, Name, NoMemory, Outcome, Retention, Tick, Version};
use group_model::Asked;
use std::alloc::Global;

// What a text's elements are.
fn are_bytes(text: &[u8])
    ensures { AllByRecursion (λ b. b < 256) text.now }
{
    let _text = text;
}

/// The key of this number, of one client.
pub fn key_of(alloc: Global, id: u32) -> Result<Key, NoMemory> {
    let Ok(client) = Name::of(alloc, b"ann") else {
        return Err(NoMemory);
    };
    Ok(Key {
        client,
        retention: Retention((id % 0x4000_0000) as i32),
        expiration: Tick(100),
    })
}

/// A deposit of 1 with the key of this number, by a client that has this version of the group's reference.
pub fn deposit_of(alloc: Global, id: u32, version: u32) -> Result<Asked, NoMemory>
    ensures { IfOk result (λ asked. IsShortAsked asked) }
{
    let body = [0, 0, 0, 0, 0, 0, 0, 1];
    let text = body.as_slice();
    are_bytes(text);
    let bytes = Bytes::of(alloc, text)?;
    let key = key_of(alloc, id)?;
    let Ok(op) = Name::of(alloc, b"deposit") else {
        return Err(NoMemory);
    };
    Ok(Asked {
        version: Some(Version(version)),
        key: Some(key),
        bad_context: None,
        op: Some(op),
        body: Raw {
            order: Order::Big,
            align: 0,
            bytes,
        },
    })
}

/// The number that an outcome gives; none where it gives something else.
pub fn value_of(outcome: &Outcome) -> Option<u64> {
    let Outcome::Value(value) = outcome else {
        return None;
    };
    match value.bytes() {
        [a, b, c, d, e, f, g, h] => Some(u64::from_be_bytes([*a, *b, *c, *d, *e, *f, *g, *h])),
        _ => None,
    }
}
