//! States and updates of servants.

use anyhow::{Result, bail};
use ft_base::{Bytes, NoMemory, Servant, StateFault, UpdateFault};
use octet_words::{bytes, first_word, no_memory, octets, octets_text};
use shipped_servants::{Kind, Shipped};
use std::alloc::Global;

/// What is done to a servant's state.
pub fn answer(rt: &HostRuntime, servant: &mut Shipped, what: &str, words: &str) -> Result<()> {
    match what {
        "state" => print_state(rt, servant),
        "restore" => restore(rt, servant, &bytes(rt.alloc(), words)?),
        "update" => update(rt, servant, &bytes(rt.alloc(), words)?),
        "keys" => restore(rt, servant, &keys(rt.alloc(), words.parse::<u32>()?)?),
        "items" => restore(rt, servant, &items(rt.alloc(), words)?),
        "pair" => pair(rt, words),
        _ => bail!("no verb of a servant: {what}"),
    }
}

pub fn print_state<S: Servant>(rt: &HostRuntime, servant: &S) -> Result<()> {
    let state = servant.get_state(rt.alloc()).map_err(no_memory)?;
    println!(rt; "    state {}", octets_text(rt.alloc(), state.bytes())?)?;
    Ok(())
}

fn print_restored(rt: &HostRuntime, restored: Result<(), StateFault>) -> Result<()> {
    match restored {
        Ok(()) => println!(rt; "    restored")?,
        Err(StateFault::InvalidState) => println!(rt; "    no state")?,
        Err(StateFault::NoMemory) => bail!("no memory"),
    }
    Ok(())
}

fn print_updated(rt: &HostRuntime, updated: Result<(), UpdateFault>) -> Result<()> {
    match updated {
        Ok(()) => println!(rt; "    updated")?,
        Err(UpdateFault::InvalidUpdate) => println!(rt; "    no update")?,
        Err(UpdateFault::NoMemory) => bail!("no memory"),
    }
    Ok(())
}

fn restore(rt: &HostRuntime, servant: &mut Shipped, state: &Bytes) -> Result<()> {
    let restored = servant.set_state(rt.alloc(), state);
    print_restored(rt, restored)?;
    print_state(rt, servant)
}

fn update(rt: &HostRuntime, servant: &mut Shipped, update: &Bytes) -> Result<()> {
    let updated = servant.set_update(rt.alloc(), update);
    print_updated(rt, updated)?;
    print_state(rt, servant)
}

// `COUNT`: a store of so many keys of two octets, each with one octet
fn keys(alloc: Global, count: u32) -> Result<Bytes> {
    let mut bytes = Vec::new(alloc);
    bytes.extend_from_slice(&count.to_be_bytes())?;
    for i in 0..count {
        let key = [1 + (i / 16 % 128) as u8, 1 + (i % 16) as u8];
        bytes.push(2)?;
        bytes.extend_from_slice(&key)?;
        bytes.extend_from_slice(b"\0\x01v")?;
    }
    Ok(Bytes::from_vec(bytes))
}

// `POPPED COUNT`: a queue of so many items, from which so many were popped
fn items(alloc: Global, words: &str) -> Result<Bytes> {
    let (popped, count) = first_word(words);
    let popped = popped.parse::<u64>()?;
    let count = count.parse::<u16>()?;
    let mut bytes = Vec::new(alloc);
    bytes.extend_from_slice(&popped.to_be_bytes())?;
    bytes.extend_from_slice(&count.to_be_bytes())?;
    for _ in 0..count {
        bytes.extend_from_slice(b"0123456789abcdef")?;
    }
    Ok(Bytes::from_vec(bytes))
}

// `KEY VALUE`: this one pair, as an update and as a state of a new store. The count of a state, or both counts of an
// update, are the same four octets.
fn pair(rt: &HostRuntime, words: &str) -> Result<()> {
    let (key, value) = first_word(words);
    let bytes = one_pair(rt.alloc(), key, value)?;
    let mut store = Shipped::open(rt.alloc(), Kind::Store).map_err(no_memory)?;
    let updated = store.set_update(rt.alloc(), &bytes);
    print_updated(rt, updated)?;
    let mut store = Shipped::open(rt.alloc(), Kind::Store).map_err(no_memory)?;
    let restored = store.set_state(rt.alloc(), &bytes);
    print_restored(rt, restored)
}

fn one_pair(alloc: Global, key: &str, value: &str) -> Result<Bytes> {
    let key = octets(alloc, key)?;
    let value = octets(alloc, value)?;
    let mut bytes = Vec::from_slice(alloc, &[0, 0, 0, 1])?;
    bytes.push((key.len() % 256) as u8)?;
    bytes.extend_from_slice(key.as_slice())?;
    bytes.extend_from_slice(&((value.len() % 65_536) as u16).to_be_bytes())?;
    bytes.extend_from_slice(value.as_slice())?;
    Ok(Bytes::from_vec(bytes))
}

fn update_of(alloc: Global, servant: &Shipped, base: &Shipped) -> Result<Bytes, NoMemory> {
    match (servant, base) {
        (Shipped::Account(_), Shipped::Account(_)) => servant.get_update(alloc, base),
        (Shipped::Store(_), Shipped::Store(_)) => servant.get_update(alloc, base),
        (Shipped::Queue(_), Shipped::Queue(_)) => servant.get_update(alloc, base),
        _ => Err(NoMemory),
    }
}

fn has_state_of(alloc: Global, servant: &Shipped, other: &Shipped) -> Result<bool, NoMemory> {
    let state = servant.get_state(alloc)?;
    let other = other.get_state(alloc)?;
    Ok(state.is(&other))
}

/// The base is led to the servant's state, by the update between the two.
pub fn follow(rt: &HostRuntime, servant: &Shipped, base: &mut Shipped) -> Result<()> {
    let update = update_of(rt.alloc(), servant, base).map_err(no_memory)?;
    println!(rt; "    update {}", octets_text(rt.alloc(), update.bytes())?)?;
    let updated = base.set_update(rt.alloc(), &update);
    print_updated(rt, updated)?;
    if !has_state_of(rt.alloc(), servant, base).map_err(no_memory)? {
        bail!("another state");
    }
    print_state(rt, base)
}
