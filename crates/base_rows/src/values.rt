//! Values of ft_base, their copies, and numbers as texts.

use crate::requests::request_of;
use crate::views::{self, print_view};
use anyhow::{Context, Result, bail};
use decimal_numbers::{is_number, read_number};
use ft_base::{Bytes, Name, Outcome, Request};
use octet_words::{name_text, no_memory, octets, octets_text, outcome_text};

/// `number "TEXT"`
pub fn number(rt: &HostRuntime, words: &str) -> Result<()> {
    let text = words.strip_prefix('"').context("no text")?;
    let text = text.strip_suffix('"').context("no text")?;
    match read_number(text.as_bytes()) {
        Some(number) if is_number(text.as_bytes()) => println!(rt; "    {number}")?,
        None if !is_number(text.as_bytes()) => println!(rt; "    no number")?,
        _ => bail!("a number or none"),
    }
    Ok(())
}

/// `name OCTETS`
pub fn name(rt: &HostRuntime, words: &str) -> Result<()> {
    let text = octets(rt.alloc(), words)?;
    match Name::of(rt.alloc(), text.as_slice()) {
        Ok(name) => copied_name(rt, &name, text.as_slice()),
        Err(fault) => Ok(println!(rt; "    {fault}")?),
    }
}

fn copied_name(rt: &HostRuntime, name: &Name, text: &[u8]) -> Result<()> {
    let copy = name.copy(rt.alloc()).map_err(no_memory)?;
    if name.bytes() != text || copy.bytes() != text {
        bail!("another name");
    }
    println!(rt; "    a name of {} bytes, as its copy", text.len())?;
    Ok(())
}

/// `bytes OCTETS`
pub fn bytes(rt: &HostRuntime, words: &str) -> Result<()> {
    let text = octets(rt.alloc(), words)?;
    let bytes = Bytes::of(rt.alloc(), text.as_slice()).map_err(no_memory)?;
    copied_bytes(rt, &bytes, text.as_slice())?;
    let length = text.len();
    let same = Bytes::from_vec(text);
    copied_bytes(rt, &same, bytes.bytes())?;
    if !same.is(&bytes) {
        bail!("other bytes");
    }
    println!(rt; "    {length} bytes, as their copies and those of a vector")?;
    Ok(())
}

fn copied_bytes(rt: &HostRuntime, bytes: &Bytes, text: &[u8]) -> Result<()> {
    let copy = bytes.copy(rt.alloc()).map_err(no_memory)?;
    if bytes.bytes() != text || copy.bytes() != text || !copy.is(bytes) {
        bail!("other bytes");
    }
    Ok(())
}

/// `request CLIENT RETENTION EXPIRATION OP OCTETS`: its copy
pub fn request(rt: &HostRuntime, words: &str) -> Result<()> {
    let request = request_of(rt.alloc(), words)?;
    let copy = request.copy(rt.alloc()).map_err(no_memory)?;
    print_request(rt, &copy)
}

fn print_request(rt: &HostRuntime, request: &Request) -> Result<()> {
    let key = request.key.as_ref().context("no key")?;
    println!(rt;
        "    client {} retention {} expiration {}",
        name_text(key.client.bytes())?,
        key.retention.0,
        key.expiration.0
    )?;
    let args = octets_text(rt.alloc(), request.args.bytes())?;
    println!(rt; "    {} {args}", name_text(request.op.bytes())?)?;
    Ok(())
}

/// `value OCTETS`: its copy
pub fn value(rt: &HostRuntime, words: &str) -> Result<()> {
    let bytes = octet_words::bytes(rt.alloc(), words)?;
    let copy = Outcome::Value(bytes).copy(rt.alloc()).map_err(no_memory)?;
    println!(rt; "    {}", outcome_text(rt.alloc(), &copy)?)?;
    Ok(())
}

/// `user NAME`: its copy
pub fn user(rt: &HostRuntime, words: &str) -> Result<()> {
    let name = octet_words::name(rt.alloc(), words)?;
    let copy = Outcome::User(name).copy(rt.alloc()).map_err(no_memory)?;
    println!(rt; "    {}", outcome_text(rt.alloc(), &copy)?)?;
    Ok(())
}

/// `view VERSION HOSTS PRIMARY`: its copy
pub fn view(rt: &HostRuntime, words: &str) -> Result<()> {
    let view = views::view(words)?;
    print_view(rt, &view.copy())
}
