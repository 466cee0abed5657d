//! A servant that is kept from line to line, and another of its kind, its base.
ghost use Rattle.std.specs.Prelude.{◌<◌, ◌+◌, ◌^◌, length, IfOk};
ghost use Rattle.ft_base.specs.Machine.{Fits};

use crate::moves::moved;
use crate::states;
use anyhow::{Context, Result, bail};
use cdr_codec::{CdrWriter, Order, Raw, args_of};
use ft_base::{Bytes, Par, Request, Servant, Signature, Steps};
use octet_words::{first_word, name, no_memory, octets, outcome_text};
use shipped_servants::{Kind, Shipped};
use std::alloc::Global;
use std::sync::ledger::Ledger;

/// The servant that lines speak of, and its base.
#[derive(Drop)]
pub struct Servants {
    pub servant: Option<Shipped>,
    pub base: Option<Shipped>,
}

/// `servant WHAT ..`
pub fn answer<L: Ledger>(
    rt: &HostRuntime,
    servants: &mut Servants,
    steps: &mut Steps<L>,
    words: &str,
) -> Result<()> {
    let (what, words) = first_word(words);
    if what == "new" {
        return begin(rt, servants, words);
    }
    let servant = servants.servant.as_mut().context("no servant")?;
    match what {
        "call" => call(rt, servant, steps, words),
        "signature" => signature(rt, servant, words),
        "base" => {
            servants.base = Some(servant.copy(rt.alloc()).map_err(no_memory)?);
            Ok(())
        }
        "follow" => {
            let base = servants.base.as_mut().context("no base")?;
            states::follow(rt, servant, base)
        }
        "move" => {
            let base = servants.base.as_mut().context("no base")?;
            move_account(rt, servant, base, steps, words)
        }
        _ => states::answer(rt, servant, what, words),
    }
}

// `TYPE-ID`
fn begin(rt: &HostRuntime, servants: &mut Servants, words: &str) -> Result<()> {
    match Kind::with_type_id(words.as_bytes()) {
        Some(kind) => {
            let servant = Shipped::open(rt.alloc(), kind).map_err(no_memory)?;
            states::print_state(rt, &servant)?;
            servants.servant = Some(servant);
        }
        None => println!(rt; "    no kind has this type id")?,
    }
    Ok(())
}

// `OP`: how many parameters it has
fn signature(rt: &HostRuntime, servant: &Shipped, words: &str) -> Result<()> {
    let op = name(rt.alloc(), words)?;
    let signature = servant.signature(&op).context("no such operation")?;
    let count = u8::from(signature.first.is_some()) + u8::from(signature.second.is_some());
    println!(rt; "    {count} parameters")?;
    Ok(())
}

// A parameter behind the others: an amount, or octets, of which a text has its NUL.
fn write_argument(alloc: Global, writer: &mut CdrWriter, par: Par, word: &str) -> Result<()> {
    if par == Par::I64 {
        return writer.write_i64(word.parse::<i64>()?).map_err(no_memory);
    }
    let mut octets = octets(alloc, word)?;
    if par == Par::Text {
        octets.push(0)?;
    }
    if octets.len() > 65_536 {
        bail!("too long: {word}");
    }
    writer.write_octets(octets.as_slice()).map_err(no_memory)
}

fn body_of(alloc: Global, signature: &Signature, words: &str) -> Result<Bytes> {
    let (first, second) = first_word(words);
    let mut writer = CdrWriter::new(alloc, Order::Big, 0);
    if let Some(par) = signature.first {
        write_argument(alloc, &mut writer, par, first)?;
    }
    if let Some(par) = signature.second {
        write_argument(alloc, &mut writer, par, second)?;
    }
    Ok(writer.finish())
}

// The request that words say: `OP ARGUMENT..`.
fn request_of<S: Servant>(alloc: Global, servant: &S, words: &str) -> Result<Request>
    ensures { IfOk result (λ request. Fits (S.machine (S.kind servant.now)) request) }
{
    let (op, words) = first_word(words);
    let op = name(alloc, op)?;
    let signature = servant.signature(&op).context("no such operation")?;
    let bytes = body_of(alloc, &signature, words)?;
    if bytes.bytes().len() > 1_000_000 {
        bail!("too long: {words}");
    }
    let body = Raw {
        order: Order::Big,
        align: 0,
        bytes,
    };
    match args_of(alloc, &body, &signature) {
        Ok(args) => Ok(Request {
            key: None,
            op,
            args,
        }),
        Err(_) => bail!("other arguments: {words}"),
    }
}

// A copy of an account is called, and another one follows it by the update; the base comes there by the whole state.
fn move_account<L: Ledger>(
    rt: &HostRuntime,
    servant: &Shipped,
    base: &mut Shipped,
    steps: &mut Steps<L>,
    words: &str,
) -> Result<()> {
    let (Shipped::Account(servant), Shipped::Account(base)) = (servant, base) else {
        bail!("no accounts");
    };
    let request = request_of(rt.alloc(), servant, words)?;
    let moved = moved(rt.alloc(), servant, base, &request, steps).map_err(no_memory)?;
    states::print_state(rt, &moved)?;
    states::print_state(rt, base)
}

// `OP ARGUMENT..`: what the servant gives
fn call<L: Ledger>(
    rt: &HostRuntime,
    servant: &mut Shipped,
    steps: &mut Steps<L>,
    words: &str,
) -> Result<()> {
    let request = request_of(rt.alloc(), servant, words)?;
    let outcome = servant
        .invoke(rt.alloc(), &request, steps)
        .map_err(no_memory)?;
    println!(rt; "    {}", outcome_text(rt.alloc(), &outcome)?)?;
    Ok(())
}
