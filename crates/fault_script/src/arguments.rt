ghost use Rattle.std.specs.Prelude.{◌≡◌, ◌^◌, ◌<◌, length, Some, IfOk, IfSome};
ghost use Rattle.ft_base.specs.Canonical.{one_of, IsCanonical};
ghost use Rattle.fault_script.specs.Faults.{IsAnswer};
ghost use Rattle.fault_script.specs.Arguments.{argument, argument_from, arguments, parameters, spelled_arguments, call_words_from, call_words_of, IsFound, octets_of};

use crate::hexadecimal::decode;
use crate::lines::{LineFault, Words};
use crate::numerals::{read_i64, read_u32};
use crate::options::read_options;
use cdr_codec::canonical;
use ft_base::{Bytes, NoMemory, Par, Retention, Signature, Tick, Value, first_zero};
use std::alloc::Global;

/// The most bytes that a length field counts, a text's NUL among them.
const LENGTH_LIMIT: usize = 0xFFFF_FFFF;

/// The words of a `call` behind its operation.
#[derive(Debug, Drop)]
pub struct CallWords {
    /// The parameters in canonical form.
    pub args: Bytes,
    pub retention: Option<Retention>,
    pub expiration: Option<Tick>,
    /// Whether the request carries the version of the group's reference.
    pub versioned: bool,
}

/// Octets: `-` for none, else hexadecimal.
pub(crate) fn read_octets(alloc: Global, word: &[u8]) -> Result<Vec<u8>, LineFault>
    ensures found { IsFound (λ octets. octets.items) result (octets_of word.now) }
    ensures countable { IfOk result (λ octets. length octets.items < 2 ^ 32) }
{
    if word == b"-".as_slice() {
        return Ok(Vec::new(alloc));
    }
    let octets = decode(alloc, word)?;
    if octets.len() > LENGTH_LIMIT {
        return Err(LineFault::Syntax);
    }
    Ok(octets)
}

/// The value of this type that a word is.
fn value_of(alloc: Global, par: Par, word: &[u8]) -> Result<Value, LineFault>
    ensures { IsFound (λ value. value) result (argument par word.now) }
{
    match par {
        Par::I64 => match read_i64(word) {
            Some(number) => Ok(Value::I64(number)),
            None => Err(LineFault::Syntax),
        },
        Par::U32 => match read_u32(word) {
            Some(number) => Ok(Value::U32(number)),
            None => Err(LineFault::Syntax),
        },
        Par::Bool => Err(LineFault::Syntax),
        Par::Text => {
            if word.len() >= LENGTH_LIMIT || first_zero(word).is_some() {
                return Err(LineFault::Syntax);
            }
            let text = Bytes::of(alloc, word)?;
            Ok(Value::Text(text))
        }
        Par::Octets => {
            let octets = read_octets(alloc, word)?;
            Ok(Value::Octets(Bytes::from_vec(octets)))
        }
    }
}

/// Appends the value of a parameter, and gives the words behind its own.
fn take_argument<'a>(
    alloc: Global,
    values: &mut Vec<Value>,
    par: Par,
    words: &'a [Bytes],
) -> Result<&'a [Bytes], LineFault>
    ensures { IsFound (λ rest. record { values = values.new.items; rest = rest.now }) result
        (argument_from par values.old.items words.now) }
{
    if words.is_empty() {
        return Err(LineFault::Syntax);
    }
    let value = value_of(alloc, par, words[0].bytes())?;
    match values.push(value) {
        Ok(()) => Ok(&words[1..]),
        Err(_) => Err(LineFault::NoMemory),
    }
}

/// Appends the value of a parameter if there is to be one.
fn take_parameter<'a>(
    alloc: Global,
    values: &mut Vec<Value>,
    par: Option<Par>,
    words: &'a [Bytes],
) -> Result<&'a [Bytes], LineFault>
    ensures { IsFound (λ rest. record { values = values.new.items; rest = rest.now }) result
        (arguments (one_of par) (record { values = values.old.items; rest = words.now })) }
{
    match par {
        None => Ok(words),
        Some(par) => take_argument(alloc, values, par, words),
    }
}

fn take_parameters<'a>(
    alloc: Global,
    values: &mut Vec<Value>,
    signature: Signature,
    words: &'a [Bytes],
) -> Result<&'a [Bytes], LineFault>
    ensures { IsFound (λ rest. record { values = values.new.items; rest = rest.now }) result
        (arguments (parameters (Some signature)) (record { values = values.old.items; rest = words.now })) }
{
    match take_parameter(alloc, values, signature.first, words) {
        Ok(rest) => take_parameter(alloc, values, signature.second, rest),
        Err(fault) => Err(fault),
    }
}

fn take_arguments<'a>(
    alloc: Global,
    values: &mut Vec<Value>,
    signature: Option<Signature>,
    words: &'a [Bytes],
) -> Result<&'a [Bytes], LineFault>
    ensures { IsFound (λ rest. record { values = values.new.items; rest = rest.now }) result
        (arguments (parameters signature) (record { values = values.old.items; rest = words.now })) }
{
    match signature {
        None => Ok(words),
        Some(signature) => take_parameters(alloc, values, signature, words),
    }
}

/// The arguments in canonical form, and the words behind them.
fn split_arguments<'a>(
    alloc: Global,
    signature: Option<Signature>,
    words: &'a [Bytes],
) -> Result<(Bytes, &'a [Bytes]), LineFault>
    ensures found { IsFound (λ two. record { args = two.0; rest = two.1.now }) result (spelled_arguments signature words.now) }
    ensures canonical { IfOk result (λ two. IsCanonical (parameters signature) two.0) }
{
    let mut values = Vec::new(alloc);
    match take_arguments(alloc, &mut values, signature, words) {
        Ok(rest) => match canonical(alloc, values.as_slice()) {
            Ok(args) => Ok((args, rest)),
            Err(NoMemory) => Err(LineFault::NoMemory),
        },
        Err(fault) => Err(fault),
    }
}

fn with_options(args: Bytes, words: &[Bytes]) -> Option<CallWords>
    ensures read { result ≡ call_words_from (record { args = args; rest = words.now }) }
    ensures args { IfSome result (λ call. call.args ≡ args) }
{
    let options = read_options(words)?;
    Some(CallWords {
        args,
        retention: options.retention,
        expiration: options.expiration,
        versioned: options.versioned,
    })
}

/// What the words after the operation of a `call` say: first an argument for each parameter, by
/// position, then the options `ret=N`, `exp=N` and `nover`, in any order and each at most once. Where
/// the operation has no signature there is no argument and the body is empty.
pub fn call_words(
    alloc: Global,
    signature: Option<Signature>,
    words: &Words,
) -> Result<CallWords, LineFault>
    ensures answer { IsAnswer result (call_words_of signature words.now) }
    // A servant can run an operation with these arguments.
    ensures canonical { IfOk result (λ call. IsCanonical (parameters signature) call.args) }
{
    match split_arguments(alloc, signature, words.as_slice()) {
        Ok((args, rest)) => match with_options(args, rest) {
            Some(call) => Ok(call),
            None => Err(LineFault::Syntax),
        },
        Err(fault) => Err(fault),
    }
}
