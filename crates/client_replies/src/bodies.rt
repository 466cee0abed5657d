//! The bodies of Replies that are one value and nothing more. (GIOP chapter, "Reply Body".)
ghost use Rattle.std.specs.Prelude.{◌≡◌, ◌+◌, ◌<◌, ◌^◌, length, option_map, IfOk, IfSome};
ghost use Rattle.cdr_codec.specs.Values.{text};
ghost use Rattle.cdr_codec.specs.Arguments.{body_reader};
ghost use Rattle.iogr_reference.specs.Formats.{AreShort};
ghost use Rattle.client_replies.specs.Heards.{IsReadable, forward_in, value_in, whole_in};

use cdr_codec::{CdrReader, Raw};
use ft_base::NoMemory;
use iogr_reference::{Ior, IorFault, read_ior};
use std::alloc::Global;

fn reader_of(body: &Raw) -> CdrReader<'_>
    requires { IsReadable body.now }
    ensures { result ≡ body_reader body.now }
{
    CdrReader::new(body.order, body.align as u32, body.bytes.bytes())
}

/// A long long, as the unsigned number with its bits.
pub(crate) fn value_in(body: &Raw) -> Option<u64>
    requires { IsReadable body.now }
    ensures { result ≡ value_in body.now }
{
    let mut reader = reader_of(body);
    match reader.read_u64() {
        Ok(number) if reader.rest().is_empty() => Some(number),
        _ => None,
    }
}

/// A string.
pub(crate) fn text_in(body: &Raw) -> Option<&[u8]>
    requires { IsReadable body.now }
    ensures value { option_map (λ t. t.now) result ≡ whole_in (text.read (body_reader body.now)) }
    ensures short { IfSome result (λ t. length t.now + 9 < 2 ^ 32) }
{
    let mut reader = reader_of(body);
    match reader.read_string() {
        Ok(text) if reader.rest().is_empty() => Some(text),
        _ => None,
    }
}

/// A reference.
pub(crate) fn forward_in(alloc: Global, body: &Raw) -> Result<Option<Ior>, NoMemory>
    requires { IsReadable body.now }
    ensures value { IfOk result (λ found. found ≡ forward_in body.now) }
    ensures short { IfOk result (λ found. IfSome found (λ reference. AreShort reference.profiles)) }
{
    let mut reader = reader_of(body);
    match read_ior(alloc, &mut reader) {
        Ok(reference) if reader.rest().is_empty() => Ok(Some(reference)),
        Ok(_) => Ok(None),
        Err(IorFault::Bad(_)) => Ok(None),
        Err(IorFault::NoMemory) => Err(NoMemory),
    }
}
