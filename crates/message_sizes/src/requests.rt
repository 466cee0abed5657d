//! The Request of a client's attempt, whose parts are counted one behind the other.
ghost use Rattle.std.specs.Prelude.{◌≡◌, ◌<◌, ◌+◌, ◌^◌, length};
ghost use Rattle.cdr_codec.specs.declared.orders.Order.TheVariants.{Big};
ghost use Rattle.cdr_codec.specs.Formats.{written_each};
ghost use Rattle.cdr_codec.specs.Encapsulations.{encapsulated};
ghost use Rattle.ft_contexts.specs.declared.lists.TheConstants.{FT_GROUP_VERSION, FT_REQUEST};
ghost use Rattle.ft_contexts.specs.Contents.{group_version, request};
ghost use Rattle.ft_contexts.specs.Lists.{context};
ghost use Rattle.ft_contexts.specs.Writing.{context_of, written_contexts};
ghost use Rattle.giop_messages.specs.Fields.{contexts};
ghost use Rattle.giop_messages.specs.Writing.{written_body};
ghost use Rattle.message_sizes.specs.Places.{behind, number_end};
ghost use Rattle.message_sizes.specs.Sizes.{request_size};

use crate::places::{number_end, start, text_end};
use ft_base::{Key, Version};
use script_clients::Attempt;

/// Where the operation begins: behind the header, the request's id, its flags, and an object key of 12 bytes.
const OP_PLACE: u128 = 40;

/// The bytes of a context's content that tells a version.
const VERSION_CONTENT: u128 = 8;

/// The bytes of a context's content that tells a key.
#[tactic(auto, using(crate::proofs::RequestLengths::key_content_length))]
fn key_content(key: &Key) -> u128
    ensures value { result ≡ length (encapsulated Big request key.now) }
    ensures near { result < 2 ^ 66 }
{
    let client_end = text_end(1, key.client.bytes().len() as u128);
    let retention_end = number_end(client_end);
    start(retention_end, 8) + 8
}

/// The place behind a context with so many bytes of content: its id, their count, and the content.
fn context_end(place: u128, content: u128) -> u128
    requires low { place < 2 ^ 90 }
    requires short { content < 2 ^ 66 }
    ensures value { result ≡ number_end place + 4 + content }
    ensures near { result < place + 2 ^ 67 }
{
    number_end(place) + 4 + content
}

#[tactic(auto, using(crate::proofs::RequestLengths::version_end))]
fn version_end(place: u128, version: Option<Version>) -> u128
    requires low { place < 2 ^ 90 }
    ensures value { result ≡ behind (written_each context.written) place (context_of group_version FT_GROUP_VERSION version) }
    ensures near { result < place + 2 ^ 67 }
{
    match version {
        None => place,
        Some(_) => context_end(place, VERSION_CONTENT),
    }
}

#[tactic(auto, using(crate::proofs::RequestLengths::key_end))]
fn key_end(place: u128, key: &Option<Key>) -> u128
    requires low { place < 2 ^ 90 }
    ensures value { result ≡ behind (written_each context.written) place (context_of request FT_REQUEST key.now) }
    ensures near { result < place + 2 ^ 67 }
{
    match key {
        None => place,
        Some(key) => context_end(place, key_content(key)),
    }
}

#[tactic(auto, using(crate::proofs::RequestLengths::contexts_end))]
fn contexts_end(place: u128, version: Option<Version>, key: &Option<Key>) -> u128
    requires low { place < 2 ^ 80 }
    ensures value { result ≡ behind contexts.written place (written_contexts version key.now) }
    ensures near { result < place + 2 ^ 69 }
{
    let count_end = number_end(place);
    let version_end = version_end(count_end, version);
    key_end(version_end, key)
}

/// The place behind a body, whose padding goes up to a multiple of 8; before an empty body there is none.
#[tactic(auto, using(crate::proofs::RequestLengths::body_end, crate::proofs::RequestLengths::no_body_end))]
fn body_end(place: u128, body: &[u8]) -> u128
    requires low { place < 2 ^ 90 }
    ensures { result ≡ behind (written_body 2) place body.now }
{
    if body.is_empty() {
        return place;
    }
    start(place, 8) + body.len() as u128
}

/// The bytes of the Request of an attempt. It takes no memory.
#[tactic(auto, using(crate::proofs::RequestLengths::request_ends))]
pub fn request_size(attempt: &Attempt) -> u128
    ensures { result ≡ request_size attempt.now }
{
    let op_end = text_end(OP_PLACE, attempt.request.op.bytes().len() as u128);
    let contexts_end = contexts_end(op_end, attempt.version, &attempt.request.key);
    body_end(contexts_end, attempt.request.args.bytes())
}
