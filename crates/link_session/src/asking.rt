ghost use Rattle.std.specs.Prelude.{◌≡◌, ◌<◌, None, Some, IfOk};
ghost use Rattle.std.specs.List.{All, AllByRecursion};
ghost use Rattle.ft_base.specs.Text.{name_of};
ghost use Rattle.ft_contexts.specs.Finding.{IsShort};
ghost use Rattle.group_model.specs.Agreeing.{IsShortAsked};
ghost use Rattle.link_session.specs.Asked.{asked_of, IsShortBody};

use cdr_codec::Raw;
use ft_base::{Bytes, NAME_LIMIT, Name, NameFault, NoMemory};
use ft_contexts::{ContextFault, Contexts, FtContexts, find_contexts};
use group_model::Asked;
use std::alloc::Global;

// The operation, where it is a name.
fn name_of(alloc: Global, op: &Bytes) -> Result<Option<Name>, NoMemory>
    ensures { IfOk result (λ name. name ≡ name_of op.now) }
{
    let text = op.bytes();
    if text.len() > NAME_LIMIT {
        return Ok(None);
    }
    match Name::of(alloc, text) {
        Ok(name) => Ok(Some(name)),
        Err(NameFault::NoMemory) => Err(NoMemory),
        Err(_) => Ok(None),
    }
}

fn without_contexts(id: u32, op: Option<Name>, body: Raw) -> Asked
    ensures { result ≡ record { version = None; key = None; bad_context = Some id; op = op; body = body } }
{
    Asked {
        version: None,
        key: None,
        bad_context: Some(id),
        op,
        body,
    }
}

// What the elements of bytes are.
fn are_octets(bytes: &[u8])
    ensures { AllByRecursion (λ b. b < 256) bytes.now }
{
    let _bytes = bytes;
}

/// What a request's contexts, its operation and its body ask.
pub fn asked_of(
    alloc: Global,
    contexts: &Contexts,
    op: &Bytes,
    body: Raw,
) -> Result<Asked, NoMemory>
    requires { All IsShort contexts.now }
    ensures asked { IfOk result (λ asked. asked ≡ asked_of contexts.now op.now body) }
    ensures body { IfOk result (λ asked. asked.body ≡ body) }
    ensures short { IsShortBody body → IfOk result IsShortAsked }
{
    are_octets(body.bytes.bytes());
    let op = name_of(alloc, op)?;
    match find_contexts(alloc, contexts) {
        Ok(FtContexts { version, key }) => Ok(Asked {
            version,
            key,
            bad_context: None,
            op,
            body,
        }),
        Err(ContextFault::Twice(id)) => Ok(without_contexts(id, op, body)),
        Err(ContextFault::Bad { id, place: _ }) => Ok(without_contexts(id, op, body)),
        Err(ContextFault::NoMemory) => Err(NoMemory),
    }
}
