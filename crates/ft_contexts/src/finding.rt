ghost use Rattle.std.specs.Prelude.{◌≡◌, ◌+◌, ◌<◌, ◌^◌, length, IfOk};
ghost use Rattle.std.specs.List.{All};
ghost use Rattle.cdr_codec.specs.Calls.{Tells, Refuses};
ghost use Rattle.ft_contexts.specs.declared.lists.FtContexts.{FtContexts as Told};
ghost use Rattle.ft_contexts.specs.Contents.{group_version, request};
ghost use Rattle.ft_contexts.specs.Finding.{IsShort, with_id, stands_twice, found_by, contexts_of, AreFound, context_fault, wrong_contexts};

use crate::faults::ContextFault;
use crate::lists::{Context, Contexts, FT_GROUP_VERSION, FT_REQUEST, FtContexts};
use crate::reading::{key_in, version_in};
use cdr_codec::{FieldFault, content_of};
use ft_base::{Key, Version};
use std::alloc::Global;

fn count_of(contexts: &[Context], id: u32) -> usize
    ensures { result ≡ length (with_id id contexts.now) }
{
    contexts.iter().filter(|context| context.id == id).count()
}

fn is_twice(contexts: &[Context], id: u32) -> bool
    ensures { result ≡ stands_twice id contexts.now }
{
    count_of(contexts, id) > 1
}

/// A fault of the context with this id.
fn fault_in(id: u32, fault: FieldFault) -> ContextFault
    ensures { result ≡ context_fault id fault }
{
    match fault {
        FieldFault::Bad(fault) => ContextFault::Bad {
            id,
            place: fault.place,
        },
        FieldFault::NoMemory => ContextFault::NoMemory,
    }
}

fn find_version(contexts: &[Context]) -> Result<Option<Version>, ContextFault>
    requires { All IsShort contexts.now }
    ensures { Tells (λ found. found) wrong_contexts result (found_by group_version FT_GROUP_VERSION contexts.now) }
{
    match content_of(contexts, FT_GROUP_VERSION) {
        None => Ok(None),
        Some(piece) => match version_in(piece) {
            Ok(version) => Ok(Some(version)),
            Err(fault) => Err(fault_in(FT_GROUP_VERSION, fault)),
        },
    }
}

fn find_key(alloc: Global, contexts: &[Context]) -> Result<Option<Key>, ContextFault>
    requires { All IsShort contexts.now }
    ensures { Tells (λ found. found) wrong_contexts result (found_by request FT_REQUEST contexts.now) }
{
    match content_of(contexts, FT_REQUEST) {
        None => Ok(None),
        Some(piece) => match key_in(alloc, piece) {
            Ok(key) => Ok(Some(key)),
            Err(fault) => Err(fault_in(FT_REQUEST, fault)),
        },
    }
}

fn find_exactly(alloc: Global, contexts: &[Context]) -> Result<FtContexts, ContextFault>
    requires { All IsShort contexts.now }
    ensures { Tells (λ found. found) wrong_contexts result (contexts_of contexts.now) }
{
    if is_twice(contexts, FT_GROUP_VERSION) {
        return Err(ContextFault::Twice(FT_GROUP_VERSION));
    }
    if is_twice(contexts, FT_REQUEST) {
        return Err(ContextFault::Twice(FT_REQUEST));
    }
    let version = find_version(contexts)?;
    let key = find_key(alloc, contexts)?;
    Ok(FtContexts { version, key })
}

/// The version and the key that the contexts tell, each where its context is there. Contexts of
/// other ids are ignored, and so is what follows the last field of these two.
pub fn find_contexts(alloc: Global, contexts: &Contexts) -> Result<FtContexts, ContextFault>
    requires { All IsShort contexts.now }
    ensures found { IfOk result (AreFound contexts.now) }
    ensures refused { Refuses wrong_contexts result ((found : Told) → AreFound contexts.now found → ⊥) }
    ensures value { Tells (λ found. found) wrong_contexts result (contexts_of contexts.now) }
{
    find_exactly(alloc, contexts.as_slice())
}
