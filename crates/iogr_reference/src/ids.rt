//! Repository ids of types and of user exceptions. (CORBA, "OMG IDL Format".)
ghost use Rattle.std.specs.Prelude.{◌≡◌, ◌≢◌, ◌≤◌, ◌<◌, ◌^◌, ◌++◌, ℕ, List, length, IfNone, IfOk, IfSome, MatchOption, None};
ghost use Rattle.ft_base.specs.Text.{name_refusal, zero_place};
ghost use Rattle.iogr_reference.specs.Choices.{repository_id, IsNameOf};

use crate::choices::{ID_BACK, ID_FRONT, ID_LIMIT};
use ft_base::{Bytes, Name, NameFault, NoMemory};
use std::alloc::Global;

/// The repository id of a type or of a user exception, by its name.
#[tactic(auto, using(crate::proofs::IdLaws::id_no_zero, crate::proofs::IdLaws::id_short))]
pub fn repository_id(alloc: Global, name: &Name) -> Result<Bytes, NoMemory>
    ensures value { IfOk result (λ id. id ≡ repository_id name.now) }
    ensures no_zero { IfOk result (λ id. zero_place id ≡ None) }
    ensures short { IfOk result (λ id. length id ≤ ID_LIMIT) }
{
    let mut id = Vec::from_slice(alloc, ID_FRONT.as_slice())?;
    id.extend_from_slice(name.bytes())?;
    id.extend_from_slice(ID_BACK.as_slice())?;
    Ok(Bytes::from_vec(id))
}

fn behind_front(text: &[u8]) -> Option<&[u8]>
    ensures { MatchOption result ((rest : List ℕ) → text.now ≢ ID_FRONT ++ rest) (λ rest. text.now ≡ ID_FRONT ++ rest.now) }
{
    text.strip_prefix(ID_FRONT.as_slice())
}

fn before_back(text: &[u8]) -> Option<&[u8]>
    ensures { MatchOption result ((front : List ℕ) → text.now ≢ front ++ ID_BACK) (λ front. text.now ≡ front.now ++ ID_BACK) }
{
    text.strip_suffix(ID_BACK.as_slice())
}

#[tactic(auto, using(crate::proofs::IdLaws::not_ended, crate::proofs::IdLaws::taken))]
fn inside_id(id: &[u8]) -> Option<&[u8]>
    ensures { MatchOption result ((name : List ℕ) → id.now ≢ repository_id name) (λ name. id.now ≡ repository_id name.now) }
{
    let front = match before_back(id) {
        None => return None,
        Some(front) => front,
    };
    match behind_front(front) {
        None => None,
        Some(name) => Some(name),
    }
}

fn name_with(alloc: Global, text: &[u8]) -> Result<Option<Name>, NoMemory>
    requires { length text.now < 2 ^ 32 }
    ensures named { IfOk result (λ found. IfSome found (λ name. (name ≡ text.now) × (name_refusal text.now ≡ None))) }
    ensures other { IfOk result (λ found. IfNone found (name_refusal text.now ≢ None)) }
{
    match Name::of(alloc, text) {
        Ok(name) => Ok(Some(name)),
        Err(NameFault::NoMemory) => Err(NoMemory),
        Err(_) => Ok(None),
    }
}

/// The name of which this is the repository id, where it is that of a name.
#[tactic(auto, using(crate::proofs::IdLaws::no_id))]
pub fn name_of_id(alloc: Global, id: &[u8]) -> Result<Option<Name>, NoMemory>
    requires { length id.now < 2 ^ 32 }
    ensures { IfOk result (IsNameOf id.now) }
{
    let inside = match inside_id(id) {
        None => return Ok(None),
        Some(inside) => inside,
    };
    let found = name_with(alloc, inside)?;
    Ok(found)
}
