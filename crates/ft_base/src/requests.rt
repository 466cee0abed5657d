ghost use Rattle.std.specs.Prelude.{◌≡◌, ◌↔◌, ◌<◌, None, length, IfOk, IsTrue};
ghost use Rattle.ft_base.specs.Machine.{gives_of};
ghost use Rattle.ft_base.specs.Text.{name_refusal};

use crate::memory::NoMemory;
use crate::numbers::{Retention, Tick};
use crate::text::{Bytes, Name, NameFault};
use std::alloc::Global;

/// What makes a request one logical invocation: who asks, which of that client's requests it is,
/// and until when (chapter 23, `FTRequestServiceContext`).
#[derive(Debug, Drop)]
pub struct Key {
    pub client: Name,
    pub retention: Retention,
    pub expiration: Tick,
}

/// A request as a servant sees it. `args` is the canonical form of its parameters: their spelling
/// in big endian order with padding of zeros, from place 0.
#[derive(Debug, Drop)]
pub struct Request {
    pub key: Option<Key>,
    pub op: Name,
    pub args: Bytes,
}

/// What a servant makes of a request: a value in canonical form, or a user exception by its name.
#[derive(Debug, Drop)]
pub enum Outcome {
    Value(Bytes),
    User(Name),
}

/// The types of parameters and of results.
#[derive(Clone, Copy, Debug, PartialEq, Eq)]
pub enum Par {
    I64,
    U32,
    Bool,
    Text,
    Octets,
}

/// An operation's parameters, in order, and what it gives.
#[derive(Clone, Copy, Debug, PartialEq, Eq)]
pub struct Signature {
    pub first: Option<Par>,
    pub second: Option<Par>,
    pub gives: Option<Par>,
}

/// What an operation with this signature gives, if there is one and it gives a value.
pub fn gives_of(signature: Option<Signature>) -> Option<Par>
    ensures { result ≡ gives_of signature }
{
    match signature {
        None => None,
        Some(signature) => signature.gives,
    }
}

impl Key {
    #[tactic(auto, using(crate::proofs::RequestLaws::keys))]
    fn is(&self, other: &Key) -> bool
        ensures { IsTrue result ↔ (self.now ≡ other.now) }
    {
        self.client.is(&other.client)
            && self.retention.0 == other.retention.0
            && self.expiration.0 == other.expiration.0
    }

    /// An equal key.
    pub fn copy(&self, alloc: Global) -> Result<Key, NoMemory>
        ensures { IfOk result (λ key. key ≡ self.now) }
    {
        let client = self.client.copy(alloc)?;
        Ok(Key {
            client,
            retention: self.retention,
            expiration: self.expiration,
        })
    }
}

fn copy_key(alloc: Global, key: &Option<Key>) -> Result<Option<Key>, NoMemory>
    ensures { IfOk result (λ copied. copied ≡ key.now) }
{
    match key {
        None => Ok(None),
        Some(key) => {
            let key = key.copy(alloc)?;
            Ok(Some(key))
        }
    }
}

fn is_one_key(key: &Option<Key>, other: &Option<Key>) -> bool
    ensures { IsTrue result ↔ (key.now ≡ other.now) }
{
    match (key, other) {
        (None, None) => true,
        (Some(key), Some(other)) => key.is(other),
        _ => false,
    }
}

impl Request {
    /// Whether two requests are equal, their keys' expirations included. It takes no memory.
    #[tactic(auto, using(crate::proofs::RequestLaws::requests))]
    pub fn is(&self, other: &Request) -> bool
        ensures { IsTrue result ↔ (self.now ≡ other.now) }
    {
        self.op.is(&other.op) && self.args.is(&other.args) && is_one_key(&self.key, &other.key)
    }

    /// An equal request.
    pub fn copy(&self, alloc: Global) -> Result<Request, NoMemory>
        ensures { IfOk result (λ request. request ≡ self.now) }
    {
        let key = copy_key(alloc, &self.key)?;
        let op = self.op.copy(alloc)?;
        let args = self.args.copy(alloc)?;
        Ok(Request { key, op, args })
    }
}

impl Outcome {
    /// The user exception of this name.
    pub fn user(alloc: Global, exception: &[u8]) -> Result<Outcome, NoMemory>
        requires short { length exception.now < 256 }
        requires name { name_refusal exception.now ≡ None }
        ensures { IfOk result (λ outcome. outcome ≡ Outcome.User exception.now) }
    {
        match Name::of(alloc, exception) {
            Ok(name) => Ok(Outcome::User(name)),
            Err(NameFault::NoMemory) => Err(NoMemory),
            Err(_) => unreachable!(),
        }
    }

    /// An equal outcome.
    pub fn copy(&self, alloc: Global) -> Result<Outcome, NoMemory>
        ensures { IfOk result (λ outcome. outcome ≡ self.now) }
    {
        match self {
            Outcome::Value(value) => {
                let value = value.copy(alloc)?;
                Ok(Outcome::Value(value))
            }
            Outcome::User(name) => {
                let name = name.copy(alloc)?;
                Ok(Outcome::User(name))
            }
        }
    }
}
