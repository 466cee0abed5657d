ghost use Rattle.std.specs.Prelude.{◌≡◌};

use cdr_codec::Tagged;
use ft_base::{Bytes, Key, Version};
use std::marker::Model;

/// The id of the context with the version of the group's reference that the client has (chapter 23,
/// `FT_GROUP_VERSION`).
pub const FT_GROUP_VERSION: u32 = 12;

/// The id of the context with the client's id, its retention id and the request's expiration (chapter
/// 23, `FT_REQUEST`).
pub const FT_REQUEST: u32 = 13;

/// A service context, whose content is an encapsulation (GIOP chapter, `IOP::ServiceContext`).
#[derive(Drop)]
pub struct Context {
    pub id: u32,
    pub content: Bytes,
}

/// Service contexts, in order (GIOP chapter, `IOP::ServiceContextList`).
#[derive(Drop)]
pub struct Contexts {
    contexts: Vec<Context>,
}

impl Tagged for Context {
    ghost use Rattle.std.specs.Prelude.{refl};
    ghost use Rattle.ft_contexts.specs.Lists.{context_with, context_parts};

    ghost made = { context_with };

    ghost parts = { context_parts };

    fn behind(tag: u32, content: Bytes) -> Context {
        Context { id: tag, content }
    }

    fn tag(&self) -> u32 {
        self.id
    }

    fn content(&self) -> &[u8] {
        self.content.bytes()
    }

    ghost kept = { λ x. refl };

    ghost whole = { λ one. refl };
}

impl Model for Contexts {
    ghost use Rattle.std.specs.Prelude.{List};
    ghost use Rattle.ft_contexts.specs.declared.lists.Context.{Context};

    ghost Value = { List Context };

    ghost view = { λ c. c.contexts.items };
}

/// What a request's contexts tell.
#[derive(Drop)]
pub struct FtContexts {
    /// The version of the group's reference that the client has.
    pub version: Option<Version>,
    /// What makes the request one logical invocation.
    pub key: Option<Key>,
}

impl Contexts {
    /// These contexts. It takes no memory.
    pub fn from_vec(contexts: Vec<Context>) -> Contexts
        ensures { result ≡ contexts.items }
    {
        Contexts { contexts }
    }

    /// The contexts themselves.
    pub fn as_slice(&self) -> &[Context]
        ensures { result.now ≡ self.now }
    {
        self.contexts.as_slice()
    }
}
