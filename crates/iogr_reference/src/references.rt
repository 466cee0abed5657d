use crate::lists::{Components, IiopList, Profiles};
use cdr_codec::Tagged;
use ft_base::{Bytes, GroupId, Version};

/// One way to reach an object, by its tag (GIOP chapter, `TaggedProfile`). The content of an IIOP
/// profile is an encapsulation; that of another is kept as it is.
#[derive(Drop)]
pub struct Profile {
    pub tag: u32,
    pub content: Bytes,
}

impl Tagged for Profile {
    ghost use Rattle.std.specs.Prelude.{refl};
    ghost use Rattle.iogr_reference.specs.Formats.{profile_of, profile_parts};

    ghost made = { profile_of };

    ghost parts = { profile_parts };

    fn behind(tag: u32, content: Bytes) -> Profile {
        Profile { tag, content }
    }

    fn tag(&self) -> u32 {
        self.tag
    }

    fn content(&self) -> &[u8] {
        self.content.bytes()
    }

    ghost kept = { λ x. refl };

    ghost whole = { λ p. refl };
}

/// A reference to an object (GIOP chapter, `IOR`).
#[derive(Drop)]
pub struct Ior {
    /// The repository id of the object's type, without a zero byte.
    pub type_id: Bytes,
    pub profiles: Profiles,
}

/// What an IIOP profile says beside its address, by its tag (GIOP chapter, `TaggedComponent`).
#[derive(Drop)]
pub struct Component {
    pub tag: u32,
    pub content: Bytes,
}

impl Tagged for Component {
    ghost use Rattle.std.specs.Prelude.{refl};
    ghost use Rattle.iogr_reference.specs.Formats.{component_of, component_parts};

    ghost made = { component_of };

    ghost parts = { component_parts };

    fn behind(tag: u32, content: Bytes) -> Component {
        Component { tag, content }
    }

    fn tag(&self) -> u32 {
        self.tag
    }

    fn content(&self) -> &[u8] {
        self.content.bytes()
    }

    ghost kept = { λ x. refl };

    ghost whole = { λ c. refl };
}

/// What an IIOP profile holds (GIOP chapter, `IIOP::ProfileBody`). The major version isn't kept.
#[derive(Drop)]
pub struct Iiop {
    pub minor: u8,
    /// The host's name or address, without a zero byte.
    pub host: Bytes,
    pub port: u16,
    pub key: Bytes,
    /// None where the minor version is 0.
    pub components: Components,
}

/// What the group component of a profile says (chapter 23, `TagFTGroupTaggedComponent`).
#[derive(Drop)]
pub struct GroupTag {
    pub domain: Bytes,
    pub group: GroupId,
    pub version: Version,
}

/// A reference to an object group, with an IIOP profile of each member (chapter 23, "Object group
/// references").
#[derive(Drop)]
pub struct GroupRef {
    pub domain: Bytes,
    pub group: GroupId,
    pub version: Version,
    pub type_id: Bytes,
    pub profiles: IiopList,
    /// The place of the primary's profile among `profiles`.
    pub primary: Option<u16>,
}
