use cdr_codec::Raw;
use ft_base::{Key, Name, Version};

/// What a request's message asks of a group.
#[derive(Drop)]
pub struct Asked {
    /// The version of the group's reference that the client has (chapter 23, `FT_GROUP_VERSION`).
    pub version: Option<Version>,
    /// What makes it one logical invocation (chapter 23, `FT_REQUEST`).
    pub key: Option<Key>,
    /// The id of the context that stands twice or can't be read. Then there is no version and no key.
    pub bad_context: Option<u32>,
    /// None where the operation isn't a name. No servant has such an operation.
    pub op: Option<Name>,
    pub body: Raw,
}
