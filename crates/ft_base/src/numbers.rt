/// The number of a host, below 64.
#[derive(Clone, Copy, Debug, PartialEq, Eq)]
pub struct HostNo(pub u8);

/// The number of an object group, from 1 in order of creation (chapter 23, `ObjectGroupId`).
#[derive(Clone, Copy, Debug, PartialEq, Eq)]
pub struct GroupId(pub u64);

/// The version of a group's reference, from 1 (chapter 23, `ObjectGroupRefVersion`).
#[derive(Clone, Copy, Debug, PartialEq, Eq)]
pub struct Version(pub u32);

/// A moment, in units of a request's expiration field.
#[derive(Clone, Copy, Debug, PartialEq, Eq)]
pub struct Tick(pub u64);

/// The retention id of a request: with the client's id it names one logical invocation, however
/// often that is sent (chapter 23, `FTRequestServiceContext`).
#[derive(Clone, Copy, Debug, PartialEq, Eq)]
pub struct Retention(pub i32);
