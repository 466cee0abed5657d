//! What this product chose where the standard leaves a choice.

/// The domain of every group (chapter 23, `ft_domain_id`).
pub const DOMAIN: [u8; 3] = *b"ftc";

/// The address at which each host can be reached.
pub const ADDRESS: [u8; 9] = *b"127.0.0.1";

/// The port of host 0. Host H listens at this and H.
pub const FIRST_PORT: u16 = 2000;

/// The first bytes of each group's object key; the group's number follows.
pub const KEY_SIGN: [u8; 4] = *b"FTOG";

/// The bytes of a group's object key: its sign, and its number in 8 bytes.
pub const KEY_LENGTH: usize = 12;

/// What stands before a type's or an exception's name in its repository id.
pub const ID_FRONT: [u8; 8] = *b"IDL:ftc/";

/// What stands behind it.
pub const ID_BACK: [u8; 4] = *b":1.0";

/// The most bytes of a repository id: those of its front, of a name, and of its back.
pub const ID_LIMIT: usize = 267;

/// The most IIOP profiles that a group's reference can have.
pub const PROFILE_LIMIT: usize = 65_535;
