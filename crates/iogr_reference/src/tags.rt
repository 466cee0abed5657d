//! The tags of profiles and components.

/// The tag of an IIOP profile (GIOP chapter, `TAG_INTERNET_IOP`).
pub const IIOP_TAG: u32 = 0;

/// The tag of the component that names the group (chapter 23, `TAG_FT_GROUP`).
pub const GROUP_TAG: u32 = 27;

/// The tag of the component that marks the primary (chapter 23, `TAG_FT_PRIMARY`).
pub const PRIMARY_TAG: u32 = 28;
