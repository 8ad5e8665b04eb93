//! The tags of the External Term Format that a control message can have, and its limits.
//! (ERTS User's Guide, External Term Format.)

/// The byte in front of each term that is in no other.
pub const VERSION: u8 = 131;

/// The tag SMALL_INTEGER_EXT.
pub const SMALL_INTEGER: u8 = 97;

/// The tag INTEGER_EXT.
pub const INTEGER: u8 = 98;

/// The tag SMALL_BIG_EXT.
pub const SMALL_BIG: u8 = 110;

/// The tag SMALL_TUPLE_EXT.
pub const SMALL_TUPLE: u8 = 104;

/// The tag LARGE_TUPLE_EXT.
pub const LARGE_TUPLE: u8 = 105;

/// The tag LIST_EXT.
pub const LIST: u8 = 108;

/// The tag NEW_PID_EXT.
pub const NEW_PID: u8 = 88;

/// The tag NEWER_REFERENCE_EXT.
pub const NEWER_REFERENCE: u8 = 90;

/// The tag ATOM_EXT.
pub const ATOM: u8 = 100;

/// The tag SMALL_ATOM_EXT.
pub const SMALL_ATOM: u8 = 115;

/// The tag ATOM_UTF8_EXT.
pub const ATOM_UTF8: u8 = 118;

/// The tag SMALL_ATOM_UTF8_EXT.
pub const SMALL_ATOM_UTF8: u8 = 119;

/// The most levels of a term.
pub const MOST_LEVELS: u32 = 64;

/// The most levels of a tuple but for the level of its elements.
pub const MOST_HEAD_LEVELS: u32 = 63;

/// The most bytes of the magnitude of a SMALL_BIG.
pub const MOST_DIGITS: u8 = 16;
