//! The bytes that say what comes next. (ERTS User's Guide, External Term Format.)

/// Before each term that is in no other.
pub const VERSION: u8 = 131;

pub const SMALL_INTEGER: u8 = 97;

pub const INTEGER: u8 = 98;

pub const SMALL_BIG: u8 = 110;

pub const ATOM_UTF8: u8 = 118;

pub const SMALL_ATOM_UTF8: u8 = 119;

pub const SMALL_TUPLE: u8 = 104;

pub const LARGE_TUPLE: u8 = 105;

pub const NEW_PID: u8 = 88;

pub const SMALL_ATOM: u8 = 115;

pub const ATOM: u8 = 100;

pub const NIL: u8 = 106;

pub const STRING: u8 = 107;

pub const LIST: u8 = 108;

pub const BINARY: u8 = 109;

pub const NEWER_REFERENCE: u8 = 90;
