//! The tags of terms, in words. (ERTS User's Guide, External Term Format.)

/// Returns the noun for the terms with this tag.
pub fn noun_of(tag: u8) -> &'static str {
    match tag {
        97 | 98 | 110 | 111 => "an integer",
        100 | 115 | 118 | 119 => "an atom",
        88 | 103 => "a pid",
        90 | 101 | 114 => "a reference",
        104 | 105 => "a tuple",
        106 | 107 | 108 => "a list",
        109 => "a binary",
        70 | 99 => "a float",
        116 => "a map",
        77 => "a bit string",
        112 | 113 | 117 => "a fun",
        89 | 102 | 120 => "a port",
        _ => "no term",
    }
}

/// Returns the name of a tag of the standard that the profile lacks.
pub fn foreign_tag(tag: u8) -> Option<&'static str> {
    match tag {
        70 => Some("NEW_FLOAT_EXT"),
        77 => Some("BIT_BINARY_EXT"),
        82 => Some("ATOM_CACHE_REF"),
        89 => Some("NEW_PORT_EXT"),
        99 => Some("FLOAT_EXT"),
        101 => Some("REFERENCE_EXT"),
        102 => Some("PORT_EXT"),
        103 => Some("PID_EXT"),
        111 => Some("LARGE_BIG_EXT"),
        112 => Some("NEW_FUN_EXT"),
        113 => Some("EXPORT_EXT"),
        114 => Some("NEW_REFERENCE_EXT"),
        116 => Some("MAP_EXT"),
        117 => Some("FUN_EXT"),
        120 => Some("V4_PORT_EXT"),
        121 => Some("LOCAL_EXT"),
        _ => None,
    }
}
