//! The faults of terms, in words.

use crate::tags::foreign_tag;
use erl_term::TermError;
use std::alloc::AllocError;

/// The tag of the integers that can be out of range.
const BIG: u8 = 110;

// Appends the fault of a byte with which no term goes on.
fn put_byte(out: &mut String, bytes: &[u8], place: usize) -> Result<(), AllocError> {
    match bytes.get(place) {
        Some(byte) if place == 0 => {
            write!(
                out,
                "a term begins with the version byte 131, and not with {byte}"
            )
        }
        Some(byte) => write!(out, "no term goes on with the byte {byte}"),
        None => write!(out, "no term goes on here"),
    }
}

// Appends the fault of a tag that is none of the profile.
fn put_tag(out: &mut String, tag: u8) -> Result<(), AllocError> {
    match foreign_tag(tag) {
        _ if tag == BIG => write!(out, "an integer is -2^127 to 2^127 - 1 here"),
        Some(name) => write!(out, "tag {tag} is {name}, which the profile lacks"),
        None => write!(out, "tag {tag} is none of the External Term Format"),
    }
}

/// Appends the fault of a term, at this place in the bytes.
///
/// # Errors
/// [`AllocError`] if out of memory.
pub fn put_term_fault(
    out: &mut String,
    bytes: &[u8],
    error: TermError,
    place: usize,
) -> Result<(), AllocError> {
    match error {
        TermError::Cut => write!(out, "the bytes end inside a term"),
        TermError::Malformed => put_byte(out, bytes, place),
        TermError::OutOfProfile(tag) => put_tag(out, tag),
        TermError::TooDeep => write!(out, "a term lies below 64 others"),
        TermError::TooLong => write!(out, "a term has at most 1048576 bytes here"),
        TermError::OutOfMemory => write!(out, "memory is wanting"),
    }
}
