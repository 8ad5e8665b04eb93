//! Any term, with the version byte or in so many levels.
ghost use Rattle.std.specs.Prelude.{◌≡◌, ◌≤◌, ◌↔◌, IfOk, IsTrue};
ghost use Rattle.control_beginnings.specs.Parts.{Starts, IsAnySpelling, IsAnyTerm, IsUnfinished, is_open};

use crate::tags::{MOST_LEVELS, SMALL_TUPLE, VERSION};
use erl_term::{TermError, term_at, term_len};
use std::alloc::{AllocError, Global};

/// Returns true if the error says that the bytes end inside a term.
fn is_open(error: TermError) -> bool
    ensures { result ≡ is_open error }
{
    match error {
        TermError::Cut | TermError::TooLong => true,
        _ => false,
    }
}

/// Returns true if the bytes, at whose front no whole term stands, have no fault.
fn is_unfinished(bytes: &[u8]) -> bool
    ensures { IsUnfinished bytes.now result }
{
    match term_len(bytes) {
        Ok(_) => false,
        Err(error) => is_open(error),
    }
}

/// Returns true if a term of at most 64 levels behind the version byte begins with the bytes.
pub fn spelling_begins(bytes: &[u8]) -> bool
    ensures { IsTrue result ↔ Starts IsAnySpelling bytes.now }
{
    match bytes {
        [] => true,
        [VERSION, term @ ..] => match term_at(MOST_LEVELS, term) {
            Some((_, rest)) => rest.is_empty(),
            None => is_unfinished(bytes),
        },
        _ => false,
    }
}

/// Returns true if a term of at most `levels` levels begins with the bytes. The bytes are read inside
/// tuples of one element, which use up the other levels.
pub fn term_begins(alloc: Global, levels: u32, bytes: &[u8]) -> Result<bool, AllocError>
    requires { levels ≤ 64 }
    ensures { IfOk result (λ begins. IsTrue begins ↔ Starts (IsAnyTerm levels) bytes.now) }
{
    let mut text = Vec::new(alloc);
    text.push(VERSION)?;
    for _ in levels..MOST_LEVELS {
        text.extend_from_slice(&[SMALL_TUPLE, 1])?;
    }
    text.extend_from_slice(bytes)?;
    Ok(spelling_begins(text.as_slice()))
}
