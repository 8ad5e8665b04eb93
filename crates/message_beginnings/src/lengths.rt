//! The beginnings of bodies of a known length.
ghost use Rattle.std.specs.Prelude.{◌≡◌, [], ◌∷◌, ◌↔◌, IsTrue, length};
ghost use Rattle.readers.specs.Places.{Begins};
ghost use Rattle.erl_handshake.specs.Messages.{IsBody};
ghost use Rattle.message_beginnings.specs.Parts.{IsBodyOf};

use crate::bodies::{ACK, REPLY, fields_len};
use crate::names::name_begins_behind;
use crate::statuses::status_of_length_begins;
use erl_handshake::Role;

/// Returns true if the body of a message with a name, of `len` bytes, begins with the letter N and these
/// fields. Besides the fields before the name, a body has the letter and two bytes of the name's length.
fn named_begins_of(role: Role, len: usize, fields: &[u8]) -> bool
    ensures { IsTrue result ↔ Begins (IsBodyOf role len) (78 ∷ fields.now) }
{
    let before = fields_len(role);
    fields.len() < len && name_begins_behind(before, len.saturating_sub(before + 3), fields)
}

/// Returns true if the body of a message, of `len` bytes, begins with the letter and these fields.
fn letter_begins_of(role: Role, len: usize, letter: u8, fields: &[u8]) -> bool
    ensures { IsTrue result ↔ Begins (IsBodyOf role len) (letter ∷ fields.now) }
{
    match letter {
        b'N' => named_begins_of(role, len, fields),
        b's' => status_of_length_begins(len, fields),
        b'r' => len == REPLY + 1 && fields.len() <= REPLY,
        b'a' => len == ACK + 1 && fields.len() <= ACK,
        _ => false,
    }
}

/// Returns true if there is a body of `len` bytes.
fn is_body_length(role: Role, len: usize) -> bool
    ensures { IsTrue result ↔ Begins (IsBodyOf role len) [] }
{
    letter_begins_of(role, len, b'N', &[])
        || letter_begins_of(role, len, b's', &[])
        || letter_begins_of(role, len, b'r', &[])
        || letter_begins_of(role, len, b'a', &[])
}

/// Returns true if the body of a message of exactly `len` bytes, as this role reads it, begins with these
/// bytes. The bytes may be a whole body, or none. It returns false for all bytes if no body has the length.
/// (ERTS User's Guide, Distribution Protocol, Distribution Handshake.)
pub fn body_of_length_begins(role: Role, len: usize, body: &[u8]) -> bool
    ensures { IsTrue result ↔ Begins (λ message b. IsBody role message b × (length b ≡ len)) body.now }
{
    match body.split_first() {
        Some((letter, fields)) => letter_begins_of(role, len, *letter, fields),
        None => is_body_length(role, len),
    }
}
