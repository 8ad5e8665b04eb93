//! The beginnings of bodies.
ghost use Rattle.std.specs.Prelude.{◌≡◌, ◌∷◌, ◌↔◌, IsTrue};
ghost use Rattle.readers.specs.Places.{Begins};
ghost use Rattle.erl_handshake.specs.Messages.{IsBody};
ghost use Rattle.message_beginnings.specs.Parts.{fields_len};

use crate::names::{MOST, name_begins_behind};
use crate::statuses::status_begins;
use erl_handshake::Role;

/// The number of bytes behind the letter of a challenge_reply: 4 of the challenge and 16 of the digest.
pub(crate) const REPLY: usize = 20;

/// The number of bytes behind the letter of a challenge_ack, all of the digest.
pub(crate) const ACK: usize = 16;

/// Returns the number of bytes between the letter N and the length of the name: of the flags and the
/// creation for an acceptor, and of a challenge too for a dialer.
pub(crate) fn fields_len(role: Role) -> usize
    ensures { result ≡ fields_len role }
{
    match role {
        Role::Acceptor => 12,
        Role::Dialer => 16,
    }
}

/// Returns true if the body of a message with a name begins with the letter N and these fields.
fn named_begins(role: Role, fields: &[u8]) -> bool
    ensures { IsTrue result ↔ Begins (IsBody role) (78 ∷ fields.now) }
{
    name_begins_behind(fields_len(role), MOST, fields)
}

/// Returns true if the body of a message, as this role reads it, begins with these bytes. The bytes may be
/// a whole body, or none. (ERTS User's Guide, Distribution Protocol, Distribution Handshake.)
pub fn body_begins(role: Role, body: &[u8]) -> bool
    ensures { IsTrue result ↔ Begins (IsBody role) body.now }
{
    let Some((letter, fields)) = body.split_first() else {
        return true;
    };
    match *letter {
        b'N' => named_begins(role, fields),
        b's' => status_begins(fields),
        b'r' => fields.len() <= REPLY,
        b'a' => fields.len() <= ACK,
        _ => false,
    }
}
