//! The faults of messages of the handshake, in words.

use erl_handshake::Role;
use fault_places::Reader;
use std::alloc::AllocError;

/// The number of bytes of a message's length.
const LENGTH: usize = 2;

// Appends that a message ends inside one of its fields.
fn put_end(out: &mut String, message: &str, field: &str) -> Result<(), AllocError> {
    write!(out, "the {message} ends inside its {field}")
}

// Appends the fault of a message that begins with a name: a send_name, or a challenge. So many bytes stand before
// the length of its name.
fn put_name_fault(
    out: &mut String,
    message: &str,
    before: usize,
    body: &[u8],
    place: usize,
) -> Result<(), AllocError> {
    let Some([high, low, name @ ..]) = body.get(before..) else {
        return put_end(out, message, "fields of fixed length");
    };
    let len = usize::from(*high) * 256 + usize::from(*low);
    if place < before + 2 {
        return write!(out, "a name has 3 to 64 bytes here, and not {len}");
    }
    if name.len() < len {
        return put_end(out, message, "name");
    }
    write!(
        out,
        "the name of a node has letters, digits, '_' and '-', then '@' and its host"
    )
}

// Appends the fault of a message of a fixed length.
fn put_fixed(out: &mut String, message: &str, due: usize, body: &[u8]) -> Result<(), AllocError> {
    let len = body.len();
    write!(
        out,
        "the {message} has {due} bytes behind its length, and not {len}"
    )
}

// Appends the fault of the bytes behind a message's length, at this place in them.
fn put_body_fault(
    out: &mut String,
    role: Role,
    body: &[u8],
    place: usize,
) -> Result<(), AllocError> {
    match (body.first(), role) {
        (None, _) => write!(out, "the message is empty"),
        (Some(b'N'), Role::Acceptor) => put_name_fault(out, "send_name", 13, body, place),
        (Some(b'N'), Role::Dialer) => put_name_fault(out, "challenge", 17, body, place),
        (Some(b's'), _) => write!(
            out,
            "a status is ok, ok_simultaneous, nok, not_allowed, alive, true or false"
        ),
        (Some(b'r'), _) => put_fixed(out, "challenge_reply", 21, body),
        (Some(b'a'), _) => put_fixed(out, "challenge_ack", 17, body),
        (Some(letter), _) => write!(
            out,
            "no message of the handshake begins with the byte {letter}"
        ),
    }
}

/// Appends the fault of a message of the handshake, at this place in its bytes, for this reader.
///
/// # Errors
/// [`AllocError`] if out of memory.
pub fn put_message_fault(
    out: &mut String,
    reader: Reader,
    message: &[u8],
    place: usize,
) -> Result<(), AllocError> {
    let role = match reader {
        Reader::Message(role) => role,
        _ => Role::Acceptor,
    };
    let body = message.get(LENGTH..).unwrap_or(&[]);
    put_body_fault(out, role, body, place.saturating_sub(LENGTH))
}
