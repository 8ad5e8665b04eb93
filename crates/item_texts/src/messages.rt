//! The words for a message of the handshake.
ghost use Rattle.std.specs.Prelude.{◌≡◌, ◌++◌, OnOk, string_bytes};
ghost use Rattle.item_texts.specs.Words.{field, message_fields, message_name, message_text};
ghost use Rattle.hex.specs.Hex.{encode_upper as hex_of};

use erl_handshake::ShakeMsg;
use hex::encode_upper;
use std::alloc::{AllocError, Global};

fn put_digest(alloc: Global, out: &mut String, digest: [u8; 16]) -> Result<(), AllocError>
    ensures { OnOk result (string_bytes out.new ≡ string_bytes out.old ++ field (hex_of digest)) }
{
    let hex = encode_upper(alloc, &digest)?;
    write!(out, " {hex}")
}

/// Returns the name of a message, without the `send_` of all but the first. (ERTS User's Guide, Distribution
/// Protocol, Distribution Handshake.)
pub fn message_name(message: &ShakeMsg) -> &'static str
    ensures { result.now ≡ message_name message.now }
{
    match message {
        ShakeMsg::SendName { .. } => "send_name",
        ShakeMsg::Status(_) => "status",
        ShakeMsg::Challenge { .. } => "challenge",
        ShakeMsg::ChallengeReply { .. } => "challenge_reply",
        ShakeMsg::ChallengeAck { .. } => "challenge_ack",
    }
}

// Appends the fields of a message.
fn put_fields(alloc: Global, out: &mut String, message: &ShakeMsg) -> Result<(), AllocError>
    ensures { OnOk result (string_bytes out.new ≡ string_bytes out.old ++ message_fields message.now) }
{
    match message {
        ShakeMsg::SendName {
            flags,
            creation,
            name,
        } => {
            let (bits, name) = (flags.bits(), name.text());
            write!(out, " {bits:X} {creation} {name}")
        }
        ShakeMsg::Status(status) => {
            let text = status.text();
            write!(out, " {text}")
        }
        ShakeMsg::Challenge {
            flags,
            challenge,
            creation,
            name,
        } => {
            let (bits, name) = (flags.bits(), name.text());
            write!(out, " {bits:X} {challenge} {creation} {name}")
        }
        ShakeMsg::ChallengeReply { challenge, digest } => {
            write!(out, " {challenge}")?;
            put_digest(alloc, out, *digest)
        }
        ShakeMsg::ChallengeAck { digest } => put_digest(alloc, out, *digest),
    }
}

/// Appends the name of a message, and its fields in their order. Flags and digests are in hex. (ERTS User's
/// Guide, Distribution Protocol, Distribution Handshake.)
///
/// # Errors
/// [`AllocError`] if out of memory.
pub fn put_message(alloc: Global, out: &mut String, message: &ShakeMsg) -> Result<(), AllocError>
    ensures { OnOk result (string_bytes out.new ≡ string_bytes out.old ++ message_text message.now) }
{
    out.push_str(message_name(message))?;
    put_fields(alloc, out, message)
}
