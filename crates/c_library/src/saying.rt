//! Writing handshake messages.
ghost use Rattle.std.specs.Prelude.{◌≡◌, ◌↔◌, ◌∷◌, ◌++◌, ◌<◌, ◌≤◌, ◌+◌, ◌^◌, [], None, Some, IsTrue, MatchOption, length};
ghost use Rattle.std.specs.Int.{to_be_bytes, w16, w32, w64};
ghost use Rattle.erl_names.specs.Name.{IsNodeName};
ghost use Rattle.erl_handshake.specs.declared.message.ShakeMsg.TheVariants as variant;
ghost use Rattle.erl_handshake.specs.Messages.{content, counted, written, status_text, HasFields};
ghost use Rattle.c_library.specs.Messages.{message_of, status_by};
ghost use Rattle.c_library.specs.Saying.{shake_in, IsSaid};
ghost use Rattle.c_library.specs.Written.{IsWritten};

use crate::buffers::put_bytes;
use crate::messages::{BAD_MESSAGE, ErldistMessage};
use crate::writing::NO_ROOM;
use erl_handshake::Status;
use erl_names::NodeName;

/// A message that is to be written, with a name that lies elsewhere.
#[derive(Clone, Copy)]
pub(crate) enum Shake<'a> {
    SendName {
        flags: u64,
        creation: u32,
        name: &'a [u8],
    },
    Status(Status),
    Challenge {
        flags: u64,
        challenge: u32,
        creation: u32,
        name: &'a [u8],
    },
    ChallengeReply {
        challenge: u32,
        digest: [u8; 16],
    },
    ChallengeAck {
        digest: [u8; 16],
    },
}

/// Returns the status of a number.
fn status_of(number: u32) -> Option<Status>
    ensures { result ≡ status_by number }
{
    match number {
        1 => Some(Status::Ok),
        2 => Some(Status::OkSimultaneous),
        3 => Some(Status::Nok),
        4 => Some(Status::NotAllowed),
        5 => Some(Status::Alive),
        6 => Some(Status::True),
        7 => Some(Status::False),
        _ => None,
    }
}

/// Returns the message of this kind and these numbers, if there is one.
fn shake_of<'a>(message: &ErldistMessage, name: &'a [u8]) -> Option<Shake<'a>>
    ensures { MatchOption result (message_of message.now name.now ≡ None) (λ s. message_of message.now name.now ≡ Some (shake_in s)) }
{
    match message.kind {
        1 => Some(Shake::SendName {
            flags: message.flags,
            creation: message.creation,
            name,
        }),
        2 => Some(Shake::Status(status_of(message.status)?)),
        3 => Some(Shake::Challenge {
            flags: message.flags,
            challenge: message.challenge,
            creation: message.creation,
            name,
        }),
        4 => Some(Shake::ChallengeReply {
            challenge: message.challenge,
            digest: message.digest,
        }),
        5 => Some(Shake::ChallengeAck {
            digest: message.digest,
        }),
        _ => None,
    }
}

/// Returns true if the bytes are the name of a node.
fn is_name(text: &[u8]) -> bool
    ensures { IsTrue result ↔ IsNodeName text.now }
{
    match str::from_utf8(text) {
        Ok(text) => NodeName::fits(text),
        Err(_) => false,
    }
}

/// Returns true if the message's name, if it has one, is that of a node.
fn has_fields(shake: Shake<'_>) -> bool
    ensures { IsTrue result ↔ HasFields (shake_in shake.entry) }
{
    match shake {
        Shake::SendName { name, .. } | Shake::Challenge { name, .. } => is_name(name),
        Shake::Status(_) | Shake::ChallengeReply { .. } | Shake::ChallengeAck { .. } => true,
    }
}

/// Returns the number of bytes of a digest.
fn digest_len(digest: [u8; 16]) -> usize
    ensures len { result ≡ length digest }
    ensures sixteen { result ≡ 16 }
{
    digest.len()
}

/// Returns the number of bytes behind the message's length.
fn content_len(shake: Shake<'_>) -> usize
    requires { HasFields (shake_in shake) }
    ensures len { result ≡ length (content (shake_in shake.entry)) }
    ensures bound { result < 2 ^ 16 }
{
    match shake {
        Shake::SendName { name, .. } => 15 + name.len(),
        Shake::Status(status) => 1 + status.text().len(),
        Shake::Challenge { name, .. } => 19 + name.len(),
        Shake::ChallengeReply { digest, .. } => 5 + digest_len(digest),
        Shake::ChallengeAck { digest } => 1 + digest_len(digest),
    }
}

/// Writes the length and the letter of a message.
fn put_letter(out: &mut [u8], len: usize, letter: u8) -> usize
    requires len { len < 2 ^ 16 }
    requires room { 3 ≤ length out.old }
    ensures { IsWritten 0 (to_be_bytes w16 len ++ letter ∷ []) out.old result out.new }
{
    let [high, low] = (len as u16).to_be_bytes();
    put_bytes(out, 0, &[high, low, letter])
}

/// Writes a creation, and a name behind its length.
fn put_node(out: &mut [u8], start: usize, creation: u32, name: &[u8]) -> usize
    requires short { length name.now < 2 ^ 16 }
    requires room { start + length (to_be_bytes w32 creation ++ counted name.now) ≤ length out.old }
    ensures { IsWritten start (to_be_bytes w32 creation ++ counted name.now) out.old result out.new }
{
    let number = put_bytes(out, start, &creation.to_be_bytes());
    let [high, low] = (name.len() as u16).to_be_bytes();
    let len = put_bytes(out, number, &[high, low]);
    put_bytes(out, len, name)
}

/// Writes a send_name.
fn put_send_name(out: &mut [u8], flags: u64, creation: u32, name: &[u8]) -> usize
    requires short { length name.now ≤ 64 }
    requires room { length (written (variant.SendName flags creation name.now)) ≤ length out.old }
    ensures { IsWritten 0 (written (variant.SendName flags creation name.now)) out.old result out.new }
{
    let letter = put_letter(out, 15 + name.len(), b'N');
    let word = put_bytes(out, letter, &flags.to_be_bytes());
    put_node(out, word, creation, name)
}

/// Writes a challenge.
fn put_challenge(out: &mut [u8], flags: u64, challenge: u32, creation: u32, name: &[u8]) -> usize
    requires short { length name.now ≤ 64 }
    requires room { length (written (variant.Challenge flags challenge creation name.now)) ≤ length out.old }
    ensures { IsWritten 0 (written (variant.Challenge flags challenge creation name.now)) out.old result out.new }
{
    let letter = put_letter(out, 19 + name.len(), b'N');
    let word = put_bytes(out, letter, &flags.to_be_bytes());
    let number = put_bytes(out, word, &challenge.to_be_bytes());
    put_node(out, number, creation, name)
}

/// Writes a status.
fn put_status(out: &mut [u8], status: Status) -> usize
    requires { length (written (variant.Status status)) ≤ length out.old }
    ensures { IsWritten 0 (written (variant.Status status)) out.old result out.new }
{
    let text = status.text().as_bytes();
    let letter = put_letter(out, 1 + text.len(), b's');
    put_bytes(out, letter, text)
}

/// Writes a challenge_reply.
fn put_reply(out: &mut [u8], challenge: u32, digest: [u8; 16]) -> usize
    requires { length (written (variant.ChallengeReply challenge digest)) ≤ length out.old }
    ensures { IsWritten 0 (written (variant.ChallengeReply challenge digest)) out.old result out.new }
{
    let letter = put_letter(out, 5 + digest_len(digest), b'r');
    let number = put_bytes(out, letter, &challenge.to_be_bytes());
    put_bytes(out, number, &digest)
}

/// Writes a challenge_ack.
fn put_ack(out: &mut [u8], digest: [u8; 16]) -> usize
    requires { length (written (variant.ChallengeAck digest)) ≤ length out.old }
    ensures { IsWritten 0 (written (variant.ChallengeAck digest)) out.old result out.new }
{
    let letter = put_letter(out, 1 + digest_len(digest), b'a');
    put_bytes(out, letter, &digest)
}

/// Writes the message, and returns its length.
fn put_shake(out: &mut [u8], shake: Shake<'_>) -> usize
    requires fields { HasFields (shake_in shake) }
    requires room { length (written (shake_in shake)) ≤ length out.old }
    ensures { IsWritten 0 (written (shake_in shake.entry)) out.old result out.new }
{
    match shake {
        Shake::SendName {
            flags,
            creation,
            name,
        } => put_send_name(out, flags, creation, name),
        Shake::Status(status) => put_status(out, status),
        Shake::Challenge {
            flags,
            challenge,
            creation,
            name,
        } => put_challenge(out, flags, challenge, creation, name),
        Shake::ChallengeReply { challenge, digest } => put_reply(out, challenge, digest),
        Shake::ChallengeAck { digest } => put_ack(out, digest),
    }
}

/// Writes the handshake message to `out`, and its length to `length`. Returns 0. Its `length` and its
/// place of a name are not read: its name is `name`. Returns 10 if there is no such kind or status, or if
/// `name` is that of no node, and writes 0 to `length`. Returns 100 if `out` is shorter than the message.
/// Unless it returns 0, `out` stays as it was. Never allocates. (ERTS User's Guide, Distribution Protocol,
/// Distribution Handshake.)
#[unsafe(no_mangle)]
pub extern "C" fn erldist_put_message(
    message: &ErldistMessage,
    name: &[u8],
    out: &mut [u8],
    length: &mut usize,
) -> u32
    ensures { IsSaid message.now name.now out.old result length.new out.new }
{
    let Some(shake) = shake_of(message, name) else {
        *length = 0;
        return BAD_MESSAGE;
    };
    if !has_fields(shake) {
        *length = 0;
        return BAD_MESSAGE;
    }
    let size = content_len(shake) + 2;
    *length = size;
    if out.len() < size {
        return NO_ROOM;
    }
    put_shake(out, shake);
    0
}
