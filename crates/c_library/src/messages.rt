//! Reading handshake messages.
ghost use Rattle.std.specs.Prelude.{◌≡◌, ◌≢◌, ◌∷◌, ◌++◌, ◌<◌, ◌≤◌, ◌+◌, ◌^◌, List, ℕ, Option, Result, MatchOption, IfSome, length, take, drop};
ghost use Rattle.std.specs.Int.{to_be_bytes, w32, w64};
ghost use Rattle.erl_term.specs.declared.refusal.Refusal.{Refusal};
ghost use Rattle.erl_handshake.specs.declared.message.Role.{Role as TheRole};
ghost use Rattle.erl_handshake.specs.declared.message.Role.TheVariants.{Dialer, Acceptor};
ghost use Rattle.erl_handshake.specs.declared.message.ShakeMsg.{ShakeMsg};
ghost use Rattle.erl_handshake.specs.Answer.{HasBody, IsBegun, IsShakeDue};
ghost use Rattle.erl_handshake.specs.Reading.{BeginsWithName};
ghost use Rattle.c_library.specs.Parts.{no_place};
ghost use Rattle.c_library.specs.Messages.{role_of, status_number, IsAnswer, IsUntold, ReadsMessage, ReadsNameless};

use crate::parts::{ErldistPlace, NO_PLACE};
use erl_handshake::{Role, Status};
use erl_names::NodeName;

/// A handshake message. Its kind decides on the fields that it has. (ERTS User's Guide, Distribution
/// Protocol, Distribution Handshake.)
#[repr(C)]
#[derive(Clone, Copy, Debug)]
pub struct ErldistMessage {
    /// The number of bytes that the message takes, or 0 if more bytes are needed.
    pub length: usize,
    /// The flags of the sender.
    pub flags: u64,
    /// The place of the sender's name.
    pub name: ErldistPlace,
    /// 1 for send_name, 2 for a status, 3 for a challenge, 4 for its reply, 5 for the acknowledgement.
    pub kind: u32,
    /// The status, 1 to 7.
    pub status: u32,
    /// The challenge of the sender.
    pub challenge: u32,
    /// The creation of the sender.
    pub creation: u32,
    /// The digest of the sender's cookie and the receiver's challenge.
    pub digest: [u8; 16],
}

/// The bytes are no message.
pub(crate) const BAD_MESSAGE: u32 = 10;

/// Returns a message of no kind.
fn untold() -> ErldistMessage
    ensures untold { IsUntold result }
    ensures name { result.name ≡ no_place }
{
    ErldistMessage {
        length: 0,
        flags: 0,
        name: NO_PLACE,
        kind: 0,
        status: 0,
        challenge: 0,
        creation: 0,
        digest: [0; 16],
    }
}

/// Returns the number of 64 bits at the front, and the bytes behind it.
fn u64_at(bytes: &[u8]) -> Option<(u64, &[u8])>
    ensures { MatchOption result (length bytes.now < 8) (λ x. bytes.now ≡ to_be_bytes w64 x.0 ++ x.1.now) }
{
    let (field, rest) = bytes.split_first_chunk::<8>()?;
    Some((u64::from_be_bytes(*field), rest))
}

/// Returns the number of 32 bits at the front, and the bytes behind it.
fn u32_at(bytes: &[u8]) -> Option<(u32, &[u8])>
    ensures { MatchOption result (length bytes.now < 4) (λ x. bytes.now ≡ to_be_bytes w32 x.0 ++ x.1.now) }
{
    let (field, rest) = bytes.split_first_chunk::<4>()?;
    Some((u32::from_be_bytes(*field), rest))
}

/// Returns the bytes behind their length of two bytes, if so many are there.
fn counted_at(bytes: &[u8]) -> Option<&[u8]>
    ensures { MatchOption result (IsBegun bytes.now) (λ body. HasBody bytes.now body.now) }
{
    let (field, rest) = bytes.split_first_chunk::<2>()?;
    rest.get(..usize::from(u16::from_be_bytes(*field)))
}

/// Returns the number of bytes of the name behind its length, if there is one.
fn name_at(bytes: &[u8]) -> Option<usize>
    ensures name { MatchOption result ((name : List ℕ) → ¬ BeginsWithName bytes.now name) (λ n. BeginsWithName bytes.now (take n (drop 2 bytes.now))) }
    ensures within { IfSome result (λ n. n + 2 ≤ length bytes.now) }
{
    let text = counted_at(bytes)?;
    let Ok(name) = str::from_utf8(text) else {
        return None;
    };
    if !NodeName::fits(name) {
        return None;
    }
    Some(text.len())
}

/// Returns the fields of a send_name before the name, and the bytes behind them.
fn send_name_fields(bytes: &[u8]) -> Option<(u64, u32, &[u8])>
    ensures { MatchOption result (length bytes.now < 12) (λ x. (x.0 < 2 ^ 64) × (x.1 < 2 ^ 32) × (bytes.now ≡ to_be_bytes w64 x.0 ++ (to_be_bytes w32 x.1 ++ x.2.now))) }
{
    let (flags, bytes) = u64_at(bytes)?;
    let (creation, bytes) = u32_at(bytes)?;
    Some((flags, creation, bytes))
}

/// Returns the send_name of which these are the bytes behind the letter.
fn send_name_at(bytes: &[u8]) -> Option<ErldistMessage>
    ensures { ReadsMessage Acceptor (78 ∷ bytes.now) result }
{
    let (flags, creation, rest) = send_name_fields(bytes)?;
    let length = name_at(rest)?;
    let name = ErldistPlace { offset: 17, length };
    Some(ErldistMessage {
        kind: 1,
        flags,
        creation,
        name,
        ..untold()
    })
}

/// Returns the fields of a challenge before the name, and the bytes behind them.
fn challenge_fields(bytes: &[u8]) -> Option<(u64, u32, u32, &[u8])>
    ensures { MatchOption result (length bytes.now < 16) (λ x. (x.0 < 2 ^ 64) × (x.1 < 2 ^ 32) × (x.2 < 2 ^ 32) × (bytes.now ≡ to_be_bytes w64 x.0 ++ (to_be_bytes w32 x.1 ++ (to_be_bytes w32 x.2 ++ x.3.now)))) }
{
    let (flags, bytes) = u64_at(bytes)?;
    let (challenge, bytes) = u32_at(bytes)?;
    let (creation, bytes) = u32_at(bytes)?;
    Some((flags, challenge, creation, bytes))
}

/// Returns the challenge of which these are the bytes behind the letter.
fn challenge_at(bytes: &[u8]) -> Option<ErldistMessage>
    ensures { ReadsMessage Dialer (78 ∷ bytes.now) result }
{
    let (flags, challenge, creation, rest) = challenge_fields(bytes)?;
    let length = name_at(rest)?;
    let name = ErldistPlace { offset: 21, length };
    Some(ErldistMessage {
        kind: 3,
        flags,
        challenge,
        creation,
        name,
        ..untold()
    })
}

/// Returns the number of a status.
fn status_number(status: Status) -> u32
    ensures { result ≡ status_number status }
{
    match status {
        Status::Ok => 1,
        Status::OkSimultaneous => 2,
        Status::Nok => 3,
        Status::NotAllowed => 4,
        Status::Alive => 5,
        Status::True => 6,
        Status::False => 7,
    }
}

/// Returns the status with this text.
fn status_at(text: &[u8]) -> Option<ErldistMessage>
    ensures { ReadsNameless (115 ∷ text.now) result }
{
    let status = Status::read(text)?;
    Some(ErldistMessage {
        kind: 2,
        status: status_number(status),
        ..untold()
    })
}

/// Returns the challenge_reply of which these are the bytes behind the letter.
fn reply_at(bytes: &[u8]) -> Option<ErldistMessage>
    ensures { ReadsNameless (114 ∷ bytes.now) result }
{
    let (challenge, digest) = u32_at(bytes)?;
    let digest = <[u8; 16]>::try_from(digest).ok()?;
    Some(ErldistMessage {
        kind: 4,
        challenge,
        digest,
        ..untold()
    })
}

/// Returns the challenge_ack of which these are the bytes behind the letter.
fn ack_at(bytes: &[u8]) -> Option<ErldistMessage>
    ensures { ReadsNameless (97 ∷ bytes.now) result }
{
    let digest = <[u8; 16]>::try_from(bytes).ok()?;
    Some(ErldistMessage {
        kind: 5,
        digest,
        ..untold()
    })
}

/// Returns the message without a name that begins with this letter.
fn nameless_at(letter: u8, bytes: &[u8]) -> Option<ErldistMessage>
    requires { letter ≢ 78 }
    ensures { ReadsNameless (letter ∷ bytes.now) result }
{
    match letter {
        b's' => status_at(bytes),
        b'r' => reply_at(bytes),
        b'a' => ack_at(bytes),
        _ => None,
    }
}

/// Returns the message of which the bytes are the body.
fn message_at(role: Role, body: &[u8]) -> Option<ErldistMessage>
    ensures { ReadsMessage role body.now result }
{
    let (letter, bytes) = body.split_first()?;
    if *letter != b'N' {
        return nameless_at(*letter, bytes);
    }
    match role {
        Role::Acceptor => send_name_at(bytes),
        Role::Dialer => challenge_at(bytes),
    }
}

/// Returns the number of the fault or 0, and the message at the front.
fn answer_at(role: Role, bytes: &[u8]) -> (u32, ErldistMessage)
    ensures due { (due : Result (Option (ShakeMsg × ℕ)) Refusal) × IsShakeDue role bytes.now due × IsAnswer bytes.now due (result.0, result.1) }
    ensures only { (due : Result (Option (ShakeMsg × ℕ)) Refusal) → IsShakeDue role bytes.now due → IsAnswer bytes.now due (result.0, result.1) }
{
    let Some(body) = counted_at(bytes) else {
        return (0, untold());
    };
    match message_at(role, body) {
        Some(message) => {
            let length = body.len() + 2;
            (0, ErldistMessage { length, ..message })
        }
        None => (BAD_MESSAGE, untold()),
    }
}

/// Returns the role of a number.
fn role_of(number: u32) -> Role
    ensures { result ≡ role_of number }
{
    if number == 0 {
        Role::Acceptor
    } else {
        Role::Dialer
    }
}

/// Returns 0, and writes the message at the front to `message`. `role` is 0 if an acceptor reads it, and
/// any other number if a dialer does. Returns 10 if the bytes are no message, and writes one of no kind.
/// Never allocates. (ERTS User's Guide, Distribution Protocol, Distribution Handshake.)
#[unsafe(no_mangle)]
pub extern "C" fn erldist_read_message(role: u32, bytes: &[u8], message: &mut ErldistMessage) -> u32
    ensures due { (due : Result (Option (ShakeMsg × ℕ)) Refusal) × IsShakeDue (role_of role) bytes.now due × IsAnswer bytes.now due (result, message.new) }
    ensures only { (due : Result (Option (ShakeMsg × ℕ)) Refusal) → IsShakeDue (role_of role) bytes.now due → IsAnswer bytes.now due (result, message.new) }
{
    let (fault, answer) = answer_at(role_of(role), bytes);
    *message = answer;
    fault
}
