//! Reading messages.
ghost use Rattle.std.specs.Prelude.{◌≡◌, ◌≢◌, ◌⊎◌, ◌∷◌, ◌++◌, ◌<◌, ◌^◌, List, ℕ, Option, Some, None, Result, Ok, Err, IfOk, IfErr, IfSome, IfNone, IsErrOf, MatchOption, length};
ghost use Rattle.std.specs.Int.{to_be_bytes, w32, w64};
ghost use Rattle.erl_term.specs.declared.refusal.Refusal.{Refusal};
ghost use Rattle.erl_handshake.specs.declared.message.ShakeMsg.{ShakeMsg as TheMessage};
ghost use Rattle.erl_handshake.specs.Messages.{IsBody};
ghost use Rattle.erl_handshake.specs.Answer.{IsShakeDue};
ghost use Rattle.erl_handshake.specs.Reading.{Decides, ReadsBody};

use crate::fields::{counted_at, name_of, u32_at, u64_at};
use crate::flags::Flags;
use crate::message::{Role, ShakeMsg};
use crate::status::Status;
use erl_term::Refusal;
use std::alloc::Global;

/// The fields of a send_name before the name, and what follows them.
fn send_name_fields(bytes: &[u8]) -> Option<(u64, u32, &[u8])>
    ensures { MatchOption result (length bytes.now < 12) (λ x. (x.0 < 2 ^ 64) × (x.1 < 2 ^ 32) × (bytes.now ≡ to_be_bytes w64 x.0 ++ (to_be_bytes w32 x.1 ++ x.2.now))) }
{
    let (flags, bytes) = u64_at(bytes)?;
    let (creation, bytes) = u32_at(bytes)?;
    Some((flags, creation, bytes))
}

/// The send_name of which these are the bytes behind the letter.
fn send_name_of(alloc: Global, bytes: &[u8]) -> Result<ShakeMsg, Refusal>
    ensures { Decides (λ message. IsBody Role.Acceptor message (78 ∷ bytes.now)) result }
{
    let Some((flags, creation, bytes)) = send_name_fields(bytes) else {
        return Err(Refusal::BadMessage);
    };
    let name = name_of(alloc, bytes)?;
    Ok(ShakeMsg::SendName {
        flags: Flags::from_bits(flags),
        creation,
        name,
    })
}

/// The fields of a challenge before the name, and what follows them.
fn challenge_fields(bytes: &[u8]) -> Option<(u64, u32, u32, &[u8])>
    ensures { MatchOption result (length bytes.now < 16) (λ x. (x.0 < 2 ^ 64) × (x.1 < 2 ^ 32) × (x.2 < 2 ^ 32) × (bytes.now ≡ to_be_bytes w64 x.0 ++ (to_be_bytes w32 x.1 ++ (to_be_bytes w32 x.2 ++ x.3.now)))) }
{
    let (flags, bytes) = u64_at(bytes)?;
    let (challenge, bytes) = u32_at(bytes)?;
    let (creation, bytes) = u32_at(bytes)?;
    Some((flags, challenge, creation, bytes))
}

/// The challenge of which these are the bytes behind the letter.
fn challenge_of(alloc: Global, bytes: &[u8]) -> Result<ShakeMsg, Refusal>
    ensures { Decides (λ message. IsBody Role.Dialer message (78 ∷ bytes.now)) result }
{
    let Some((flags, challenge, creation, bytes)) = challenge_fields(bytes) else {
        return Err(Refusal::BadMessage);
    };
    let name = name_of(alloc, bytes)?;
    Ok(ShakeMsg::Challenge {
        flags: Flags::from_bits(flags),
        challenge,
        creation,
        name,
    })
}

/// The challenge_reply of which these are the bytes behind the letter.
fn challenge_reply_of(bytes: &[u8]) -> Option<ShakeMsg>
    ensures { ReadsBody (114 ∷ bytes.now) result }
{
    let (challenge, digest) = u32_at(bytes)?;
    let digest = <[u8; 16]>::try_from(digest).ok()?;
    Some(ShakeMsg::ChallengeReply { challenge, digest })
}

/// The challenge_ack of which these are the bytes behind the letter.
fn challenge_ack_of(bytes: &[u8]) -> Option<ShakeMsg>
    ensures { ReadsBody (97 ∷ bytes.now) result }
{
    let digest = <[u8; 16]>::try_from(bytes).ok()?;
    Some(ShakeMsg::ChallengeAck { digest })
}

/// The message without a name that begins with this letter, behind which these bytes stand.
fn nameless_of(letter: u8, bytes: &[u8]) -> Option<ShakeMsg>
    requires { letter ≢ 78 }
    ensures { ReadsBody (letter ∷ bytes.now) result }
{
    match letter {
        b's' => Some(ShakeMsg::Status(Status::read(bytes)?)),
        b'r' => challenge_reply_of(bytes),
        b'a' => challenge_ack_of(bytes),
        _ => None,
    }
}

/// The message of which the bytes are the body.
fn message_of(alloc: Global, role: Role, body: &[u8]) -> Result<ShakeMsg, Refusal>
    ensures { Decides (λ message. IsBody role message body.now) result }
{
    let Some((letter, bytes)) = body.split_first() else {
        return Err(Refusal::BadMessage);
    };
    if *letter != b'N' {
        return nameless_of(*letter, bytes).ok_or(Refusal::BadMessage);
    }
    match role {
        Role::Acceptor => send_name_of(alloc, bytes),
        Role::Dialer => challenge_of(alloc, bytes),
    }
}

/// The message at the front, for a reader of this role, and how many bytes it takes. None asks for
/// more bytes: while the length of two bytes, or the bytes that it counts, aren't all there,
/// whatever they are. (ERTS User's Guide, Distribution Protocol, Distribution Handshake.)
///
/// The letter N begins a send_name for an acceptor, and a challenge for a dialer. Refused with
/// [`Refusal::BadMessage`] where the message is whole and none of the table, and with
/// [`Refusal::OutOfMemory`] only where a message stands there.
pub fn read(alloc: Global, role: Role, bytes: &[u8]) -> Result<Option<(ShakeMsg, usize)>, Refusal>
    ensures ok { IfOk result (λ x. IsShakeDue role bytes.now (Ok x)) }
    ensures err { IfErr result (λ e. e ≢ Refusal.OutOfMemory → IsShakeDue role bytes.now (Err e)) }
    // What is due is what is answered, unless memory is wanting.
    ensures only { (due : Result (Option (TheMessage × ℕ)) Refusal) → IsShakeDue role bytes.now due → (result ≡ due) ⊎ IsErrOf result Refusal.OutOfMemory }
    ensures memory { IsErrOf result Refusal.OutOfMemory → (message : TheMessage) × (n : ℕ) × IsShakeDue role bytes.now (Ok (Some (message, n))) }
{
    let Some(body) = counted_at(bytes) else {
        return Ok(None);
    };
    let message = message_of(alloc, role, body)?;
    Ok(Some((message, body.len() + 2)))
}
