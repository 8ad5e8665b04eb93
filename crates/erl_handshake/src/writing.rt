//! Writing messages.
ghost use Rattle.std.specs.Prelude.{◌≡◌, ◌∷◌, ◌++◌, ◌<◌, ◌≤◌, ◌+◌, ◌^◌, length, IfOk, IsOk, OnOk, OnErr};
ghost use Rattle.std.specs.Int.{to_be_bytes, w32, w64};
ghost use Rattle.std.specs.Vec.{vec_len, vec_capacity};
ghost use Rattle.erl_handshake.specs.declared.message.ShakeMsg.TheVariants as variant;
ghost use Rattle.erl_handshake.specs.Messages.{counted, content, written};

use crate::flags::Flags;
use crate::message::ShakeMsg;
use erl_names::NodeName;
use std::alloc::{AllocError, Global};

/// How many bytes a digest has. The array is read, since its length is known of what was read.
fn digest_len(digest: &[u8; 16]) -> usize
    ensures len { result ≡ length digest.now }
    ensures sixteen { result ≡ 16 }
{
    let bytes = *digest;
    bytes.len()
}

/// How many bytes the message takes behind its length.
fn content_len(message: &ShakeMsg) -> usize
    ensures len { result ≡ length (content message.now) }
    ensures bound { result < 2 ^ 16 }
{
    match message {
        ShakeMsg::SendName { name, .. } => 15 + name.text().len(),
        ShakeMsg::Status(status) => 1 + status.text().len(),
        ShakeMsg::Challenge { name, .. } => 19 + name.text().len(),
        ShakeMsg::ChallengeReply { digest, .. } => 5 + digest_len(digest),
        ShakeMsg::ChallengeAck { digest } => 1 + digest_len(digest),
    }
}

/// Writes a creation, and a name behind its length.
fn put_node(out: &mut Vec<u8>, creation: u32, name: &NodeName) -> Result<(), AllocError>
    ensures items { OnOk result (out.new.items ≡ out.old.items ++ (to_be_bytes w32 creation ++ counted name.now)) }
    ensures room { vec_len out.old + length (to_be_bytes w32 creation ++ counted name.now) ≤ vec_capacity out.old → IsOk result }
{
    let text = name.text().as_bytes();
    out.extend_from_slice(&creation.to_be_bytes())?;
    out.extend_from_slice(&(text.len() as u16).to_be_bytes())?;
    out.extend_from_slice(text)
}

/// Writes a send_name without its length.
fn put_send_name(
    out: &mut Vec<u8>,
    flags: Flags,
    creation: u32,
    name: &NodeName,
) -> Result<(), AllocError>
    ensures items { OnOk result (out.new.items ≡ out.old.items ++ content (variant.SendName flags creation name.now)) }
    ensures room { vec_len out.old + length (content (variant.SendName flags creation name.now)) ≤ vec_capacity out.old → IsOk result }
{
    out.push(b'N')?;
    out.extend_from_slice(&flags.bits().to_be_bytes())?;
    put_node(out, creation, name)
}

/// Writes a challenge without its length.
fn put_challenge(
    out: &mut Vec<u8>,
    flags: Flags,
    challenge: u32,
    creation: u32,
    name: &NodeName,
) -> Result<(), AllocError>
    ensures items { OnOk result (out.new.items ≡ out.old.items ++ content (variant.Challenge flags challenge creation name.now)) }
    ensures room { vec_len out.old + length (content (variant.Challenge flags challenge creation name.now)) ≤ vec_capacity out.old → IsOk result }
{
    out.push(b'N')?;
    out.extend_from_slice(&flags.bits().to_be_bytes())?;
    out.extend_from_slice(&challenge.to_be_bytes())?;
    put_node(out, creation, name)
}

/// Writes the message without its length.
fn put_content(out: &mut Vec<u8>, message: &ShakeMsg) -> Result<(), AllocError>
    ensures items { OnOk result (out.new.items ≡ out.old.items ++ content message.now) }
    ensures room { vec_len out.old + length (content message.now) ≤ vec_capacity out.old → IsOk result }
{
    match message {
        ShakeMsg::SendName {
            flags,
            creation,
            name,
        } => put_send_name(out, *flags, *creation, name),
        ShakeMsg::Status(status) => {
            out.push(b's')?;
            out.extend_from_slice(status.text().as_bytes())
        }
        ShakeMsg::Challenge {
            flags,
            challenge,
            creation,
            name,
        } => put_challenge(out, *flags, *challenge, *creation, name),
        ShakeMsg::ChallengeReply { challenge, digest } => {
            out.push(b'r')?;
            out.extend_from_slice(&challenge.to_be_bytes())?;
            out.extend_from_slice(digest)
        }
        ShakeMsg::ChallengeAck { digest } => {
            out.push(b'a')?;
            out.extend_from_slice(digest)
        }
    }
}

/// Writes the message behind what is there, with nothing behind a name: two bytes for its length, and
/// at most 83 more. Takes memory only where there is no room. (ERTS User's Guide, Distribution
/// Protocol, Distribution Handshake.)
///
/// # Errors
/// Where memory is wanting. Then nothing was written.
pub fn put(out: &mut Vec<u8>, message: &ShakeMsg) -> Result<(), AllocError>
    ensures ok { OnOk result (out.new.items ≡ out.old.items ++ written message.now) }
    ensures err { OnErr result (out.new.items ≡ out.old.items) }
    ensures room { vec_len out.old + length (written message.now) ≤ vec_capacity out.old → IsOk result }
{
    let len = content_len(message);
    out.reserve(len + 2)?;
    out.extend_from_slice(&(len as u16).to_be_bytes())?;
    put_content(out, message)
}

/// The bytes of the message, with nothing behind a name. (ERTS User's Guide, Distribution Protocol,
/// Distribution Handshake.)
///
/// # Errors
/// Where memory is wanting.
pub fn write(alloc: Global, message: &ShakeMsg) -> Result<Vec<u8>, AllocError>
    ensures { IfOk result (λ bytes. bytes.items ≡ written message.now) }
{
    let mut out = Vec::new(alloc);
    put(&mut out, message)?;
    Ok(out)
}
