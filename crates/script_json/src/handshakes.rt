//! The fields of a message of the handshake, in JSON.
ghost use Rattle.std.specs.Prelude.{◌≡◌, IfOk, string_bytes, true};
ghost use Rattle.std.specs.Fmt.{digits};
ghost use Rattle.erl_handshake.specs.declared.message.ShakeMsg.TheVariants as message;
ghost use Rattle.script_json.specs.Fields.{handshake_data, message_members};
ghost use Rattle.serde_json.specs.Data.{object, string};
ghost use Rattle.serde_json.specs.View.{view};

use erl_handshake::{Flags, ShakeMsg, Status};
use erl_names::NodeName;
use hex::encode_upper;
use item_texts::message_name;
use serde_json::{Value, json};
use std::alloc::{AllocError, Global};

// Returns flags in as few hex digits as they need.
fn printed_flags(alloc: Global, flags: Flags) -> Result<String, AllocError>
    ensures { IfOk result (λ text. string_bytes text ≡ digits 16 true flags) }
{
    let bits = flags.bits();
    format!(in alloc; "{bits:X}")
}

fn send_name(
    alloc: Global,
    operation: &str,
    flags: Flags,
    creation: u32,
    name: &NodeName,
) -> Result<Value, AllocError>
    ensures { IfOk result (λ v. view v ≡ object (message_members (string operation.now) (message.SendName flags creation name.now))) }
{
    let (flags, name) = (printed_flags(alloc, flags)?, name.text());
    json!(in alloc; {"creation": creation, "flags": flags, "name": name, "operation": operation})
}

fn status(alloc: Global, operation: &str, status: Status) -> Result<Value, AllocError>
    ensures { IfOk result (λ v. view v ≡ object (message_members (string operation.now) (message.Status status))) }
{
    json!(in alloc; {"operation": operation, "status": status.text()})
}

fn challenge(
    alloc: Global,
    operation: &str,
    flags: Flags,
    challenge: u32,
    creation: u32,
    name: &NodeName,
) -> Result<Value, AllocError>
    ensures { IfOk result (λ v. view v ≡ object (message_members (string operation.now) (message.Challenge flags challenge creation name.now))) }
{
    let (flags, name) = (printed_flags(alloc, flags)?, name.text());
    json!(in alloc; {"challenge": challenge, "creation": creation, "flags": flags, "name": name, "operation": operation})
}

fn challenge_reply(
    alloc: Global,
    operation: &str,
    challenge: u32,
    digest: [u8; 16],
) -> Result<Value, AllocError>
    ensures { IfOk result (λ v. view v ≡ object (message_members (string operation.now) (message.ChallengeReply challenge digest))) }
{
    let digest = encode_upper(alloc, &digest)?;
    json!(in alloc; {"challenge": challenge, "digest": digest, "operation": operation})
}

fn challenge_ack(alloc: Global, operation: &str, digest: [u8; 16]) -> Result<Value, AllocError>
    ensures { IfOk result (λ v. view v ≡ object (message_members (string operation.now) (message.ChallengeAck digest))) }
{
    let digest = encode_upper(alloc, &digest)?;
    json!(in alloc; {"digest": digest, "operation": operation})
}

/// Returns the object of a message's fields, with the message's name.
pub(crate) fn message_fields(alloc: Global, message: &ShakeMsg) -> Result<Value, AllocError>
    ensures { IfOk result (λ v. view v ≡ handshake_data message.now) }
{
    let operation = message_name(message);
    match message {
        ShakeMsg::SendName {
            flags,
            creation,
            name,
        } => send_name(alloc, operation, *flags, *creation, name),
        ShakeMsg::Status(of) => status(alloc, operation, *of),
        ShakeMsg::Challenge {
            flags,
            challenge: word,
            creation,
            name,
        } => challenge(alloc, operation, *flags, *word, *creation, name),
        ShakeMsg::ChallengeReply {
            challenge: word,
            digest,
        } => challenge_reply(alloc, operation, *word, *digest),
        ShakeMsg::ChallengeAck { digest } => challenge_ack(alloc, operation, *digest),
    }
}
