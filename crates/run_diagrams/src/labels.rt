//! The names of items in flight, in the standard's words. (ERTS User's Guide, Distribution Protocol.)

use crate::names::{ScriptNames, put_named};
use erl_control::{ItemRef, SignalRef, frame_at};
use erl_handshake::{Role, ShakeMsg, read};
use erl_term::{Refusal, TermRef};
use std::alloc::{AllocError, Global};

fn put_reason(
    alloc: Global,
    out: &mut String,
    names: &ScriptNames,
    name: &str,
    reason: &TermRef,
) -> Result<(), AllocError> {
    out.push_str(name)?;
    out.push_str(" ")?;
    let reason = reason.to_term(alloc)?;
    put_named(out, names, &reason)
}

fn put_signal(
    alloc: Global,
    out: &mut String,
    names: &ScriptNames,
    signal: &SignalRef,
) -> Result<(), AllocError> {
    match signal {
        SignalRef::Link { .. } => out.push_str("LINK"),
        SignalRef::Send { .. } => out.push_str("SEND"),
        SignalRef::RegSend { .. } => out.push_str("REG_SEND"),
        SignalRef::Exit { reason, .. } => put_reason(alloc, out, names, "EXIT", reason),
        SignalRef::Exit2 { reason, .. } => put_reason(alloc, out, names, "EXIT2", reason),
        SignalRef::Monitor { .. } | SignalRef::MonitorName { .. } => out.push_str("MONITOR_P"),
        SignalRef::Demonitor { .. } | SignalRef::DemonitorName { .. } => {
            out.push_str("DEMONITOR_P")
        }
        SignalRef::MonitorExit { reason, .. } | SignalRef::MonitorNameExit { reason, .. } => {
            put_reason(alloc, out, names, "MONITOR_P_EXIT", reason)
        }
        SignalRef::UnlinkId { id, .. } => write!(out, "UNLINK_ID {id}"),
        SignalRef::UnlinkIdAck { id, .. } => write!(out, "UNLINK_ID_ACK {id}"),
    }
}

fn message_name(message: &ShakeMsg) -> &'static str {
    match message {
        ShakeMsg::SendName { .. } => "send_name",
        ShakeMsg::Status(_) => "status",
        ShakeMsg::Challenge { .. } => "challenge",
        ShakeMsg::ChallengeReply { .. } => "challenge_reply",
        ShakeMsg::ChallengeAck { .. } => "challenge_ack",
    }
}

// A message of the handshake, to a reader of a role.
fn put_message(
    alloc: Global,
    out: &mut String,
    role: Role,
    bytes: &[u8],
) -> Result<(), AllocError> {
    match read(alloc, role, bytes) {
        Ok(Some((message, _))) => out.push_str(message_name(&message)),
        Err(Refusal::OutOfMemory) => Err(AllocError),
        _ => out.push_str("not known"),
    }
}

/// Appends the name of an item, from its bytes and the role of the node that it is sent to. Names of the script stand
/// in place of processes and references.
///
/// # Errors
/// [`AllocError`] if out of memory.
pub(crate) fn put_label(
    alloc: Global,
    out: &mut String,
    names: &ScriptNames,
    role: Role,
    bytes: &[u8],
) -> Result<(), AllocError> {
    match frame_at(bytes) {
        Ok(Some((ItemRef::Signal(signal), _))) => put_signal(alloc, out, names, &signal),
        Ok(Some((ItemRef::Tick, _))) => out.push_str("tick"),
        _ => put_message(alloc, out, role, bytes),
    }
}
