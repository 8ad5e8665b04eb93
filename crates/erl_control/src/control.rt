//! The text of a signal, read row by row where it lies. No memory is asked for before the whole text
//! stands there.
ghost use Rattle.std.specs.Prelude.{◌≡◌, ◌≢◌, IfOk, IfErr, IsErrOf};
ghost use Rattle.erl_term.specs.Parts.{ReadsFront};
ghost use Rattle.erl_control.specs.declared.signal.Signal.{Signal as TheSignal};
ghost use Rattle.erl_control.specs.declared.error.FrameError.{FrameError};
ghost use Rattle.erl_control.specs.Numbers.{error_of};
ghost use Rattle.erl_control.specs.Parts.{signal_in};
ghost use Rattle.erl_control.specs.Reading.{IsRowHead, HasFields, IsBefore, IsFollowedText, IsText, HasNoText, IsTextFault, IsFitText};

use crate::error::{FrameError, FrameFault};
use crate::fields::{
    TargetRef, id_and_pids_at, monitor_fields_at, monitored_and_payload_at,
    monitored_and_reason_at, monitored_fields_at, pids_and_payload_at, pids_and_reason_at, pids_at,
    reg_send_and_message_at, reg_send_at, row_head_at, send_and_message_at, send_at,
};
use crate::signal::Signal;
use crate::signal_ref::SignalRef;
use crate::tags::{
    DEMONITOR_P, DEMONITOR_P_ARITY, EXIT, EXIT_ARITY, EXIT2, EXIT2_ARITY, LINK, LINK_ARITY,
    MONITOR_P, MONITOR_P_ARITY, MONITOR_P_EXIT, MONITOR_P_EXIT_ARITY, PAYLOAD_EXIT,
    PAYLOAD_EXIT_ARITY, PAYLOAD_EXIT2, PAYLOAD_EXIT2_ARITY, PAYLOAD_MONITOR_P_EXIT,
    PAYLOAD_MONITOR_P_EXIT_ARITY, REG_SEND, REG_SEND_ARITY, SEND, SEND_ARITY, UNLINK_ID,
    UNLINK_ID_ACK, UNLINK_ID_ACK_ARITY, UNLINK_ID_ARITY,
};
use erl_term::term_len;
use std::alloc::Global;

fn link_at(levels: u32, fields: &[u8]) -> Option<((SignalRef<'_>, u32), &[u8])>
    ensures { ReadsFront (HasFields levels LINK) fields.now result }
{
    let ((from, to), rest) = pids_at(levels, fields)?;
    Some(((SignalRef::Link { from, to }, LINK_ARITY), rest))
}

fn message_at(levels: u32, fields: &[u8]) -> Option<((SignalRef<'_>, u32), &[u8])>
    ensures { ReadsFront (HasFields levels SEND) fields.now result }
{
    let (((_, to), message), rest) = send_and_message_at(levels, fields)?;
    Some(((SignalRef::Send { to, message }, SEND_ARITY), rest))
}

fn named_message_at(levels: u32, fields: &[u8]) -> Option<((SignalRef<'_>, u32), &[u8])>
    ensures { ReadsFront (HasFields levels REG_SEND) fields.now result }
{
    let ((((from, _), name), message), rest) = reg_send_and_message_at(levels, fields)?;
    Some((
        (
            SignalRef::RegSend {
                from,
                name,
                message,
            },
            REG_SEND_ARITY,
        ),
        rest,
    ))
}

fn exit_at(levels: u32, fields: &[u8]) -> Option<((SignalRef<'_>, u32), &[u8])>
    ensures { ReadsFront (HasFields levels EXIT) fields.now result }
{
    let (((from, to), reason), rest) = pids_and_reason_at(levels, fields)?;
    Some(((SignalRef::Exit { from, to, reason }, EXIT_ARITY), rest))
}

fn payload_exit_at(levels: u32, fields: &[u8]) -> Option<((SignalRef<'_>, u32), &[u8])>
    ensures { ReadsFront (HasFields levels PAYLOAD_EXIT) fields.now result }
{
    let (((from, to), reason), rest) = pids_and_payload_at(levels, fields)?;
    Some((
        (SignalRef::Exit { from, to, reason }, PAYLOAD_EXIT_ARITY),
        rest,
    ))
}

fn exit2_at(levels: u32, fields: &[u8]) -> Option<((SignalRef<'_>, u32), &[u8])>
    ensures { ReadsFront (HasFields levels EXIT2) fields.now result }
{
    let (((from, to), reason), rest) = pids_and_reason_at(levels, fields)?;
    Some(((SignalRef::Exit2 { from, to, reason }, EXIT2_ARITY), rest))
}

fn payload_exit2_at(levels: u32, fields: &[u8]) -> Option<((SignalRef<'_>, u32), &[u8])>
    ensures { ReadsFront (HasFields levels PAYLOAD_EXIT2) fields.now result }
{
    let (((from, to), reason), rest) = pids_and_payload_at(levels, fields)?;
    Some((
        (SignalRef::Exit2 { from, to, reason }, PAYLOAD_EXIT2_ARITY),
        rest,
    ))
}

fn monitor_at(levels: u32, fields: &[u8]) -> Option<((SignalRef<'_>, u32), &[u8])>
    ensures { ReadsFront (HasFields levels MONITOR_P) fields.now result }
{
    let (((from, target), reference), rest) = monitor_fields_at(levels, fields)?;
    match target {
        TargetRef::Pid(to) => Some((
            (
                SignalRef::Monitor {
                    from,
                    to,
                    reference,
                },
                MONITOR_P_ARITY,
            ),
            rest,
        )),
        TargetRef::Name(name) => Some((
            (
                SignalRef::MonitorName {
                    from,
                    name,
                    reference,
                },
                MONITOR_P_ARITY,
            ),
            rest,
        )),
    }
}

fn demonitor_at(levels: u32, fields: &[u8]) -> Option<((SignalRef<'_>, u32), &[u8])>
    ensures { ReadsFront (HasFields levels DEMONITOR_P) fields.now result }
{
    let (((from, target), reference), rest) = monitor_fields_at(levels, fields)?;
    match target {
        TargetRef::Pid(to) => Some((
            (
                SignalRef::Demonitor {
                    from,
                    to,
                    reference,
                },
                DEMONITOR_P_ARITY,
            ),
            rest,
        )),
        TargetRef::Name(name) => Some((
            (
                SignalRef::DemonitorName {
                    from,
                    name,
                    reference,
                },
                DEMONITOR_P_ARITY,
            ),
            rest,
        )),
    }
}

fn monitor_exit_at(levels: u32, fields: &[u8]) -> Option<((SignalRef<'_>, u32), &[u8])>
    ensures { ReadsFront (HasFields levels MONITOR_P_EXIT) fields.now result }
{
    let ((((target, to), reference), reason), rest) = monitored_and_reason_at(levels, fields)?;
    match target {
        TargetRef::Pid(from) => Some((
            (
                SignalRef::MonitorExit {
                    from,
                    to,
                    reference,
                    reason,
                },
                MONITOR_P_EXIT_ARITY,
            ),
            rest,
        )),
        TargetRef::Name(name) => Some((
            (
                SignalRef::MonitorNameExit {
                    name,
                    to,
                    reference,
                    reason,
                },
                MONITOR_P_EXIT_ARITY,
            ),
            rest,
        )),
    }
}

fn payload_monitor_exit_at(levels: u32, fields: &[u8]) -> Option<((SignalRef<'_>, u32), &[u8])>
    ensures { ReadsFront (HasFields levels PAYLOAD_MONITOR_P_EXIT) fields.now result }
{
    let ((((target, to), reference), reason), rest) = monitored_and_payload_at(levels, fields)?;
    match target {
        TargetRef::Pid(from) => Some((
            (
                SignalRef::MonitorExit {
                    from,
                    to,
                    reference,
                    reason,
                },
                PAYLOAD_MONITOR_P_EXIT_ARITY,
            ),
            rest,
        )),
        TargetRef::Name(name) => Some((
            (
                SignalRef::MonitorNameExit {
                    name,
                    to,
                    reference,
                    reason,
                },
                PAYLOAD_MONITOR_P_EXIT_ARITY,
            ),
            rest,
        )),
    }
}

fn unlink_id_at(levels: u32, fields: &[u8]) -> Option<((SignalRef<'_>, u32), &[u8])>
    ensures { ReadsFront (HasFields levels UNLINK_ID) fields.now result }
{
    let ((id, (from, to)), rest) = id_and_pids_at(levels, fields)?;
    Some((
        (SignalRef::UnlinkId { id, from, to }, UNLINK_ID_ARITY),
        rest,
    ))
}

fn unlink_id_ack_at(levels: u32, fields: &[u8]) -> Option<((SignalRef<'_>, u32), &[u8])>
    ensures { ReadsFront (HasFields levels UNLINK_ID_ACK) fields.now result }
{
    let ((id, (from, to)), rest) = id_and_pids_at(levels, fields)?;
    Some((
        (SignalRef::UnlinkIdAck { id, from, to }, UNLINK_ID_ACK_ARITY),
        rest,
    ))
}

/// Returns the signal whose fields stand behind a row's tag, the row's arity, and the bytes behind it.
fn fields_at(tag: u64, levels: u32, fields: &[u8]) -> Option<((SignalRef<'_>, u32), &[u8])>
    ensures { ReadsFront (HasFields levels tag) fields.now result }
{
    match tag {
        LINK => link_at(levels, fields),
        SEND => message_at(levels, fields),
        REG_SEND => named_message_at(levels, fields),
        EXIT => exit_at(levels, fields),
        PAYLOAD_EXIT => payload_exit_at(levels, fields),
        EXIT2 => exit2_at(levels, fields),
        PAYLOAD_EXIT2 => payload_exit2_at(levels, fields),
        MONITOR_P => monitor_at(levels, fields),
        DEMONITOR_P => demonitor_at(levels, fields),
        MONITOR_P_EXIT => monitor_exit_at(levels, fields),
        PAYLOAD_MONITOR_P_EXIT => payload_monitor_exit_at(levels, fields),
        UNLINK_ID => unlink_id_at(levels, fields),
        UNLINK_ID_ACK => unlink_id_ack_at(levels, fields),
        _ => None,
    }
}

/// The signal whose text stands at the front.
fn text_at(text: &[u8]) -> Option<(SignalRef<'_>, &[u8])>
    ensures { ReadsFront IsText text.now result }
{
    let ((head, tag), fields) = row_head_at(text)?;
    let ((signal, arity), rest) = fields_at(tag, head.levels, fields)?;
    if arity != head.arity {
        return None;
    }
    Some((signal, rest))
}

fn send_before_at(levels: u32, fields: &[u8]) -> Option<(u32, &[u8])>
    ensures { ReadsFront (IsBefore levels SEND) fields.now result }
{
    let (_, rest) = send_at(levels, fields)?;
    Some((SEND_ARITY, rest))
}

fn reg_send_before_at(levels: u32, fields: &[u8]) -> Option<(u32, &[u8])>
    ensures { ReadsFront (IsBefore levels REG_SEND) fields.now result }
{
    let (_, rest) = reg_send_at(levels, fields)?;
    Some((REG_SEND_ARITY, rest))
}

fn exit_before_at(levels: u32, fields: &[u8]) -> Option<(u32, &[u8])>
    ensures { ReadsFront (IsBefore levels PAYLOAD_EXIT) fields.now result }
{
    let (_, rest) = pids_at(levels, fields)?;
    Some((PAYLOAD_EXIT_ARITY, rest))
}

fn exit2_before_at(levels: u32, fields: &[u8]) -> Option<(u32, &[u8])>
    ensures { ReadsFront (IsBefore levels PAYLOAD_EXIT2) fields.now result }
{
    let (_, rest) = pids_at(levels, fields)?;
    Some((PAYLOAD_EXIT2_ARITY, rest))
}

fn monitor_exit_before_at(levels: u32, fields: &[u8]) -> Option<(u32, &[u8])>
    ensures { ReadsFront (IsBefore levels PAYLOAD_MONITOR_P_EXIT) fields.now result }
{
    let (_, rest) = monitored_fields_at(levels, fields)?;
    Some((PAYLOAD_MONITOR_P_EXIT_ARITY, rest))
}

/// Returns the arity of a control term that a message follows, and the bytes behind its fields.
/// `fields` begins behind the term's tag.
fn before_at(tag: u64, levels: u32, fields: &[u8]) -> Option<(u32, &[u8])>
    ensures { ReadsFront (IsBefore levels tag) fields.now result }
{
    match tag {
        SEND => send_before_at(levels, fields),
        REG_SEND => reg_send_before_at(levels, fields),
        PAYLOAD_EXIT => exit_before_at(levels, fields),
        PAYLOAD_EXIT2 => exit2_before_at(levels, fields),
        PAYLOAD_MONITOR_P_EXIT => monitor_exit_before_at(levels, fields),
        _ => None,
    }
}

/// Reads a control term at the front that a message follows. Returns its tag and the bytes behind it.
fn followed_at(text: &[u8]) -> Option<(u64, &[u8])>
    ensures { ReadsFront IsFollowedText text.now result }
{
    let ((head, tag), fields) = row_head_at(text)?;
    let (arity, rest) = before_at(tag, head.levels, fields)?;
    if arity != head.arity {
        return None;
    }
    Some((tag, rest))
}

/// Returns the fault of a text at whose front no signal's text stands.
fn fault_of(text: &[u8]) -> FrameFault
    requires { HasNoText text.now }
    ensures { IsTextFault text.now (error_of result) }
{
    if let Err(e) = term_len(text) {
        return FrameFault::Term(e);
    }
    let Some((_, message)) = followed_at(text) else {
        return FrameFault::BadControl;
    };
    match term_len(message) {
        Err(e) => FrameFault::Term(e),
        Ok(_) => FrameFault::BadControl,
    }
}

/// The signal of which the bytes are the whole text, or what is wrong with them.
pub fn signal_at(text: &[u8]) -> Result<SignalRef<'_>, FrameFault>
    ensures ok { IfOk result (λ signal. IsFitText (signal_in signal) text.now) }
    ensures err { IfErr result (λ e. IsTextFault text.now (error_of e)) }
{
    let Some((signal, rest)) = text_at(text) else {
        return Err(fault_of(text));
    };
    if !rest.is_empty() {
        return Err(FrameFault::BadControl);
    }
    if !signal.is_fit() {
        return Err(FrameFault::TooLong);
    }
    Ok(signal)
}

/// Returns the answer of [`signal_at`], with memory of its own. The signal is made where it was read:
/// it is large as it lies in the bytes, and moving it out first costs a fifth of the time.
pub fn signal_of(alloc: Global, text: &[u8]) -> Result<Signal, FrameError>
    ensures ok { IfOk result (λ signal. IsFitText signal text.now) }
    ensures err { IfErr result (λ e. e ≢ FrameError.OutOfMemory → IsTextFault text.now e) }
    ensures memory { IsErrOf result FrameError.OutOfMemory → (signal : TheSignal) × IsFitText signal text.now }
{
    let Some((signal, rest)) = text_at(text) else {
        return Err(fault_of(text).into());
    };
    if !rest.is_empty() {
        return Err(FrameError::BadControl);
    }
    if !signal.is_fit() {
        return Err(FrameError::TooLong);
    }
    Ok(signal.to_signal(alloc)?)
}
