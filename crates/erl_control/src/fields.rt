//! The elements of a control term, read one after the other where they lie.
ghost use Rattle.std.specs.Prelude.{◌≡◌};
ghost use Rattle.erl_term.specs.Parts.{ReadsFront};
ghost use Rattle.erl_term.specs.Spelling.{IsSpelling};
ghost use Rattle.erl_control.specs.Reading.{IsOpening, IsNaturalText, IsRowHead, IsIdText, ArePids, AreIdAndPids, ArePidsAndReason, IsTargetText, AreMonitor, AreMonitored, AreMonitorExit, ArePidsAndPayload, AreMonitorExitAndPayload, AreSend, AreSendAndMessage, AreRegSend, AreRegSendAndMessage};

use erl_term::{
    AtomRef, PidRef, ReferenceRef, TermRef, TupleHead, atom_at, integer_at, pid_at, reference_at,
    term_at, tuple_head_at,
};

/// A process that is monitored, where it lies in the bytes that were read.
#[derive(Debug, Drop)]
pub enum TargetRef<'a> {
    /// By its pid.
    Pid(PidRef<'a>),
    /// By its registered name.
    Name(AtomRef<'a>),
}

/// The head of the tuple behind the version byte.
fn opening_at(bytes: &[u8]) -> Option<(TupleHead, &[u8])>
    ensures { ReadsFront IsOpening bytes.now result }
{
    match bytes {
        [131, rest @ ..] => tuple_head_at(64, rest),
        _ => None,
    }
}

/// The term behind the version byte.
fn spelling_at(bytes: &[u8]) -> Option<(TermRef<'_>, &[u8])>
    ensures { ReadsFront (IsSpelling 64) bytes.now result }
{
    match bytes {
        [131, rest @ ..] => term_at(64, rest),
        _ => None,
    }
}

/// The number at the front, where it is one of 64 bits without a sign.
fn natural_at(levels: u32, bytes: &[u8]) -> Option<(u64, &[u8])>
    ensures { ReadsFront (IsNaturalText levels) bytes.now result }
{
    let (n, rest) = integer_at(levels, bytes)?;
    match u64::try_from(n) {
        Ok(natural) => Some((natural, rest)),
        Err(_) => None,
    }
}

/// The head of the control term, its first element, and the bytes of the others.
pub fn row_head_at(bytes: &[u8]) -> Option<((TupleHead, u64), &[u8])>
    ensures { ReadsFront IsRowHead bytes.now result }
{
    let (head, elements) = opening_at(bytes)?;
    let (tag, fields) = natural_at(head.levels, elements)?;
    Some(((head, tag), fields))
}

fn id_at(levels: u32, bytes: &[u8]) -> Option<(u64, &[u8])>
    ensures { ReadsFront (IsIdText levels) bytes.now result }
{
    let (id, rest) = natural_at(levels, bytes)?;
    if id == 0 {
        return None;
    }
    Some((id, rest))
}

/// From and To.
pub fn pids_at(levels: u32, bytes: &[u8]) -> Option<((PidRef<'_>, PidRef<'_>), &[u8])>
    ensures { ReadsFront (ArePids levels) bytes.now result }
{
    let (from, rest) = pid_at(levels, bytes)?;
    let (to, rest) = pid_at(levels, rest)?;
    Some(((from, to), rest))
}

/// Id, From and To.
pub fn id_and_pids_at(levels: u32, bytes: &[u8]) -> Option<((u64, (PidRef<'_>, PidRef<'_>)), &[u8])>
    ensures { ReadsFront (AreIdAndPids levels) bytes.now result }
{
    let (id, rest) = id_at(levels, bytes)?;
    let (pids, rest) = pids_at(levels, rest)?;
    Some(((id, pids), rest))
}

/// From, To and Reason.
pub fn pids_and_reason_at(
    levels: u32,
    bytes: &[u8],
) -> Option<(((PidRef<'_>, PidRef<'_>), TermRef<'_>), &[u8])>
    ensures { ReadsFront (ArePidsAndReason levels) bytes.now result }
{
    let (pids, rest) = pids_at(levels, bytes)?;
    let (reason, rest) = term_at(levels, rest)?;
    Some(((pids, reason), rest))
}

/// Reads a process that is monitored: its pid, or else its registered name.
fn target_at(levels: u32, bytes: &[u8]) -> Option<(TargetRef<'_>, &[u8])>
    ensures { ReadsFront (IsTargetText levels) bytes.now result }
{
    if let Some((pid, rest)) = pid_at(levels, bytes) {
        return Some((TargetRef::Pid(pid), rest));
    }
    let (name, rest) = atom_at(levels, bytes)?;
    Some((TargetRef::Name(name), rest))
}

/// Reads From, To and Ref, where To is monitored.
pub fn monitor_fields_at(
    levels: u32,
    bytes: &[u8],
) -> Option<(((PidRef<'_>, TargetRef<'_>), ReferenceRef<'_>), &[u8])>
    ensures { ReadsFront (AreMonitor levels) bytes.now result }
{
    let (from, rest) = pid_at(levels, bytes)?;
    let (to, rest) = target_at(levels, rest)?;
    let (reference, rest) = reference_at(levels, rest)?;
    Some((((from, to), reference), rest))
}

/// Reads From, To and Ref, where From was monitored.
pub fn monitored_fields_at(
    levels: u32,
    bytes: &[u8],
) -> Option<(((TargetRef<'_>, PidRef<'_>), ReferenceRef<'_>), &[u8])>
    ensures { ReadsFront (AreMonitored levels) bytes.now result }
{
    let (from, rest) = target_at(levels, bytes)?;
    let (to, rest) = pid_at(levels, rest)?;
    let (reference, rest) = reference_at(levels, rest)?;
    Some((((from, to), reference), rest))
}

/// Reads the same, and Reason.
pub fn monitored_and_reason_at(
    levels: u32,
    bytes: &[u8],
) -> Option<
    (
        (((TargetRef<'_>, PidRef<'_>), ReferenceRef<'_>), TermRef<'_>),
        &[u8],
    ),
>
    ensures { ReadsFront (AreMonitorExit levels) bytes.now result }
{
    let (fields, rest) = monitored_fields_at(levels, bytes)?;
    let (reason, rest) = term_at(levels, rest)?;
    Some(((fields, reason), rest))
}

/// The field of SEND that nobody uses, and To.
pub fn send_at(levels: u32, bytes: &[u8]) -> Option<((TermRef<'_>, PidRef<'_>), &[u8])>
    ensures { ReadsFront (AreSend levels) bytes.now result }
{
    let (unused, rest) = term_at(levels, bytes)?;
    let (to, rest) = pid_at(levels, rest)?;
    Some(((unused, to), rest))
}

/// The same, and the message behind the control term.
pub fn send_and_message_at(
    levels: u32,
    bytes: &[u8],
) -> Option<(((TermRef<'_>, PidRef<'_>), TermRef<'_>), &[u8])>
    ensures { ReadsFront (AreSendAndMessage levels) bytes.now result }
{
    let (fields, rest) = send_at(levels, bytes)?;
    let (message, rest) = spelling_at(rest)?;
    Some(((fields, message), rest))
}

/// Reads From, the field of REG_SEND that nobody uses, and ToName.
pub fn reg_send_at(
    levels: u32,
    bytes: &[u8],
) -> Option<(((PidRef<'_>, TermRef<'_>), AtomRef<'_>), &[u8])>
    ensures { ReadsFront (AreRegSend levels) bytes.now result }
{
    let (from, rest) = pid_at(levels, bytes)?;
    let (unused, rest) = term_at(levels, rest)?;
    let (name, rest) = atom_at(levels, rest)?;
    Some((((from, unused), name), rest))
}

/// Reads the same, and the message behind the control term.
pub fn reg_send_and_message_at(
    levels: u32,
    bytes: &[u8],
) -> Option<
    (
        (((PidRef<'_>, TermRef<'_>), AtomRef<'_>), TermRef<'_>),
        &[u8],
    ),
>
    ensures { ReadsFront (AreRegSendAndMessage levels) bytes.now result }
{
    let (fields, rest) = reg_send_at(levels, bytes)?;
    let (message, rest) = spelling_at(rest)?;
    Some(((fields, message), rest))
}

/// From and To, and the reason behind the control term.
pub fn pids_and_payload_at(
    levels: u32,
    bytes: &[u8],
) -> Option<(((PidRef<'_>, PidRef<'_>), TermRef<'_>), &[u8])>
    ensures { ReadsFront (ArePidsAndPayload levels) bytes.now result }
{
    let (pids, rest) = pids_at(levels, bytes)?;
    let (reason, rest) = spelling_at(rest)?;
    Some(((pids, reason), rest))
}

/// Reads From, which was monitored, To and Ref, and the reason behind the control term.
pub fn monitored_and_payload_at(
    levels: u32,
    bytes: &[u8],
) -> Option<
    (
        (((TargetRef<'_>, PidRef<'_>), ReferenceRef<'_>), TermRef<'_>),
        &[u8],
    ),
>
    ensures { ReadsFront (AreMonitorExitAndPayload levels) bytes.now result }
{
    let (fields, rest) = monitored_fields_at(levels, bytes)?;
    let (reason, rest) = spelling_at(rest)?;
    Some(((fields, reason), rest))
}
