//! Writing frames.
ghost use Rattle.std.specs.Prelude.{◌≡◌, ◌≢◌, ◌↔◌, ◌++◌, true, false, ◌∷◌, ◌≤◌, ◌+◌, ◌<◌, ◌^◌, [], pos, length, IsTrue, OnOk, OnErr, IfOk, IfErr, IfSome, IfNone, IsErrOf};
ghost use Rattle.std.specs.Vec.{vec_len, vec_capacity};
ghost use Rattle.erl_term.specs.Data.{atom};
ghost use Rattle.erl_term.specs.Data as term;
ghost use Rattle.erl_term.specs.Canonical.{canonical, canonical_term, canonical_head, canonical_int, canonical_pid, IsInRange};
ghost use Rattle.erl_control.specs.declared.signal.Signal.TheVariants as variant;
ghost use Rattle.erl_control.specs.declared.signal.Item.{Item};
ghost use Rattle.erl_control.specs.declared.error.FrameError.{FrameError};
ghost use Rattle.erl_control.specs.declared.tags.TheConstants.{MONITOR_P_EXIT, PAYLOAD_MONITOR_P_EXIT};
ghost use Rattle.erl_control.specs.Control.{row, control_in, HasId, Carries, Fits, IsSendable};
ghost use Rattle.erl_control.specs.Frame.{IsFramed};
ghost use Rattle.erl_control.specs.Canonical.{canonical_text, canonical_frame};
ghost use Rattle.erl_control.specs.Parts.{signal_of};

use crate::error::FrameError;
use crate::fit::payload_len;
use crate::laws::canonical_is_framed;
use crate::signal::Signal;
use crate::signal_parts::SignalParts;
use crate::tags;
use erl_term::{
    Atom, Payload, Pid, Reference, atom_len, integer_len, pid_len, reference_len, tuple_head_len,
    write_atom, write_integer, write_pid, write_reference, write_term, write_tuple_head,
};
use std::alloc::Global;

/// The atom '', which is written in the field of SEND and of REG_SEND that nobody uses.
const EMPTY_ATOM: [u8; 2] = [119, 0];

fn has_id(signal: SignalParts<'_>) -> bool
    ensures { IsTrue result ↔ HasId (signal_of signal.entry) }
{
    match signal {
        SignalParts::UnlinkId { id, .. } | SignalParts::UnlinkIdAck { id, .. } => id != 0,
        SignalParts::Link { .. }
        | SignalParts::Send { .. }
        | SignalParts::RegSend { .. }
        | SignalParts::Exit { .. }
        | SignalParts::Exit2 { .. }
        | SignalParts::Monitor { .. }
        | SignalParts::MonitorName { .. }
        | SignalParts::Demonitor { .. }
        | SignalParts::DemonitorName { .. }
        | SignalParts::MonitorExit { .. }
        | SignalParts::MonitorNameExit { .. } => true,
    }
}

/// Returns the number of bytes of the version byte, the tuple's head and its first element.
fn opening_len(arity: u32, tag: u64) -> usize
    ensures len { result ≡ length (131 ∷ (canonical_head arity ++ canonical_int (pos tag))) }
    ensures bound { result ≤ 25 }
{
    1 + tuple_head_len(arity as usize) + integer_len(i128::from(tag))
}

/// Returns the number of bytes of the text of REG_SEND, where the message fits.
fn reg_send_len(from: &Pid, name: &Atom, message: &Payload) -> Option<usize>
    ensures none { IfNone result (¬ Fits message.now) }
    ensures fits { IfSome result (λ _. Fits message.now) }
    ensures len { IfSome result (λ n. n ≡ length (canonical_text (variant.RegSend from.now name.now message.now) false)) }
    ensures bound { IfSome result (λ n. n < 1048576) }
    ensures in_range { IfSome result (λ _. IsInRange (control_in (atom []) (variant.RegSend from.now name.now message.now) false)) }
{
    let len = pid_len(from) + EMPTY_ATOM.len() + atom_len(name) + 1 + payload_len(message)?;
    Some(opening_len(tags::REG_SEND_ARITY, tags::REG_SEND) + len)
}

/// Returns the number of bytes of a row of From, To and Reason, where the reason fits.
fn exit_len(tag: u64, from: &Pid, to: &Pid, reason: &Payload) -> Option<usize>
    ensures none { IfNone result (¬ Fits reason.now) }
    ensures fits { IfSome result (λ _. Fits reason.now) }
    ensures len { IfSome result (λ n. n ≡ length (canonical (row tag (term.pid from.now ∷ term.pid to.now ∷ reason.now ∷ [])))) }
    ensures bound { IfSome result (λ n. n < 1048576) }
    ensures in_range { IfSome result (λ _. IsInRange (row tag (term.pid from.now ∷ term.pid to.now ∷ reason.now ∷ []))) }
{
    let len = payload_len(reason)?;
    Some(opening_len(tags::EXIT_ARITY, tag) + pid_len(from) + pid_len(to) + len)
}

/// Returns the number of bytes of a row of From, To and Ref.
fn monitor_len(tag: u64, from: &Pid, to: &Pid, reference: &Reference) -> usize
    ensures len { result ≡ length (canonical (row tag (term.pid from.now ∷ term.pid to.now ∷ term.reference reference.now ∷ []))) }
    ensures bound { result < 1048576 }
    ensures in_range { IsInRange (row tag (term.pid from.now ∷ term.pid to.now ∷ term.reference reference.now ∷ [])) }
{
    let len = reference_len(reference);
    opening_len(tags::MONITOR_P_ARITY, tag) + pid_len(from) + pid_len(to) + len
}

/// Returns the number of bytes of a row of From, To and Ref, where To is a registered name.
fn monitor_name_len(tag: u64, from: &Pid, name: &Atom, reference: &Reference) -> usize
    ensures len { result ≡ length (canonical (row tag (term.pid from.now ∷ term.atom name.now ∷ term.reference reference.now ∷ []))) }
    ensures bound { result < 1048576 }
    ensures in_range { IsInRange (row tag (term.pid from.now ∷ term.atom name.now ∷ term.reference reference.now ∷ [])) }
{
    let len = reference_len(reference);
    opening_len(tags::MONITOR_P_ARITY, tag) + pid_len(from) + atom_len(name) + len
}

/// Returns the number of bytes of the text of PAYLOAD_EXIT or PAYLOAD_EXIT2, where the reason fits.
fn payload_exit_len(tag: u64, from: &Pid, to: &Pid, reason: &Payload) -> Option<usize>
    ensures none { IfNone result (¬ Fits reason.now) }
    ensures fits { IfSome result (λ _. Fits reason.now) }
    ensures len { IfSome result (λ n. n ≡ length (canonical (row tag (term.pid from.now ∷ term.pid to.now ∷ [])) ++ canonical reason.now)) }
    ensures bound { IfSome result (λ n. n < 1048576) }
    ensures in_range { IfSome result (λ _. IsInRange (row tag (term.pid from.now ∷ term.pid to.now ∷ []))) }
{
    let len = payload_len(reason)? + 1;
    Some(opening_len(tags::PAYLOAD_EXIT_ARITY, tag) + pid_len(from) + pid_len(to) + len)
}

/// Returns the number of bytes of a row of From, To, Ref and Reason, where the reason fits.
fn monitor_exit_len(from: &Pid, to: &Pid, reference: &Reference, reason: &Payload) -> Option<usize>
    ensures none { IfNone result (¬ Fits reason.now) }
    ensures fits { IfSome result (λ _. Fits reason.now) }
    ensures len { IfSome result (λ n. n ≡ length (canonical (row MONITOR_P_EXIT (term.pid from.now ∷ term.pid to.now ∷ term.reference reference.now ∷ reason.now ∷ [])))) }
    ensures bound { IfSome result (λ n. n < 1048576) }
    ensures in_range { IfSome result (λ _. IsInRange (row MONITOR_P_EXIT (term.pid from.now ∷ term.pid to.now ∷ term.reference reference.now ∷ reason.now ∷ []))) }
{
    let len = payload_len(reason)? + reference_len(reference) + pid_len(from) + pid_len(to);
    Some(opening_len(tags::MONITOR_P_EXIT_ARITY, tags::MONITOR_P_EXIT) + len)
}

/// Returns the number of bytes of the text of PAYLOAD_MONITOR_P_EXIT, where the reason fits.
fn payload_monitor_exit_len(
    from: &Pid,
    to: &Pid,
    reference: &Reference,
    reason: &Payload,
) -> Option<usize>
    ensures none { IfNone result (¬ Fits reason.now) }
    ensures fits { IfSome result (λ _. Fits reason.now) }
    ensures len { IfSome result (λ n. n ≡ length (canonical (row PAYLOAD_MONITOR_P_EXIT (term.pid from.now ∷ term.pid to.now ∷ term.reference reference.now ∷ [])) ++ canonical reason.now)) }
    ensures bound { IfSome result (λ n. n < 1048576) }
    ensures in_range { IfSome result (λ _. IsInRange (row PAYLOAD_MONITOR_P_EXIT (term.pid from.now ∷ term.pid to.now ∷ term.reference reference.now ∷ []))) }
{
    let len = payload_len(reason)? + 1 + reference_len(reference) + pid_len(from) + pid_len(to);
    let tag = tags::PAYLOAD_MONITOR_P_EXIT;
    Some(opening_len(tags::PAYLOAD_MONITOR_P_EXIT_ARITY, tag) + len)
}

/// Returns the number of bytes of a row of From, To, Ref and Reason, where From is a registered name
/// and the reason fits.
fn monitor_name_exit_len(
    name: &Atom,
    to: &Pid,
    reference: &Reference,
    reason: &Payload,
) -> Option<usize>
    ensures none { IfNone result (¬ Fits reason.now) }
    ensures fits { IfSome result (λ _. Fits reason.now) }
    ensures len { IfSome result (λ n. n ≡ length (canonical (row MONITOR_P_EXIT (term.atom name.now ∷ term.pid to.now ∷ term.reference reference.now ∷ reason.now ∷ [])))) }
    ensures bound { IfSome result (λ n. n < 1048576) }
    ensures in_range { IfSome result (λ _. IsInRange (row MONITOR_P_EXIT (term.atom name.now ∷ term.pid to.now ∷ term.reference reference.now ∷ reason.now ∷ []))) }
{
    let len = payload_len(reason)? + reference_len(reference) + atom_len(name) + pid_len(to);
    Some(opening_len(tags::MONITOR_P_EXIT_ARITY, tags::MONITOR_P_EXIT) + len)
}

/// Returns the number of bytes of the text of PAYLOAD_MONITOR_P_EXIT, where From is a registered name
/// and the reason fits.
fn payload_monitor_name_exit_len(
    name: &Atom,
    to: &Pid,
    reference: &Reference,
    reason: &Payload,
) -> Option<usize>
    ensures none { IfNone result (¬ Fits reason.now) }
    ensures fits { IfSome result (λ _. Fits reason.now) }
    ensures len { IfSome result (λ n. n ≡ length (canonical (row PAYLOAD_MONITOR_P_EXIT (term.atom name.now ∷ term.pid to.now ∷ term.reference reference.now ∷ [])) ++ canonical reason.now)) }
    ensures bound { IfSome result (λ n. n < 1048576) }
    ensures in_range { IfSome result (λ _. IsInRange (row PAYLOAD_MONITOR_P_EXIT (term.atom name.now ∷ term.pid to.now ∷ term.reference reference.now ∷ []))) }
{
    let len = payload_len(reason)? + 1 + reference_len(reference) + atom_len(name) + pid_len(to);
    let tag = tags::PAYLOAD_MONITOR_P_EXIT;
    Some(opening_len(tags::PAYLOAD_MONITOR_P_EXIT_ARITY, tag) + len)
}

/// Returns the number of bytes of a row of Id, From and To.
fn unlink_len(tag: u64, id: u64, from: &Pid, to: &Pid) -> usize
    ensures len { result ≡ length (canonical (row tag (term.int (pos id) ∷ term.pid from.now ∷ term.pid to.now ∷ []))) }
    ensures bound { result < 1048576 }
    ensures in_range { IsInRange (row tag (term.int (pos id) ∷ term.pid from.now ∷ term.pid to.now ∷ [])) }
{
    let len = integer_len(i128::from(id));
    opening_len(tags::UNLINK_ID_ARITY, tag) + len + pid_len(from) + pid_len(to)
}

/// Returns the number of bytes of the signal's text, where its message or reason fits.
fn text_len(signal: SignalParts<'_>, payload: bool) -> Option<usize>
    ensures none { IfNone result (¬ Carries Fits (signal_of signal.entry)) }
    ensures fits { IfSome result (λ _. Carries Fits (signal_of signal.entry)) }
    ensures len { IfSome result (λ n. n ≡ length (canonical_text (signal_of signal.entry) payload)) }
    ensures bound { IfSome result (λ n. n < 1048576) }
    ensures in_range { IfSome result (λ _. IsInRange (control_in (atom []) (signal_of signal.entry) payload)) }
{
    match signal {
        SignalParts::Link { from, to } => {
            Some(opening_len(tags::LINK_ARITY, tags::LINK) + pid_len(from) + pid_len(to))
        }
        SignalParts::Send { to, message } => {
            let len = EMPTY_ATOM.len() + pid_len(to) + 1 + payload_len(message)?;
            Some(opening_len(tags::SEND_ARITY, tags::SEND) + len)
        }
        SignalParts::RegSend {
            from,
            name,
            message,
        } => reg_send_len(from, name, message),
        SignalParts::Exit { from, to, reason } if payload => {
            payload_exit_len(tags::PAYLOAD_EXIT, from, to, reason)
        }
        SignalParts::Exit { from, to, reason } => exit_len(tags::EXIT, from, to, reason),
        SignalParts::Exit2 { from, to, reason } if payload => {
            payload_exit_len(tags::PAYLOAD_EXIT2, from, to, reason)
        }
        SignalParts::Exit2 { from, to, reason } => exit_len(tags::EXIT2, from, to, reason),
        SignalParts::Monitor {
            from,
            to,
            reference,
        } => Some(monitor_len(tags::MONITOR_P, from, to, reference)),
        SignalParts::MonitorName {
            from,
            name,
            reference,
        } => Some(monitor_name_len(tags::MONITOR_P, from, name, reference)),
        SignalParts::Demonitor {
            from,
            to,
            reference,
        } => Some(monitor_len(tags::DEMONITOR_P, from, to, reference)),
        SignalParts::DemonitorName {
            from,
            name,
            reference,
        } => Some(monitor_name_len(tags::DEMONITOR_P, from, name, reference)),
        SignalParts::MonitorExit {
            from,
            to,
            reference,
            reason,
        } if payload => payload_monitor_exit_len(from, to, reference, reason),
        SignalParts::MonitorExit {
            from,
            to,
            reference,
            reason,
        } => monitor_exit_len(from, to, reference, reason),
        SignalParts::MonitorNameExit {
            name,
            to,
            reference,
            reason,
        } if payload => payload_monitor_name_exit_len(name, to, reference, reason),
        SignalParts::MonitorNameExit {
            name,
            to,
            reference,
            reason,
        } => monitor_name_exit_len(name, to, reference, reason),
        SignalParts::UnlinkId { id, from, to } => Some(unlink_len(tags::UNLINK_ID, id, from, to)),
        SignalParts::UnlinkIdAck { id, from, to } => {
            Some(unlink_len(tags::UNLINK_ID_ACK, id, from, to))
        }
    }
}

// The functions below write where there is room.

fn write_opening(out: &mut Vec<u8>, arity: u32, tag: u64)
    requires room { vec_len out.old + length (131 ∷ (canonical_head arity ++ canonical_int (pos tag))) ≤ vec_capacity out.old }
    ensures items { out.new.items ≡ out.old.items ++ 131 ∷ (canonical_head arity ++ canonical_int (pos tag)) }
    ensures len { vec_len out.new ≡ vec_len out.old + length (131 ∷ (canonical_head arity ++ canonical_int (pos tag))) }
    ensures capacity { vec_capacity out.old ≤ vec_capacity out.new }
{
    out.push_reserved(131);
    write_tuple_head(out, arity as usize);
    write_integer(out, i128::from(tag));
}

fn write_pids(out: &mut Vec<u8>, from: &Pid, to: &Pid)
    requires room { vec_len out.old + length (canonical_pid from.now ++ canonical_pid to.now) ≤ vec_capacity out.old }
    ensures items { out.new.items ≡ out.old.items ++ (canonical_pid from.now ++ canonical_pid to.now) }
    ensures len { vec_len out.new ≡ vec_len out.old + length (canonical_pid from.now ++ canonical_pid to.now) }
    ensures capacity { vec_capacity out.old ≤ vec_capacity out.new }
{
    write_pid(out, from);
    write_pid(out, to);
}

fn write_payload(out: &mut Vec<u8>, payload: &Payload)
    requires in_range { IsInRange payload.now }
    requires room { vec_len out.old + length (canonical_term payload.now) ≤ vec_capacity out.old }
    ensures items { out.new.items ≡ out.old.items ++ canonical_term payload.now }
{
    write_term(out, payload.term());
}

/// Writes the text of SEND.
#[tactic(auto, unfolding(erl_term::specs::Canonical::canonical_atom))]
fn write_send(out: &mut Vec<u8>, to: &Pid, message: &Payload)
    requires in_range { IsInRange message.now }
    requires room { vec_len out.old + length (canonical_text (variant.Send to.now message.now) false) ≤ vec_capacity out.old }
    ensures items { out.new.items ≡ out.old.items ++ canonical_text (variant.Send to.now message.now) false }
{
    write_opening(out, tags::SEND_ARITY, tags::SEND);
    out.extend_from_slice(&EMPTY_ATOM).unwrap();
    write_pid(out, to);
    out.push_reserved(131);
    write_payload(out, message);
}

/// Writes the text of REG_SEND.
#[tactic(auto, unfolding(erl_term::specs::Canonical::canonical_atom))]
fn write_reg_send(out: &mut Vec<u8>, from: &Pid, name: &Atom, message: &Payload)
    requires in_range { IsInRange message.now }
    requires room { vec_len out.old + length (canonical_text (variant.RegSend from.now name.now message.now) false) ≤ vec_capacity out.old }
    ensures items { out.new.items ≡ out.old.items ++ canonical_text (variant.RegSend from.now name.now message.now) false }
{
    write_opening(out, tags::REG_SEND_ARITY, tags::REG_SEND);
    write_pid(out, from);
    out.extend_from_slice(&EMPTY_ATOM).unwrap();
    write_atom(out, name);
    out.push_reserved(131);
    write_payload(out, message);
}

/// Writes From, To and Reason behind the tag of their row.
fn write_exit(out: &mut Vec<u8>, tag: u64, from: &Pid, to: &Pid, reason: &Payload)
    requires in_range { IsInRange reason.now }
    requires room { vec_len out.old + length (canonical (row tag (term.pid from.now ∷ term.pid to.now ∷ reason.now ∷ []))) ≤ vec_capacity out.old }
    ensures items { out.new.items ≡ out.old.items ++ canonical (row tag (term.pid from.now ∷ term.pid to.now ∷ reason.now ∷ [])) }
{
    write_opening(out, tags::EXIT_ARITY, tag);
    write_pids(out, from, to);
    write_payload(out, reason);
}

/// Writes From, To and Ref behind the head of their row.
fn write_monitor(out: &mut Vec<u8>, tag: u64, from: &Pid, to: &Pid, reference: &Reference)
    requires room { vec_len out.old + length (canonical (row tag (term.pid from.now ∷ term.pid to.now ∷ term.reference reference.now ∷ []))) ≤ vec_capacity out.old }
    ensures items { out.new.items ≡ out.old.items ++ canonical (row tag (term.pid from.now ∷ term.pid to.now ∷ term.reference reference.now ∷ [])) }
{
    write_opening(out, tags::MONITOR_P_ARITY, tag);
    write_pids(out, from, to);
    write_reference(out, reference);
}

/// Writes the head of a row, and From, To and Ref behind it, where To is a registered name.
fn write_monitor_name(out: &mut Vec<u8>, tag: u64, from: &Pid, name: &Atom, reference: &Reference)
    requires room { vec_len out.old + length (canonical (row tag (term.pid from.now ∷ term.atom name.now ∷ term.reference reference.now ∷ []))) ≤ vec_capacity out.old }
    ensures items { out.new.items ≡ out.old.items ++ canonical (row tag (term.pid from.now ∷ term.atom name.now ∷ term.reference reference.now ∷ [])) }
{
    write_opening(out, tags::MONITOR_P_ARITY, tag);
    write_pid(out, from);
    write_atom(out, name);
    write_reference(out, reference);
}

/// Writes the text of PAYLOAD_EXIT or PAYLOAD_EXIT2.
fn write_payload_exit(out: &mut Vec<u8>, tag: u64, from: &Pid, to: &Pid, reason: &Payload)
    requires in_range { IsInRange reason.now }
    requires room { vec_len out.old + length (canonical (row tag (term.pid from.now ∷ term.pid to.now ∷ [])) ++ canonical reason.now) ≤ vec_capacity out.old }
    ensures items { out.new.items ≡ out.old.items ++ (canonical (row tag (term.pid from.now ∷ term.pid to.now ∷ [])) ++ canonical reason.now) }
{
    write_opening(out, tags::PAYLOAD_EXIT_ARITY, tag);
    write_pids(out, from, to);
    out.push_reserved(131);
    write_payload(out, reason);
}

/// Writes the text of MONITOR_P_EXIT.
fn write_monitor_exit(
    out: &mut Vec<u8>,
    from: &Pid,
    to: &Pid,
    reference: &Reference,
    reason: &Payload,
)
    requires in_range { IsInRange reason.now }
    requires room { vec_len out.old + length (canonical_text (variant.MonitorExit from.now to.now reference.now reason.now) false) ≤ vec_capacity out.old }
    ensures items { out.new.items ≡ out.old.items ++ canonical_text (variant.MonitorExit from.now to.now reference.now reason.now) false }
{
    write_opening(out, tags::MONITOR_P_EXIT_ARITY, tags::MONITOR_P_EXIT);
    write_pids(out, from, to);
    write_reference(out, reference);
    write_payload(out, reason);
}

/// Writes the text of PAYLOAD_MONITOR_P_EXIT.
fn write_payload_monitor_exit(
    out: &mut Vec<u8>,
    from: &Pid,
    to: &Pid,
    reference: &Reference,
    reason: &Payload,
)
    requires in_range { IsInRange reason.now }
    requires room { vec_len out.old + length (canonical_text (variant.MonitorExit from.now to.now reference.now reason.now) true) ≤ vec_capacity out.old }
    ensures items { out.new.items ≡ out.old.items ++ canonical_text (variant.MonitorExit from.now to.now reference.now reason.now) true }
{
    write_opening(
        out,
        tags::PAYLOAD_MONITOR_P_EXIT_ARITY,
        tags::PAYLOAD_MONITOR_P_EXIT,
    );
    write_pids(out, from, to);
    write_reference(out, reference);
    out.push_reserved(131);
    write_payload(out, reason);
}

/// Writes the text of MONITOR_P_EXIT, where From is a registered name.
fn write_monitor_name_exit(
    out: &mut Vec<u8>,
    name: &Atom,
    to: &Pid,
    reference: &Reference,
    reason: &Payload,
)
    requires in_range { IsInRange reason.now }
    requires room { vec_len out.old + length (canonical_text (variant.MonitorNameExit name.now to.now reference.now reason.now) false) ≤ vec_capacity out.old }
    ensures items { out.new.items ≡ out.old.items ++ canonical_text (variant.MonitorNameExit name.now to.now reference.now reason.now) false }
{
    write_opening(out, tags::MONITOR_P_EXIT_ARITY, tags::MONITOR_P_EXIT);
    write_atom(out, name);
    write_pid(out, to);
    write_reference(out, reference);
    write_payload(out, reason);
}

/// Writes the text of PAYLOAD_MONITOR_P_EXIT, where From is a registered name.
fn write_payload_monitor_name_exit(
    out: &mut Vec<u8>,
    name: &Atom,
    to: &Pid,
    reference: &Reference,
    reason: &Payload,
)
    requires in_range { IsInRange reason.now }
    requires room { vec_len out.old + length (canonical_text (variant.MonitorNameExit name.now to.now reference.now reason.now) true) ≤ vec_capacity out.old }
    ensures items { out.new.items ≡ out.old.items ++ canonical_text (variant.MonitorNameExit name.now to.now reference.now reason.now) true }
{
    write_opening(
        out,
        tags::PAYLOAD_MONITOR_P_EXIT_ARITY,
        tags::PAYLOAD_MONITOR_P_EXIT,
    );
    write_atom(out, name);
    write_pid(out, to);
    write_reference(out, reference);
    out.push_reserved(131);
    write_payload(out, reason);
}

/// Writes Id, From and To behind the head of their row.
fn write_unlink(out: &mut Vec<u8>, tag: u64, id: u64, from: &Pid, to: &Pid)
    requires room { vec_len out.old + length (canonical (row tag (term.int (pos id) ∷ term.pid from.now ∷ term.pid to.now ∷ []))) ≤ vec_capacity out.old }
    ensures items { out.new.items ≡ out.old.items ++ canonical (row tag (term.int (pos id) ∷ term.pid from.now ∷ term.pid to.now ∷ [])) }
{
    write_opening(out, tags::UNLINK_ID_ARITY, tag);
    write_integer(out, i128::from(id));
    write_pids(out, from, to);
}

/// Writes the text of the signal.
fn write_text(out: &mut Vec<u8>, signal: SignalParts<'_>, payload: bool)
    requires fits { Carries Fits (signal_of signal) }
    requires room { vec_len out.old + length (canonical_text (signal_of signal) payload) ≤ vec_capacity out.old }
    ensures items { out.new.items ≡ out.old.items ++ canonical_text (signal_of signal.entry) payload }
{
    match signal {
        SignalParts::Link { from, to } => {
            write_opening(out, tags::LINK_ARITY, tags::LINK);
            write_pids(out, from, to);
        }
        SignalParts::Send { to, message } => write_send(out, to, message),
        SignalParts::RegSend {
            from,
            name,
            message,
        } => write_reg_send(out, from, name, message),
        SignalParts::Exit { from, to, reason } if payload => {
            write_payload_exit(out, tags::PAYLOAD_EXIT, from, to, reason)
        }
        SignalParts::Exit { from, to, reason } => write_exit(out, tags::EXIT, from, to, reason),
        SignalParts::Exit2 { from, to, reason } if payload => {
            write_payload_exit(out, tags::PAYLOAD_EXIT2, from, to, reason)
        }
        SignalParts::Exit2 { from, to, reason } => write_exit(out, tags::EXIT2, from, to, reason),
        SignalParts::Monitor {
            from,
            to,
            reference,
        } => write_monitor(out, tags::MONITOR_P, from, to, reference),
        SignalParts::MonitorName {
            from,
            name,
            reference,
        } => write_monitor_name(out, tags::MONITOR_P, from, name, reference),
        SignalParts::Demonitor {
            from,
            to,
            reference,
        } => write_monitor(out, tags::DEMONITOR_P, from, to, reference),
        SignalParts::DemonitorName {
            from,
            name,
            reference,
        } => write_monitor_name(out, tags::DEMONITOR_P, from, name, reference),
        SignalParts::MonitorExit {
            from,
            to,
            reference,
            reason,
        } if payload => write_payload_monitor_exit(out, from, to, reference, reason),
        SignalParts::MonitorExit {
            from,
            to,
            reference,
            reason,
        } => write_monitor_exit(out, from, to, reference, reason),
        SignalParts::MonitorNameExit {
            name,
            to,
            reference,
            reason,
        } if payload => write_payload_monitor_name_exit(out, name, to, reference, reason),
        SignalParts::MonitorNameExit {
            name,
            to,
            reference,
            reason,
        } => write_monitor_name_exit(out, name, to, reference, reason),
        SignalParts::UnlinkId { id, from, to } => write_unlink(out, tags::UNLINK_ID, id, from, to),
        SignalParts::UnlinkIdAck { id, from, to } => write_unlink(
            out,
            tags::UNLINK_ID_ACK,
            id,
            from,
            to,
        ),
    }
}

/// Writes the frame of the signal behind the bytes of `out`, each term in its canonical spelling.
/// With `payload` the reason of EXIT, EXIT2 and MONITOR_P_EXIT stands behind the control term.
/// All room is made before the first byte is written. (ERTS User's Guide, Distribution Protocol,
/// Protocol between Connected Nodes.)
///
/// The refusals, in their order: [`FrameError::BadControl`] where an Id is 0,
/// [`FrameError::TooLong`] where the message or the reason doesn't fit ([`fits`](crate::fits)), and
/// [`FrameError::OutOfMemory`]. No frame of a signal whose payload fits is too long. Where it is
/// refused `out` stays as it was.
pub fn put_frame(
    out: &mut Vec<u8>,
    signal: SignalParts<'_>,
    payload: bool,
) -> Result<(), FrameError>
    ensures ok { OnOk result (out.new.items ≡ out.old.items ++ canonical_frame (signal_of signal.entry) payload) }
    ensures framed { OnOk result (IsFramed (Item.Signal (signal_of signal.entry)) (canonical_frame (signal_of signal.entry) payload)) }
    // The refusals, in their order.
    ensures bad_control { IsErrOf result FrameError.BadControl ↔ ¬ HasId (signal_of signal.entry) }
    ensures too_long { IsErrOf result FrameError.TooLong ↔ (HasId (signal_of signal.entry) × (¬ Carries Fits (signal_of signal.entry))) }
    // No other error comes, and memory is asked for only where the signal can be sent and there is
    // no room for its frame.
    ensures memory { IfErr result (λ e. e ≢ FrameError.BadControl → e ≢ FrameError.TooLong → (e ≡ FrameError.OutOfMemory) × IsSendable (signal_of signal.entry)) }
    ensures room { vec_len out.old + length (canonical_frame (signal_of signal.entry) payload) ≤ vec_capacity out.old → ¬ IsErrOf result FrameError.OutOfMemory }
    ensures err { OnErr result (out.new.items ≡ out.old.items) }
{
    if !has_id(signal) {
        return Err(FrameError::BadControl);
    }
    let Some(len) = text_len(signal, payload) else {
        return Err(FrameError::TooLong);
    };
    canonical_is_framed();
    out.reserve(len + 5)?;
    out.extend_from_slice(&(len as u32 + 1).to_be_bytes())
        .unwrap();
    out.push_reserved(112);
    write_text(out, signal, payload);
    Ok(())
}

/// Returns the frame that [`put_frame`] writes for the signal, in memory of its own. It is refused
/// where [`put_frame`] is.
pub fn frame(alloc: Global, signal: &Signal, payload: bool) -> Result<Vec<u8>, FrameError>
    ensures ok { IfOk result (λ frame. frame.items ≡ canonical_frame signal.now payload) }
    ensures framed { IfOk result (λ frame. IsFramed (Item.Signal signal.now) frame.items) }
    // The refusals, in their order.
    ensures bad_control { IsErrOf result FrameError.BadControl ↔ ¬ HasId signal.now }
    ensures too_long { IsErrOf result FrameError.TooLong ↔ (HasId signal.now × (¬ Carries Fits signal.now)) }
    // No other error comes, and memory is asked for only where the signal can be sent.
    ensures memory { IfErr result (λ e. e ≢ FrameError.BadControl → e ≢ FrameError.TooLong → (e ≡ FrameError.OutOfMemory) × IsSendable signal.now) }
{
    let mut out = Vec::new(alloc);
    put_frame(&mut out, signal.parts(), payload)?;
    Ok(out)
}
