//! The words for a signal.
ghost use Rattle.std.specs.Prelude.{◌≡◌, ◌++◌, OnOk, string_bytes};
ghost use Rattle.item_texts.specs.Words.{ended, field, fields, monitor_fields, name_and_process, operation_name, pids, process_and_name, signal_text};
ghost use Rattle.script_terms.specs.Printing.{atom_text, pid_text, reference_text, term_text};

use erl_control::Signal;
use erl_term::{Atom, Payload, Pid, Reference};
use script_terms::{put_atom, put_pid, put_reference, put_term};
use std::alloc::AllocError;

fn put_process(out: &mut String, process: &Pid) -> Result<(), AllocError>
    ensures { OnOk result (string_bytes out.new ≡ string_bytes out.old ++ field (pid_text process.now)) }
{
    out.push_str(" ")?;
    put_pid(out, process)
}

fn put_processes(out: &mut String, from: &Pid, to: &Pid) -> Result<(), AllocError>
    ensures { OnOk result (string_bytes out.new ≡ string_bytes out.old ++ pids from.now to.now) }
{
    put_process(out, from)?;
    put_process(out, to)
}

fn put_name(out: &mut String, name: &Atom) -> Result<(), AllocError>
    ensures { OnOk result (string_bytes out.new ≡ string_bytes out.old ++ field (atom_text name.now)) }
{
    out.push_str(" ")?;
    put_atom(out, name.text())
}

fn put_monitor(out: &mut String, reference: &Reference) -> Result<(), AllocError>
    ensures { OnOk result (string_bytes out.new ≡ string_bytes out.old ++ field (reference_text reference.now)) }
{
    out.push_str(" ")?;
    put_reference(out, reference)
}

fn put_payload(out: &mut String, payload: &Payload) -> Result<(), AllocError>
    ensures { OnOk result (string_bytes out.new ≡ string_bytes out.old ++ field (term_text payload.now)) }
{
    out.push_str(" ")?;
    put_term(out, payload.term())
}

fn put_process_and_name(out: &mut String, process: &Pid, name: &Atom) -> Result<(), AllocError>
    ensures { OnOk result (string_bytes out.new ≡ string_bytes out.old ++ process_and_name process.now name.now) }
{
    put_process(out, process)?;
    put_name(out, name)
}

fn put_name_and_process(out: &mut String, name: &Atom, process: &Pid) -> Result<(), AllocError>
    ensures { OnOk result (string_bytes out.new ≡ string_bytes out.old ++ name_and_process name.now process.now) }
{
    put_name(out, name)?;
    put_process(out, process)
}

fn put_ended(out: &mut String, reference: &Reference, reason: &Payload) -> Result<(), AllocError>
    ensures { OnOk result (string_bytes out.new ≡ string_bytes out.old ++ ended reference.now reason.now) }
{
    put_monitor(out, reference)?;
    put_payload(out, reason)
}

/// Returns the name of a signal's operation, in capitals. A signal about a process and one about a registered name
/// have one name. So have those whose reason stands in the control term and behind it. (ERTS User's Guide,
/// Distribution Protocol, Protocol between Connected Nodes and New Link Protocol.)
pub fn operation_name(signal: &Signal) -> &'static str
    ensures { result.now ≡ operation_name signal.now }
{
    match signal {
        Signal::Link { .. } => "LINK",
        Signal::Send { .. } => "SEND",
        Signal::RegSend { .. } => "REG_SEND",
        Signal::Exit { .. } => "EXIT",
        Signal::Exit2 { .. } => "EXIT2",
        Signal::Monitor { .. } | Signal::MonitorName { .. } => "MONITOR_P",
        Signal::Demonitor { .. } | Signal::DemonitorName { .. } => "DEMONITOR_P",
        Signal::MonitorExit { .. } | Signal::MonitorNameExit { .. } => "MONITOR_P_EXIT",
        Signal::UnlinkId { .. } => "UNLINK_ID",
        Signal::UnlinkIdAck { .. } => "UNLINK_ID_ACK",
    }
}

// Appends the fields of a signal about a monitor.
fn put_monitor_fields(out: &mut String, signal: &Signal) -> Result<(), AllocError>
    ensures { OnOk result (string_bytes out.new ≡ string_bytes out.old ++ monitor_fields signal.now) }
{
    match signal {
        Signal::Monitor {
            from,
            to,
            reference,
        }
        | Signal::Demonitor {
            from,
            to,
            reference,
        } => {
            put_processes(out, from, to)?;
            put_monitor(out, reference)
        }
        Signal::MonitorName {
            from,
            name,
            reference,
        }
        | Signal::DemonitorName {
            from,
            name,
            reference,
        } => {
            put_process_and_name(out, from, name)?;
            put_monitor(out, reference)
        }
        Signal::MonitorExit {
            from,
            to,
            reference,
            reason,
        } => {
            put_processes(out, from, to)?;
            put_ended(out, reference, reason)
        }
        Signal::MonitorNameExit {
            name,
            to,
            reference,
            reason,
        } => {
            put_name_and_process(out, name, to)?;
            put_ended(out, reference, reason)
        }
        _ => Ok(()),
    }
}

// Appends the fields of a signal.
fn put_fields(out: &mut String, signal: &Signal) -> Result<(), AllocError>
    ensures { OnOk result (string_bytes out.new ≡ string_bytes out.old ++ fields signal.now) }
{
    match signal {
        Signal::Link { from, to } => put_processes(out, from, to),
        Signal::Send { to, message } => {
            put_process(out, to)?;
            put_payload(out, message)
        }
        Signal::RegSend {
            from,
            name,
            message,
        } => {
            put_process_and_name(out, from, name)?;
            put_payload(out, message)
        }
        Signal::Exit { from, to, reason } | Signal::Exit2 { from, to, reason } => {
            put_processes(out, from, to)?;
            put_payload(out, reason)
        }
        Signal::UnlinkId { id, from, to } | Signal::UnlinkIdAck { id, from, to } => {
            write!(out, " {id}")?;
            put_processes(out, from, to)
        }
        _ => put_monitor_fields(out, signal),
    }
}

/// Appends the name of a signal's operation, and the fields of its control message that aren't unused, in
/// their order. A message or a reason stands last. (ERTS User's Guide, Distribution Protocol, Protocol between
/// Connected Nodes and New Link Protocol.)
///
/// # Errors
/// [`AllocError`] if out of memory.
pub fn put_signal(out: &mut String, signal: &Signal) -> Result<(), AllocError>
    ensures { OnOk result (string_bytes out.new ≡ string_bytes out.old ++ signal_text signal.now) }
{
    out.push_str(operation_name(signal))?;
    put_fields(out, signal)
}
