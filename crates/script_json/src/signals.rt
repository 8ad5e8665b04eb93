//! The fields of a signal, in JSON.
ghost use Rattle.std.specs.Prelude.{◌≡◌, IfOk};
ghost use Rattle.erl_control.specs.declared.signal.Signal.TheVariants as signal;
ghost use Rattle.script_json.specs.Fields.{monitor_members, signal_data, signal_members};
ghost use Rattle.serde_json.specs.Data.{object, string};
ghost use Rattle.serde_json.specs.View.{view};

use crate::texts::{printed_atom, printed_pid, printed_reference, printed_term};
use erl_control::Signal;
use erl_term::{Atom, Payload, Pid, Reference};
use item_texts::operation_name;
use serde_json::{Value, json};
use std::alloc::{AllocError, Global};

fn link(alloc: Global, operation: &str, from: &Pid, to: &Pid) -> Result<Value, AllocError>
    ensures { IfOk result (λ v. view v ≡ object (signal_members (string operation.now) (signal.Link from.now to.now))) }
{
    let (from, to) = (printed_pid(alloc, from)?, printed_pid(alloc, to)?);
    json!(in alloc; {"from": from, "operation": operation, "to": to})
}

fn send(alloc: Global, operation: &str, to: &Pid, message: &Payload) -> Result<Value, AllocError>
    ensures { IfOk result (λ v. view v ≡ object (signal_members (string operation.now) (signal.Send to.now message.now))) }
{
    let (message, to) = (printed_term(alloc, message)?, printed_pid(alloc, to)?);
    json!(in alloc; {"message": message, "operation": operation, "to": to})
}

fn send_to_name(
    alloc: Global,
    operation: &str,
    from: &Pid,
    name: &Atom,
    message: &Payload,
) -> Result<Value, AllocError>
    ensures { IfOk result (λ v. view v ≡ object (signal_members (string operation.now) (signal.RegSend from.now name.now message.now))) }
{
    let (from, name) = (printed_pid(alloc, from)?, printed_atom(alloc, name)?);
    let message = printed_term(alloc, message)?;
    json!(in alloc; {"from": from, "message": message, "name": name, "operation": operation})
}

// Returns the fields of an exit of a link, or of one that is asked for.
fn exit(
    alloc: Global,
    operation: &str,
    from: &Pid,
    to: &Pid,
    reason: &Payload,
) -> Result<Value, AllocError>
    ensures { IfOk result (λ v. view v ≡ object (signal_members (string operation.now) (signal.Exit from.now to.now reason.now))) }
{
    let (from, to) = (printed_pid(alloc, from)?, printed_pid(alloc, to)?);
    let reason = printed_term(alloc, reason)?;
    json!(in alloc; {"from": from, "operation": operation, "reason": reason, "to": to})
}

// Returns the fields of the removal of a link, or of its acknowledgement.
fn unlink(
    alloc: Global,
    operation: &str,
    id: u64,
    from: &Pid,
    to: &Pid,
) -> Result<Value, AllocError>
    ensures { IfOk result (λ v. view v ≡ object (signal_members (string operation.now) (signal.UnlinkId id from.now to.now))) }
{
    let (from, to) = (printed_pid(alloc, from)?, printed_pid(alloc, to)?);
    json!(in alloc; {"from": from, "id": id, "operation": operation, "to": to})
}

// Returns the fields of a monitor of a process, or of its end.
fn monitor(
    alloc: Global,
    operation: &str,
    from: &Pid,
    to: &Pid,
    reference: &Reference,
) -> Result<Value, AllocError>
    ensures { IfOk result (λ v. view v ≡ object (monitor_members (string operation.now) (signal.Monitor from.now to.now reference.now))) }
{
    let (from, to) = (printed_pid(alloc, from)?, printed_pid(alloc, to)?);
    let reference = printed_reference(alloc, reference)?;
    json!(in alloc; {"from": from, "operation": operation, "reference": reference, "to": to})
}

// Returns the fields of a monitor of a registered name, or of its end.
fn monitor_of_name(
    alloc: Global,
    operation: &str,
    from: &Pid,
    name: &Atom,
    reference: &Reference,
) -> Result<Value, AllocError>
    ensures { IfOk result (λ v. view v ≡ object (monitor_members (string operation.now) (signal.MonitorName from.now name.now reference.now))) }
{
    let (from, name) = (printed_pid(alloc, from)?, printed_atom(alloc, name)?);
    let reference = printed_reference(alloc, reference)?;
    json!(in alloc; {"from": from, "name": name, "operation": operation, "reference": reference})
}

fn exit_of_process(
    alloc: Global,
    operation: &str,
    from: &Pid,
    to: &Pid,
    reference: &Reference,
    reason: &Payload,
) -> Result<Value, AllocError>
    ensures { IfOk result (λ v. view v ≡ object (monitor_members (string operation.now) (signal.MonitorExit from.now to.now reference.now reason.now))) }
{
    let (from, to) = (printed_pid(alloc, from)?, printed_pid(alloc, to)?);
    let (reason, reference) = (
        printed_term(alloc, reason)?,
        printed_reference(alloc, reference)?,
    );
    json!(in alloc; {"from": from, "operation": operation, "reason": reason, "reference": reference, "to": to})
}

fn exit_of_name(
    alloc: Global,
    operation: &str,
    name: &Atom,
    to: &Pid,
    reference: &Reference,
    reason: &Payload,
) -> Result<Value, AllocError>
    ensures { IfOk result (λ v. view v ≡ object (monitor_members (string operation.now) (signal.MonitorNameExit name.now to.now reference.now reason.now))) }
{
    let (name, to) = (printed_atom(alloc, name)?, printed_pid(alloc, to)?);
    let (reason, reference) = (
        printed_term(alloc, reason)?,
        printed_reference(alloc, reference)?,
    );
    json!(in alloc; {"name": name, "operation": operation, "reason": reason, "reference": reference, "to": to})
}

// Returns the fields of a signal about a monitor.
fn of_monitor(alloc: Global, operation: &str, signal: &Signal) -> Result<Value, AllocError>
    ensures { IfOk result (λ v. view v ≡ object (monitor_members (string operation.now) signal.now)) }
{
    match signal {
        Signal::Monitor {
            from,
            to,
            reference,
        }
        | Signal::Demonitor {
            from,
            to,
            reference,
        } => monitor(alloc, operation, from, to, reference),
        Signal::MonitorName {
            from,
            name,
            reference,
        }
        | Signal::DemonitorName {
            from,
            name,
            reference,
        } => monitor_of_name(alloc, operation, from, name, reference),
        Signal::MonitorExit {
            from,
            to,
            reference,
            reason,
        } => exit_of_process(alloc, operation, from, to, reference, reason),
        Signal::MonitorNameExit {
            name,
            to,
            reference,
            reason,
        } => exit_of_name(alloc, operation, name, to, reference, reason),
        _ => json!(in alloc; {}),
    }
}

/// Returns the object of a signal's fields, with the name of its operation.
pub(crate) fn signal_fields(alloc: Global, signal: &Signal) -> Result<Value, AllocError>
    ensures { IfOk result (λ v. view v ≡ signal_data signal.now) }
{
    let operation = operation_name(signal);
    match signal {
        Signal::Link { from, to } => link(alloc, operation, from, to),
        Signal::Send { to, message } => send(alloc, operation, to, message),
        Signal::RegSend {
            from,
            name,
            message,
        } => send_to_name(alloc, operation, from, name, message),
        Signal::Exit { from, to, reason } | Signal::Exit2 { from, to, reason } => {
            exit(alloc, operation, from, to, reason)
        }
        Signal::UnlinkId { id, from, to } | Signal::UnlinkIdAck { id, from, to } => {
            unlink(alloc, operation, *id, from, to)
        }
        _ => of_monitor(alloc, operation, signal),
    }
}
