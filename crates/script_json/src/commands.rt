//! The commands of a caller to a node, in JSON.
ghost use Rattle.std.specs.Prelude.{◌≡◌, IfOk};
ghost use Rattle.dist_model.specs.declared.command.Command.TheVariants as command;
ghost use Rattle.script_json.specs.Events.{command_data};
ghost use Rattle.serde_json.specs.View.{view};

use crate::texts::{printed_atom, printed_pid, printed_reference, printed_term};
use dist_model::Command;
use erl_names::NodeName;
use erl_term::{Atom, Payload, Pid, Reference};
use serde_json::{Value, json};
use std::alloc::{AllocError, Global};

fn send(alloc: Global, from: &Pid, to: &Pid, message: &Payload) -> Result<Value, AllocError>
    ensures { IfOk result (λ v. view v ≡ command_data (command.Send from.now to.now message.now)) }
{
    let (from, to, message) = (
        printed_pid(alloc, from)?,
        printed_pid(alloc, to)?,
        printed_term(alloc, message)?,
    );
    json!(in alloc; {"from": from, "kind": "send", "message": message, "to": to})
}

fn sendname(
    alloc: Global,
    from: &Pid,
    node: &NodeName,
    name: &Atom,
    message: &Payload,
) -> Result<Value, AllocError>
    ensures { IfOk result (λ v. view v ≡ command_data (command.SendName from.now node.now name.now message.now)) }
{
    let (from, name, message) = (
        printed_pid(alloc, from)?,
        printed_atom(alloc, name)?,
        printed_term(alloc, message)?,
    );
    let node = node.text();
    json!(in alloc; {"from": from, "kind": "sendname", "message": message, "name": name, "node": node})
}

fn link(alloc: Global, from: &Pid, to: &Pid) -> Result<Value, AllocError>
    ensures { IfOk result (λ v. view v ≡ command_data (command.Link from.now to.now)) }
{
    let (from, to) = (printed_pid(alloc, from)?, printed_pid(alloc, to)?);
    json!(in alloc; {"from": from, "kind": "link", "to": to})
}

fn unlink(alloc: Global, from: &Pid, to: &Pid) -> Result<Value, AllocError>
    ensures { IfOk result (λ v. view v ≡ command_data (command.Unlink from.now to.now)) }
{
    let (from, to) = (printed_pid(alloc, from)?, printed_pid(alloc, to)?);
    json!(in alloc; {"from": from, "kind": "unlink", "to": to})
}

fn monitors(alloc: Global, owner: &Pid, target: &Pid) -> Result<Value, AllocError>
    ensures { IfOk result (λ v. view v ≡ command_data (command.Monitor owner.now target.now)) }
{
    let (owner, target) = (printed_pid(alloc, owner)?, printed_pid(alloc, target)?);
    json!(in alloc; {"kind": "monitor", "owner": owner, "target": target})
}

fn monitorname(
    alloc: Global,
    owner: &Pid,
    node: &NodeName,
    name: &Atom,
) -> Result<Value, AllocError>
    ensures { IfOk result (λ v. view v ≡ command_data (command.MonitorName owner.now node.now name.now)) }
{
    let (owner, name) = (printed_pid(alloc, owner)?, printed_atom(alloc, name)?);
    let node = node.text();
    json!(in alloc; {"kind": "monitorname", "name": name, "node": node, "owner": owner})
}

fn demonitor(alloc: Global, owner: &Pid, reference: &Reference) -> Result<Value, AllocError>
    ensures { IfOk result (λ v. view v ≡ command_data (command.Demonitor owner.now reference.now)) }
{
    let (owner, reference) = (
        printed_pid(alloc, owner)?,
        printed_reference(alloc, reference)?,
    );
    json!(in alloc; {"kind": "demonitor", "owner": owner, "reference": reference})
}

fn trap(alloc: Global, process: &Pid, on: bool) -> Result<Value, AllocError>
    ensures { IfOk result (λ v. view v ≡ command_data (command.Trap process.now on)) }
{
    let text = printed_pid(alloc, process)?;
    json!(in alloc; {"kind": "trap", "on": on, "process": text})
}

fn exit(alloc: Global, from: &Pid, to: &Pid, reason: &Payload) -> Result<Value, AllocError>
    ensures { IfOk result (λ v. view v ≡ command_data (command.ExitTo from.now to.now reason.now)) }
{
    let (from, to, reason) = (
        printed_pid(alloc, from)?,
        printed_pid(alloc, to)?,
        printed_term(alloc, reason)?,
    );
    json!(in alloc; {"from": from, "kind": "exit", "reason": reason, "to": to})
}

fn die(alloc: Global, process: &Pid, reason: &Payload) -> Result<Value, AllocError>
    ensures { IfOk result (λ v. view v ≡ command_data (command.ExitSelf process.now reason.now)) }
{
    let (text, reason) = (printed_pid(alloc, process)?, printed_term(alloc, reason)?);
    json!(in alloc; {"kind": "die", "process": text, "reason": reason})
}

fn receive(alloc: Global, process: &Pid) -> Result<Value, AllocError>
    ensures { IfOk result (λ v. view v ≡ command_data (command.Receive process.now)) }
{
    let text = printed_pid(alloc, process)?;
    json!(in alloc; {"kind": "receive", "process": text})
}

fn links(alloc: Global, process: &Pid) -> Result<Value, AllocError>
    ensures { IfOk result (λ v. view v ≡ command_data (command.LinksOf process.now)) }
{
    let text = printed_pid(alloc, process)?;
    json!(in alloc; {"kind": "links", "process": text})
}

fn alive(alloc: Global, process: &Pid) -> Result<Value, AllocError>
    ensures { IfOk result (λ v. view v ≡ command_data (command.IsAlive process.now)) }
{
    let text = printed_pid(alloc, process)?;
    json!(in alloc; {"kind": "alive", "process": text})
}

fn register(alloc: Global, process: &Pid, name: &Atom) -> Result<Value, AllocError>
    ensures { IfOk result (λ v. view v ≡ command_data (command.Register process.now name.now)) }
{
    let (text, name) = (printed_pid(alloc, process)?, printed_atom(alloc, name)?);
    json!(in alloc; {"kind": "register", "name": name, "process": text})
}

fn unregister(alloc: Global, process: &Pid) -> Result<Value, AllocError>
    ensures { IfOk result (λ v. view v ≡ command_data (command.Unregister process.now)) }
{
    let text = printed_pid(alloc, process)?;
    json!(in alloc; {"kind": "unregister", "process": text})
}

fn whereis(alloc: Global, name: &Atom) -> Result<Value, AllocError>
    ensures { IfOk result (λ v. view v ≡ command_data (command.WhereIs name.now)) }
{
    let text = printed_atom(alloc, name)?;
    json!(in alloc; {"kind": "whereis", "name": text})
}

/// Returns the object of a command.
pub(crate) fn command(alloc: Global, command: &Command) -> Result<Value, AllocError>
    ensures { IfOk result (λ v. view v ≡ command_data command.now) }
{
    match command {
        Command::Spawn => json!(in alloc; {"kind": "spawn"}),
        Command::Send { from, to, message } => send(alloc, from, to, message),
        Command::SendName {
            from,
            node,
            name,
            message,
        } => sendname(alloc, from, node, name, message),
        Command::Link { from, to } => link(alloc, from, to),
        Command::Unlink { from, to } => unlink(alloc, from, to),
        Command::Monitor { owner, target } => monitors(alloc, owner, target),
        Command::MonitorName { owner, node, name } => monitorname(alloc, owner, node, name),
        Command::Demonitor { owner, reference } => demonitor(alloc, owner, reference),
        Command::Trap { process, on } => trap(alloc, process, *on),
        Command::ExitTo { from, to, reason } => exit(alloc, from, to, reason),
        Command::ExitSelf { process, reason } => die(alloc, process, reason),
        Command::Receive { process } => receive(alloc, process),
        Command::LinksOf { process } => links(alloc, process),
        Command::IsAlive { process } => alive(alloc, process),
        Command::Register { process, name } => register(alloc, process, name),
        Command::Unregister { process } => unregister(alloc, process),
        Command::WhereIs { name } => whereis(alloc, name),
    }
}
