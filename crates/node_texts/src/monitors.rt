//! The texts of the monitors of a process.
ghost use Rattle.std.specs.Prelude.{◌≡◌, ◌++◌, OnOk, string_bytes};
ghost use Rattle.std.specs.List.{flat_map};
ghost use Rattle.node_core.specs.Model.{model_of};
ghost use Rattle.node_texts.specs.Forms.{other_in, own_in};
ghost use Rattle.node_texts.specs.Monitors.{monitors_text, or_none, other_text, others_of, own_of, own_text, target_text};
ghost use Rattle.node_texts.specs.Whole.{other_line, own_line};

use crate::form::Form;
use erl_term::{Pid, Reference};
use monitor_core::{Registration, Target, Watch};
use node_core::Node;
use script_terms::{put_atom, put_pid, put_reference};
use std::alloc::AllocError;

// Appends the target of a monitor: a pid, or the tuple of a name and its node.
fn put_target(out: &mut String, target: &Target) -> Result<(), AllocError>
    ensures { OnOk result (string_bytes out.new ≡ string_bytes out.old ++ target_text target.now) }
{
    match target {
        Target::Pid(process) => put_pid(out, process),
        Target::Name { name, node } => {
            out.push_str("{")?;
            put_atom(out, name.text())?;
            out.push_str(",")?;
            put_atom(out, node.text())?;
            out.push_str("}")
        }
    }
}

fn put_own_text(out: &mut String, reference: &Reference, watch: &Watch) -> Result<(), AllocError>
    ensures { OnOk result (string_bytes out.new ≡ string_bytes out.old ++ own_text (reference.now, watch.now)) }
{
    out.push_str(" ")?;
    put_reference(out, reference)?;
    out.push_str("=")?;
    put_target(out, &watch.target)
}

fn put_own_line(out: &mut String, reference: &Reference, watch: &Watch) -> Result<(), AllocError>
    ensures { OnOk result (string_bytes out.new ≡ string_bytes out.old ++ own_line (reference.now, watch.now)) }
{
    out.push_str("  monitors ")?;
    put_reference(out, reference)?;
    out.push_str(" ")?;
    put_target(out, &watch.target)?;
    out.push_str("\n")
}

// Appends a monitor that the process owns.
fn put_watch(
    out: &mut String,
    form: Form,
    reference: &Reference,
    watch: &Watch,
) -> Result<(), AllocError>
    ensures { OnOk result (string_bytes out.new ≡ string_bytes out.old ++ own_in form (reference.now, watch.now)) }
{
    match form {
        Form::Part => put_own_text(out, reference, watch),
        Form::Line => put_own_line(out, reference, watch),
    }
}

fn put_other_text(
    out: &mut String,
    reference: &Reference,
    registration: &Registration,
) -> Result<(), AllocError>
    ensures { OnOk result (string_bytes out.new ≡ string_bytes out.old ++ other_text (reference.now, registration.now)) }
{
    out.push_str(" ")?;
    put_reference(out, reference)?;
    out.push_str("=")?;
    put_pid(out, &registration.owner)
}

fn put_other_line(
    out: &mut String,
    reference: &Reference,
    registration: &Registration,
) -> Result<(), AllocError>
    ensures { OnOk result (string_bytes out.new ≡ string_bytes out.old ++ other_line (reference.now, registration.now)) }
{
    out.push_str("  monitored ")?;
    put_reference(out, reference)?;
    out.push_str(" ")?;
    put_pid(out, &registration.owner)?;
    out.push_str("\n")
}

// Appends a monitor that another process has of this one.
fn put_registration(
    out: &mut String,
    form: Form,
    reference: &Reference,
    registration: &Registration,
) -> Result<(), AllocError>
    ensures { OnOk result (string_bytes out.new ≡ string_bytes out.old ++ other_in form (reference.now, registration.now)) }
{
    match form {
        Form::Part => put_other_text(out, reference, registration),
        Form::Line => put_other_line(out, reference, registration),
    }
}

/// Appends each monitor that a process owns, in the order of their references.
pub(crate) fn put_own(
    out: &mut String,
    form: Form,
    node: &Node,
    process: &Pid,
) -> Result<(), AllocError>
    ensures { OnOk result (string_bytes out.new ≡ string_bytes out.old ++ flat_map (own_in form) (own_of (model_of node.now) process.now)) }
{
    let watches = node.watches();
    let mut behind: Option<&Reference> = None;
    while let Some((reference, watch)) = watches.next_owned_by(process, behind) {
        put_watch(out, form, reference, watch)?;
        behind = Some(reference);
    }
    Ok(())
}

/// Appends each monitor that others have of a process, in the order of their references.
pub(crate) fn put_others(
    out: &mut String,
    form: Form,
    node: &Node,
    process: &Pid,
) -> Result<(), AllocError>
    ensures { OnOk result (string_bytes out.new ≡ string_bytes out.old ++ flat_map (other_in form) (others_of (model_of node.now) process.now)) }
{
    let watchers = node.watchers();
    let mut behind: Option<&Reference> = None;
    while let Some((reference, registration)) = watchers.next_held(process, behind) {
        put_registration(out, form, reference, registration)?;
        behind = Some(reference);
    }
    Ok(())
}

// Appends the monitors that a process owns, or ` none`.
fn put_own_or_none(out: &mut String, node: &Node, process: &Pid) -> Result<(), AllocError>
    ensures { OnOk result (string_bytes out.new ≡ string_bytes out.old ++ or_none (flat_map own_text (own_of (model_of node.now) process.now))) }
{
    match node.watches().first_owned_by(process) {
        Some(_) => put_own(out, Form::Part, node, process),
        None => out.push_str(" none"),
    }
}

// Appends the monitors that others have of a process, or ` none`.
fn put_others_or_none(out: &mut String, node: &Node, process: &Pid) -> Result<(), AllocError>
    ensures { OnOk result (string_bytes out.new ≡ string_bytes out.old ++ or_none (flat_map other_text (others_of (model_of node.now) process.now))) }
{
    match node.watchers().first_held(process) {
        Some(_) => put_others(out, Form::Part, node, process),
        None => out.push_str(" none"),
    }
}

/// Appends one line with the monitors that a process owns, and those that others have of it, each in the
/// order of their references. (Reference Manual, Processes, Monitors.)
///
/// # Errors
/// [`AllocError`] if out of memory.
pub fn put_monitors(out: &mut String, node: &Node, process: &Pid) -> Result<(), AllocError>
    ensures { OnOk result (string_bytes out.new ≡ string_bytes out.old ++ monitors_text (model_of node.now) process.now) }
{
    out.push_str("monitors own")?;
    put_own_or_none(out, node, process)?;
    out.push_str(" others")?;
    put_others_or_none(out, node, process)?;
    out.push_str("\n")
}
