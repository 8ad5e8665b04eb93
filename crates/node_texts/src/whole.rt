//! The text that shows a node, its processes, and their links and monitors.
ghost use Rattle.std.specs.Prelude.{◌≡◌, ◌++◌, OnOk, string_bytes};
ghost use Rattle.std.specs.List.{flat_map};
ghost use Rattle.dist_model.specs.Node.{ends_of};
ghost use Rattle.node_core.specs.Model.{model_of};
ghost use Rattle.node_texts.specs.Shown.{pids_of};
ghost use Rattle.node_texts.specs.Whole.{link_line, whole_node, whole_process};

use crate::form::Form;
use crate::monitors::{put_others, put_own};
use crate::showing::{pid_at, put_process};
use erl_term::Pid;
use link_core::End;
use node_core::Node;
use script_terms::put_pid;
use script_texts::{put_end, put_node};
use std::alloc::AllocError;

fn put_link(out: &mut String, partner: &Pid, end: End) -> Result<(), AllocError>
    ensures { OnOk result (string_bytes out.new ≡ string_bytes out.old ++ link_line (partner.now, end)) }
{
    out.push_str("  linked ")?;
    put_pid(out, partner)?;
    out.push_str(" ")?;
    put_end(out, end)?;
    out.push_str("\n")
}

// Appends a line for each link of a process, in the order of its partners.
fn put_links(out: &mut String, node: &Node, process: &Pid) -> Result<(), AllocError>
    ensures { OnOk result (string_bytes out.new ≡ string_bytes out.old ++ flat_map link_line (ends_of (model_of node.now) process.now)) }
{
    let mut behind: Option<&Pid> = None;
    while let Some((partner, end)) = node.next_link(process, behind) {
        put_link(out, partner, *end)?;
        behind = Some(partner);
    }
    Ok(())
}

// Appends a process, its links, its own monitors, and those that others have of it.
fn put_whole_process(out: &mut String, node: &Node, process: &Pid) -> Result<(), AllocError>
    ensures { OnOk result (string_bytes out.new ≡ string_bytes out.old ++ whole_process (model_of node.now) process.now) }
{
    put_process(out, node, process)?;
    put_links(out, node, process)?;
    put_own(out, Form::Line, node, process)?;
    put_others(out, Form::Line, node, process)
}

// Appends the processes of the incarnation by their ids.
fn put_whole_processes(out: &mut String, node: &Node) -> Result<(), AllocError>
    ensures { OnOk result (string_bytes out.new ≡ string_bytes out.old ++ flat_map (whole_process (model_of node.now)) (pids_of (model_of node.now).mint (model_of node.now).mint.pids)) }
{
    for before in 0..node.spawned() {
        let process = pid_at(node, before + 1)?;
        put_whole_process(out, node, &process)?;
    }
    Ok(())
}

/// Appends a node, and its processes by their ids. Behind a process stand its messages, its links, its own
/// monitors, and those that others have of it, a line each. A node that is down has no processes.
/// (Reference Manual, Processes, Links and Monitors; Distributed Erlang, Nodes.)
///
/// # Errors
/// [`AllocError`] if out of memory.
pub fn put_whole(out: &mut String, node: &Node) -> Result<(), AllocError>
    ensures { OnOk result (string_bytes out.new ≡ string_bytes out.old ++ whole_node (model_of node.now)) }
{
    put_node(out, node.name().text(), node.is_up(), node.creation())?;
    if node.is_up() {
        put_whole_processes(out, node)?;
    }
    Ok(())
}
