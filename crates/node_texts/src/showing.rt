//! The text that shows a node and its processes.
ghost use Rattle.std.specs.Prelude.{◌≡◌, ◌++◌, IfOk, OnOk, string_bytes};
ghost use Rattle.std.specs.List.{flat_map};
ghost use Rattle.std.specs.Option.{option_copied, option_map};
ghost use Rattle.erl_names.specs.Ids.{pid_of};
ghost use Rattle.node_core.specs.Model.{model_of};
ghost use Rattle.node_tables.specs.Lives.{life_of};
ghost use Rattle.node_texts.specs.Shown.{pids_of, process_text, shown_life, shown_node};

use erl_term::Pid;
use node_core::Node;
use node_tables::Life;
use script_texts::{put_ended, put_living, put_node};
use std::alloc::AllocError;

/// Returns the pid of the process that has this id in the incarnation of the node.
pub(crate) fn pid_at(node: &Node, id: u32) -> Result<Pid, AllocError>
    ensures { IfOk result (λ process. process ≡ pid_of (model_of node.now).mint id) }
{
    Ok(Pid {
        node: node.name().atom().clone()?,
        creation: node.creation(),
        id,
        serial: 0,
    })
}

// Appends a process that lives or has ended, and nothing if there is none.
fn put_life(out: &mut String, process: &Pid, life: Option<&Life>) -> Result<(), AllocError>
    ensures { OnOk result (string_bytes out.new ≡ string_bytes out.old ++ shown_life process.now (option_map life_of (option_copied life.entry))) }
{
    match life {
        Some(
            Life::Living {
                process: living,
                ..
            },
        ) => put_living(out, process, living),
        Some(Life::Ended(reason)) => put_ended(out, process, reason),
        None => Ok(()),
    }
}

/// Appends a process of the node with the messages that wait for it, and nothing if there is no such
/// process.
pub(crate) fn put_process(out: &mut String, node: &Node, process: &Pid) -> Result<(), AllocError>
    ensures { OnOk result (string_bytes out.new ≡ string_bytes out.old ++ process_text (model_of node.now) process.now) }
{
    put_life(out, process, node.life(process))
}

// Appends the processes of the incarnation by their ids.
fn put_processes(out: &mut String, node: &Node) -> Result<(), AllocError>
    ensures { OnOk result (string_bytes out.new ≡ string_bytes out.old ++ flat_map (process_text (model_of node.now)) (pids_of (model_of node.now).mint (model_of node.now).mint.pids)) }
{
    for before in 0..node.spawned() {
        let process = pid_at(node, before + 1)?;
        put_process(out, node, &process)?;
    }
    Ok(())
}

/// Appends a node, and its processes by their ids, each with the messages that wait for it. A node that is
/// down has no processes. (Reference Manual, Processes; Distributed Erlang, Nodes.)
///
/// # Errors
/// [`AllocError`] if out of memory.
pub fn put_shown(out: &mut String, node: &Node) -> Result<(), AllocError>
    ensures { OnOk result (string_bytes out.new ≡ string_bytes out.old ++ shown_node (model_of node.now)) }
{
    put_node(out, node.name().text(), node.is_up(), node.creation())?;
    if node.is_up() {
        put_processes(out, node)?;
    }
    Ok(())
}
