//! The texts that show a node.
ghost use Rattle.std.specs.Prelude.{◌≡◌, ◌++◌, OnOk, string_bytes};
ghost use Rattle.std.specs.List.{flat_map};
ghost use Rattle.dist_model.specs.Node.{Ended, Living};
ghost use Rattle.script_texts.specs.Nodes.{life_text, node_text, waiting_at, waiting_text};

use erl_term::{Payload, Pid};
use exit_core::{Mailbox, Proc};
use script_terms::{put_pid, put_term};
use std::alloc::AllocError;

/// A node's name, whether it runs, and the creation of its incarnation.
///
/// # Errors
/// Where there is no memory for it, as of each call below.
pub fn put_node(out: &mut String, name: &str, is_up: bool, creation: u32) -> Result<(), AllocError>
    ensures { OnOk result (string_bytes out.new ≡ string_bytes out.old ++ node_text name.now is_up creation) }
{
    let up = if is_up { "up" } else { "down" };
    writeln!(out, "node {name} {up} {creation}")
}

fn put_message(out: &mut String, message: &Payload) -> Result<(), AllocError>
    ensures { OnOk result (string_bytes out.new ≡ string_bytes out.old ++ waiting_text message.now) }
{
    out.push_str("  ")?;
    put_term(out, message.term())?;
    out.push_str("\n")
}

// The message at a place, if there is one.
fn put_message_at(out: &mut String, mailbox: &Mailbox, place: usize) -> Result<(), AllocError>
    ensures { OnOk result (string_bytes out.new ≡ string_bytes out.old ++ waiting_at mailbox.now.messages place) }
{
    match mailbox.get(place) {
        Some(message) => put_message(out, message),
        None => Ok(()),
    }
}

// The messages that wait for a process, the oldest first, a line each.
fn put_waiting(out: &mut String, mailbox: &Mailbox) -> Result<(), AllocError>
    ensures { OnOk result (string_bytes out.new ≡ string_bytes out.old ++ flat_map waiting_text mailbox.now.messages) }
{
    for place in 0..mailbox.len() {
        put_message_at(out, mailbox, place)?;
    }
    Ok(())
}

/// A living process: whether it traps exits, how many messages wait for it, and these.
pub fn put_living(out: &mut String, id: &Pid, process: &Proc) -> Result<(), AllocError>
    ensures { OnOk result (string_bytes out.new ≡ string_bytes out.old ++ life_text id.now (Living process.now.trap process.now.mailbox.messages)) }
{
    let trap = if process.trap { "trap" } else { "plain" };
    let waiting = process.mailbox.len();
    out.push_str("proc ")?;
    put_pid(out, id)?;
    writeln!(out, " alive {trap} {waiting}")?;
    put_waiting(out, &process.mailbox)
}

/// A process that has ended, and why.
pub fn put_ended(out: &mut String, id: &Pid, reason: &Payload) -> Result<(), AllocError>
    ensures { OnOk result (string_bytes out.new ≡ string_bytes out.old ++ life_text id.now (Ended reason.now)) }
{
    out.push_str("proc ")?;
    put_pid(out, id)?;
    out.push_str(" ended ")?;
    put_term(out, reason.term())?;
    out.push_str("\n")
}
