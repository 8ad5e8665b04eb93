//! The text by which states are told apart: all that can be observed, all that is in flight, and all that
//! later steps depend on.
ghost use Rattle.std.specs.Prelude.{◌≡◌, IfOk, string_bytes};
ghost use Rattle.script_session.specs.Session.{State as TheState};
ghost use Rattle.script_session.specs.Stands.{IsSession};
ghost use Rattle.world_texts.specs.Shown.{whole_world};

use erl_names::{NodeName, TrunkId};
use item_texts::put_signal;
use run_traces::put_why;
use script_session::Session;
use script_terms::{Named, put_atom, put_pid, put_reference};
use std::alloc::{AllocError, Global};
use world_core::{Node, World};
use world_texts::{put_travels, put_whole_world};

// Appends the numbers that a node has drawn, and those of its connections.
fn put_counts(out: &mut String, node: &Node) -> Result<(), AllocError> {
    let mint = node.mint();
    let (references, ids) = (mint.references(), mint.unlink_ids());
    writeln!(out, "{references} {ids} {}", node.dialed())
}

// Appends the registered name of each process of a node that has one.
fn put_names(out: &mut String, node: &Node) -> Result<(), AllocError> {
    for before in 0..node.spawned() {
        let process = node.mint().pid(before + 1)?;
        if let Some(name) = node.name_of(&process) {
            put_pid(out, &process)?;
            put_atom(out, name.text())?;
        }
    }
    Ok(())
}

// Appends the signals in flight from a node to itself.
fn put_local(out: &mut String, node: &Node) -> Result<(), AllocError> {
    for signal in node.local_signals().iter() {
        put_signal(out, signal)?;
        out.push_str("\n")?;
    }
    Ok(())
}

// Appends the state of a node's side of each connection that another has dialed.
fn put_sides(out: &mut String, node: &Node, other: &Node) -> Result<(), AllocError> {
    for before in 0..other.dialed() {
        let dialer = other.name().clone()?;
        let trunk = TrunkId {
            dialer,
            count: before + 1,
        };
        if let Some(side) = node.side(&trunk) {
            writeln!(out, "{} {side:?}", before + 1)?;
        }
    }
    Ok(())
}

// Appends the faults by which connections of a node have broken.
fn put_breaks(out: &mut String, session: &Session, name: &NodeName) -> Result<(), AllocError> {
    for peer in session.world().nodes() {
        put_why(out, session.breaks().last(name.atom(), peer.name().atom()))?;
    }
    Ok(())
}

// Appends the items in flight to a node that is down. It may take them once it starts again.
fn put_waiting(
    alloc: Global,
    out: &mut String,
    world: &World,
    node: &Node,
) -> Result<(), AllocError> {
    if node.is_up() {
        return Ok(());
    }
    for peer in world.nodes() {
        put_travels(alloc, out, world, node, peer.name().atom())?;
    }
    Ok(())
}

// Appends of a node all that `show all` leaves out.
fn put_rest(
    alloc: Global,
    out: &mut String,
    session: &Session,
    node: &Node,
) -> Result<(), AllocError> {
    put_counts(out, node)?;
    put_names(out, node)?;
    put_local(out, node)?;
    for other in session.world().nodes() {
        put_sides(out, node, other)?;
    }
    put_waiting(alloc, out, session.world(), node)?;
    put_breaks(out, session, node.name())
}

// Appends the thing that a name of the script names.
fn put_bound(out: &mut String, session: &Session, name: &str) -> Result<(), AllocError> {
    match session.names().get(name) {
        Some(Named::Process(process)) => put_pid(out, process),
        Some(Named::Monitor(reference)) => put_reference(out, reference),
        None => out.push_str("-"),
    }
}

// Appends the steps of each block that were taken, and the next challenge.
fn put_places(out: &mut String, session: &Session, taken: &[usize]) -> Result<(), AllocError> {
    for count in taken {
        write!(out, "{count} ")?;
    }
    writeln!(out, "{}", session.word())
}

// Returns the text of all that `show all` leaves out.
fn rest_of(
    alloc: Global,
    session: &Session,
    taken: &[usize],
    names: &[&str],
) -> Result<String, AllocError> {
    let mut rest = String::new(alloc);
    put_places(&mut rest, session, taken)?;
    for name in names {
        put_bound(&mut rest, session, name)?;
    }
    for node in session.world().nodes() {
        put_rest(alloc, &mut rest, session, node)?;
    }
    Ok(rest)
}

/// Returns the texts by which a state is told apart: that of `show all`, with all that is in flight between
/// nodes, and that of the rest. `taken` has the number of steps of each block that were taken, and `names` those
/// that lines of blocks give.
///
/// # Errors
/// [`AllocError`] if out of memory.
pub(crate) fn key_of(
    alloc: Global,
    session: &Session,
    taken: &[usize],
    names: &[&str],
) -> Result<(String, String), AllocError>
    ensures { (state : TheState) → IsSession session.now state → IfOk result (λ key. string_bytes key.0 ≡ whole_world state.stage.world) }
{
    let mut shown = String::new(alloc);
    put_whole_world(alloc, &mut shown, session.world())?;
    let rest = rest_of(alloc, session, taken, names)?;
    Ok((shown, rest))
}
