//! The trace of one event.
ghost use Rattle.std.specs.Prelude.{◌≡◌, ◌++◌, IfOk, OnOk, map, string_bytes};
ghost use Rattle.std.specs.Option.{option_copied, option_map};
ghost use Rattle.dist_model.specs.World.{Report as TheReport, World as TheWorld};
ghost use Rattle.node_core.specs.NodeEvents.{event_at};
ghost use Rattle.node_core.specs.Told.{Tells};
ghost use Rattle.node_frames.specs.Frames.{shown};
ghost use Rattle.run_traces.specs.Breaks.{broke, broke_text, fault_in, fault_of, source};
ghost use Rattle.run_traces.specs.Traces.{AreSentSpelled, effects_of, trace_text};
ghost use Rattle.world_core.specs.Stands.{StandsFor};

use crate::sents::put_sents_in;
use crate::trace::Trace;
use conn_core::Fault;
use dist_model::{Answer, Effect};
use erl_term::Atom;
use script_texts::fault_name;
use std::alloc::{AllocError, Global};
use world_core::{Answered, Frame, NodeEvent, World};

/// Returns the name of the peer from which an item comes in an event at the node of a name, before the event.
/// [`None`] if no item comes. (ERTS User's Guide, Distribution Protocol.)
///
/// # Errors
/// [`AllocError`] if out of memory.
pub fn source_of(world: &World, node: &Atom, event: &NodeEvent) -> Result<Option<Atom>, AllocError>
    ensures { (m : TheWorld) → StandsFor world.now m → IfOk result (λ peer. peer ≡ source m (event_at node.now event.now)) }
{
    match event {
        NodeEvent::Arrive { trunk, .. } => Ok(Some(world.peer_on(node, trunk).clone()?)),
        _ => Ok(None),
    }
}

// Returns the effects of an event, none if it was refused.
fn effects_of(came: &Answered) -> &[Effect<Frame>]
    ensures { (report : TheReport) → Tells came.now report → result.now ≡ map shown (effects_of report) }
{
    match came {
        Ok(report) => &report.effects,
        Err(_) => &[],
    }
}

/// Returns the fault by which a connection broke, if that is the answer.
pub fn fault_of(answer: &Answer) -> Option<Fault>
    ensures { result ≡ fault_of answer.now }
{
    match answer {
        Answer::Broken(fault) => Some(*fault),
        _ => None,
    }
}

/// Returns the fault by which an event broke a connection, if it did.
pub(crate) fn fault_in(came: &Answered) -> Option<Fault>
    ensures { (report : TheReport) → Tells came.now report → result ≡ fault_in report }
{
    match came {
        Ok(report) => fault_of(&report.answer),
        Err(_) => None,
    }
}

// Appends the line of a connection of a node to a peer that broke.
fn put_broke(out: &mut String, node: &str, peer: &str, fault: Fault) -> Result<(), AllocError>
    ensures { OnOk result (string_bytes out.new ≡ string_bytes out.old ++ broke_text node.now peer.now fault) }
{
    let (number, name) = (fault.number(), fault_name(fault));
    writeln!(out, "broke {node} {peer} {number} {name}")
}

/// Appends the line of the connection of a node to a peer that an event broke, if it did. Appends nothing if the
/// trace is off.
///
/// # Errors
/// [`AllocError`] if out of memory.
pub fn put_broke_in(
    out: &mut String,
    trace: Trace,
    node: &str,
    peer: Option<&Atom>,
    fault: Option<Fault>,
) -> Result<(), AllocError>
    ensures { OnOk result (string_bytes out.new ≡ string_bytes out.old ++ broke trace node.now (option_copied peer.entry) fault) }
{
    if !trace.is_on() {
        return Ok(());
    }
    let Some(peer) = peer else {
        return Ok(());
    };
    match fault {
        Some(fault) => put_broke(out, node, peer.text(), fault),
        None => Ok(()),
    }
}

/// Appends the trace of an event at the node of a name: a line for each item that it sends, and then one for
/// the connection that it breaks. `peer` is the node from which an item came in it, and `came` its outcome.
/// Appends nothing if the trace is off. (ERTS User's Guide, Distribution Protocol.)
///
/// # Errors
/// [`AllocError`] if out of memory.
pub fn put_trace(
    alloc: Global,
    out: &mut String,
    trace: Trace,
    node: &str,
    peer: Option<&Atom>,
    came: &Answered,
) -> Result<(), AllocError>
    ensures { (report : TheReport) → Tells came.now report → AreSentSpelled (effects_of report) →
        OnOk result (string_bytes out.new ≡ string_bytes out.old ++ trace_text trace node.now (option_copied peer.entry) report) }
{
    put_sents_in(alloc, out, trace, node, effects_of(came))?;
    put_broke_in(out, trace, node, peer, fault_in(came))
}
