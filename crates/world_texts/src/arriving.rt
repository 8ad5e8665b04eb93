//! The lines that show the items in flight to the nodes of a world.
ghost use Rattle.std.specs.Prelude.{◌≡◌, ◌++◌, List, OnOk, map, string_bytes};
ghost use Rattle.std.specs.List.{flat_map};
ghost use Rattle.dist_model.specs.Items.{Item};
ghost use Rattle.dist_model.specs.World.{World as TheWorld};
ghost use Rattle.node_core.specs.Model.{model_of};
ghost use Rattle.node_frames.specs.Frames.{framed};
ghost use Rattle.world_core.specs.Stands.{AreSpelled, StandsFor};
ghost use Rattle.world_texts.specs.Shown.{coming_line, travels_line, travels_lines};

use crate::coming::frames_coming;
use crate::travels::put_frames;
use erl_term::Atom;
use std::alloc::{AllocError, Global};
use world_core::{Frame, Node, World};

// Appends the line that shows the items of some frames to a node from a peer, if there are any.
fn put_coming(
    alloc: Global,
    out: &mut String,
    name: &str,
    peer: &str,
    frames: &[Frame],
) -> Result<(), AllocError>
    ensures { (items : List Item) → AreSpelled items → frames.now ≡ map framed items →
        OnOk result (string_bytes out.new ≡ string_bytes out.old ++ coming_line name.now peer.now items) }
{
    if frames.is_empty() {
        return Ok(());
    }
    write!(out, "travels {name} {peer} ")?;
    put_frames(alloc, out, frames)?;
    out.push_str("\n")
}

// Appends the line that shows the items in flight to a node from a peer, if the node will take any.
fn put_line_from(
    alloc: Global,
    out: &mut String,
    world: &World,
    node: &Node,
    peer: &Atom,
) -> Result<(), AllocError>
    ensures { (m : TheWorld) → StandsFor world.now m →
        OnOk result (string_bytes out.new ≡ string_bytes out.old ++ travels_line m (model_of node.now) peer.now) }
{
    let frames = frames_coming(alloc, world, node, peer)?;
    put_coming(alloc, out, node.name().text(), peer.text(), &frames)
}

// Appends a line for each node of the world from which this node will take items.
fn put_lines_from_all(
    alloc: Global,
    out: &mut String,
    world: &World,
    node: &Node,
) -> Result<(), AllocError>
    ensures { (m : TheWorld) → StandsFor world.now m →
        OnOk result (string_bytes out.new ≡ string_bytes out.old ++ flat_map (travels_line m (model_of node.now)) m.names) }
{
    let peers = world.nodes();
    for peer in peers {
        put_line_from(alloc, out, world, node, peer.name().atom())?;
    }
    Ok(())
}

// Appends those lines if the node is up. A node that is down takes nothing.
fn put_lines(alloc: Global, out: &mut String, world: &World, node: &Node) -> Result<(), AllocError>
    ensures { (m : TheWorld) → StandsFor world.now m →
        OnOk result (string_bytes out.new ≡ string_bytes out.old ++ travels_lines m (model_of node.now)) }
{
    if node.is_up() {
        put_lines_from_all(alloc, out, world, node)
    } else {
        Ok(())
    }
}

/// Appends the lines that show the items in flight to each node that is up: a line for each peer from which the
/// node will take some.
///
/// # Errors
/// [`AllocError`] if out of memory.
pub(crate) fn put_all_lines(
    alloc: Global,
    out: &mut String,
    world: &World,
) -> Result<(), AllocError>
    ensures { (m : TheWorld) → StandsFor world.now m →
        OnOk result (string_bytes out.new ≡ string_bytes out.old ++ flat_map (travels_lines m) m.nodes) }
{
    let nodes = world.nodes();
    for node in nodes {
        put_lines(alloc, out, world, node)?;
    }
    Ok(())
}
