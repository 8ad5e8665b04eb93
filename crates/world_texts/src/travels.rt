//! The text of the items in flight to a node.
ghost use Rattle.std.specs.Prelude.{◌≡◌, ◌++◌, List, OnOk, map, string_bytes};
ghost use Rattle.std.specs.List.{flat_map};
ghost use Rattle.dist_model.specs.Items.{Item};
ghost use Rattle.dist_model.specs.World.{World as TheWorld};
ghost use Rattle.item_texts.specs.Words.{item_text};
ghost use Rattle.node_core.specs.Model.{model_of};
ghost use Rattle.node_frames.specs.Frames.{IsSpelled, framed};
ghost use Rattle.world_core.specs.Stands.{AreSpelled, StandsFor};
ghost use Rattle.world_texts.specs.Travelling.{items_text, more_text, travelling, travels_text};

use crate::coming::frames_coming;
use erl_term::Atom;
use item_texts::put_item;
use std::alloc::{AllocError, Global};
use world_core::{Frame, Node, World};

// Appends the words for the item of a frame.
fn put_frame(alloc: Global, out: &mut String, frame: &Frame) -> Result<(), AllocError>
    ensures { (item : Item) → IsSpelled item → frame.now ≡ framed item → OnOk result (string_bytes out.new ≡ string_bytes out.old ++ item_text item) }
{
    put_item(alloc, out, frame.as_slice())
}

// Appends the words for the items of some frames, each behind a separator.
fn put_more(alloc: Global, out: &mut String, frames: &[Frame]) -> Result<(), AllocError>
    ensures { (items : List Item) → AreSpelled items → frames.now ≡ map framed items →
        OnOk result (string_bytes out.new ≡ string_bytes out.old ++ flat_map more_text items) }
{
    for frame in frames {
        out.push_str("; ")?;
        put_frame(alloc, out, frame)?;
    }
    Ok(())
}

/// Appends the words for the items of some frames, with a separator between two of them.
///
/// # Errors
/// [`AllocError`] if out of memory.
pub(crate) fn put_frames(
    alloc: Global,
    out: &mut String,
    frames: &[Frame],
) -> Result<(), AllocError>
    ensures { (items : List Item) → AreSpelled items → frames.now ≡ map framed items →
        OnOk result (string_bytes out.new ≡ string_bytes out.old ++ items_text items) }
{
    match frames.split_first() {
        Some((first, rest)) => {
            put_frame(alloc, out, first)?;
            put_more(alloc, out, rest)
        }
        None => Ok(()),
    }
}

// Appends the line that shows the items of some frames.
fn put_line(alloc: Global, out: &mut String, frames: &[Frame]) -> Result<(), AllocError>
    ensures { (items : List Item) → AreSpelled items → frames.now ≡ map framed items →
        OnOk result (string_bytes out.new ≡ string_bytes out.old ++ travels_text items) }
{
    if frames.is_empty() {
        return out.push_str("none\n");
    }
    out.push_str("travels ")?;
    put_frames(alloc, out, frames)?;
    out.push_str("\n")
}

/// Appends a line with the items in flight to a node from a peer that the node will take. They stand connection
/// by connection, on each the oldest first. Appends the line `none` if there are none. (ERTS User's Guide,
/// Distribution Protocol; Reference Manual, Processes, Delivery of Signals.)
///
/// # Errors
/// [`AllocError`] if out of memory.
pub fn put_travels(
    alloc: Global,
    out: &mut String,
    world: &World,
    node: &Node,
    peer: &Atom,
) -> Result<(), AllocError>
    ensures { (m : TheWorld) → StandsFor world.now m →
        OnOk result (string_bytes out.new ≡ string_bytes out.old ++ travels_text (travelling m (model_of node.now) peer.now)) }
{
    let frames = frames_coming(alloc, world, node, peer)?;
    put_line(alloc, out, &frames)
}
