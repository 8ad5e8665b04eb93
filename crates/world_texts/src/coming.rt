//! The frames in flight to a node from a peer.
ghost use Rattle.std.specs.Prelude.{◌≡◌, ◌++◌, [], IfOk, OnOk, if◌then◌else◌, map};
ghost use Rattle.dist_model.specs.World.{World as TheWorld};
ghost use Rattle.node_core.specs.Model.{model_of};
ghost use Rattle.node_frames.specs.Frames.{framed};
ghost use Rattle.world_core.specs.Stands.{StandsFor};
ghost use Rattle.world_texts.specs.Travelling.{travelling};

use erl_term::Atom;
use std::alloc::{AllocError, Global};
use world_core::{Frame, Node, Queue, World};

// Appends copies of the frames of a queue, if they are taken.
fn push_if(
    alloc: Global,
    frames: &mut Vec<Frame>,
    queue: &Queue,
    is_taken: bool,
) -> Result<(), AllocError>
    ensures { OnOk result (frames.new.items ≡ frames.old.items ++ (if is_taken then queue.now else [])) }
{
    if is_taken {
        let mut more = queue.frames(alloc)?;
        frames.append(&mut more)
    } else {
        Ok(())
    }
}

/// Returns copies of the frames in flight to a node from a peer that the node will take. They stand connection
/// by connection, on each the oldest first.
///
/// # Errors
/// [`AllocError`] if out of memory.
pub(crate) fn frames_coming(
    alloc: Global,
    world: &World,
    node: &Node,
    peer: &Atom,
) -> Result<Vec<Frame>, AllocError>
    ensures { (m : TheWorld) → StandsFor world.now m → IfOk result (λ frames. frames.items ≡ map framed (travelling m (model_of node.now) peer.now)) }
{
    let line = world.lists().line(node.name());
    let mut frames = Vec::new(alloc);
    for (trunk, queue) in line {
        let is_taken = world.takes(node, trunk, Some(peer));
        push_if(alloc, &mut frames, queue, is_taken)?;
    }
    Ok(frames)
}
