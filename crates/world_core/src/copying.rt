//! Copies of a world.
ghost use Rattle.std.specs.Prelude.{◌≡◌, IfOk, map};
ghost use Rattle.dist_model.specs.World.{World as TheWorld};
ghost use Rattle.node_core.specs.Model.{model_of};
ghost use Rattle.world_core.specs.Stands.{StandsFor};

use crate::world::World;
use node_core::Node;
use std::alloc::{AllocError, Global};

// Returns copies of nodes, in their order.
fn copies_of(alloc: Global, nodes: &[Node]) -> Result<Vec<Node>, AllocError>
    ensures { IfOk result (λ copies. map model_of copies.items ≡ map model_of nodes.now) }
{
    let mut copies = Vec::with_capacity(alloc, nodes.len())?;
    for node in nodes {
        copies.push(node.copy(alloc)?)?;
    }
    Ok(copies)
}

impl World {
    /// Returns a copy, which stands for the same worlds of the model. It has memory of its own: an event
    /// of one changes nothing of the other. Takes as many steps as the world has parts.
    ///
    /// # Errors
    /// If memory runs out.
    pub fn copy(&self, alloc: Global) -> Result<World, AllocError>
        ensures { (m : TheWorld) → StandsFor self.now m → IfOk result (λ copy. StandsFor copy m) }
    {
        Ok(World {
            nodes: copies_of(alloc, &self.nodes)?,
            lists: self.lists.copy(alloc)?,
        })
    }
}
