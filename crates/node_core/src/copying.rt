//! Copies of a node.
ghost use Rattle.std.specs.Prelude.{◌≡◌, IfOk};
ghost use Rattle.node_core.specs.Model.{model_of};

use crate::node::Node;
use std::alloc::{AllocError, Global};

impl Node {
    /// Returns a copy, which stands for the same node of the model. It has memory of its own.
    ///
    /// # Errors
    /// If memory runs out.
    pub fn copy(&self, alloc: Global) -> Result<Node, AllocError>
        ensures { IfOk result (λ copy. model_of copy ≡ model_of self.now) }
    {
        Ok(Node {
            state: self.state.copy(alloc)?,
            sweeping: self.sweeping.clone()?,
        })
    }
}
