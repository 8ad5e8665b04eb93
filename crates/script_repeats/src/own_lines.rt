//! The lines of a script over nodes in threads, as far as they stand in a plain script too.

use std::alloc::{AllocError, Global};

/// The lines of a script that have named a node or have asked something of one.
#[derive(Drop)]
pub struct OwnLines {
    /// The lines for nodes, in their order.
    pub nodes: Vec<Vec<u8>>,
    /// For each act of the script at a node, in the order of the acts, the line that asked for it. A line that has
    /// asked for several stands there as often.
    pub acts: Vec<Vec<u8>>,
}

impl OwnLines {
    /// Creates the lines of a script of which none has run. Never allocates.
    pub fn new(alloc: Global) -> OwnLines {
        OwnLines {
            nodes: Vec::new(alloc),
            acts: Vec::new(alloc),
        }
    }

    /// Appends a line for a node.
    ///
    /// # Errors
    /// [`AllocError`] if out of memory.
    pub fn add_node(&mut self, alloc: Global, line: &[u8]) -> Result<(), AllocError> {
        self.nodes.push(Vec::from_slice(alloc, line)?)?;
        Ok(())
    }

    /// Appends a line once for each act for which it has asked.
    ///
    /// # Errors
    /// [`AllocError`] if out of memory.
    pub fn add_acts(&mut self, alloc: Global, line: &[u8], acts: usize) -> Result<(), AllocError> {
        for _ in 0..acts {
            self.acts.push(Vec::from_slice(alloc, line)?)?;
        }
        Ok(())
    }
}
