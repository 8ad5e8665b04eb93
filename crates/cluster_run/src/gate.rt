//! Hooks into the turns of nodes, for tests.

use wire_core::LONGEST;

/// A hook into the turns of each node, for tests.
pub trait Gate {
    /// Runs after each event that a thread applies at a node, while it holds the node's lock. `node` is the
    /// place of the node, and `entries` the length of its history. It must take no other lock.
    fn inside(&self, node: usize, entries: u64);

    /// Returns the greatest length of a piece on a wire, in bytes: 1 to 512. Any other number counts as
    /// 512.
    fn greatest_piece(&self) -> usize {
        LONGEST
    }
}

/// A gate that does nothing.
#[derive(Clone, Copy, Debug, Drop)]
pub struct Open;

impl Gate for Open {
    fn inside(&self, _node: usize, _entries: u64) {}
}
