//! What may happen in a world.

use node_core::NodeEvent;

/// Something happens at a node of a world.
#[derive(Debug, Drop)]
pub struct Event {
    /// The place of the node, from 0 on.
    pub node: usize,
    /// What happens.
    pub event: NodeEvent,
}
