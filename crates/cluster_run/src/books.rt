//! The events that a node's thread may apply.

use erl_names::TrunkId;
use node_core::Node;

/// The way in which a node takes the items of a connection.
#[derive(Clone, Copy, Debug, Drop, PartialEq, Eq)]
pub(crate) enum Hearing {
    /// There is no side: the item that opens one may come.
    New,
    /// There is a side that takes items.
    Open,
    /// The node is down.
    Down,
    /// The side is lost or gone. It takes nothing any more.
    Over,
}

/// Returns the way in which the node takes the items of a connection.
pub(crate) fn hearing_of(node: &Node, trunk: &TrunkId) -> Hearing {
    if !node.is_up() {
        return Hearing::Down;
    }
    match node.side(trunk) {
        Some(side) if side.standing.state().listens() => Hearing::Open,
        Some(_) => Hearing::Over,
        None => Hearing::New,
    }
}

/// Returns true if a signal is in flight from the node to itself, and may come.
pub(crate) fn has_local(node: &Node) -> bool {
    node.is_up() && node.has_local()
}

/// Returns true if a connection is lost and its records may be swept.
pub(crate) fn has_lost(node: &Node) -> bool {
    node.is_up() && node.is_losing()
}
