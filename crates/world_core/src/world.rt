//! All nodes, and what travels between them.
use crate::lists::Lists;
use node_core::Node;

/// Several nodes, which dial each other, and what travels between them. (Reference Manual, Distributed
/// Erlang.)
#[derive(Drop)]
pub struct World {
    pub(crate) nodes: Vec<Node>,
    pub(crate) lists: Lists,
}
