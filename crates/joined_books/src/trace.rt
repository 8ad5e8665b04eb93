//! What joined books have in common.

/// Where an entry stands: in which node's history, and at which place of it, both from 0.
#[derive(Clone, Copy, Debug, Drop, PartialEq, Eq)]
pub struct Placed {
    /// The stamp of the entry.
    pub stamp: u64,
    /// The place of the node among all nodes.
    pub node: usize,
    /// The place of the entry in the node's history.
    pub position: usize,
}

/// The entries of all nodes in the order of the one run that they are.
#[derive(Debug, Drop)]
pub struct Trace {
    /// By stamp, and then by node.
    pub entries: Vec<Placed>,
}
