//! The names of connections.

use crate::name::NodeName;

/// The name of a connection between two nodes: the node that dialed it, and that node's count.
///
/// The names are ordered by the bytes of the dialer's name, then by the count. (ERTS User's Guide,
/// Distribution Protocol, Distribution Handshake.)
#[derive(Clone, Debug, Drop, PartialEq, Eq, PartialOrd, Ord)]
pub struct TrunkId {
    /// The node that dialed.
    pub dialer: NodeName,
    /// Which of the connections that the node has dialed it is, from 1 up.
    pub count: u64,
}
