//! What may happen at a node.

use dist_model::Command;
use erl_names::{NodeName, TrunkId};

/// An event that may happen at a node. (ERTS User's Guide, Distribution Protocol; Reference Manual,
/// Processes; Distributed Erlang.)
#[derive(Debug, Drop)]
pub enum NodeEvent {
    /// A caller asks for something.
    Call(Command),
    /// What comes next on a connection comes. The word is the challenge of a new side, and of no use
    /// elsewhere.
    Arrive {
        /// The connection.
        trunk: TrunkId,
        /// The challenge.
        word: u32,
    },
    /// The first signal that travels from the node to itself comes.
    Local,
    /// The node notices that a connection is lost, or gives an attempt up.
    Lose(TrunkId),
    /// The least record of a lost connection is swept.
    Sweep,
    /// The node dials another, under this word as its challenge.
    Dial {
        /// The other node.
        peer: NodeName,
        /// The challenge.
        word: u32,
    },
    /// The node stops.
    Stop,
    /// It starts again, in its next incarnation.
    Start,
}
