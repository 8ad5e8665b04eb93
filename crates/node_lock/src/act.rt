//! What a caller may ask for.
ghost use Rattle.std.specs.Prelude.{◌≡◌, true};
ghost use Rattle.node_lock.specs.Acts.{event_of};
ghost use Rattle.node_history.specs.Acts.{is_act};

use dist_model::Command;
use erl_names::{NodeName, TrunkId};
use node_core::NodeEvent;

/// A request of a caller to a node. All else that happens there is the doing of its thread.
#[derive(Debug, Drop)]
pub enum Act {
    /// A command. (Reference Manual, Processes.)
    Run(Command),
    /// The node is to dial another, under this word as its challenge. (ERTS User's Guide, Distribution
    /// Protocol, Distribution Handshake.)
    Dial {
        /// The other node.
        peer: NodeName,
        /// The challenge.
        word: u32,
    },
    /// It is to notice that a connection is lost, or to give an attempt up.
    Lose(TrunkId),
    /// It is to stop.
    Stop,
    /// It is to start again.
    Start,
}

impl Act {
    /// The event at the node.
    pub(crate) fn into_event(self) -> NodeEvent
        ensures event { result ≡ event_of self }
        ensures act { is_act result ≡ true }
    {
        match self {
            Act::Run(command) => NodeEvent::Call(command),
            Act::Dial { peer, word } => NodeEvent::Dial { peer, word },
            Act::Lose(trunk) => NodeEvent::Lose(trunk),
            Act::Stop => NodeEvent::Stop,
            Act::Start => NodeEvent::Start,
        }
    }
}
