//! The events that may happen of their own accord.
ghost use Rattle.std.specs.Prelude.{◌≡◌};
ghost use Rattle.script_session.specs.Turns.{event_of};

use erl_names::TrunkId;
use world_core::NodeEvent;

/// An event that may happen at a node of its own accord. It is smaller than a [`NodeEvent`], which has room
/// for each command.
#[derive(Drop)]
pub(crate) enum Turn {
    /// The first item of the node's own list comes.
    Local,
    /// The node sweeps a record of a lost connection.
    Sweep,
    /// The first item on a connection comes.
    Arrive(TrunkId),
}

impl Turn {
    /// Returns the event. An arrival has `word`.
    pub(crate) fn event(self, word: u32) -> NodeEvent
        ensures { result ≡ event_of word self }
    {
        match self {
            Turn::Local => NodeEvent::Local,
            Turn::Sweep => NodeEvent::Sweep,
            Turn::Arrive(trunk) => NodeEvent::Arrive { trunk, word },
        }
    }
}
