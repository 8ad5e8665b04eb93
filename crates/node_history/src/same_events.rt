//! Whether two events are the same.
ghost use Rattle.std.specs.Prelude.{◌≡◌, ◌↔◌, IsTrue};

use crate::commands::is_same_command;
use erl_names::{NodeName, TrunkId};
use node_core::NodeEvent;

pub(crate) fn is_same_trunk(a: &TrunkId, b: &TrunkId) -> bool
    ensures { IsTrue result ↔ (a.now ≡ b.now) }
{
    a == b
}

pub(crate) fn is_same_name(a: &NodeName, b: &NodeName) -> bool
    ensures { IsTrue result ↔ (a.now ≡ b.now) }
{
    a == b
}

/// Returns true if both are the same event. Takes no memory. (Reference Manual, Processes; Distributed
/// Erlang.)
pub fn is_same_event(a: &NodeEvent, b: &NodeEvent) -> bool
    ensures { IsTrue result ↔ (a.now ≡ b.now) }
{
    match (a, b) {
        (NodeEvent::Call(command), NodeEvent::Call(other)) => is_same_command(command, other),
        (
            NodeEvent::Arrive { trunk, word },
            NodeEvent::Arrive {
                trunk: other,
                word: challenge,
            },
        ) => is_same_trunk(trunk, other) && word == challenge,
        (NodeEvent::Local, NodeEvent::Local) => true,
        (NodeEvent::Lose(trunk), NodeEvent::Lose(other)) => is_same_trunk(trunk, other),
        (NodeEvent::Sweep, NodeEvent::Sweep) => true,
        (
            NodeEvent::Dial { peer, word },
            NodeEvent::Dial {
                peer: other,
                word: challenge,
            },
        ) => is_same_name(peer, other) && word == challenge,
        (NodeEvent::Stop, NodeEvent::Stop) => true,
        (NodeEvent::Start, NodeEvent::Start) => true,
        _ => false,
    }
}
