//! One node.
ghost use Rattle.std.specs.Prelude.{◌≡◌, true};
ghost use Rattle.dist_model.specs.Keeping.{CountsOwn, Steady};
ghost use Rattle.node_plan.specs.Keeps.{AreDrawn, Introduces};
ghost use Rattle.node_frames.specs.Sendable.{are_sendable};
ghost use Rattle.node_plan.specs.SeenOf.{seen_of};

use erl_control::Signal;
use erl_handshake::Identity;
use monitor_core::{Watchers, Watches};
use node_tables::{Incarnation, Names, Sides};
use std::collections::VecDeque;

/// The state of a node: its processes, with their names, links and monitors, and its connections.
/// (Reference Manual, Processes; Distributed Erlang.)
#[derive(Drop)]
pub struct Node {
    pub(crate) incarnation: Incarnation,
    /// The names of its processes.
    pub(crate) names: Names,
    /// The node as it introduces itself.
    pub(crate) own: Identity,
    /// The number of connections that it has ever dialed.
    pub(crate) dialed: u64,
    /// The monitors that its processes own.
    pub(crate) watches: Watches,
    /// The monitors that others have of its processes.
    pub(crate) watchers: Watchers,
    pub(crate) sides: Sides,
    /// The signals in flight from the node to itself.
    pub(crate) local: VecDeque<Signal>,
    ghost introduces: { Introduces own incarnation.mint },
    ghost drawn: { AreDrawn watches.monitors incarnation.mint },
    ghost sendable: { are_sendable local.items ≡ true },
    ghost steady: { Steady (seen_of incarnation names own dialed watches watchers sides local.items) },
    ghost counted: { CountsOwn (seen_of incarnation names own dialed watches watchers sides local.items) },
}
