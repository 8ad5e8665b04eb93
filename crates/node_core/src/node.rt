//! One node.
ghost use Rattle.node_plan.specs.Seen.{seen};
ghost use Rattle.node_connections.specs.Ahead.{IsAhead};

use node_connections::Sweeping;
use node_plan::Node as State;

/// One node: its processes with their links and monitors, its connections, and how far the sweep of a
/// lost one has come. (Reference Manual, Processes; Distributed Erlang.)
#[derive(Drop)]
pub struct Node {
    pub(crate) state: State,
    pub(crate) sweeping: Sweeping,
    ghost ahead: { IsAhead sweeping (seen state) },
}
