//! What an event is to do to a node.
ghost use Rattle.std.specs.Prelude.{◌≡◌};

use crate::change::{Change, Draws, MonitorChange};
use dist_model::{Answer, Effect};
use erl_control::Signal;
use monitor_core::{Registration, Watch};
use node_frames::Frame;
use node_tables::SideChange;

/// The plan of an event: its changes of a node, its answer and its effects. All refusals are behind it,
/// and all its memory is there.
#[derive(Drop)]
pub struct Plan {
    pub(crate) draws: Draws,
    pub(crate) change: Change,
    pub(crate) watches: MonitorChange<Watch>,
    pub(crate) watchers: MonitorChange<Registration>,
    /// Whether the first item of the own list is taken.
    pub(crate) pops: bool,
    pub(crate) local: Vec<Signal>,
    /// What becomes of the sides, one after the other.
    pub(crate) sides: Vec<SideChange>,
    /// Whether the node dials on a new connection.
    pub(crate) dials: bool,
    pub(crate) answer: Answer,
    pub(crate) effects: Vec<Effect<Frame>>,
}

impl Plan {
    /// Returns its effects, in order, the items sent among them, as bytes with their connections.
    pub fn effects(&self) -> &[Effect<Frame>]
        ensures { result.now ≡ self.now.effects.items }
    {
        &self.effects
    }
}
