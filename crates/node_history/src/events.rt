//! What the thread of a node does is written down.
ghost use Rattle.std.specs.Prelude.{List};
ghost use Rattle.dist_model.specs.Names.{Name};
ghost use Rattle.dist_model.specs.NodeEvents as model;
ghost use Rattle.dist_model.specs.NodeEvents.{at_node};
ghost use Rattle.node_core.specs.Model.{model_of};
ghost use Rattle.node_history.specs.Entering.{Tries};
ghost use Rattle.node_core.specs.declared.node_event.NodeEvent.TheVariants as event;

use crate::history::History;
use erl_term::Refusal;
use node_core::NodeEvent;
use std::alloc::Global;

impl History {
    /// The first signal that travels from the node to itself comes. The place of the entry is told.
    /// (Reference Manual, Processes, Delivery of Signals.)
    ///
    /// # Errors
    /// [`Refusal::IdsUsedUp`] where no higher stamp is left, and then [`Refusal::OutOfMemory`]. Then
    /// nothing has changed.
    pub fn local(&mut self, alloc: Global) -> Result<usize, Refusal>
        ensures { (names : List Name) → Tries (at_node names (model_of self.old.node) model.Local) event.Local 0 self.old self.new result }
    {
        let stamp = self.next_stamp(0)?;
        let answer = self.node.local(alloc);
        self.write(stamp, NodeEvent::Local, answer)
    }

    /// The least record of a lost connection is swept. The place of the entry is told. (Reference
    /// Manual, Processes, Links and Monitors; that records go one at a time is own.)
    ///
    /// # Errors
    /// As [`History::local`].
    pub fn sweep(&mut self, alloc: Global) -> Result<usize, Refusal>
        ensures { (names : List Name) → Tries (at_node names (model_of self.old.node) model.Sweep) event.Sweep 0 self.old self.new result }
    {
        let stamp = self.next_stamp(0)?;
        let answer = self.node.sweep(alloc);
        self.write(stamp, NodeEvent::Sweep, answer)
    }
}
