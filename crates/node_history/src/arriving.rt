//! What comes on a connection is written down.
ghost use Rattle.std.specs.Prelude.{◌≡◌, List, Some};
ghost use Rattle.dist_model.specs.Items.{Item};
ghost use Rattle.dist_model.specs.Names.{Name};
ghost use Rattle.dist_model.specs.NodeEvents as model;
ghost use Rattle.dist_model.specs.NodeEvents.{at_node};
ghost use Rattle.node_core.specs.Done.{Does};
ghost use Rattle.node_core.specs.Model.{model_of};
ghost use Rattle.node_history.specs.Entering.{Tries};
ghost use Rattle.node_frames.specs.Frames.{bytes_of};
ghost use Rattle.readers.specs.Reading.{AreBytes};
ghost use Rattle.node_core.specs.ComingToANode.{CanCome};
ghost use Rattle.node_core.specs.declared.node_event.NodeEvent.TheVariants as event;

use crate::entry::Answered;
use crate::history::History;
use erl_names::TrunkId;
use erl_term::Refusal;
use node_core::{Arrived, Node, NodeEvent};
use std::alloc::Global;

/// Does nothing.
pub(crate) fn are_bytes(bytes: &[u8])
    ensures { AreBytes bytes.now }
{}

// The node takes an item.
fn arrive(alloc: Global, node: &mut Node, trunk: &TrunkId, bytes: &[u8], word: u32) -> Answered
    ensures { (names : List Name) (item : Item) → bytes.now ≡ bytes_of item → CanCome (model_of node.old) trunk.now item →
        Does (at_node names (model_of node.old) (model.Arrive trunk.now (Some item) word)) (model_of node.old) (model_of node.new) result }
{
    erl_control::one_answer();
    erl_control::read_again();
    are_bytes(bytes);
    match node.arrive(alloc, trunk, bytes, word) {
        Ok(Arrived { report, .. }) => Ok(report),
        Err(e) => Err(e),
    }
}

impl History {
    /// An item comes on a connection, which was sent under that stamp. These are its bytes. The word
    /// becomes the challenge of a new side, and is not used elsewhere. The place of the entry is told.
    /// (ERTS User's Guide, Distribution Protocol.)
    ///
    /// # Errors
    /// As [`History::local`].
    pub fn arrive(
        &mut self,
        alloc: Global,
        trunk: TrunkId,
        bytes: &[u8],
        word: u32,
        sent: u64,
    ) -> Result<usize, Refusal>
        ensures { (names : List Name) (item : Item) → bytes.now ≡ bytes_of item → CanCome (model_of self.old.node) trunk item →
            Tries (at_node names (model_of self.old.node) (model.Arrive trunk (Some item) word)) (event.Arrive trunk word) sent self.old self.new result }
    {
        let stamp = self.next_stamp(sent)?;
        let answer = arrive(alloc, &mut self.node, &trunk, bytes, word);
        self.write(stamp, NodeEvent::Arrive { trunk, word }, answer)
    }
}
