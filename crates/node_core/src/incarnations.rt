//! A node stops, and starts again.
ghost use Rattle.std.specs.Prelude.{List};
ghost use Rattle.dist_model.specs.Names.{Name};
ghost use Rattle.dist_model.specs.NodeEvents as event;
ghost use Rattle.dist_model.specs.NodeEvents.{at_node};
ghost use Rattle.node_core.specs.Done.{Does};
ghost use Rattle.node_plan.specs.Seen.{seen};

use dist_model::{Answer, Report};
use erl_term::Refusal;
use node_frames::Frame;
use node_plan::Node;
use std::alloc::Global;

/// A node stops. Takes no memory. (ERTS User's Guide, Distribution Protocol, Distribution Handshake,
/// on creations.)
///
/// # Errors
/// [`Refusal::NodeDown`] at a node that has stopped. Then nothing has changed.
pub fn stop(alloc: Global, node: &mut Node) -> Result<Report<Frame>, Refusal>
    ensures { (names : List Name) → Does (at_node names (seen node.old) event.Stop) (seen node.old) (seen node.new) result }
{
    if !node.is_up() {
        return Err(Refusal::NodeDown);
    }
    node.stop(alloc);
    Ok(Report {
        answer: Answer::Stopped,
        effects: Vec::new(alloc),
    })
}

/// A node that has stopped starts again, in its next incarnation, of which the answer tells the
/// creation. Takes no memory. (ERTS User's Guide, Distribution Protocol, Distribution Handshake, on
/// creations.)
///
/// # Errors
/// [`Refusal::NodeUp`] at a node that runs, and [`Refusal::IdsUsedUp`] behind the last incarnation.
/// Then nothing has changed.
pub fn start(alloc: Global, node: &mut Node) -> Result<Report<Frame>, Refusal>
    ensures { (names : List Name) → Does (at_node names (seen node.old) event.Start) (seen node.old) (seen node.new) result }
{
    if node.is_up() {
        return Err(Refusal::NodeUp);
    }
    match node.start(alloc) {
        Ok(()) => Ok(Report {
            answer: Answer::Started(node.mint().creation().number()),
            effects: Vec::new(alloc),
        }),
        Err(e) => Err(e),
    }
}
