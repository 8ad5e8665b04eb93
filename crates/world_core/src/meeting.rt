//! What comes next on a connection comes.
ghost use Rattle.std.specs.Prelude.{◌≡◌, List, OnOk, Option, ℕ};
ghost use Rattle.dist_model.specs.Items.{Item};
ghost use Rattle.dist_model.specs.Names.{Name};
ghost use Rattle.dist_model.specs.NodeEvents as model;
ghost use Rattle.dist_model.specs.NodeEvents.{at_node};
ghost use Rattle.node_core.specs.Model.{IsFor, model_of};
ghost use Rattle.node_core.specs.Begun.{IsNew};
ghost use Rattle.node_plan.specs.Planned.{Plans};
ghost use Rattle.readers.specs.Reading.{AreBytes};
ghost use Rattle.node_core.specs.ComingToANode.{IsNext, bytes_in};
ghost use Rattle.world_core.specs.Events.{ComesTo};
ghost use Rattle.node_core.specs.declared.node_event.NodeEvent.TheVariants as event;
ghost use Rattle.world_core.specs.Lists.{at};

use crate::finishing::finish;
use crate::lists::Lists;
use dist_model::Report;
use erl_names::TrunkId;
use erl_term::Refusal;
use node_core::{Node, Planned};
use node_frames::Frame;
use std::alloc::Global;

// The bytes that come next. None travel where there is nothing.
fn next_bytes<'a>(lists: &'a Lists, trunk: &TrunkId, node: &Node) -> &'a [u8]
    ensures { result.now ≡ bytes_in (at lists.now trunk.now (model_of node.now).mint.name) }
{
    match lists.first(trunk, node.name()) {
        Some(frame) => frame.as_slice(),
        None => &[],
    }
}

fn are_bytes(bytes: &[u8])
    ensures { AreBytes bytes.now }
{}

// It is planned.
fn plan(
    alloc: Global,
    node: &mut Node,
    planned: &mut Planned,
    lists: &Lists,
    trunk: &TrunkId,
    word: u32,
) -> Result<(), Refusal>
    requires { IsNew planned.old }
    ensures same { model_of node.new ≡ model_of node.old }
    ensures plan { (names : List Name) (first : Option Item) → IsNext (model_of node.old) trunk.now (at lists.now trunk.now (model_of node.old).mint.name) first →
        Plans (model_of node.old) (at_node names (model_of node.old) (model.Arrive trunk.now first word)) planned.new.plan result }
    ensures suits { OnOk result (IsFor node.new planned.new) }
{
    erl_control::one_answer();
    erl_control::read_again();
    let bytes = next_bytes(lists, trunk, node);
    are_bytes(bytes);
    match node.plan_arrival(alloc, planned, trunk, bytes, word) {
        Ok(_) => Ok(()),
        Err(e) => Err(e),
    }
}

// What was planned of what comes next, where it was, is carried out, and it is gone.
fn take(
    alloc: Global,
    node: &mut Node,
    lists: &mut Lists,
    trunk: &TrunkId,
    planned: Planned,
    made: Result<(), Refusal>,
) -> Result<Report<Frame>, Refusal>
    requires { OnOk made (IsFor node.old planned) }
    ensures { (names : List Name) (first : Option Item) (word : ℕ) →
        let due = at_node names (model_of node.old) (model.Arrive trunk.now first word) in
        Plans (model_of node.old) due planned.plan made →
        ComesTo (event.Arrive trunk.now word) due (model_of node.old) (model_of node.new) lists.old lists.new result }
{
    match finish(alloc, node, lists, planned, made) {
        Ok(report) => {
            lists.drop_first(alloc, trunk, node.name());
            Ok(report)
        }
        Err(e) => Err(e),
    }
}

/// What comes next on a connection to a node comes: the node takes it, and what it sends back is sent.
///
/// # Errors
/// As [`Node::plan_arrival`]. Then nothing has changed.
pub(crate) fn arrive(
    alloc: Global,
    node: &mut Node,
    lists: &mut Lists,
    trunk: &TrunkId,
    word: u32,
) -> Result<Report<Frame>, Refusal>
    ensures { (names : List Name) (first : Option Item) → IsNext (model_of node.old) trunk.now (at lists.old trunk.now (model_of node.old).mint.name) first →
        ComesTo (event.Arrive trunk.now word) (at_node names (model_of node.old) (model.Arrive trunk.now first word)) (model_of node.old) (model_of node.new) lists.old lists.new result }
{
    let mut planned = Planned::new(alloc);
    let made = plan(alloc, node, &mut planned, lists, trunk, word);
    take(alloc, node, lists, trunk, planned, made)
}
