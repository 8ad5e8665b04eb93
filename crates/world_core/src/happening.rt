//! Something happens at a node.
ghost use Rattle.std.specs.Prelude.{◌≡◌, List, Option};
ghost use Rattle.dist_model.specs.Dialing.{has_name};
ghost use Rattle.dist_model.specs.Items.{Item};
ghost use Rattle.dist_model.specs.Names.{Name};
ghost use Rattle.dist_model.specs.NodeEvents as model;
ghost use Rattle.dist_model.specs.NodeEvents.{at_node};
ghost use Rattle.node_core.specs.Model.{model_of};
ghost use Rattle.world_core.specs.Events.{ComesTo, Meets, Sends};
ghost use Rattle.node_core.specs.NodeEvents.{met};

use crate::finishing::finish;
use crate::lists::Lists;
use crate::meeting::arrive;
use dist_model::{Command, Report};
use erl_names::{NodeName, TrunkId};
use erl_term::Refusal;
use node_core::{Node, NodeEvent, Planned};
use node_frames::Frame;
use std::alloc::Global;

fn call(
    alloc: Global,
    node: &mut Node,
    lists: &mut Lists,
    command: Command,
) -> Result<Report<Frame>, Refusal>
    ensures { (names : List Name) → Sends (at_node names (model_of node.old) (model.Call command)) (model_of node.old) (model_of node.new) lists.old lists.new result }
{
    let mut planned = Planned::new(alloc);
    let made = node.plan_call(alloc, &mut planned, command);
    finish(alloc, node, lists, planned, made)
}

fn local(alloc: Global, node: &mut Node, lists: &mut Lists) -> Result<Report<Frame>, Refusal>
    ensures { (names : List Name) → Sends (at_node names (model_of node.old) model.Local) (model_of node.old) (model_of node.new) lists.old lists.new result }
{
    let mut planned = Planned::taking(alloc);
    let made = node.plan_local(alloc, &mut planned);
    finish(alloc, node, lists, planned, made)
}

fn lose(
    alloc: Global,
    node: &mut Node,
    lists: &mut Lists,
    trunk: &TrunkId,
) -> Result<Report<Frame>, Refusal>
    ensures { (names : List Name) → Sends (at_node names (model_of node.old) (model.Lose trunk.now)) (model_of node.old) (model_of node.new) lists.old lists.new result }
{
    let mut planned = Planned::new(alloc);
    let made = node.plan_loss(&mut planned, trunk);
    finish(alloc, node, lists, planned, made)
}

fn sweep(alloc: Global, node: &mut Node, lists: &mut Lists) -> Result<Report<Frame>, Refusal>
    ensures { (names : List Name) → Sends (at_node names (model_of node.old) model.Sweep) (model_of node.old) (model_of node.new) lists.old lists.new result }
{
    let mut planned = Planned::new(alloc);
    let made = node.plan_sweep(alloc, &mut planned);
    finish(alloc, node, lists, planned, made)
}

fn dial(
    alloc: Global,
    node: &mut Node,
    lists: &mut Lists,
    is_known: bool,
    peer: &NodeName,
    word: u32,
) -> Result<Report<Frame>, Refusal>
    ensures { (names : List Name) → has_name peer.now names ≡ is_known →
        Sends (at_node names (model_of node.old) (model.Dial peer.now word)) (model_of node.old) (model_of node.new) lists.old lists.new result }
{
    let mut planned = Planned::new(alloc);
    let made = node.plan_dial(alloc, &mut planned, is_known, peer, word);
    finish(alloc, node, lists, planned, made)
}

// Nothing is sent where a node stops or starts.

fn stop(alloc: Global, node: &mut Node, lists: &Lists) -> Result<Report<Frame>, Refusal>
    ensures { (names : List Name) → Sends (at_node names (model_of node.old) model.Stop) (model_of node.old) (model_of node.new) lists.now lists.now result }
{
    node.stop(alloc)
}

fn start(alloc: Global, node: &mut Node, lists: &Lists) -> Result<Report<Frame>, Refusal>
    ensures { (names : List Name) → Sends (at_node names (model_of node.old) model.Start) (model_of node.old) (model_of node.new) lists.now lists.now result }
{
    node.start(alloc)
}

/// Something happens at a node. What it sends goes behind what travels, and what has come is taken from
/// it. Whether there is a node of the name that it dials is told.
///
/// # Errors
/// As those of the event's plan at [`Node`]; behind these [`Refusal::OutOfMemory`]. Then nothing has
/// changed.
pub fn happen(
    alloc: Global,
    node: &mut Node,
    lists: &mut Lists,
    is_known: bool,
    event: NodeEvent,
) -> Result<Report<Frame>, Refusal>
    ensures { (names : List Name) (first : Option Item) → Meets event names (model_of node.old) lists.old is_known first →
        ComesTo event (at_node names (model_of node.old) (met event first)) (model_of node.old) (model_of node.new) lists.old lists.new result }
{
    match event {
        NodeEvent::Call(command) => call(alloc, node, lists, command),
        NodeEvent::Arrive { trunk, word } => arrive(alloc, node, lists, &trunk, word),
        NodeEvent::Local => local(alloc, node, lists),
        NodeEvent::Lose(trunk) => lose(alloc, node, lists, &trunk),
        NodeEvent::Sweep => sweep(alloc, node, lists),
        NodeEvent::Dial { peer, word } => dial(alloc, node, lists, is_known, &peer, word),
        NodeEvent::Stop => stop(alloc, node, lists),
        NodeEvent::Start => start(alloc, node, lists),
    }
}
