//! A node dials another.
ghost use Rattle.std.specs.Prelude.{◌≡◌, List, OnOk, false};
ghost use Rattle.dist_model.specs.Dialing.{dial, has_name};
ghost use Rattle.dist_model.specs.Names.{Name};
ghost use Rattle.dist_model.specs.NodeEvents as event;
ghost use Rattle.dist_model.specs.NodeEvents.{at_node, if_up};
ghost use Rattle.dist_model.specs.Work.{at_work};
ghost use Rattle.node_core.specs.Begun.{IsNew};
ghost use Rattle.node_core.specs.Suiting.{Suits};
ghost use Rattle.node_plan.specs.Carried.{Makes};
ghost use Rattle.node_plan.specs.Planned.{Plans};
ghost use Rattle.node_plan.specs.Seen.{seen};
ghost use Rattle.node_plan.specs.declared.change.Change.TheVariants as change;

use crate::planned::Planned;
use crate::settling::settle;
use erl_names::NodeName;
use erl_term::Refusal;
use node_plan::{Node, Plan};
use std::alloc::Global;

// The same at any node.
fn dial_if_up(
    alloc: Global,
    node: &Node,
    plan: &mut Plan,
    is_known: bool,
    peer: &NodeName,
    word: u32,
) -> Result<(), Refusal>
    requires dials { plan.old.dials ≡ false }
    requires change { plan.old.change ≡ change.None }
    requires makes { Makes plan.old (seen node.now) (at_work (seen node.now)) }
    ensures { (names : List Name) → has_name peer.now names ≡ is_known →
        Plans (seen node.now) (if_up (seen node.now) (dial names (seen node.now) peer.now word)) plan.new result }
{
    if !node.is_up() {
        return Err(Refusal::NodeDown);
    }
    node_connections::dial(alloc, node, plan, is_known, peer, word)
}

/// Plans that a node dials another, under this word as its challenge. Whether there is a node of the
/// peer's name is told. The node stays as it is but for its room.
pub fn plan_dial(
    alloc: Global,
    node: &mut Node,
    planned: &mut Planned,
    is_known: bool,
    peer: &NodeName,
    word: u32,
) -> Result<(), Refusal>
    requires { IsNew planned.old }
    ensures same { seen node.new ≡ seen node.old }
    ensures plan { (names : List Name) → has_name peer.now names ≡ is_known →
        Plans (seen node.old) (at_node names (seen node.old) (event.Dial peer.now word)) planned.new.plan result }
    ensures suits { OnOk result (Suits node.new planned.new) }
{
    let made = dial_if_up(alloc, node, &mut planned.plan, is_known, peer, word);
    settle(node, planned, made)
}
