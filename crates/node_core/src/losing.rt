//! A node notices that a connection is lost.
ghost use Rattle.std.specs.Prelude.{◌≡◌, List, OnOk};
ghost use Rattle.std.specs.FinMap as fm;
ghost use Rattle.dist_model.specs.Losses.{lose};
ghost use Rattle.dist_model.specs.Names.{Name};
ghost use Rattle.dist_model.specs.NodeEvents as event;
ghost use Rattle.dist_model.specs.NodeEvents.{at_node, if_up};
ghost use Rattle.dist_model.specs.Work.{at_work};
ghost use Rattle.dist_model.specs.declared.report.Answer.TheVariants as answer;
ghost use Rattle.node_core.specs.Begun.{IsNew};
ghost use Rattle.node_core.specs.Suiting.{Suits};
ghost use Rattle.node_plan.specs.Carried.{Makes};
ghost use Rattle.node_plan.specs.Planned.{Plans};
ghost use Rattle.node_plan.specs.Plans.{told};
ghost use Rattle.node_plan.specs.Seen.{seen};

use crate::planned::Planned;
use crate::settling::settle;
use erl_names::TrunkId;
use erl_term::Refusal;
use node_plan::{Node, Plan};

// The same at any node.
fn lose_if_up(node: &Node, plan: &mut Plan, trunk: &TrunkId) -> Result<(), Refusal>
    requires told { told plan.old (seen node.now) ≡ answer.Done }
    requires makes { Makes plan.old (seen node.now) (at_work (seen node.now)) }
    ensures { let m = seen node.now in Plans m (if_up m (lose m trunk.now (fm.get m.sides trunk.now))) plan.new result }
{
    if !node.is_up() {
        return Err(Refusal::NodeDown);
    }
    node_connections::lose(node, plan, trunk)
}

/// Plans that a node notices that a connection is lost, or gives an attempt up. The node stays as it
/// is but for its room.
pub fn plan_loss(node: &mut Node, planned: &mut Planned, trunk: &TrunkId) -> Result<(), Refusal>
    requires { IsNew planned.old }
    ensures same { seen node.new ≡ seen node.old }
    ensures plan { (names : List Name) → Plans (seen node.old) (at_node names (seen node.old) (event.Lose trunk.now)) planned.new.plan result }
    ensures suits { OnOk result (Suits node.new planned.new) }
{
    let made = lose_if_up(node, &mut planned.plan, trunk);
    settle(node, planned, made)
}
