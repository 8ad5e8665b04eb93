//! The first item of the own list is planned.
ghost use Rattle.std.specs.Prelude.{◌≡◌, List, OnOk, ◌∷◌};
ghost use Rattle.dist_model.specs.Names.{Name};
ghost use Rattle.dist_model.specs.NodeEvents as event;
ghost use Rattle.dist_model.specs.Arrivals.{take_local};
ghost use Rattle.dist_model.specs.Items.{Item as TheItem};
ghost use Rattle.dist_model.specs.NodeEvents.{at_node, if_up};
ghost use Rattle.dist_model.specs.Work.{at_work};
ghost use Rattle.node_plan.specs.Carried.{CarriesOut, IsBlank};
ghost use Rattle.node_core.specs.Begun.{IsTaking};
ghost use Rattle.node_core.specs.Suiting.{Suits};
ghost use Rattle.node_plan.specs.Planned.{Plans};
ghost use Rattle.node_plan.specs.Seen.{seen};

use crate::planned::Planned;
use crate::settling::settle;
use erl_term::Refusal;
use node_plan::{Node, Plan};
use node_processes::take_first;
use std::alloc::Global;

// The first signal comes, at any node.
fn take_first_if_up(alloc: Global, node: &Node, plan: &mut Plan) -> Result<(), Refusal>
    requires blank { IsBlank plan.old }
    requires taken { (first : TheItem) (rest : List TheItem) → (seen node.now).local ≡ first ∷ rest → CarriesOut plan.old (seen node.now) (at_work (record (seen node.now) { local = rest })) }
    ensures { Plans (seen node.now) (if_up (seen node.now) (take_local (seen node.now) (seen node.now).local)) plan.new result }
{
    if !node.is_up() {
        return Err(Refusal::NodeDown);
    }
    take_first(alloc, node, plan)
}

/// Plans that the first signal that travels from a node to itself comes. The node stays as it is but
/// for its room.
pub fn plan_local(alloc: Global, node: &mut Node, planned: &mut Planned) -> Result<(), Refusal>
    requires { IsTaking planned.old }
    ensures same { seen node.new ≡ seen node.old }
    ensures plan { (names : List Name) → Plans (seen node.old) (at_node names (seen node.old) event.Local) planned.new.plan result }
    ensures suits { OnOk result (Suits node.new planned.new) }
{
    let made = take_first_if_up(alloc, node, &mut planned.plan);
    settle(node, planned, made)
}
