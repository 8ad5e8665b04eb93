//! A caller's command is planned.
ghost use Rattle.std.specs.Prelude.{◌≡◌, List, OnOk};
ghost use Rattle.dist_model.specs.Calls.{call};
ghost use Rattle.dist_model.specs.Names.{Name};
ghost use Rattle.dist_model.specs.NodeEvents as event;
ghost use Rattle.dist_model.specs.NodeEvents.{at_node, if_up};
ghost use Rattle.dist_model.specs.Work.{at_work};
ghost use Rattle.dist_model.specs.declared.report.Answer.TheVariants as answer;
ghost use Rattle.node_core.specs.Begun.{IsNew};
ghost use Rattle.node_core.specs.Suiting.{Suits};
ghost use Rattle.node_plan.specs.Carried.{CarriesOut, IsBlank};
ghost use Rattle.node_plan.specs.Planned.{Plans};
ghost use Rattle.node_plan.specs.Plans.{told};
ghost use Rattle.node_plan.specs.Seen.{seen};

use crate::planned::Planned;
use crate::settling::settle;
use dist_model::Command;
use erl_term::Refusal;
use node_plan::{Node, Plan};
use node_processes::obey;
use std::alloc::Global;

// The same at any node.
fn obey_if_up(alloc: Global, node: &Node, plan: &mut Plan, command: Command) -> Result<(), Refusal>
    requires blank { IsBlank plan.old }
    requires told { told plan.old (seen node.now) ≡ answer.Done }
    requires carries { CarriesOut plan.old (seen node.now) (at_work (seen node.now)) }
    ensures { Plans (seen node.now) (if_up (seen node.now) (call (seen node.now) command)) plan.new result }
{
    if !node.is_up() {
        drop(command);
        return Err(Refusal::NodeDown);
    }
    obey(alloc, node, plan, command)
}

/// Plans a caller's command at a node, which stays as it is but for its room.
pub fn plan_call(
    alloc: Global,
    node: &mut Node,
    planned: &mut Planned,
    command: Command,
) -> Result<(), Refusal>
    requires { IsNew planned.old }
    ensures same { seen node.new ≡ seen node.old }
    ensures plan { (names : List Name) → Plans (seen node.old) (at_node names (seen node.old) (event.Call command)) planned.new.plan result }
    ensures suits { OnOk result (Suits node.new planned.new) }
{
    let made = obey_if_up(alloc, node, &mut planned.plan, command);
    settle(node, planned, made)
}
