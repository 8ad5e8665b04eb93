//! A record of a lost connection is swept.
ghost use Rattle.std.specs.Prelude.{◌≡◌, IfOk, List, OnOk};
ghost use Rattle.dist_model.specs.Losses.{sweep};
ghost use Rattle.dist_model.specs.Names.{Name};
ghost use Rattle.dist_model.specs.Node.{Node as TheNode};
ghost use Rattle.dist_model.specs.NodeEvents as event;
ghost use Rattle.dist_model.specs.NodeEvents.{at_node, if_up};
ghost use Rattle.dist_model.specs.Work.{at_work};
ghost use Rattle.node_core.specs.Begun.{IsNew};
ghost use Rattle.node_core.specs.Suiting.{IsAheadIfAny, Suits};
ghost use Rattle.node_plan.specs.Carried.{CarriesOut, IsBlank};
ghost use Rattle.node_plan.specs.Planned.{Plans};
ghost use Rattle.node_plan.specs.Seen.{seen};
ghost use Rattle.node_connections.specs.Ahead.{IsAhead};
ghost use Rattle.node_connections.specs.Done.{done};

use crate::planned::Planned;
use crate::settling::settle;
use erl_term::Refusal;
use node_connections::{Sweeping, sweep};
use node_plan::{Node, Plan};
use std::alloc::Global;
use std::mem;

// The same at any node.
fn sweep_if_up(
    alloc: Global,
    node: &Node,
    plan: &mut Plan,
    so_far: &Sweeping,
) -> Result<Sweeping, Refusal>
    requires blank { IsBlank plan.old }
    requires carries { CarriesOut plan.old (seen node.now) (at_work (seen node.now)) }
    requires ahead { IsAhead so_far.now (seen node.now) }
    ensures plans { Plans (seen node.now) (if_up (seen node.now) (sweep (seen node.now))) plan.new (done result) }
    ensures ahead { IfOk result (λ s. IsAhead s (seen node.now)) }
{
    if !node.is_up() {
        return Err(Refusal::NodeDown);
    }
    sweep(alloc, node, plan, so_far)
}

// Whether it was planned, and how far the sweep has come by it.
fn parted(swept: Result<Sweeping, Refusal>) -> (Result<(), Refusal>, Option<Sweeping>)
    ensures planned { result.0 ≡ done swept }
    ensures ahead { (m : TheNode) → IfOk swept (λ s. IsAhead s m) → IsAheadIfAny result.1 m }
{
    match swept {
        Ok(sweeping) => (Ok(()), Some(sweeping)),
        Err(e) => (Err(e), None),
    }
}

/// Plans that the least record of a lost connection is swept. The node stays as it is but for its room.
pub fn plan_sweep(
    alloc: Global,
    node: &mut Node,
    planned: &mut Planned,
    so_far: &Sweeping,
) -> Result<(), Refusal>
    requires new { IsNew planned.old }
    requires ahead { IsAhead so_far.now (seen node.old) }
    ensures same { seen node.new ≡ seen node.old }
    ensures plan { (names : List Name) → Plans (seen node.old) (at_node names (seen node.old) event.Sweep) planned.new.plan result }
    ensures suits { OnOk result (Suits node.new planned.new) }
{
    let swept = sweep_if_up(alloc, node, &mut planned.plan, so_far);
    let (made, sweeping) = parted(swept);
    drop(mem::replace(&mut planned.sweeping, sweeping));
    settle(node, planned, made)
}
