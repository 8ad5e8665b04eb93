//! A connection is lost, or breaks.
ghost use Rattle.std.specs.Prelude.{◌≡◌, None, Some, true};
ghost use Rattle.std.specs.FinMap as fm;
ghost use Rattle.dist_model.specs.Handshake.{fault};
ghost use Rattle.dist_model.specs.Losses.{lose};
ghost use Rattle.dist_model.specs.Node.{Node as TheNode};
ghost use Rattle.dist_model.specs.Work.{Work, at_work};
ghost use Rattle.dist_model.specs.declared.report.Answer.TheVariants as answer;
ghost use Rattle.node_plan.specs.Carried.{Makes};
ghost use Rattle.node_plan.specs.Planned.{Plans};
ghost use Rattle.node_plan.specs.Plans.{told};
ghost use Rattle.node_plan.specs.Seen.{seen};
ghost use Rattle.node_plan.specs.declared.change.Change.TheVariants as change;
ghost use Rattle.node_tables.specs.Standings.{is_settled, side_of};

use crate::standing::stand_down;
use conn_core::{Fault, Side};
use dist_model::Answer;
use erl_names::TrunkId;
use erl_term::Refusal;
use node_plan::{Node, Plan, or_refuse};

/// The node notices that a connection is lost, or gives an attempt up. (Reference Manual, Distributed
/// Erlang.)
///
/// # Errors
/// [`Refusal::NotLive`] where there is nothing to lose, and then [`Refusal::OutOfMemory`].
pub fn lose(node: &Node, plan: &mut Plan, trunk: &TrunkId) -> Result<(), Refusal>
    requires told { told plan.old (seen node.now) ≡ answer.Done }
    requires makes { Makes plan.old (seen node.now) (at_work (seen node.now)) }
    ensures { Plans (seen node.now) (lose (seen node.now) trunk.now (fm.get (seen node.now).sides trunk.now)) plan.new result }
{
    let Some(side) = node.side(trunk) else {
        return Err(Refusal::NotLive);
    };
    if !side.standing.state().is_live() {
        return Err(Refusal::NotLive);
    }
    or_refuse(stand_down(plan, side, side.standing.lost()))
}

/// Plans the break of a side by the bytes that come. (ERTS User's Guide, Distribution Protocol,
/// Distribution Handshake and Protocol between Connected Nodes.)
///
/// # Errors
/// Where there is no memory for the plan.
pub fn break_side(plan: &mut Plan, side: &Side, why: Fault) -> Result<(), Refusal>
    requires change { plan.old.change ≡ change.None }
    requires settled { is_settled side.now.standing ≡ true }
    ensures { (m : TheNode) (work : Work) → fm.get work.node.sides side.now.trunk ≡ Some (side_of side.now) →
        Makes plan.old m work → Plans m (fault why side.now.trunk (side_of side.now) work) plan.new result }
{
    plan.answers(Answer::Broken(why));
    or_refuse(stand_down(plan, side, side.standing.lost()))
}
