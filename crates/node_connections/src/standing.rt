//! A side of a connection stands otherwise.
ghost use Rattle.std.specs.Prelude.{◌≡◌, true, false};
ghost use Rattle.std.specs.FinMap as fm;
ghost use Rattle.conn_core.specs.declared.standing.Standing.TheVariants as the_standing;
ghost use Rattle.dist_model.specs.Handshake.{with_side};
ghost use Rattle.dist_model.specs.Node.{Node as TheNode};
ghost use Rattle.dist_model.specs.Sides.{is_up};
ghost use Rattle.dist_model.specs.Work.{Work};
ghost use Rattle.node_plan.specs.Carried.{Makes, MakesOr};
ghost use Rattle.node_plan.specs.Plans.{told};
ghost use Rattle.node_tables.specs.Changes.{is_gone_in, IsDown, IsTowards, NoOtherUp, StaysGone};
ghost use Rattle.node_tables.specs.Standings.{is_settled, standing_side, state_of};

use conn_core::{Side, Standing};
use erl_handshake::Introduction;
use node_plan::Plan;
use node_tables::SideChange;
use std::alloc::AllocError;

/// A side stands so, and isn't up. (ERTS User's Guide, Distribution Protocol, Distribution Handshake.)
pub(crate) fn stand_down(plan: &mut Plan, side: &Side, standing: Standing) -> Result<(), AllocError>
    ensures makes { (m : TheNode) (work : Work) → IsDown standing → IsTowards side.now.peer (fm.get work.node.sides side.now.trunk) →
        StaysGone standing (fm.get work.node.sides side.now.trunk) → Makes plan.old m work → MakesOr m (with_side side.now.trunk (standing_side side.now.peer standing) work) plan.new result }
    ensures told { (m : TheNode) → told plan.new m ≡ told plan.old m }
{
    let trunk = side.trunk.clone()?;
    plan.change_side(SideChange::Stands { trunk, standing })
}

// A side is up.
fn come_up(plan: &mut Plan, side: &Side, introduction: Introduction) -> Result<(), AllocError>
    ensures makes { (m : TheNode) (work : Work) → IsTowards side.now.peer (fm.get work.node.sides side.now.trunk) →
        NoOtherUp work.node.sides side.now.trunk side.now.peer → is_gone_in (fm.get work.node.sides side.now.trunk) ≡ false →
        Makes plan.old m work → MakesOr m (with_side side.now.trunk (standing_side side.now.peer (the_standing.Up introduction)) work) plan.new result }
    ensures told { (m : TheNode) → told plan.new m ≡ told plan.old m }
{
    let trunk = side.trunk.clone()?;
    let peer = side.peer.atom().clone()?;
    plan.change_side(SideChange::ComesUp {
        trunk,
        peer,
        introduction,
    })
}

/// A side stands so. (ERTS User's Guide, Distribution Protocol, Distribution Handshake.)
pub(crate) fn stand(plan: &mut Plan, side: &Side, standing: Standing) -> Result<(), AllocError>
    ensures makes { (m : TheNode) (work : Work) → is_settled standing ≡ true → IsTowards side.now.peer (fm.get work.node.sides side.now.trunk) →
        (is_up (state_of standing) ≡ true → NoOtherUp work.node.sides side.now.trunk side.now.peer) →
        is_gone_in (fm.get work.node.sides side.now.trunk) ≡ false → Makes plan.old m work → MakesOr m (with_side side.now.trunk (standing_side side.now.peer standing) work) plan.new result }
    ensures told { (m : TheNode) → told plan.new m ≡ told plan.old m }
{
    match standing {
        Standing::Up { introduction } => come_up(plan, side, introduction),
        _ => stand_down(plan, side, standing),
    }
}
