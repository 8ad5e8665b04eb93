//! A connection is cleared away.
ghost use Rattle.std.specs.Prelude.{◌≡◌, Some, true, false};
ghost use Rattle.std.specs.FinMap as fm;
ghost use Rattle.dist_model.specs.Losses.{close_side, released_by};
ghost use Rattle.dist_model.specs.Node.{Node as TheNode};
ghost use Rattle.dist_model.specs.Sides.{is_losing};
ghost use Rattle.dist_model.specs.Work.{Work};
ghost use Rattle.node_plan.specs.Carried.{Makes, MakesOr};
ghost use Rattle.node_plan.specs.Plans.{told};
ghost use Rattle.node_plan.specs.Seen.{seen};
ghost use Rattle.node_tables.specs.Changes.{is_gone_in, IsTowards};
ghost use Rattle.node_tables.specs.Standings.{side_of, state_of};
ghost use Rattle.node_connections.specs.Waiting.{parked_in};

use crate::challenging::send_challenge;
use crate::standing::stand_down;
use conn_core::{Side, Standing};
use erl_handshake::{AcceptorState, Introduction};
use node_plan::{Node, Plan};
use node_tables::Which;
use std::alloc::{AllocError, Global};

// The challenge and the dialer's introduction, where the attempt waits for an older connection's end.
fn parked(standing: Standing) -> Option<(u32, Introduction)>
    ensures { result ≡ parked_in standing }
{
    match standing {
        Standing::Accepting(
            AcceptorState::AwaitsTurn {
                challenge,
                introduction,
            },
        ) => Some((challenge, introduction)),
        _ => None,
    }
}

// An attempt that waits goes on.
fn release(alloc: Global, node: &Node, plan: &mut Plan, side: &Side) -> Result<(), AllocError>
    ensures makes { (work : Work) → IsTowards side.now.peer (fm.get work.node.sides side.now.trunk) →
        is_gone_in (fm.get work.node.sides side.now.trunk) ≡ false → Makes plan.old (seen node.now) work →
        MakesOr (seen node.now) (released_by (state_of side.now.standing) side.now.trunk (side_of side.now) work) plan.new result }
    ensures told { (m : TheNode) → told plan.new m ≡ told plan.old m }
{
    match parked(side.standing) {
        Some((challenge, introduction)) => send_challenge(
            alloc,
            node,
            plan,
            side,
            challenge,
            introduction,
        ),
        None => Ok(()),
    }
}

/// No record is left of a connection that was lost: its side is gone, and an attempt that waited for
/// this goes on. (Reference Manual, Distributed Erlang.)
///
/// # Errors
/// Where there is no memory for the plan.
pub fn close_side(
    alloc: Global,
    node: &Node,
    plan: &mut Plan,
    side: &Side,
) -> Result<(), AllocError>
    requires there { fm.get (seen node.now).sides side.now.trunk ≡ Some (side_of side.now) }
    requires losing { is_losing (state_of side.now.standing) ≡ true }
    ensures makes { (work : Work) → work.node.sides ≡ (seen node.now).sides → Makes plan.old (seen node.now) work →
        MakesOr (seen node.now) (close_side side.now.trunk (side_of side.now) work) plan.new result }
    ensures told { (m : TheNode) → told plan.new m ≡ told plan.old m }
{
    stand_down(plan, side, Standing::Gone)?;
    match node.first_towards(side.peer.atom(), Which::Parked) {
        Some(waiting) => release(alloc, node, plan, waiting),
        None => Ok(()),
    }
}
