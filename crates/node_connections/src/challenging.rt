//! The challenge is sent to a dialer.
ghost use Rattle.std.specs.Prelude.{◌≡◌, false};
ghost use Rattle.std.specs.FinMap as fm;
ghost use Rattle.conn_core.specs.declared.standing.Standing.TheVariants as the_standing;
ghost use Rattle.dist_model.specs.Handshake.{challenge as challenge_of, with_side, write};
ghost use Rattle.dist_model.specs.Node.{Node as TheNode};
ghost use Rattle.dist_model.specs.Work.{Work};
ghost use Rattle.erl_handshake.specs.declared.acceptor.AcceptorState.TheVariants as acceptor;
ghost use Rattle.node_plan.specs.Carried.{Makes, MakesOr};
ghost use Rattle.node_plan.specs.Plans.{told};
ghost use Rattle.node_plan.specs.Seen.{seen};
ghost use Rattle.node_tables.specs.Changes.{is_gone_in, IsTowards};
ghost use Rattle.node_tables.specs.Standings.{standing_side};

use crate::standing::stand_down;
use conn_core::{Side, Standing};
use erl_handshake::{AcceptorState, Introduction};
use erl_names::{NodeName, TrunkId};
use node_plan::{Node, Plan};
use std::alloc::{AllocError, Global};

/// The node's challenge is sent on a connection. (ERTS User's Guide, Distribution Protocol,
/// Distribution Handshake.)
pub(crate) fn write_challenge(
    alloc: Global,
    node: &Node,
    plan: &mut Plan,
    trunk: &TrunkId,
    peer: &NodeName,
    challenge: u32,
) -> Result<(), AllocError>
    ensures makes { (work : Work) → Makes plan.old (seen node.now) work →
        MakesOr (seen node.now) (write trunk.now peer.now (challenge_of work.node challenge) work) plan.new result }
    ensures told { (m : TheNode) → told plan.new m ≡ told plan.old m }
{
    let message = node.identity().send_challenge(challenge)?;
    plan.write(alloc, trunk, peer, &message)
}

/// The challenge is sent at a side, and the reply is awaited. (ERTS User's Guide, Distribution Protocol,
/// Distribution Handshake.)
pub(crate) fn send_challenge(
    alloc: Global,
    node: &Node,
    plan: &mut Plan,
    side: &Side,
    challenge: u32,
    introduction: Introduction,
) -> Result<(), AllocError>
    ensures makes { (work : Work) → IsTowards side.now.peer (fm.get work.node.sides side.now.trunk) →
        is_gone_in (fm.get work.node.sides side.now.trunk) ≡ false → Makes plan.old (seen node.now) work →
        MakesOr (seen node.now) (write side.now.trunk side.now.peer (challenge_of work.node challenge)
        (with_side side.now.trunk (standing_side side.now.peer (the_standing.Accepting (acceptor.AwaitsReply challenge introduction))) work)) plan.new result }
    ensures told { (m : TheNode) → told plan.new m ≡ told plan.old m }
{
    let awaits = AcceptorState::AwaitsReply {
        challenge,
        introduction,
    };
    stand_down(plan, side, Standing::Accepting(awaits))?;
    write_challenge(alloc, node, plan, &side.trunk, &side.peer, challenge)
}
