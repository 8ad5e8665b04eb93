//! A message of the handshake comes to a side.
ghost use Rattle.std.specs.Prelude.{◌≡◌, Some, true, false, ℕ};
ghost use Rattle.std.specs.FinMap as fm;
ghost use Rattle.conn_core.specs.Side.{breaks, on_message};
ghost use Rattle.conn_core.specs.declared.arrival.Fault.{Fault as TheFault};
ghost use Rattle.conn_core.specs.declared.arrival.Taken.TheVariants as taken;
ghost use Rattle.conn_core.specs.declared.standing.Standing.TheVariants as the_standing;
ghost use Rattle.dist_model.specs.Handshake.{fault, handshake_at, identity, send_challenge_or_park, up_is_lost, with_side, write_if};
ghost use Rattle.dist_model.specs.Node.{Node as TheNode, side_where};
ghost use Rattle.dist_model.specs.Sides.{is_up};
ghost use Rattle.dist_model.specs.Work.{Work, at_work};
ghost use Rattle.erl_handshake.specs.declared.acceptor.AcceptorState.TheVariants as acceptor;
ghost use Rattle.erl_handshake.specs.declared.message.ShakeMsg.{ShakeMsg as TheShakeMsg};
ghost use Rattle.node_plan.specs.Carried.{Makes, MakesOr};
ghost use Rattle.node_plan.specs.Planned.{Plans};
ghost use Rattle.node_plan.specs.Plans.{told};
ghost use Rattle.node_plan.specs.Seen.{seen};
ghost use Rattle.node_plan.specs.declared.change.Change.TheVariants as change;
ghost use Rattle.node_tables.specs.Changes.{is_gone_in, IsTowards, NoOtherUp};
ghost use Rattle.node_tables.specs.Standings.{is_settled, side_of, standing_side, state_of};
ghost use Rattle.node_connections.specs.Waiting.{asked_in};

use crate::answering::kind;
use crate::challenging::send_challenge;
use crate::losing::break_side;
use crate::standing::{stand, stand_down};
use conn_core::{Arrival, Side, Standing, Taken};
use dist_model::Answer;
use erl_handshake::{AcceptorState, Introduction, ShakeMsg};
use erl_term::Refusal;
use node_plan::{Node, Plan, or_refuse};
use node_tables::Which;
use std::alloc::{AllocError, Global};

// Returns the challenge and the dialer's introduction, if the side awaits the dialer's answer.
fn asked(standing: Standing) -> Option<(u32, Introduction)>
    ensures { result ≡ asked_in standing }
{
    match standing {
        Standing::Accepting(
            AcceptorState::AwaitsAnswer {
                challenge,
                introduction,
            },
        ) => Some((challenge, introduction)),
        _ => None,
    }
}

// A side stands so, and this is sent.
fn take(
    alloc: Global,
    plan: &mut Plan,
    side: &Side,
    standing: Standing,
    send: &Option<ShakeMsg>,
) -> Result<(), AllocError>
    ensures makes { (m : TheNode) (work : Work) → is_settled standing ≡ true → IsTowards side.now.peer (fm.get work.node.sides side.now.trunk) →
        (is_up (state_of standing) ≡ true → NoOtherUp work.node.sides side.now.trunk side.now.peer) →
        is_gone_in (fm.get work.node.sides side.now.trunk) ≡ false → Makes plan.old m work →
        MakesOr m (write_if side.now.trunk side.now.peer send.now (with_side side.now.trunk (standing_side side.now.peer standing) work)) plan.new result }
    ensures told { (m : TheNode) → told plan.new m ≡ told plan.old m }
{
    stand(plan, side, standing)?;
    match send {
        Some(message) => plan.write(alloc, &side.trunk, &side.peer, message),
        None => Ok(()),
    }
}

// The dialer goes on: an older connection is lost, and else the challenge is sent.
fn go_on(
    alloc: Global,
    node: &Node,
    plan: &mut Plan,
    side: &Side,
    challenge: u32,
    introduction: Introduction,
) -> Result<(), AllocError>
    requires towards { IsTowards side.now.peer (fm.get (seen node.now).sides side.now.trunk) }
    requires there { is_gone_in (fm.get (seen node.now).sides side.now.trunk) ≡ false }
    ensures makes { let m = seen node.now in Makes plan.old m (at_work m) →
        MakesOr m (send_challenge_or_park side.now.trunk (standing_side side.now.peer (the_standing.Accepting (acceptor.AwaitsAnswer challenge introduction))) challenge
        (up_is_lost (side_where is_up side.now.peer (fm.entries m.sides)) (at_work m))) plan.new result }
    ensures told { (m : TheNode) → told plan.new m ≡ told plan.old m }
{
    let parked = Standing::Accepting(AcceptorState::AwaitsTurn {
        challenge,
        introduction,
    });
    if let Some(up) = node.first_towards(side.peer.atom(), Which::Up) {
        stand_down(plan, up, up.standing.lost())?;
        return stand_down(plan, side, parked);
    }
    if node
        .first_towards(side.peer.atom(), Which::Losing)
        .is_some()
    {
        return stand_down(plan, side, parked);
    }
    send_challenge(alloc, node, plan, side, challenge, introduction)
}

// A message comes that the side awaits: the side stands so, and this is sent.
fn take_message(
    alloc: Global,
    node: &Node,
    plan: &mut Plan,
    side: &Side,
    standing: Standing,
    message: &ShakeMsg,
    send: &Option<ShakeMsg>,
) -> Result<(), Refusal>
    requires change { plan.old.change ≡ change.None }
    requires makes { Makes plan.old (seen node.now) (at_work (seen node.now)) }
    requires there { fm.get (seen node.now).sides side.now.trunk ≡ Some (side_of side.now) }
    requires settled { is_settled side.now.standing ≡ true }
    ensures { (came : TheShakeMsg) (word len : ℕ) → let m = seen node.now in let due = on_message (identity m) side.now.peer side.now.standing came word len in
        due.was ≡ taken.Message message.now send.now → due.standing ≡ standing →
        Plans m (handshake_at (state_of side.now.standing) side.now.trunk (side_of side.now) came (at_work m)) plan.new result }
{
    plan.answers(Answer::Took(kind(message)));
    match asked(side.standing) {
        Some((challenge, introduction)) => {
            or_refuse(go_on(alloc, node, plan, side, challenge, introduction))
        }
        None => or_refuse(take(alloc, plan, side, standing, send)),
    }
}

/// Plans an arrival at a side of the node, as the side has judged it: a message of the handshake, or a
/// fault that breaks the side. (ERTS User's Guide, Distribution Protocol, Distribution Handshake.)
///
/// # Errors
/// Where there is no memory for the plan.
pub fn hear(
    alloc: Global,
    node: &Node,
    plan: &mut Plan,
    side: &Side,
    arrival: &Arrival,
) -> Result<(), Refusal>
    requires change { plan.old.change ≡ change.None }
    requires makes { Makes plan.old (seen node.now) (at_work (seen node.now)) }
    requires there { fm.get (seen node.now).sides side.now.trunk ≡ Some (side_of side.now) }
    requires settled { is_settled side.now.standing ≡ true }
    ensures message { (message : TheShakeMsg) (word len : ℕ) → let m = seen node.now in
        arrival.now ≡ on_message (identity m) side.now.peer side.now.standing message word len →
        Plans m (handshake_at (state_of side.now.standing) side.now.trunk (side_of side.now) message (at_work m)) plan.new result }
    ensures broken { (why : TheFault) → let m = seen node.now in arrival.now ≡ breaks side.now.standing why →
        Plans m (fault why side.now.trunk (side_of side.now) (at_work m)) plan.new result }
{
    match &arrival.was {
        Taken::Broken(why) => break_side(plan, side, *why),
        Taken::Message { message, send } => {
            take_message(alloc, node, plan, side, arrival.standing, message, send)
        }
        Taken::Item(_) => Ok(()),
    }
}
