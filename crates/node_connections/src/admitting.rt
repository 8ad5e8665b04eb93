//! A dialer names itself on a connection that is new.
ghost use Rattle.std.specs.Prelude.{◌≡◌, true, false, None, Some, ℕ};
ghost use Rattle.std.specs.FinMap as fm;
ghost use Rattle.conn_core.specs.Happenings.{unheard};
ghost use Rattle.conn_core.specs.Side.{on_message, on_no_message};
ghost use Rattle.dist_model.specs.Admission.{admit, answer_to, give_up_if, others, stands_after};
ghost use Rattle.dist_model.specs.Arrivals.{arrive_fresh};
ghost use Rattle.dist_model.specs.Handshake.{identity, with_side};
ghost use Rattle.dist_model.specs.Node.{Node as TheNode};
ghost use Rattle.dist_model.specs.Work.{Work, at_work};
ghost use Rattle.erl_handshake.specs.declared.message.ShakeMsg.{ShakeMsg as TheShakeMsg};
ghost use Rattle.node_plan.specs.Carried.{Makes, MakesOr};
ghost use Rattle.node_plan.specs.Planned.{Plans};
ghost use Rattle.node_plan.specs.Plans.{told};
ghost use Rattle.node_plan.specs.Seen.{seen};
ghost use Rattle.node_plan.specs.declared.change.Change.TheVariants as change;
ghost use Rattle.node_tables.specs.Changes.{IsDown};
ghost use Rattle.node_tables.specs.Passing.{passes};
ghost use Rattle.node_tables.specs.Standings.{standing_side};
ghost use Rattle.node_connections.specs.Admitted.{admitted_by, named_side, sends_challenge};
ghost use Rattle.node_connections.specs.Waiting.{named_in};

use crate::challenging::write_challenge;
use crate::standing::stand_down;
use conn_core::{Arrival, Fault, Side, Standing, Taken};
use dist_model::{Answer, Kind};
use erl_handshake::{
    AcceptorState, Admission, Introduction, OtherConnections, Progress, ShakeFault, ShakeMsg,
    Status,
};
use erl_term::{Atom, Refusal};
use node_plan::{Node, Plan, or_refuse};
use node_tables::{SideChange, Which};
use std::alloc::{AllocError, Global};

// The challenge and the dialer's introduction, where the dialer has named itself.
fn named(standing: Standing) -> Option<(u32, Introduction)>
    ensures { result ≡ named_in standing }
{
    match standing {
        Standing::Accepting(
            AcceptorState::AwaitsAdmission {
                challenge,
                introduction,
            },
        ) => Some((challenge, introduction)),
        _ => None,
    }
}

// The connections that the node has with the dialer already.
fn others(node: &Node, dialer: &Atom) -> OtherConnections
    ensures { result ≡ others (seen node.now) dialer.now }
{
    let waiting = match node.first_towards(dialer, Which::Waiting) {
        Some(side) => Some(side.trunk.count),
        None => None,
    };
    OtherConnections {
        waiting,
        connected: node.first_towards(dialer, Which::Holding).is_some(),
        dialing: node.first_towards(dialer, Which::Dialing).is_some(),
    }
}

fn answer_to(progress: Progress) -> Answer
    ensures { result ≡ answer_to progress }
{
    match progress {
        Progress::Ended(ShakeFault::Superseded) => {
            Answer::Broken(Fault::Shake(ShakeFault::Superseded))
        }
        _ => Answer::Took(Kind::SendName),
    }
}

fn sends_challenge(status: Status) -> bool
    ensures { result ≡ sends_challenge status }
{
    matches!(status, Status::Ok | Status::OkSimultaneous)
}

// The side of a connection comes, and stands so.
fn add(plan: &mut Plan, side: &Side, standing: Standing) -> Result<(), AllocError>
    ensures makes { (m : TheNode) (work : Work) → fm.get work.node.sides side.now.trunk ≡ None → IsDown standing → Makes plan.old m work →
        MakesOr m (with_side side.now.trunk (standing_side side.now.peer standing) work) plan.new result }
    ensures told { (m : TheNode) → told plan.new m ≡ told plan.old m }
{
    let side = Side {
        trunk: side.trunk.clone()?,
        peer: side.peer.clone()?,
        standing,
    };
    plan.change_side(SideChange::Adds { side })
}

// Another attempt of those that are sought ends, if it is to.
fn give_up_if(
    node: &Node,
    plan: &mut Plan,
    ends: bool,
    dialer: &Atom,
    which: Which,
) -> Result<(), AllocError>
    ensures makes { (work : Work) → (ends ≡ true → work.node.sides ≡ (seen node.now).sides) → Makes plan.old (seen node.now) work →
        MakesOr (seen node.now) (give_up_if ends (passes which) dialer.now work) plan.new result }
    ensures told { (m : TheNode) → told plan.new m ≡ told plan.old m }
{
    if !ends {
        return Ok(());
    }
    match node.first_towards(dialer, which) {
        Some(other) => stand_down(plan, other, Standing::Gone),
        None => Ok(()),
    }
}

// How the side stands once this was said to the dialer. The challenge is sent, if it is to.
fn settle(
    alloc: Global,
    node: &Node,
    plan: &mut Plan,
    side: &Side,
    status: Status,
    challenge: u32,
    introduction: Introduction,
) -> Result<(), AllocError>
    ensures makes { (work : Work) → fm.get work.node.sides side.now.trunk ≡ None → Makes plan.old (seen node.now) work →
        MakesOr (seen node.now) (stands_after status side.now.trunk (named_side side.now introduction) challenge work) plan.new result }
    ensures told { (m : TheNode) → told plan.new m ≡ told plan.old m }
{
    if sends_challenge(status) {
        let awaits = AcceptorState::AwaitsReply {
            challenge,
            introduction,
        };
        add(plan, side, Standing::Accepting(awaits))?;
        return write_challenge(alloc, node, plan, &side.trunk, &side.peer, challenge);
    }
    if status == Status::Alive {
        let awaits = AcceptorState::AwaitsAnswer {
            challenge,
            introduction,
        };
        return add(plan, side, Standing::Accepting(awaits));
    }
    add(plan, side, Standing::Gone)
}

// Which attempts end, what the dialer is told, and how the side stands.
fn carry_out(
    alloc: Global,
    node: &Node,
    plan: &mut Plan,
    side: &Side,
    due: Admission,
    challenge: u32,
    introduction: Introduction,
) -> Result<(), AllocError>
    ensures makes { let m = seen node.now in (due.ends_dialing ≡ true → due.ends_waiting ≡ false) → fm.get m.sides side.now.trunk ≡ None →
        Makes plan.old m (at_work m) → MakesOr m (admitted_by due side.now challenge introduction (at_work m)) plan.new result }
    ensures told { (m : TheNode) → told plan.new m ≡ told plan.old m }
{
    let dialer = side.trunk.dialer.atom();
    give_up_if(node, plan, due.ends_waiting, dialer, Which::Waiting)?;
    give_up_if(node, plan, due.ends_dialing, dialer, Which::Dialing)?;
    let said = ShakeMsg::Status(due.status);
    plan.write(alloc, &side.trunk, &side.peer, &said)?;
    settle(alloc, node, plan, side, due.status, challenge, introduction)
}

// The node decides on the attempt.
fn admit(
    alloc: Global,
    node: &Node,
    plan: &mut Plan,
    side: &Side,
    challenge: u32,
    introduction: Introduction,
) -> Result<(), Refusal>
    requires change { plan.old.change ≡ change.None }
    requires makes { Makes plan.old (seen node.now) (at_work (seen node.now)) }
    requires none { fm.get (seen node.now).sides side.now.trunk ≡ None }
    ensures { Plans (seen node.now) (admit side.now.trunk (named_side side.now introduction) challenge (at_work (seen node.now))) plan.new result }
{
    let others = others(node, side.trunk.dialer.atom());
    let awaits = AcceptorState::AwaitsAdmission {
        challenge,
        introduction,
    };
    let Some((_, due)) = awaits.admit(node.name(), &side.trunk, others) else {
        unreachable!();
    };
    plan.answers(answer_to(due.progress));
    or_refuse(carry_out(alloc, node, plan, side, due, challenge, introduction))
}

/// Plans the first arrival on a connection of which the node has no side, as a fresh side has judged it
/// under this word. It is the dialer's name, or a fault that ends the attempt. (ERTS User's Guide,
/// Distribution Protocol, Distribution Handshake.)
///
/// # Errors
/// Where there is no memory for the plan.
pub fn open(
    alloc: Global,
    node: &Node,
    plan: &mut Plan,
    side: &Side,
    arrival: &Arrival,
) -> Result<(), Refusal>
    requires change { plan.old.change ≡ change.None }
    requires makes { Makes plan.old (seen node.now) (at_work (seen node.now)) }
    requires fresh { side.now ≡ unheard side.now.trunk }
    requires none { fm.get (seen node.now).sides side.now.trunk ≡ None }
    ensures message { (message : TheShakeMsg) (word len : ℕ) → let m = seen node.now in
        arrival.now ≡ on_message (identity m) side.now.peer side.now.standing message word len →
        Plans m (arrive_fresh (Some message) side.now.trunk word (at_work m)) plan.new result }
    ensures broken { (word : ℕ) → let m = seen node.now in arrival.now ≡ on_no_message side.now.standing →
        Plans m (arrive_fresh None side.now.trunk word (at_work m)) plan.new result }
{
    match &arrival.was {
        Taken::Broken(why) => {
            plan.answers(Answer::Broken(*why));
            or_refuse(add(plan, side, Standing::Gone))
        }
        Taken::Message { .. } => match named(arrival.standing) {
            Some((challenge, introduction)) => admit(
                alloc,
                node,
                plan,
                side,
                challenge,
                introduction,
            ),
            None => Ok(()),
        },
        Taken::Item(_) => Ok(()),
    }
}
