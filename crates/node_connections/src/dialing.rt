//! A node dials another.
ghost use Rattle.std.specs.Prelude.{◌≡◌, ◌<◌, ◌-◌, ◌^◌, false, List, OnOk};
ghost use Rattle.dist_model.specs.Dialing.{dial, has_name, next_trunk};
ghost use Rattle.dist_model.specs.Names.{Name};
ghost use Rattle.dist_model.specs.Work.{at_work};
ghost use Rattle.dist_model.specs.declared.report.Answer.TheVariants as answer;
ghost use Rattle.node_connections.specs.Dialed.{dialed_on};
ghost use Rattle.node_plan.specs.Carried.{Makes, MakesOr};
ghost use Rattle.node_plan.specs.Planned.{Plans};
ghost use Rattle.node_plan.specs.Plans.{told};
ghost use Rattle.node_plan.specs.Seen.{seen};
ghost use Rattle.node_plan.specs.declared.change.Change.TheVariants as change;

use conn_core::Side;
use dist_model::Answer;
use erl_names::{NodeName, TrunkId};
use erl_term::Refusal;
use node_frames::same_name;
use node_plan::{Node, Plan, or_refuse};
use node_tables::{SideChange, Which};
use std::alloc::{AllocError, Global};

// It dials on the next connection.
fn dial_next(
    alloc: Global,
    node: &Node,
    plan: &mut Plan,
    peer: &NodeName,
    word: u32,
) -> Result<(), AllocError>
    requires dials { plan.old.dials ≡ false }
    requires change { plan.old.change ≡ change.None }
    requires makes { Makes plan.old (seen node.now) (at_work (seen node.now)) }
    requires below { (seen node.now).dialed < 2 ^ 64 - 1 }
    ensures makes { MakesOr (seen node.now) (dialed_on (seen node.now) peer.now word) plan.new result }
    ensures told { OnOk result (told plan.new (seen node.now) ≡ answer.Trunk (next_trunk (seen node.now))) }
{
    let trunk = TrunkId {
        dialer: node.name().clone()?,
        count: node.dialed() + 1,
    };
    let side = Side::dial(trunk.clone()?, peer.clone()?, word);
    plan.answers(Answer::Trunk(trunk.clone()?));
    plan.dial();
    plan.change_side(SideChange::Adds { side })?;
    plan.write(alloc, &trunk, peer, &node.identity().send_name()?)
}

/// The node dials another, under this word as its challenge. Whether there is a node of the peer's
/// name is told. (ERTS User's Guide, Distribution Protocol, Distribution Handshake.)
///
/// # Errors
/// The first that fits: [`Refusal::SelfDial`], [`Refusal::NothingThere`] where there is no such node,
/// [`Refusal::Busy`] where there is a connection or an attempt at one, [`Refusal::IdsUsedUp`], and then
/// [`Refusal::OutOfMemory`].
pub fn dial(
    alloc: Global,
    node: &Node,
    plan: &mut Plan,
    is_known: bool,
    peer: &NodeName,
    word: u32,
) -> Result<(), Refusal>
    requires dials { plan.old.dials ≡ false }
    requires change { plan.old.change ≡ change.None }
    requires makes { Makes plan.old (seen node.now) (at_work (seen node.now)) }
    ensures { (names : List Name) → has_name peer.now names ≡ is_known → Plans (seen node.now) (dial names (seen node.now) peer.now word) plan.new result }
{
    if same_name(peer.atom(), node.name().atom()) {
        return Err(Refusal::SelfDial);
    }
    if !is_known {
        return Err(Refusal::NothingThere);
    }
    if node.first_towards(peer.atom(), Which::Open).is_some() {
        return Err(Refusal::Busy);
    }
    if node.dialed() == u64::MAX {
        return Err(Refusal::IdsUsedUp);
    }
    or_refuse(dial_next(alloc, node, plan, peer, word))
}
