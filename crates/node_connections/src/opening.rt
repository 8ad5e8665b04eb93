//! What comes on a connection of which the node has no side yet.
ghost use Rattle.std.specs.Prelude.{◌≡◌, ℕ, None, Some, IfOk};
ghost use Rattle.std.specs.FinMap as fm;
ghost use Rattle.conn_core.specs.Happenings.{unheard};
ghost use Rattle.dist_model.specs.Arrivals.{arrive_fresh};
ghost use Rattle.dist_model.specs.Work.{at_work};
ghost use Rattle.node_connections.specs.Coming.{PlansBytes, comes};
ghost use Rattle.node_plan.specs.Carried.{Makes};
ghost use Rattle.node_plan.specs.Planned.{Plans};
ghost use Rattle.node_plan.specs.Seen.{seen};
ghost use Rattle.node_plan.specs.declared.change.Change.TheVariants as change;

use crate::admitting::open;
use conn_core::Side;
use erl_handshake::{Role, ShakeMsg, read};
use erl_names::TrunkId;
use erl_term::Refusal;
use node_plan::{Node, Plan};
use std::alloc::{AllocError, Global};

fn unheard(trunk: &TrunkId) -> Result<Side, AllocError>
    ensures { IfOk result (λ side. side ≡ unheard trunk.now) }
{
    Side::fresh(trunk.clone()?)
}

// A message of the handshake comes.
fn hear_first(
    alloc: Global,
    node: &Node,
    plan: &mut Plan,
    trunk: &TrunkId,
    message: ShakeMsg,
    word: u32,
) -> Result<(), Refusal>
    requires change { plan.old.change ≡ change.None }
    requires makes { Makes plan.old (seen node.now) (at_work (seen node.now)) }
    requires none { fm.get (seen node.now).sides trunk.now ≡ None }
    ensures { Plans (seen node.now) (arrive_fresh (Some message) trunk.now word (at_work (seen node.now))) plan.new result }
{
    let Ok(side) = unheard(trunk) else {
        drop(message);
        return Err(Refusal::OutOfMemory);
    };
    let arrival = side.hear(node.identity(), message, word, 0);
    let planned = open(alloc, node, plan, &side, &arrival);
    drop(arrival);
    drop(side);
    planned
}

// What comes is no message.
fn spoil_first(alloc: Global, node: &Node, plan: &mut Plan, trunk: &TrunkId) -> Result<(), Refusal>
    requires change { plan.old.change ≡ change.None }
    requires makes { Makes plan.old (seen node.now) (at_work (seen node.now)) }
    requires none { fm.get (seen node.now).sides trunk.now ≡ None }
    ensures { (word : ℕ) → Plans (seen node.now) (arrive_fresh None trunk.now word (at_work (seen node.now))) plan.new result }
{
    let Ok(side) = unheard(trunk) else {
        return Err(Refusal::OutOfMemory);
    };
    let arrival = side.hear_nothing();
    let planned = open(alloc, node, plan, &side, &arrival);
    drop(arrival);
    drop(side);
    planned
}

/// What comes on a connection of which the node has no side: the first message of another node's
/// attempt. Answers how many bytes were taken. (ERTS User's Guide, Distribution Protocol, Distribution
/// Handshake.)
///
/// # Errors
/// [`Refusal::NotLive`] where no message is whole yet; behind that [`Refusal::OutOfMemory`].
pub(crate) fn come_first(
    alloc: Global,
    node: &Node,
    plan: &mut Plan,
    trunk: &TrunkId,
    bytes: &[u8],
    word: u32,
) -> Result<usize, Refusal>
    requires change { plan.old.change ≡ change.None }
    requires makes { Makes plan.old (seen node.now) (at_work (seen node.now)) }
    requires none { fm.get (seen node.now).sides trunk.now ≡ None }
    ensures { PlansBytes (seen node.now) None bytes.now (λ front. comes (seen node.now) trunk.now None front word) plan.new result }
{
    match read(alloc, Role::Acceptor, bytes) {
        Ok(None) => Err(Refusal::NotLive),
        Ok(Some((message, len))) => match hear_first(alloc, node, plan, trunk, message, word) {
            Ok(()) => Ok(len),
            Err(e) => Err(e),
        },
        Err(Refusal::OutOfMemory) => Err(Refusal::OutOfMemory),
        Err(_) => match spoil_first(alloc, node, plan, trunk) {
            Ok(()) => Ok(0),
            Err(e) => Err(e),
        },
    }
}
