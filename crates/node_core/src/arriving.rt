//! Bytes come on a connection.
ghost use Rattle.std.specs.Prelude.{◌≡◌, false, true, Err, OnOk};
ghost use Rattle.std.specs.FinMap as fm;
ghost use Rattle.dist_model.specs.Work.{at_work};
ghost use Rattle.erl_term.specs.declared.refusal.Refusal.TheVariants as refusal;
ghost use Rattle.node_connections.specs.Coming.{PlansBytes, comes};
ghost use Rattle.node_core.specs.Arrived.{arrives, is_undialed, without_len};
ghost use Rattle.node_core.specs.Begun.{IsNew};
ghost use Rattle.node_core.specs.Suiting.{Suits};
ghost use Rattle.node_plan.specs.Carried.{CarriesOut, IsBlank};
ghost use Rattle.node_plan.specs.Seen.{seen};

use crate::planned::Planned;
use crate::settling::settle;
use dist_model::Report;
use erl_names::TrunkId;
use erl_term::Refusal;
use node_frames::{Frame, same_name};
use node_plan::{Node, Plan};
use std::alloc::Global;

/// The node's answer to bytes that came on a connection.
#[derive(Drop)]
pub struct Arrived {
    /// What it answers, and what it has brought about.
    pub report: Report<Frame>,
    /// How many bytes were taken.
    pub len: usize,
}

// Whether the node would have dialed on this connection and has no side of it.
fn is_undialed(node: &Node, trunk: &TrunkId) -> bool
    ensures { result ≡ is_undialed (seen node.now) trunk.now (fm.get (seen node.now).sides trunk.now) }
{
    match node.side(trunk) {
        Some(_) => false,
        None => same_name(trunk.dialer.atom(), node.name().atom()),
    }
}

// The same at any node.
fn arrive_if_up(
    alloc: Global,
    node: &Node,
    plan: &mut Plan,
    trunk: &TrunkId,
    bytes: &[u8],
    word: u32,
) -> Result<usize, Refusal>
    requires blank { IsBlank plan.old }
    requires carries { CarriesOut plan.old (seen node.now) (at_work (seen node.now)) }
    ensures down { (seen node.now).up ≡ false → result ≡ Err refusal.NodeDown }
    ensures undialed { let m = seen node.now in m.up ≡ true → is_undialed m trunk.now (fm.get m.sides trunk.now) ≡ true → result ≡ Err refusal.NotLive }
    ensures came { let m = seen node.now in m.up ≡ true → is_undialed m trunk.now (fm.get m.sides trunk.now) ≡ false →
        PlansBytes m (fm.get m.sides trunk.now) bytes.now (λ front. comes m trunk.now (fm.get m.sides trunk.now) front word) plan.new result }
{
    if !node.is_up() {
        return Err(Refusal::NodeDown);
    }
    if is_undialed(node, trunk) {
        return Err(Refusal::NotLive);
    }
    node_connections::arrive(alloc, node, plan, trunk, bytes, word)
}

// Whether it was planned, without the number of bytes.
fn without_len(taken: Result<usize, Refusal>) -> Result<(), Refusal>
    ensures { result ≡ without_len taken }
{
    match taken {
        Ok(_) => Ok(()),
        Err(e) => Err(e),
    }
}

/// Plans what a node does at the front of the bytes that come on a connection, and says how many bytes
/// are taken. The node stays as it is but for its room.
pub fn plan_arrival(
    alloc: Global,
    node: &mut Node,
    planned: &mut Planned,
    trunk: &TrunkId,
    bytes: &[u8],
    word: u32,
) -> Result<usize, Refusal>
    requires { IsNew planned.old }
    ensures same { seen node.new ≡ seen node.old }
    ensures down { (seen node.old).up ≡ false → result ≡ Err refusal.NodeDown }
    ensures undialed { let m = seen node.old in m.up ≡ true → is_undialed m trunk.now (fm.get m.sides trunk.now) ≡ true → result ≡ Err refusal.NotLive }
    ensures came { let m = seen node.old in m.up ≡ true → is_undialed m trunk.now (fm.get m.sides trunk.now) ≡ false →
        PlansBytes m (fm.get m.sides trunk.now) bytes.now (λ front. arrives m trunk.now front word) planned.new.plan result }
    ensures suits { OnOk result (Suits node.new planned.new) }
{
    let taken = arrive_if_up(alloc, node, &mut planned.plan, trunk, bytes, word);
    match settle(node, planned, without_len(taken)) {
        Ok(()) => taken,
        Err(e) => Err(e),
    }
}
