//! The arrival of bytes on a connection.
ghost use Rattle.std.specs.Prelude.{◌≡◌, ℕ, List, Some, true, false};
ghost use Rattle.std.specs.FinMap as fm;
ghost use Rattle.conn_core.specs.Arrivals.{ArrivalDue};
ghost use Rattle.dist_model.specs.Arrivals.{on_up};
ghost use Rattle.dist_model.specs.Handshake.{identity};
ghost use Rattle.dist_model.specs.Work.{at_work};
ghost use Rattle.node_connections.specs.Coming.{PlansArrival, PlansBytes, comes};
ghost use Rattle.dist_model.specs.Items.{Signalled};
ghost use Rattle.node_connections.specs.Coming.{CanBeSent, IsItemSent, item_of};
ghost use Rattle.node_frames.specs.Sendable.{is_sendable};
ghost use Rattle.node_plan.specs.Carried.{CarriesOut, IsBlank};
ghost use Rattle.node_plan.specs.Planned.{Plans};
ghost use Rattle.node_plan.specs.Seen.{seen};
ghost use Rattle.node_tables.specs.Standings.{is_settled, side_of};

use crate::good::is_good;
use crate::hearing::hear;
use crate::losing::break_side;
use crate::opening::come_first;
use conn_core::{Arrival, Fault, Side, Standing, Taken};
use dist_model::{Answer, Kind};
use erl_control::{Item, Signal};
use erl_names::TrunkId;
use erl_term::Refusal;
use node_plan::{Node, Plan, or_refuse};
use node_processes::{kind, take};
use std::alloc::Global;

// A signal comes on a connection that is up.
fn take_signal(
    alloc: Global,
    node: &Node,
    plan: &mut Plan,
    side: &Side,
    signal: &Signal,
) -> Result<(), Refusal>
    requires blank { IsBlank plan.old }
    requires carries { CarriesOut plan.old (seen node.now) (at_work (seen node.now)) }
    requires there { fm.get (seen node.now).sides side.now.trunk ≡ Some (side_of side.now) }
    requires settled { is_settled side.now.standing ≡ true }
    requires sent { is_sendable signal.now ≡ true }
    ensures { Plans (seen node.now) (on_up side.now.trunk (side_of side.now) (Signalled signal.now false) (at_work (seen node.now))) plan.new result }
{
    if !is_good(node, side, signal) {
        return break_side(plan, side, Fault::Forged);
    }
    plan.answers(Answer::Took(kind(signal)));
    or_refuse(take(alloc, node, plan, side.peer.atom(), signal))
}

// A frame comes on a connection that is up.
fn take_item(
    alloc: Global,
    node: &Node,
    plan: &mut Plan,
    side: &Side,
    item: &Item,
) -> Result<(), Refusal>
    requires blank { IsBlank plan.old }
    requires carries { CarriesOut plan.old (seen node.now) (at_work (seen node.now)) }
    requires there { fm.get (seen node.now).sides side.now.trunk ≡ Some (side_of side.now) }
    requires settled { is_settled side.now.standing ≡ true }
    requires sent { CanBeSent item.now }
    ensures { Plans (seen node.now) (on_up side.now.trunk (side_of side.now) (item_of item.now) (at_work (seen node.now))) plan.new result }
{
    match item {
        Item::Tick => {
            plan.answers(Answer::Took(Kind::Tick));
            Ok(())
        }
        Item::Signal(signal) => take_signal(alloc, node, plan, side, signal),
    }
}

// Plans an arrival at a side, as the side has judged it.
fn take_arrival(
    alloc: Global,
    node: &Node,
    plan: &mut Plan,
    side: &Side,
    arrival: &Arrival,
) -> Result<(), Refusal>
    requires blank { IsBlank plan.old }
    requires carries { CarriesOut plan.old (seen node.now) (at_work (seen node.now)) }
    requires there { fm.get (seen node.now).sides side.now.trunk ≡ Some (side_of side.now) }
    requires settled { is_settled side.now.standing ≡ true }
    requires sent { IsItemSent arrival.now.was }
    ensures { (bytes : List ℕ) (word : ℕ) → let m = seen node.now in ArrivalDue (identity m) side.now bytes word (Some arrival.now) →
        PlansArrival m (side_of side.now) bytes (λ front. comes m side.now.trunk (Some (side_of side.now)) front word) arrival.now.len plan.new result }
{
    match &arrival.was {
        Taken::Item(item) => take_item(alloc, node, plan, side, item),
        Taken::Message { .. } | Taken::Broken(_) => hear(alloc, node, plan, side, arrival),
    }
}

// Plans the arrival of bytes at a side of the node. Returns the number of bytes taken.
fn come(
    alloc: Global,
    node: &Node,
    plan: &mut Plan,
    side: &Side,
    bytes: &[u8],
    word: u32,
) -> Result<usize, Refusal>
    requires blank { IsBlank plan.old }
    requires carries { CarriesOut plan.old (seen node.now) (at_work (seen node.now)) }
    requires there { fm.get (seen node.now).sides side.now.trunk ≡ Some (side_of side.now) }
    requires settled { is_settled side.now.standing ≡ true }
    ensures { PlansBytes (seen node.now) (Some (side_of side.now)) bytes.now (λ front. comes (seen node.now) side.now.trunk (Some (side_of side.now)) front word) plan.new result }
{
    match side.judge(alloc, node.identity(), bytes, word) {
        Ok(Some(arrival)) => {
            let taken = take_arrival(alloc, node, plan, side, &arrival);
            let len = arrival.len;
            drop(arrival);
            match taken {
                Ok(()) => Ok(len),
                Err(e) => Err(e),
            }
        }
        Ok(None) => Err(Refusal::NothingThere),
        Err(e) => Err(e),
    }
}

/// Plans the arrival of the bytes that come on a connection, at a node that runs. An item at their front is
/// taken, and a front that is none breaks the side. Returns the number of bytes taken. The word becomes the
/// challenge of a new side, and is not used elsewhere. (ERTS User's Guide, Distribution Protocol.)
///
/// # Errors
/// [`Refusal::NotLive`] where the side is lost or gone, or there is none and no message is whole yet;
/// [`Refusal::NothingThere`] where nothing is whole yet; behind these [`Refusal::OutOfMemory`].
pub fn arrive(
    alloc: Global,
    node: &Node,
    plan: &mut Plan,
    trunk: &TrunkId,
    bytes: &[u8],
    word: u32,
) -> Result<usize, Refusal>
    requires blank { IsBlank plan.old }
    requires carries { CarriesOut plan.old (seen node.now) (at_work (seen node.now)) }
    ensures { let m = seen node.now in let side = fm.get m.sides trunk.now in
        PlansBytes m side bytes.now (λ front. comes m trunk.now side front word) plan.new result }
{
    match node.side(trunk) {
        Some(side) => match side.standing {
            Standing::Gone => Err(Refusal::NotLive),
            _ => come(alloc, node, plan, side, bytes, word),
        },
        None => come_first(alloc, node, plan, trunk, bytes, word),
    }
}
