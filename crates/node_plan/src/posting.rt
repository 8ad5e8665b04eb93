//! The sending of a signal.
ghost use Rattle.std.specs.Prelude.{◌≡◌, ◌++◌, [], ◌∷◌, true, None, Some, IfSome, OnOk};
ghost use Rattle.std.specs.FinMap as fm;
ghost use Rattle.dist_model.specs.Node as model;
ghost use Rattle.dist_model.specs.Node.{Node as TheNode};
ghost use Rattle.node_plan.specs.Plans.{told};
ghost use Rattle.dist_model.specs.Work.{Work, post, to_node};
ghost use Rattle.node_plan.specs.Carried.{Carries, CarriesOut};
ghost use Rattle.node_frames.specs.Sendable.{is_sendable};
ghost use Rattle.node_tables.specs.Standings.{side_of};
ghost use Rattle.node_plan.specs.Seen.{seen};
ghost use Rattle.node_plan.specs.Sent.{IsSent};

use crate::node::Node;
use crate::plan::Plan;
use crate::sending::{push_signal_here, push_signal_there};
use conn_core::Side;
use dist_model::Effect;
use erl_control::Signal;
use erl_handshake::{Flag, Flags};
use erl_term::Atom;
use node_frames::{Frame, same_name};
use std::alloc::{AllocError, Global};

impl Node {
    // Returns the side of the connection that is up to a peer.
    fn way(&self, peer: &Atom) -> Option<&Side>
        ensures none { result ≡ None → model.route (seen self.now) peer.now ≡ None }
        ensures trunk { IfSome result (λ side. model.route (seen self.now) peer.now ≡ Some side.now.trunk) }
        ensures peer { IfSome result (λ side. side.now.peer ≡ peer.now) }
        ensures side { IfSome result (λ side. fm.get (seen self.now).sides side.now.trunk ≡ Some (side_of side.now)) }
    {
        let trunk = self.sides.route(peer)?;
        self.sides.get(trunk)
    }

    // Returns true if this node and the peer of the side offer the flag.
    fn both_offer(&self, side: &Side, flag: Flag) -> bool
        ensures { result ≡ model.both_offer flag (seen self.now) (Some (side_of side.now)) }
    {
        self.own.flags.offers(flag) && told_flags(side).offers(flag)
    }
}

impl Node {
    /// Returns true if a process here may monitor one of the node `peer` by its name. It may if no connection to
    /// the peer is up, or if both nodes offer this. (ERTS User's Guide, Distribution Protocol, Distribution Flags,
    /// DFLAG_DIST_MONITOR_NAME.)
    pub fn offers_names(&self, peer: &Atom) -> bool
        ensures { result ≡ model.monitors_names (seen self.now) peer.now }
    {
        if same_name(peer, self.name().atom()) {
            return true;
        }
        match self.way(peer) {
            None => true,
            Some(side) => self.both_offer(side, Flag::DistMonitorName),
        }
    }
}

// Returns the flags that the peer has told. They are none before it has told any.
fn told_flags(side: &Side) -> Flags
    ensures { result ≡ (side_of side.now).introduction.flags }
{
    match side.standing.introduction() {
        Some(introduction) => Flags::from_bits(introduction.flags),
        None => Flags::from_bits(0),
    }
}

// Puts the signal behind the others.
fn keep(local: &mut Vec<Signal>, signal: Signal) -> Result<(), AllocError>
    ensures { OnOk result (local.new.items ≡ local.old.items ++ signal ∷ []) }
{
    local.push(signal)?;
    Ok(())
}

// Puts the signal to the target node into the own list or onto the connection that is up, and tells of it.
fn send(
    local: &mut Vec<Signal>,
    effects: &mut Vec<Effect<Frame>>,
    alloc: Global,
    node: &Node,
    target: &Atom,
    signal: Signal,
) -> Result<(), AllocError>
    requires { is_sendable signal ≡ true }
    ensures { OnOk result (IsSent (seen node.now) (to_node target.now signal) local.old.items local.new.items effects.old.items effects.new.items) }
{
    if same_name(target, node.name().atom()) {
        return match push_signal_here(effects, alloc, node.name(), &signal) {
            Ok(()) => keep(local, signal),
            Err(wanting) => {
                drop(signal);
                Err(wanting)
            }
        };
    }
    match node.way(target) {
        None => {
            drop(signal);
            Ok(())
        }
        Some(side) => {
            let payload = node.both_offer(side, Flag::ExitPayload);
            let sent = push_signal_there(effects, alloc, side, &signal, payload);
            drop(signal);
            sent
        }
    }
}

impl Plan {
    /// Sends a signal to the node `target`: into the own list, onto the connection that is up,
    /// or nowhere. Its reason follows the control term on a connection whose two nodes both offer this.
    /// (Reference Manual, Processes, Delivery of Signals; ERTS User's Guide, Distribution Protocol,
    /// Distribution Flags.)
    ///
    /// # Errors
    /// Where there is no memory for it.
    pub fn post(
        &mut self,
        alloc: Global,
        node: &Node,
        target: &Atom,
        signal: Signal,
    ) -> Result<(), AllocError>
        requires { is_sendable signal ≡ true }
        ensures carries { (work : Work) → CarriesOut self.old (seen node.now) work → Carries (seen node.now) (post (to_node target.now signal) work) self.new result }
        ensures answer { self.new.answer ≡ self.old.answer }
        ensures told { (m : TheNode) → told self.new m ≡ told self.old m }
        ensures change { self.new.change ≡ self.old.change }
        ensures watches { self.new.watches ≡ self.old.watches }
        ensures watchers { self.new.watchers ≡ self.old.watchers }
    {
        send(
            &mut self.local,
            &mut self.effects,
            alloc,
            node,
            target,
            signal,
        )
    }
}
