//! The events of a node. Each `plan_*` call fills a [`Planned`] of the caller and reserves
//! capacity; [`Node::commit`] applies it. The other calls do both.
ghost use Rattle.std.specs.Prelude.{◌≡◌, List, OnOk, true, false, Err};
ghost use Rattle.std.specs.FinMap as fm;
ghost use Rattle.dist_model.specs.Dialing.{has_name};
ghost use Rattle.dist_model.specs.Names.{Name};
ghost use Rattle.dist_model.specs.NodeEvents as event;
ghost use Rattle.dist_model.specs.NodeEvents.{at_node};
ghost use Rattle.erl_term.specs.declared.refusal.Refusal.TheVariants as refusal;
ghost use Rattle.node_connections.specs.Coming.{PlansBytes};
ghost use Rattle.node_core.specs.Arrived.{DoesArrived, arrives, is_undialed};
ghost use Rattle.node_core.specs.Begun.{IsNew, IsTaking};
ghost use Rattle.node_core.specs.Done.{Does};
ghost use Rattle.node_core.specs.Model.{IsFor, model_of};
ghost use Rattle.node_plan.specs.Planned.{Plans};

use crate::arriving::{Arrived, plan_arrival};
use crate::calling::plan_call;
use crate::dialing::plan_dial;
use crate::incarnations::{start, stop};
use crate::losing::plan_loss;
use crate::node::Node;
use crate::own_list::plan_local;
use crate::planned::Planned;
use crate::sweeping::plan_sweep;
use dist_model::{Command, Report};
use erl_names::{NodeName, TrunkId};
use erl_term::Refusal;
use node_connections::Sweeping;
use node_frames::Frame;
use std::alloc::Global;

impl Node {
    /// Plans `command` into the new `planned`. Changes only the node's capacity. (Reference
    /// Manual, Processes.)
    ///
    /// # Errors
    /// The model's refusal of the command, else [`Refusal::OutOfMemory`]. On error the node is
    /// unchanged but for its capacity, and `planned` can only be dropped.
    pub fn plan_call(
        &mut self,
        alloc: Global,
        planned: &mut Planned,
        command: Command,
    ) -> Result<(), Refusal>
        requires { IsNew planned.old }
        ensures same { model_of self.new ≡ model_of self.old }
        ensures plan { (names : List Name) → Plans (model_of self.old) (at_node names (model_of self.old) (event.Call command)) planned.new.plan result }
        ensures suits { OnOk result (IsFor self.new planned.new) }
    {
        plan_call(alloc, &mut self.state, planned, command)
    }

    /// Runs `command`: plans it and commits the plan. (Reference Manual, Processes.)
    ///
    /// # Errors
    /// Those of [`Node::plan_call`]. On error nothing changes.
    pub fn call(&mut self, alloc: Global, command: Command) -> Result<Report<Frame>, Refusal>
        ensures { (names : List Name) → Does (at_node names (model_of self.old) (event.Call command)) (model_of self.old) (model_of self.new) result }
    {
        let mut planned = Planned::new(alloc);
        let made = self.plan_call(alloc, &mut planned, command);
        self.finish(alloc, planned, made)
    }

    /// Plans the delivery of the first signal in flight from the node to itself, into a `planned`
    /// of [`Planned::taking`]. Changes only the node's capacity. (Reference Manual, Processes,
    /// Delivery of Signals.)
    ///
    /// # Errors
    /// [`Refusal::NodeDown`] if the node is down, else [`Refusal::NothingThere`] if no signal is
    /// in flight, else [`Refusal::OutOfMemory`]. On error the node is unchanged but for its
    /// capacity, and `planned` can only be dropped.
    pub fn plan_local(&mut self, alloc: Global, planned: &mut Planned) -> Result<(), Refusal>
        requires { IsTaking planned.old }
        ensures same { model_of self.new ≡ model_of self.old }
        ensures plan { (names : List Name) → Plans (model_of self.old) (at_node names (model_of self.old) event.Local) planned.new.plan result }
        ensures suits { OnOk result (IsFor self.new planned.new) }
    {
        plan_local(alloc, &mut self.state, planned)
    }

    /// Delivers the first signal in flight from the node to itself: plans it and commits the plan.
    /// (Reference Manual, Processes, Delivery of Signals.)
    ///
    /// # Errors
    /// Those of [`Node::plan_local`]. On error nothing changes.
    pub fn local(&mut self, alloc: Global) -> Result<Report<Frame>, Refusal>
        ensures { (names : List Name) → Does (at_node names (model_of self.old) event.Local) (model_of self.old) (model_of self.new) result }
    {
        let mut planned = Planned::taking(alloc);
        let made = self.plan_local(alloc, &mut planned);
        self.finish(alloc, planned, made)
    }

    /// Plans the loss of the connection `trunk`, or the end of the attempt at it, into the new
    /// `planned`. Changes only the node's capacity. (Reference Manual, Distributed Erlang.)
    ///
    /// # Errors
    /// [`Refusal::NodeDown`] if the node is down, else [`Refusal::NotLive`] if there is nothing to
    /// lose, else [`Refusal::OutOfMemory`]. On error the node is unchanged but for its capacity,
    /// and `planned` can only be dropped.
    pub fn plan_loss(&mut self, planned: &mut Planned, trunk: &TrunkId) -> Result<(), Refusal>
        requires { IsNew planned.old }
        ensures same { model_of self.new ≡ model_of self.old }
        ensures plan { (names : List Name) → Plans (model_of self.old) (at_node names (model_of self.old) (event.Lose trunk.now)) planned.new.plan result }
        ensures suits { OnOk result (IsFor self.new planned.new) }
    {
        plan_loss(&mut self.state, planned, trunk)
    }

    /// Notices the loss of the connection `trunk`, or gives up the attempt at it: plans it and
    /// commits the plan. [`Node::sweep`] then removes the records of the processes beyond, one at
    /// a time. (Reference Manual, Distributed Erlang.)
    ///
    /// # Errors
    /// Those of [`Node::plan_loss`]. On error nothing changes.
    pub fn lose(&mut self, alloc: Global, trunk: &TrunkId) -> Result<Report<Frame>, Refusal>
        ensures { (names : List Name) → Does (at_node names (model_of self.old) (event.Lose trunk.now)) (model_of self.old) (model_of self.new) result }
    {
        let mut planned = Planned::new(alloc);
        let made = self.plan_loss(&mut planned, trunk);
        self.finish(alloc, planned, made)
    }

    /// Plans the removal of the least record of a lost connection, into the new `planned`: a link,
    /// else an own monitor, else a monitor of a process here. With no record left, the
    /// connection's side is closed. Changes only the node's capacity. (Reference Manual,
    /// Processes, Links and Monitors; one record at a time is own.)
    ///
    /// # Errors
    /// [`Refusal::NodeDown`] if the node is down, else [`Refusal::NothingThere`] if no connection
    /// is lost, else [`Refusal::OutOfMemory`]. On error the node is unchanged but for its
    /// capacity, and `planned` can only be dropped.
    pub fn plan_sweep(&mut self, alloc: Global, planned: &mut Planned) -> Result<(), Refusal>
        requires { IsNew planned.old }
        ensures same { model_of self.new ≡ model_of self.old }
        ensures plan { (names : List Name) → Plans (model_of self.old) (at_node names (model_of self.old) event.Sweep) planned.new.plan result }
        ensures suits { OnOk result (IsFor self.new planned.new) }
    {
        plan_sweep(alloc, &mut self.state, planned, &self.sweeping)
    }

    /// Removes the least record of a lost connection: plans it and commits the plan. (Reference
    /// Manual, Processes, Links and Monitors; one record at a time is own.)
    ///
    /// # Errors
    /// Those of [`Node::plan_sweep`]. On error nothing changes.
    pub fn sweep(&mut self, alloc: Global) -> Result<Report<Frame>, Refusal>
        ensures { (names : List Name) → Does (at_node names (model_of self.old) event.Sweep) (model_of self.old) (model_of self.new) result }
    {
        let mut planned = Planned::new(alloc);
        let made = self.plan_sweep(alloc, &mut planned);
        self.finish(alloc, planned, made)
    }

    /// Plans a dial of the node `peer` into the new `planned`, with `word` as the challenge.
    /// `is_known` tells if the world has a node of this name. Changes only the node's capacity.
    /// (ERTS User's Guide, Distribution Protocol, Distribution Handshake.)
    ///
    /// # Errors
    /// The first that fits: [`Refusal::NodeDown`] if the node is down, [`Refusal::SelfDial`],
    /// [`Refusal::NothingThere`] if `peer` isn't known, [`Refusal::Busy`] if there is a connection
    /// to it or an attempt at one, [`Refusal::IdsUsedUp`], [`Refusal::OutOfMemory`]. On error the
    /// node is unchanged but for its capacity, and `planned` can only be dropped.
    pub fn plan_dial(
        &mut self,
        alloc: Global,
        planned: &mut Planned,
        is_known: bool,
        peer: &NodeName,
        word: u32,
    ) -> Result<(), Refusal>
        requires { IsNew planned.old }
        ensures same { model_of self.new ≡ model_of self.old }
        ensures plan { (names : List Name) → has_name peer.now names ≡ is_known →
            Plans (model_of self.old) (at_node names (model_of self.old) (event.Dial peer.now word)) planned.new.plan result }
        ensures suits { OnOk result (IsFor self.new planned.new) }
    {
        plan_dial(alloc, &mut self.state, planned, is_known, peer, word)
    }

    /// Dials the node `peer`: plans it and commits the plan. (ERTS User's Guide, Distribution
    /// Protocol, Distribution Handshake.)
    ///
    /// # Errors
    /// Those of [`Node::plan_dial`]. On error nothing changes.
    pub fn dial(
        &mut self,
        alloc: Global,
        is_known: bool,
        peer: &NodeName,
        word: u32,
    ) -> Result<Report<Frame>, Refusal>
        ensures { (names : List Name) → has_name peer.now names ≡ is_known → Does (at_node names (model_of self.old) (event.Dial peer.now word)) (model_of self.old) (model_of self.new) result }
    {
        let mut planned = Planned::new(alloc);
        let made = self.plan_dial(alloc, &mut planned, is_known, peer, word);
        self.finish(alloc, planned, made)
    }

    /// Plans the arrival of the item at the front of `bytes` on the connection `trunk`, into the
    /// new `planned`. Returns the item's length in bytes; a malformed item breaks the side and has
    /// length 0. `word` is the challenge of a new side. Changes only the node's capacity. (ERTS
    /// User's Guide, Distribution Protocol.)
    ///
    /// # Errors
    /// The first that fits: [`Refusal::NodeDown`] if the node is down; [`Refusal::NotLive`] if the
    /// side is lost or gone, or if there is none and the node itself would have dialed or no
    /// message is whole yet; [`Refusal::NothingThere`] if no item is whole yet;
    /// [`Refusal::OutOfMemory`]. On error the node is unchanged but for its capacity, and
    /// `planned` can only be dropped.
    pub fn plan_arrival(
        &mut self,
        alloc: Global,
        planned: &mut Planned,
        trunk: &TrunkId,
        bytes: &[u8],
        word: u32,
    ) -> Result<usize, Refusal>
        requires { IsNew planned.old }
        ensures same { model_of self.new ≡ model_of self.old }
        ensures down { (model_of self.old).up ≡ false → result ≡ Err refusal.NodeDown }
        ensures undialed { let m = model_of self.old in m.up ≡ true → is_undialed m trunk.now (fm.get m.sides trunk.now) ≡ true → result ≡ Err refusal.NotLive }
        ensures came { let m = model_of self.old in m.up ≡ true → is_undialed m trunk.now (fm.get m.sides trunk.now) ≡ false →
            PlansBytes m (fm.get m.sides trunk.now) bytes.now (λ front. arrives m trunk.now front word) planned.new.plan result }
        ensures suits { OnOk result (IsFor self.new planned.new) }
    {
        plan_arrival(alloc, &mut self.state, planned, trunk, bytes, word)
    }

    /// Takes the item at the front of `bytes` on the connection `trunk`: plans its arrival and
    /// commits the plan. (ERTS User's Guide, Distribution Protocol.)
    ///
    /// # Errors
    /// Those of [`Node::plan_arrival`]. On error nothing changes.
    pub fn arrive(
        &mut self,
        alloc: Global,
        trunk: &TrunkId,
        bytes: &[u8],
        word: u32,
    ) -> Result<Arrived, Refusal>
        ensures down { (model_of self.old).up ≡ false → (result ≡ Err refusal.NodeDown) × (model_of self.new ≡ model_of self.old) }
        ensures undialed { let m = model_of self.old in m.up ≡ true → is_undialed m trunk.now (fm.get m.sides trunk.now) ≡ true →
            (result ≡ Err refusal.NotLive) × (model_of self.new ≡ m) }
        ensures came { let m = model_of self.old in m.up ≡ true → is_undialed m trunk.now (fm.get m.sides trunk.now) ≡ false →
            DoesArrived m (model_of self.new) trunk.now bytes.now word result }
    {
        let mut planned = Planned::new(alloc);
        match self.plan_arrival(alloc, &mut planned, trunk, bytes, word) {
            Ok(len) => Ok(Arrived {
                report: self.commit(alloc, planned),
                len,
            }),
            Err(e) => {
                drop(planned);
                Err(e)
            }
        }
    }

    /// Stops the node: it drops its processes and its connections. Allocates nothing. (ERTS User's
    /// Guide, Distribution Protocol, Distribution Handshake, on creations.)
    ///
    /// # Errors
    /// [`Refusal::NodeDown`] if the node is down. On error nothing changes.
    pub fn stop(&mut self, alloc: Global) -> Result<Report<Frame>, Refusal>
        ensures { (names : List Name) → Does (at_node names (model_of self.old) event.Stop) (model_of self.old) (model_of self.new) result }
    {
        self.sweeping = Sweeping::new();
        stop(alloc, &mut self.state)
    }

    /// Starts a stopped node in its next incarnation. The answer has the new creation. Allocates
    /// nothing. (ERTS User's Guide, Distribution Protocol, Distribution Handshake, on creations.)
    ///
    /// # Errors
    /// [`Refusal::NodeUp`] if the node is up, else [`Refusal::IdsUsedUp`] after the last
    /// incarnation. On error nothing changes.
    pub fn start(&mut self, alloc: Global) -> Result<Report<Frame>, Refusal>
        ensures { (names : List Name) → Does (at_node names (model_of self.old) event.Start) (model_of self.old) (model_of self.new) result }
    {
        self.sweeping = Sweeping::new();
        start(alloc, &mut self.state)
    }
}
