//! A new node, and the queries of a node.
ghost use Rattle.std.specs.Prelude.{◌≡◌, ◌↔◌, IfOk, IsTrue, T, is_some, map};
ghost use Rattle.std.specs.FinMap as fm;
ghost use Rattle.std.specs.Option.{option_copied, option_map};
ghost use Rattle.dist_model.specs.Losses.{any_side};
ghost use Rattle.dist_model.specs.Naming.{name_of};
ghost use Rattle.dist_model.specs.Node.{end_of, ends_of, living, route, side_where};
ghost use Rattle.dist_model.specs.Quiet.{nothing_between};
ghost use Rattle.dist_model.specs.Runs.{new_node};
ghost use Rattle.dist_model.specs.Sides.{holds, is_losing};
ghost use Rattle.dist_model.specs.World.{first_of};
ghost use Rattle.node_connections.specs.Fronts.{IsWhole};
ghost use Rattle.node_core.specs.Model.{model_of};
ghost use Rattle.node_plan.specs.OwnList.{own_item};
ghost use Rattle.node_tables.specs.Passing.{passes};
ghost use Rattle.node_tables.specs.Standings.{side_of};
ghost use Rattle.node_tables.specs.Lives.{life_of};
ghost use Rattle.erl_term.specs.Order.{pid_cmp};
ghost use Rattle.sorted_map.specs.Entries.{next};

use crate::node::Node;
use conn_core::Side;
use erl_control::Signal;
use erl_handshake::Setup;
use erl_names::{Mint, NodeName, TrunkId};
use erl_term::{Atom, Pid};
use link_core::End;
use monitor_core::{Watchers, Watches};
use node_connections::{Sweeping, is_whole};
use node_plan::Node as State;
use node_tables::{Life, Which};
use std::alloc::{AllocError, Global};
use std::collections::VecDeque;

impl Node {
    /// Returns a running node of `name` and `setup`, in its first incarnation. (Reference Manual,
    /// Distributed Erlang, Nodes.)
    ///
    /// # Errors
    /// [`AllocError`] if out of memory.
    pub fn new(alloc: Global, name: NodeName, setup: Setup) -> Result<Node, AllocError>
        ensures { IfOk result (λ node. model_of node ≡ new_node name setup) }
    {
        Ok(Node {
            state: State::new(alloc, name, setup)?,
            sweeping: Sweeping::new(),
        })
    }

    /// Returns the name of the node.
    pub fn name(&self) -> &NodeName
        ensures { result.now ≡ (model_of self.now).mint.name }
    {
        self.state.name()
    }

    /// Returns true if the node runs.
    pub fn is_up(&self) -> bool
        ensures { result ≡ (model_of self.now).up }
    {
        self.state.is_up()
    }

    /// Returns the creation of its incarnation. (ERTS User's Guide, Distribution Protocol, Distribution
    /// Handshake, on creations.)
    pub fn creation(&self) -> u32
        ensures { result ≡ (model_of self.now).mint.creation }
    {
        self.state.mint().creation().number()
    }

    /// Returns the mint of its incarnation: the numbers that it has drawn. (Reference Manual, Processes; ERTS
    /// User's Guide, Distribution Protocol, New Link Protocol.)
    pub fn mint(&self) -> &Mint
        ensures { result.now ≡ (model_of self.now).mint }
    {
        self.state.mint()
    }

    /// Returns the number of connections that it has ever dialed.
    pub fn dialed(&self) -> u64
        ensures { result ≡ (model_of self.now).dialed }
    {
        self.state.dialed()
    }

    /// Returns the number of processes that its incarnation has spawned. Their ids are 1 to that number.
    pub fn spawned(&self) -> u32
        ensures { result ≡ (model_of self.now).mint.pids }
    {
        self.state.mint().pids()
    }

    /// Returns the life of a process: living, or ended for a reason. [`None`] if there is none. (Reference
    /// Manual, Processes.)
    pub fn life(&self, process: &Pid) -> Option<&Life>
        ensures { fm.get (model_of self.now).lives process.now ≡ option_map life_of (option_copied result) }
    {
        self.state.life(process)
    }

    /// Returns the process that has a registered name. Takes time logarithmic in the number of names.
    /// (Reference Manual, Processes, Registered Processes.)
    pub fn holder(&self, name: &Atom) -> Option<&Pid>
        ensures { option_copied result ≡ fm.get (model_of self.now).names name.now }
    {
        self.state.holder(name)
    }

    /// Returns the registered name of a process, if it has one. (Reference Manual, Processes, Registered
    /// Processes.)
    pub fn name_of(&self, process: &Pid) -> Option<&Atom>
        ensures { option_copied result ≡ option_map (λ entry. entry.0) (name_of (model_of self.now).names process.now) }
    {
        self.state.name_of(process)
    }

    /// Returns true if a process is living here.
    pub fn is_living(&self, process: &Pid) -> bool
        ensures { result ≡ living (model_of self.now) process.now }
    {
        self.state.is_living(process)
    }

    /// Returns the end that a process has of its link to a partner. (ERTS User's Guide, Distribution
    /// Protocol, New Link Protocol.)
    pub fn end(&self, process: &Pid, partner: &Pid) -> End
        ensures { result ≡ end_of (model_of self.now) process.now partner.now }
    {
        self.state.end(process, partner)
    }

    /// Returns the first partner of a process behind the partner `behind`, in the order of the partners, and
    /// the end towards it. [`None`] if there is none, or if the process isn't living. Takes time logarithmic
    /// in the number of its links. (ERTS User's Guide, Distribution Protocol, New Link Protocol.)
    pub fn next_link(&self, process: &Pid, behind: Option<&Pid>) -> Option<&(Pid, End)>
        ensures link { option_copied result ≡ next pid_cmp (option_copied behind.entry) (ends_of (model_of self.now) process.now) }
        ensures sorted { T (fm.is_sorted pid_cmp (ends_of (model_of self.now) process.now)) }
    {
        self.state.next_link(process, behind)
    }

    /// Returns the monitors that processes of the node own. (Reference Manual, Processes, Monitors.)
    pub fn watches(&self) -> &Watches
        ensures { result.now.monitors ≡ (model_of self.now).watches }
    {
        self.state.watches()
    }

    /// Returns the monitors that others have of processes of the node. (Reference Manual, Processes,
    /// Monitors.)
    pub fn watchers(&self) -> &Watchers
        ensures { result.now.monitors ≡ (model_of self.now).registered }
    {
        self.state.watchers()
    }

    /// Returns true if nothing is in flight between two processes of the node.
    pub fn has_nothing_between(&self, p: &Pid, q: &Pid) -> bool
        ensures { result ≡ nothing_between p.now q.now (model_of self.now).local }
    {
        self.state.has_nothing_between(p, q)
    }

    /// Returns the side of the connection `trunk`. A side that is gone may stand for several connections, so
    /// its own `trunk` may be another one that is gone. (ERTS User's Guide, Distribution Protocol.)
    pub fn side(&self, trunk: &TrunkId) -> Option<&Side>
        ensures { option_map side_of (option_copied result) ≡ fm.get (model_of self.now).sides trunk.now }
    {
        self.state.side(trunk)
    }

    /// Returns true if `bytes`, which come on `trunk`, begin with a whole item for the node's side, or with a
    /// front of no item. Then [`Node::arrive`] asks for no more of them. A node without a side reads as the
    /// dialed node does. One whose side is lost or gone reads nothing, and asks for no bytes. Never
    /// allocates. (ERTS User's Guide, Distribution Protocol, Distribution Handshake and Protocol between
    /// Connected Nodes.)
    pub fn whole(&self, trunk: &TrunkId, bytes: &[u8]) -> bool
        ensures { IsTrue result ↔ IsWhole (fm.get (model_of self.now).sides trunk.now) bytes.now }
    {
        is_whole(&self.state, trunk, bytes)
    }

    /// Returns the connection that is up to a peer, if there is one.
    pub fn route(&self, peer: &Atom) -> Option<&TrunkId>
        ensures { option_copied result ≡ route (model_of self.now) peer.now }
    {
        self.state.route(peer)
    }

    /// Returns the first connection to `peer`, or attempt at one, that passes `which`.
    pub fn first_towards(&self, peer: &Atom, which: Which) -> Option<&TrunkId>
        ensures { option_copied result ≡ option_map (λ entry. entry.0) (side_where (passes which) peer.now (fm.entries (model_of self.now).sides)) }
    {
        match self.state.first_towards(peer, which) {
            Some(side) => Some(&side.trunk),
            None => None,
        }
    }

    /// Returns the signals in flight from the node to itself, the first to come first. (Reference Manual,
    /// Processes, Delivery of Signals.)
    pub fn local_signals(&self) -> &VecDeque<Signal>
        ensures { map own_item result.now.items ≡ (model_of self.now).local }
    {
        self.state.local()
    }

    /// Returns true if a signal is in flight from the node to itself. (Reference Manual, Processes,
    /// Delivery of Signals.)
    pub fn has_local(&self) -> bool
        ensures { result ≡ is_some (first_of (model_of self.now).local) }
    {
        self.state.first_local().is_some()
    }

    /// Returns true if a connection is lost, and the node's records of it aren't swept yet.
    pub fn is_losing(&self) -> bool
        ensures { result ≡ is_some (any_side is_losing (fm.entries (model_of self.now).sides)) }
    {
        self.state.first_losing().is_some()
    }

    /// Returns true if there is a connection to a peer that is up, or lost and not yet swept.
    pub fn is_connected(&self, peer: &Atom) -> bool
        ensures { result ≡ is_some (side_where holds peer.now (fm.entries (model_of self.now).sides)) }
    {
        self.state.first_towards(peer, Which::Holding).is_some()
    }
}
