//! Readers of a world.
ghost use Rattle.std.specs.Prelude.{◌≡◌, true};
ghost use Rattle.std.specs.List.{find};
ghost use Rattle.std.specs.Option.{option_copied, option_map};
ghost use Rattle.dist_model.specs.Names.{same_name};
ghost use Rattle.dist_model.specs.Quiet.{is_quiet, is_up_to, nothing_between};
ghost use Rattle.dist_model.specs.Seen.{end_between, is_connected, local_list};
ghost use Rattle.dist_model.specs.Sides.{is_up};
ghost use Rattle.dist_model.specs.World.{World as TheWorld, node_of};
ghost use Rattle.node_core.specs.Model.{model_of};
ghost use Rattle.node_tables.specs.Standings.{side_of};
ghost use Rattle.world_core.specs.Coming.{is_taken};
ghost use Rattle.world_core.specs.Names.{name_of};
ghost use Rattle.world_core.specs.Quiet.{is_quiet_over, is_quiet_there};
ghost use Rattle.world_core.specs.Stands.{StandsFor};

use crate::lists::Lists;
use crate::world::World;
use conn_core::{Side, Standing};
use erl_names::{NodeName, TrunkId};
use erl_term::{Atom, Pid};
use link_core::End;
use node_core::Node;
use node_frames::same_name;

// Returns the first node of a name.
fn find<'a>(nodes: &'a [Node], name: &Atom) -> Option<&'a Node>
    ensures { option_copied result ≡ find (λ node. same_name (name_of node) name.now) nodes.now }
{
    nodes
        .iter()
        .find(|node| same_name(node.name().atom(), name))
}

// Returns true if there is a side, and it is up towards the peer.
fn is_up_to(side: Option<&Side>, peer: &Atom) -> bool
    ensures { result ≡ is_up_to peer.now (option_map side_of (option_copied side.entry)) }
{
    match side {
        Some(side) => same_name(side.peer.atom(), peer) && is_up(side),
        None => false,
    }
}

fn is_up(side: &Side) -> bool
    ensures { result ≡ is_up (side_of side.now).state }
{
    matches!(side.standing, Standing::Up { .. })
}

impl World {
    /// Returns the nodes, by their places.
    pub fn nodes(&self) -> &[Node]
        ensures { result.now ≡ self.now.nodes.items }
    {
        &self.nodes
    }

    /// Returns the frames in flight between the nodes.
    pub fn lists(&self) -> &Lists
        ensures { result.now ≡ self.now.lists }
    {
        &self.lists
    }

    /// Returns the node of a name.
    pub fn node(&self, name: &Atom) -> Option<&Node>
        ensures { (m : TheWorld) → StandsFor self.now m → option_map model_of (option_copied result) ≡ node_of m.nodes name.now }
    {
        find(&self.nodes, name)
    }

    // Returns the end of a process towards its partner.
    fn end(&self, process: &Pid, partner: &Pid) -> End
        ensures { (m : TheWorld) → StandsFor self.now m → result ≡ end_between m process.now partner.now }
    {
        match self.node(&process.node) {
            Some(node) => node.end(process, partner),
            None => End::None,
        }
    }

    /// Returns both ends of the link between `p` and `q`: that of `p`, and that of `q`. (ERTS User's
    /// Guide, Distribution Protocol, New Link Protocol.)
    pub fn ends(&self, p: &Pid, q: &Pid) -> (End, End)
        ensures { (m : TheWorld) → StandsFor self.now m → result ≡ (end_between m p.now q.now, end_between m q.now p.now) }
    {
        (self.end(p, q), self.end(q, p))
    }

    // Returns true if the node of a name has a connection to the peer that is up, or lost and not yet
    // swept.
    fn is_connected(&self, name: &Atom, peer: &Atom) -> bool
        ensures { (m : TheWorld) → StandsFor self.now m → result ≡ is_connected m name.now peer.now }
    {
        match self.node(name) {
            Some(node) => node.is_connected(peer),
            None => false,
        }
    }

    // Returns true if the connection is up at the node of `q` too, and nothing is in flight on it between
    // the two. `name` is the node of `p`, which takes the frames that come on it.
    fn is_quiet_on(&self, trunk: &TrunkId, name: &NodeName, p: &Pid, q: &Pid) -> bool
        ensures { (m : TheWorld) → StandsFor self.now m → is_taken m trunk.now name.now ≡ true → result ≡ is_quiet_there m name.now p.now q.now trunk.now }
    {
        let Some(there) = self.node(&q.node) else {
            return false;
        };
        if !is_up_to(there.side(trunk), &p.node) {
            return false;
        }
        if !self.lists.has_nothing_between(trunk, name, p, q) {
            return false;
        }
        self.lists.has_nothing_between(trunk, there.name(), p, q)
    }

    // Returns true if a connection is up between the two nodes, and nothing is in flight on it between the
    // two processes.
    fn is_quiet_over(&self, p: &Pid, q: &Pid) -> bool
        ensures { (m : TheWorld) → StandsFor self.now m → result ≡ is_quiet_over m p.now q.now }
    {
        let Some(here) = self.node(&p.node) else {
            return false;
        };
        match here.route(&q.node) {
            Some(trunk) => self.is_quiet_on(trunk, here.name(), p, q),
            None => false,
        }
    }

    // Returns true if nothing is in flight between two processes of one node.
    fn is_quiet_within(&self, p: &Pid, q: &Pid) -> bool
        ensures { (m : TheWorld) → StandsFor self.now m → result ≡ nothing_between p.now q.now (local_list m p.now.node) }
    {
        match self.node(&p.node) {
            Some(node) => node.has_nothing_between(p, q),
            None => true,
        }
    }

    /// Returns true if nothing is in flight between `p` and `q`: within their node; on the connection
    /// that is up at both nodes; or because the nodes aren't connected. (Reference Manual, Processes,
    /// Delivery of Signals.)
    pub fn quiet(&self, p: &Pid, q: &Pid) -> bool
        ensures { (m : TheWorld) → StandsFor self.now m → result ≡ is_quiet m p.now q.now }
    {
        if same_name(&p.node, &q.node) {
            return self.is_quiet_within(p, q);
        }
        self.is_quiet_over(p, q)
            || (!self.is_connected(&p.node, &q.node) && !self.is_connected(&q.node, &p.node))
    }
}
