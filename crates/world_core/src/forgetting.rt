//! Frames that a node doesn't take any more.
ghost use Rattle.std.specs.Prelude.{◌≡◌, ◌&&◌, [], IfSome, false, if◌then◌else◌, not};
ghost use Rattle.std.specs.FinMap as fm;
ghost use Rattle.std.specs.Ordering.{eq_by_cmp};
ghost use Rattle.dist_model.specs.Names.{Name, place_cmp};
ghost use Rattle.dist_model.specs.World.{World as TheWorld};
ghost use Rattle.erl_names.specs.declared.trunk.TrunkId.{TrunkId as TheTrunk};
ghost use Rattle.node_core.specs.Model.{model_of};
ghost use Rattle.world_core.specs.Coming.{takes as takes_at};
ghost use Rattle.world_core.specs.Stands.{StandsFor};
ghost use Rattle.world_core.specs.Lists.{at};

use crate::arriving::takes;
use crate::event::Event;
use crate::lists::Lists;
use crate::naming::place_of;
use crate::world::World;
use erl_names::TrunkId;
use node_core::{Node, NodeEvent};
use std::alloc::Global;

/// Returns the place of an event, and the connection on which it may end a side.
pub(crate) fn ended_by(event: &Event) -> Option<(usize, TrunkId)>
    ensures { IfSome result (λ found. found.0 ≡ event.now.node) }
{
    let trunk = match &event.event {
        NodeEvent::Arrive { trunk, .. } => trunk,
        NodeEvent::Lose(trunk) => trunk,
        _ => return None,
    };
    match trunk.clone() {
        Ok(trunk) => Some((event.node, trunk)),
        Err(_) => None,
    }
}

// Drops the frames that travel to the node on the connection, unless the node takes them.
fn drop_refused(alloc: Global, lists: &mut Lists, node: &Node, trunk: &TrunkId)
    ensures { (t : TheTrunk) (x : Name) → at lists.new t x ≡ (if not (takes_at (fm.get (model_of node.now).sides trunk.now)) && eq_by_cmp place_cmp (t, x) (trunk.now, (model_of node.now).mint.name) then [] else at lists.old t x) }
{
    if !takes(node.side(trunk)) {
        lists.drop_queue(alloc, trunk, node.name());
    }
}

// Returns the first connection on which something travels to the node, unless the node takes from it.
fn first_refused(lists: &Lists, node: &Node) -> Option<TrunkId>
    ensures { IfSome result (λ trunk. takes_at (fm.get (model_of node.now).sides trunk) ≡ false) }
{
    let (trunk, _) = lists.line(node.name()).first()?;
    if takes(node.side(trunk)) {
        return None;
    }
    match trunk.clone() {
        Ok(trunk) => Some(trunk),
        Err(_) => None,
    }
}

// Returns the place of the peer on the connection, if the side of the node is over.
fn lost_peer(nodes: &[Node], node: &Node, trunk: &TrunkId) -> Option<usize>
    ensures { IfSome result (λ place. takes_at (fm.get (model_of node.now).sides trunk.now) ≡ false) }
{
    let side = node.side(trunk)?;
    if takes(Some(side)) {
        return None;
    }
    place_of(nodes, side.peer.atom())
}

impl World {
    // Drops the frames that travel to the node of the place on the connection, unless the node takes them.
    fn drop_refused_at(&mut self, alloc: Global, place: usize, trunk: &TrunkId)
        ensures { (m : TheWorld) → StandsFor self.old m → StandsFor self.new m }
    {
        if place < self.nodes.len() {
            drop_refused(alloc, &mut self.lists, &self.nodes[place], trunk);
        }
    }

    // Drops the frames that travel on the connection to the node of the place and to its peer, if the
    // side of the node is over. Frames that one of the two takes stay.
    fn drop_ended(&mut self, alloc: Global, place: usize, trunk: &TrunkId)
        ensures { (m : TheWorld) → StandsFor self.old m → StandsFor self.new m }
    {
        if place >= self.nodes.len() {
            return;
        }
        if let Some(peer) = lost_peer(&self.nodes, &self.nodes[place], trunk) {
            self.drop_refused_at(alloc, place, trunk);
            self.drop_refused_at(alloc, peer, trunk);
        }
    }

    /// Drops frames that aren't taken any more, after an event that may have ended a side of the node of
    /// the place. It looks at that connection, to both its nodes, and at the first connection to the node
    /// on which something travels. Takes no memory.
    pub(crate) fn drop_lost(&mut self, alloc: Global, place: usize, trunk: &TrunkId)
        ensures { (m : TheWorld) → StandsFor self.old m → StandsFor self.new m }
    {
        self.drop_ended(alloc, place, trunk);
        if place >= self.nodes.len() {
            return;
        }
        if let Some(first) = first_refused(&self.lists, &self.nodes[place]) {
            self.drop_refused_at(alloc, place, &first);
        }
    }
}
