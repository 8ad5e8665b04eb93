//! The nodes of a world by their names.
ghost use Rattle.std.specs.Prelude.{◌≡◌, position};
ghost use Rattle.std.specs.List.{list_any};
ghost use Rattle.std.specs.Str.{bytes_eq};
ghost use Rattle.dist_model.specs.Dialing.{has_name};
ghost use Rattle.dist_model.specs.Names.{same_name};
ghost use Rattle.dist_model.specs.World.{World as TheWorld};
ghost use Rattle.world_core.specs.Names.{name_of, names_of};
ghost use Rattle.world_core.specs.Ran.{Came};
ghost use Rattle.node_core.specs.NodeEvents.{event_at};
ghost use Rattle.world_core.specs.Stands.{StandsFor};

use crate::event::Event;
use crate::world::World;
use dist_model::Report;
use erl_term::{Atom, Refusal};
use node_core::{Node, NodeEvent};
use node_frames::{Frame, same_name};
use std::alloc::Global;

// Returns true if one of the nodes has the name that a text spells.
fn is_one_named(nodes: &[Node], name: &str) -> bool
    ensures { result ≡ list_any (λ node. bytes_eq name.now (name_of node)) nodes.now }
{
    nodes.iter().any(|node| name == node.name().text())
}

/// Returns the place of the first node of a name.
pub(crate) fn place_of(nodes: &[Node], name: &Atom) -> Option<usize>
    ensures { result ≡ position (λ node. same_name (name_of node) name.now) nodes.now }
{
    nodes
        .iter()
        .position(|node| same_name(node.name().atom(), name))
}

impl World {
    /// Returns true if one of the nodes has the name that a text spells. Allocates nothing.
    pub fn has_name(&self, name: &str) -> bool
        ensures { result ≡ has_name name.now (names_of self.now.nodes.items) }
    {
        is_one_named(&self.nodes, name)
    }

    /// Something happens at the node of a name: as [`World::apply`], for the node's place.
    ///
    /// # Errors
    /// [`Refusal::NothingThere`] where no node has the name, and else as `apply`. Then nothing has changed.
    pub fn apply_at(
        &mut self,
        alloc: Global,
        name: &Atom,
        event: NodeEvent,
    ) -> Result<Report<Frame>, Refusal>
        ensures { (m : TheWorld) → StandsFor self.old m → Came self.new m (event_at name.now event) result }
    {
        match place_of(&self.nodes, name) {
            Some(node) => self.apply(alloc, Event { node, event }),
            None => {
                drop(event);
                Err(Refusal::NothingThere)
            }
        }
    }
}
