//! One event of a world.
ghost use Rattle.std.specs.Prelude.{◌≡◌, ℕ};
ghost use Rattle.std.specs.List.{list_any};
ghost use Rattle.dist_model.specs.Dialing.{has_name};
ghost use Rattle.dist_model.specs.Names.{Name, same_name};
ghost use Rattle.dist_model.specs.World.{World as TheWorld};
ghost use Rattle.world_core.specs.Names.{name_of, names_of};
ghost use Rattle.world_core.specs.Ran.{Came, event_in};
ghost use Rattle.world_core.specs.Stands.{StandsFor};
ghost use Rattle.node_core.specs.declared.node_event.NodeEvent.TheVariants as happens;

use crate::event::Event;
use crate::forgetting::ended_by;
use crate::happening::happen;
use crate::world::World;
use dist_model::Report;
use erl_names::NodeName;
use erl_term::Refusal;
use node_core::{Node, NodeEvent};
use node_frames::{Frame, same_name};
use std::alloc::Global;

// Returns true if one of the nodes has this name.
fn has_node(nodes: &[Node], name: &NodeName) -> bool
    ensures { result ≡ list_any (λ node. same_name name.now (name_of node)) nodes.now }
{
    nodes
        .iter()
        .any(|node| same_name(name.atom(), node.name().atom()))
}

// Returns true unless the event dials a name that no node has.
fn is_known(nodes: &[Node], event: &NodeEvent) -> bool
    ensures { (peer : Name) (word : ℕ) → event.now ≡ happens.Dial peer word → has_name peer (names_of nodes.now) ≡ result }
{
    match event {
        NodeEvent::Dial { peer, .. } => has_node(nodes, peer),
        _ => true,
    }
}

impl World {
    // Applies an event. Frames that aren't taken any more stay.
    fn apply_one(&mut self, alloc: Global, event: Event) -> Result<Report<Frame>, Refusal>
        ensures { (m : TheWorld) → StandsFor self.old m → Came self.new m (event_in m.names event) result }
    {
        let Event { node, event } = event;
        let is_known = is_known(&self.nodes, &event);
        if node >= self.nodes.len() {
            drop(event);
            return Err(Refusal::NothingThere);
        }
        happen(
            alloc,
            &mut self.nodes[node],
            &mut self.lists,
            is_known,
            event,
        )
    }

    /// Applies an event at the node of its place: the node reports or refuses, and the items that
    /// it sends are appended to those in flight. (ERTS User's Guide, Distribution Protocol;
    /// Reference Manual, Processes; Distributed Erlang.)
    ///
    /// # Errors
    /// [`Refusal::NothingThere`] if there is no node at the place, else the node's refusal, else
    /// [`Refusal::OutOfMemory`]. On error nothing changes.
    pub fn apply(&mut self, alloc: Global, event: Event) -> Result<Report<Frame>, Refusal>
        ensures { (m : TheWorld) → StandsFor self.old m → Came self.new m (event_in m.names event) result }
    {
        let ended = ended_by(&event);
        let answer = self.apply_one(alloc, event);
        if let Some((place, trunk)) = ended {
            self.drop_lost(alloc, place, &trunk);
        }
        answer
    }
}
