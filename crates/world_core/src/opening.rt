//! A world in which nothing has happened yet.
ghost use Rattle.std.specs.Prelude.{◌≡◌, ◌++◌, [], ◌∷◌, List, ℕ, IfOk, OnErr, OnOk, false, map, true};
ghost use Rattle.std.specs.List.{list_any};
ghost use Rattle.dist_model.specs.Dialing.{has_name};
ghost use Rattle.dist_model.specs.Names.{Name, same_name};
ghost use Rattle.dist_model.specs.Runs.{new_node, opening};
ghost use Rattle.dist_model.specs.World.{World as TheWorld};
ghost use Rattle.node_core.specs.Model.{model_of};
ghost use Rattle.world_core.specs.Names.{are_distinct, names_of};
ghost use Rattle.world_core.specs.Stands.{StandsFor};

use crate::lists::Lists;
use crate::world::World;
use erl_handshake::Setup;
use erl_names::NodeName;
use node_core::Node;
use node_frames::same_name;
use std::alloc::{AllocError, Global};

// Appends a new node of this name and setup.
fn push_node(
    alloc: Global,
    made: &mut Vec<Node>,
    name: NodeName,
    setup: Setup,
) -> Result<(), AllocError>
    ensures { OnOk result (map model_of made.new.items ≡ map model_of made.old.items ++ (new_node name setup ∷ [])) }
{
    made.push(Node::new(alloc, name, setup)?)?;
    Ok(())
}

// Appends new nodes of these names and setups. Each has a name.
fn make(
    alloc: Global,
    made: &mut Vec<Node>,
    nodes: Vec<(NodeName, Setup)>,
) -> Result<(), AllocError>
    ensures made { OnOk result (map model_of made.new.items ≡ map model_of made.old.items ++ map (λ node. new_node node.0 node.1) nodes.items) }
    ensures named { OnOk result (has_name [] (map (λ node. node.0) nodes.items) ≡ false) }
{
    for (name, setup) in nodes {
        name.text();
        push_node(alloc, made, name, setup)?;
    }
    Ok(())
}

// Returns true if one of the nodes has this name.
fn has_name(nodes: &[(NodeName, Setup)], name: &NodeName) -> bool
    ensures { result ≡ list_any (λ node. same_name name.now node.0) nodes.now }
{
    nodes
        .iter()
        .any(|(other, _)| same_name(name.atom(), other.atom()))
}

impl World {
    /// Returns true if a world can have these nodes: no two have one name.
    pub fn can_open(nodes: &[(NodeName, Setup)]) -> bool
        ensures { result ≡ are_distinct (map (λ node. node.0) nodes.now) }
    {
        let mut at = 0;
        while at < nodes.len() {
            let (name, _) = &nodes[at];
            at += 1;
            if has_name(&nodes[at..], name) {
                return false;
            }
        }
        true
    }

    /// Returns a world of nodes of these names and setups, which are up, in their first incarnations.
    /// Nothing has happened yet. (Reference Manual, Distributed Erlang, Nodes.)
    ///
    /// # Errors
    /// Where there is no memory for it.
    pub fn new(alloc: Global, nodes: Vec<(NodeName, Setup)>) -> Result<World, AllocError>
        requires { are_distinct (map (λ node. node.0) nodes.items) ≡ true }
        ensures { IfOk result (λ world. StandsFor world (opening nodes.items)) }
    {
        let mut made = Vec::new(alloc);
        match make(alloc, &mut made, nodes) {
            Ok(()) => Ok(World {
                nodes: made,
                lists: Lists::new(alloc),
            }),
            Err(e) => {
                drop(made);
                Err(e)
            }
        }
    }

    /// Returns a world of no nodes. Never allocates.
    pub fn empty(alloc: Global) -> World
        ensures { StandsFor result (opening []) }
    {
        World {
            nodes: Vec::new(alloc),
            lists: Lists::new(alloc),
        }
    }

    /// Appends a node of this name and setup, before anything has happened. No other has its name.
    ///
    /// # Errors
    /// [`AllocError`] if out of memory. Then nothing has changed.
    pub fn join(&mut self, alloc: Global, name: NodeName, setup: Setup) -> Result<(), AllocError>
        requires { has_name name (names_of self.old.nodes.items) ≡ false }
        ensures ok { (nodes : List (Name × Setup)) → StandsFor self.old (opening nodes) → OnOk result (StandsFor self.new (opening (nodes ++ (name, setup) ∷ []))) }
        ensures err { (m : TheWorld) → StandsFor self.old m → OnErr result (StandsFor self.new m) }
    {
        name.text();
        self.nodes.push(Node::new(alloc, name, setup)?)?;
        Ok(())
    }
}
