//! The texts that show a world.
ghost use Rattle.std.specs.Prelude.{◌≡◌, ◌++◌, OnOk, string_bytes};
ghost use Rattle.std.specs.List.{flat_map};
ghost use Rattle.dist_model.specs.World.{World as TheWorld};
ghost use Rattle.node_core.specs.Model.{model_of};
ghost use Rattle.node_texts.specs.Shown.{shown_node};
ghost use Rattle.node_texts.specs.Trunks.{trunks_text};
ghost use Rattle.world_core.specs.Names.{names_of};
ghost use Rattle.world_core.specs.Stands.{StandsFor};
ghost use Rattle.world_texts.specs.Shown.{shown_world, whole_node_of, whole_world};

use crate::arriving::put_all_lines;
use node_texts::{put_shown, put_trunks, put_whole};
use std::alloc::{AllocError, Global};
use world_core::{Node, World};

// Appends some nodes in their order, with their processes.
fn put_all(out: &mut String, nodes: &[Node]) -> Result<(), AllocError>
    ensures { OnOk result (string_bytes out.new ≡ string_bytes out.old ++ flat_map (λ node. shown_node (model_of node)) nodes.now) }
{
    for node in nodes {
        put_shown(out, node)?;
    }
    Ok(())
}

/// Appends the nodes of a world in their order, and the processes of each by their ids, with the messages that
/// wait for them. (Reference Manual, Processes; Distributed Erlang, Nodes.)
///
/// # Errors
/// [`AllocError`] if out of memory.
pub fn put_world(out: &mut String, world: &World) -> Result<(), AllocError>
    ensures { (m : TheWorld) → StandsFor world.now m → OnOk result (string_bytes out.new ≡ string_bytes out.old ++ shown_world m) }
{
    put_all(out, world.nodes())
}

// Appends the connections of a node to each of some nodes.
fn put_all_trunks(out: &mut String, node: &Node, nodes: &[Node]) -> Result<(), AllocError>
    ensures { OnOk result (string_bytes out.new ≡ string_bytes out.old ++ flat_map (trunks_text (model_of node.now)) (names_of nodes.now)) }
{
    for peer in nodes {
        put_trunks(out, node, peer.name().atom())?;
    }
    Ok(())
}

// Appends a node, its processes with their links and monitors, and its connections to some nodes.
fn put_whole_node(out: &mut String, node: &Node, nodes: &[Node]) -> Result<(), AllocError>
    ensures { OnOk result (string_bytes out.new ≡ string_bytes out.old ++ whole_node_of (names_of nodes.now) (model_of node.now)) }
{
    put_whole(out, node)?;
    if node.is_up() {
        put_all_trunks(out, node, nodes)?;
    }
    Ok(())
}

// Appends some nodes in their order, each as `put_whole_node` does, with the connections between them.
fn put_whole_nodes(out: &mut String, nodes: &[Node]) -> Result<(), AllocError>
    ensures { OnOk result (string_bytes out.new ≡ string_bytes out.old ++ flat_map (λ node. whole_node_of (names_of nodes.now) (model_of node)) nodes.now) }
{
    for node in nodes {
        put_whole_node(out, node, nodes)?;
    }
    Ok(())
}

/// Appends the nodes of a world in their order, each with its processes, their links and monitors, and its
/// connections. The items in flight to the nodes that are up follow, a line for each peer from which a node
/// will take some. (ERTS User's Guide, Distribution Protocol; Reference Manual, Processes, Links and
/// Monitors; Distributed Erlang, Nodes.)
///
/// # Errors
/// [`AllocError`] if out of memory.
pub fn put_whole_world(alloc: Global, out: &mut String, world: &World) -> Result<(), AllocError>
    ensures { (m : TheWorld) → StandsFor world.now m → OnOk result (string_bytes out.new ≡ string_bytes out.old ++ whole_world m) }
{
    put_whole_nodes(out, world.nodes())?;
    put_all_lines(alloc, out, world)
}
