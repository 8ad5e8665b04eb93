//! The steps that may come next.
ghost use Rattle.std.specs.Prelude.{◌≡◌, ◌++◌, IfOk, OnOk};
ghost use Rattle.dist_model.specs.World.{World as TheWorld};
ghost use Rattle.node_core.specs.Model.{model_of};
ghost use Rattle.script_explorer.specs.Moves.{block_moves, deliveries, moves, moves_at, node_moves, only_if, steps_of};
ghost use Rattle.world_core.specs.Stands.{StandsFor};

use crate::plan::{Plan, Step};
use erl_names::NodeName;
use std::alloc::{AllocError, Global};
use world_core::{Node, World};

/// A step of a schedule. Blocks and nodes are told by their places, from 0.
#[derive(Clone, Copy, Debug, PartialEq, Eq)]
pub(crate) enum Move {
    /// The next step of a block.
    Block(usize),
    /// The next signal of a node to itself comes.
    Local(usize),
    /// A node clears away one record of a lost connection.
    Sweep(usize),
    /// The next item from a peer comes to a node.
    Deliver { node: usize, peer: usize },
}

// Returns the name of the node at a place of the world.
fn name_at(world: &World, place: usize) -> Option<&NodeName> {
    world.nodes().get(place).map(|node| node.name())
}

// Appends the name of the node at a place of the world.
fn put_name(out: &mut String, world: &World, place: usize) -> Result<(), AllocError> {
    match name_at(world, place) {
        Some(name) => out.push_str(name.text()),
        None => Ok(()),
    }
}

/// Appends the line of a script that takes this step. The step of a block is none of these.
pub(crate) fn put_line(out: &mut String, world: &World, taken: Move) -> Result<(), AllocError> {
    match taken {
        Move::Block(_) => Ok(()),
        Move::Local(node) => {
            out.push_str("local ")?;
            put_name(out, world, node)
        }
        Move::Sweep(node) => {
            out.push_str("sweep ")?;
            put_name(out, world, node)
        }
        Move::Deliver { node, peer } => {
            out.push_str("deliver ")?;
            put_name(out, world, node)?;
            out.push_str(" ")?;
            put_name(out, world, peer)
        }
    }
}

// Adds a step, if it may come.
fn add_if(moves: &mut Vec<Move>, may: bool, step: Move) -> Result<(), AllocError>
    ensures { OnOk result (moves.new.items ≡ moves.old.items ++ only_if may step) }
{
    if may {
        moves.push(step)?;
    }
    Ok(())
}

// Adds the steps of the blocks that aren't at their ends.
fn add_blocks(
    moves: &mut Vec<Move>,
    blocks: &[Vec<Step<'_>>],
    taken: &[usize],
) -> Result<(), AllocError>
    ensures { OnOk result (moves.new.items ≡ moves.old.items ++ block_moves 0 (steps_of blocks.now) taken.now) }
{
    for (place, block) in blocks.iter().enumerate() {
        let taken = taken.get(place).copied().unwrap_or(0);
        add_if(moves, taken < block.len(), Move::Block(place))?;
    }
    Ok(())
}

// Adds the deliveries to a node from each node.
fn add_deliveries(
    moves: &mut Vec<Move>,
    world: &World,
    place: usize,
    node: &Node,
) -> Result<(), AllocError>
    ensures { (m : TheWorld) → StandsFor world.now m →
        OnOk result (moves.new.items ≡ moves.old.items ++ deliveries m (model_of node.now) place 0 m.names) }
{
    for (peer, other) in world.nodes().iter().enumerate() {
        let may = world
            .next_arrival(node, Some(other.name().atom()))
            .is_some();
        add_if(moves, may, Move::Deliver { node: place, peer })?;
    }
    Ok(())
}

// Adds the steps that may come by themselves at a node that is up.
fn add_at(moves: &mut Vec<Move>, world: &World, place: usize, node: &Node) -> Result<(), AllocError>
    ensures { (m : TheWorld) → StandsFor world.now m →
        OnOk result (moves.new.items ≡ moves.old.items ++ moves_at m place (model_of node.now)) }
{
    add_if(moves, node.has_local(), Move::Local(place))?;
    add_if(moves, node.is_losing(), Move::Sweep(place))?;
    add_deliveries(moves, world, place, node)
}

// Adds the steps that may come by themselves.
fn add_nodes(moves: &mut Vec<Move>, world: &World) -> Result<(), AllocError>
    ensures { (m : TheWorld) → StandsFor world.now m →
        OnOk result (moves.new.items ≡ moves.old.items ++ node_moves m 0 m.nodes) }
{
    for (place, node) in world.nodes().iter().enumerate() {
        if node.is_up() {
            add_at(moves, world, place, node)?;
        }
    }
    Ok(())
}

/// Returns the steps that may come next, if so many steps of each block were taken: those of the blocks, and then
/// those that come by themselves at each node.
///
/// # Errors
/// [`AllocError`] if out of memory.
pub(crate) fn moves_of(
    alloc: Global,
    plan: &Plan<'_>,
    world: &World,
    taken: &[usize],
) -> Result<Vec<Move>, AllocError>
    ensures { (m : TheWorld) → StandsFor world.now m →
        IfOk result (λ found. found.items ≡ moves m (steps_of plan.now.blocks.items) taken.now) }
{
    let mut moves = Vec::new(alloc);
    add_blocks(&mut moves, &plan.blocks, taken)?;
    add_nodes(&mut moves, world)?;
    Ok(moves)
}
