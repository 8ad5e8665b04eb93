//! A trace that is gone through once more, in one world.

use crate::ground::is_ordered;
use crate::stories::Wrong;
use cluster_run::Finished;
use erl_term::{Pid, Refusal};
use node_lock::Book;
use std::alloc::Global;
use world_core::{Life, Node};

/// Of each node so many processes are looked at.
const LOOKED_AT: u32 = 8;

// The first processes of the books' nodes, in their incarnations.
fn processes(alloc: Global, books: &[Book]) -> Result<Vec<Pid>, Refusal> {
    let mut found = Vec::new(alloc);
    for book in books {
        let node = book.node();
        for before in 0..node.spawned().min(LOOKED_AT) {
            found.push(Pid {
                node: node.name().atom().clone()?,
                creation: node.creation(),
                id: before.saturating_add(1),
                serial: 0,
            })?;
        }
    }
    Ok(found)
}

fn is_same_life(a: Option<&Life>, b: Option<&Life>) -> bool {
    match (a, b) {
        (Some(Life::Living { process: a, .. }), Some(Life::Living { process: b, .. })) => {
            a.trap == b.trap && a.mailbox.len() == b.mailbox.len()
        }
        (Some(Life::Ended(_)), Some(Life::Ended(_))) => true,
        (None, None) => true,
        _ => false,
    }
}

// Whether two nodes have the same of a process and its links.
fn is_same_process(a: &Node, b: &Node, process: &Pid, all: &[Pid]) -> bool {
    is_same_life(a.life(process), b.life(process))
        && all.iter().all(|partner| a.end(process, partner) == b.end(process, partner))
}

fn is_same_node(a: &Node, b: &Node, all: &[Pid]) -> bool {
    a.name().text() == b.name().text()
        && a.is_up() == b.is_up()
        && a.creation() == b.creation()
        && a.spawned() == b.spawned()
        && a.has_local() == b.has_local()
        && a.is_losing() == b.is_losing()
        && all
            .iter()
            .all(|process| is_same_process(a, b, process, all))
}

fn are_same(nodes: &[Node], books: &[Book], all: &[Pid]) -> bool {
    nodes.len() == books.len()
        && (0..nodes.len()).all(|place| is_same_node(&nodes[place], books[place].node(), all))
}

/// Whether the entries stand in order, and lead once more to the nodes of the books.
pub fn is_whole(alloc: Global, finished: &Finished) -> Result<bool, Wrong> {
    let world = finished.world(alloc)?;
    let all = processes(alloc, &finished.books)?;
    Ok(is_ordered(&finished.trace) && are_same(world.nodes(), &finished.books, &all))
}
