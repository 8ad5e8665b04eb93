//! What has to hold of a world after each event, as far as it can be seen.
use erl_term::Pid;
use link_core::End;
use world_core::{Node, World};

fn is_active(end: End) -> bool {
    matches!(end, End::Active)
}

/// Whether a process is living.
pub fn is_living(world: &World, process: &Pid) -> bool {
    match world.node(&process.node) {
        Some(node) => node.is_living(process),
        None => false,
    }
}

// Where nothing travels between a living process and another, both or neither hold their link active, and
// there is none with a process that isn't living.
fn agree(world: &World, p: &Pid, q: &Pid) -> bool {
    if !world.quiet(p, q) {
        return true;
    }
    let (of_p, of_q) = world.ends(p, q);
    is_active(of_p) == (is_living(world, q) && is_active(of_q))
}

/// Whether each of some processes that is living agrees with each of others.
pub fn all_agree(world: &World, some: &[Pid], others: &[Pid]) -> bool {
    some.iter().all(|p| !is_living(world, p) || others.iter().all(|q| agree(world, p, q)))
}

// Where two nodes both have a connection that is up to the other, it is the same.
fn have_one_trunk(here: &Node, there: &Node) -> bool {
    match (
        here.route(there.name().atom()),
        there.route(here.name().atom()),
    ) {
        (Some(out), Some(back)) => {
            out.count == back.count && out.dialer.text() == back.dialer.text()
        }
        _ => true,
    }
}

/// Whether each two nodes have one connection, where both have one that is up.
pub fn have_one_trunk_each(world: &World) -> bool {
    let nodes = world.nodes();
    nodes.iter().all(|here| nodes.iter().all(|there| have_one_trunk(here, there)))
}
