//! The progress of a sweep.
ghost use Rattle.std.specs.Prelude.{◌≡◌, true};
ghost use Rattle.dist_model.specs.Node.{Node as TheNode};
ghost use Rattle.node_plan.specs.Seen.{seen};
ghost use Rattle.node_connections.specs.Ahead.{Begins, IsAhead, NoneLinkedUpTo};

use erl_names::NodeName;
use erl_term::Atom;
use node_frames::same_name;
use node_plan::Node;
use std::alloc::AllocError;

/// The progress of the sweep of a lost connection: the processes that have no links to its peer left, so
/// that the next is sought behind them. (Monitors towards a peer are found without that. Reference Manual,
/// Distributed Erlang; that records go one at a time is own.)
#[derive(Debug, Drop)]
pub struct Sweeping {
    /// The node beyond the connection. None where no sweep is under way.
    pub(crate) peer: Option<NodeName>,
    /// The processes up to this id have no links to it.
    pub(crate) id: u32,
}

impl Clone for Sweeping {
    ghost is_clone = { λ sweeping copy. copy ≡ sweeping };

    fn clone(&self) -> Result<Sweeping, AllocError> {
        Ok(Sweeping {
            peer: self.peer.clone()?,
            id: self.id,
        })
    }
}

impl Sweeping {
    /// No sweep is under way. Takes no memory.
    pub fn new() -> Sweeping
        ensures ahead { (m : TheNode) → IsAhead result m }
        ensures begins { Begins result }
    {
        Sweeping { peer: None, id: 0 }
    }

    // Returns true if it is the sweep of a connection to this peer.
    fn is_towards(&self, peer: &Atom) -> bool
        ensures { (m : TheNode) → result ≡ true → IsAhead self.now m → NoneLinkedUpTo peer.now self.now.id m.ends }
    {
        match &self.peer {
            Some(name) => same_name(name.atom(), peer),
            None => false,
        }
    }
}

/// Returns the progress of the sweep towards a peer: `so_far` if that is a sweep towards it, or else
/// `beginning`.
pub(crate) fn reached<'a>(
    node: &Node,
    peer: &Atom,
    so_far: &'a Sweeping,
    beginning: &'a Sweeping,
) -> &'a Sweeping
    requires ahead { IsAhead so_far.now (seen node.now) }
    requires begins { Begins beginning.now }
    ensures { NoneLinkedUpTo peer.now result.now.id (seen node.now).ends }
{
    if so_far.is_towards(peer) {
        so_far
    } else {
        beginning
    }
}
