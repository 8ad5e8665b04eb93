//! The progress of a sweep once a record is swept.
ghost use Rattle.std.specs.Prelude.{◌≡◌, Some, None, IfOk};
ghost use Rattle.std.specs.FinMap as fm;
ghost use Rattle.dist_model.specs.Losses.{link_to};
ghost use Rattle.node_plan.specs.Seen.{seen};
ghost use Rattle.node_connections.specs.Ahead.{IsAhead};
ghost use Rattle.node_connections.specs.Records.{link_entry};

use crate::sweeping::Sweeping;
use erl_names::NodeName;
use node_plan::Node;
use node_tables::FoundLink;
use std::alloc::AllocError;

/// Returns the progress of the sweep at the first link: its process may have another.
pub(crate) fn at_link(
    node: &Node,
    peer: &NodeName,
    link: &FoundLink<'_>,
) -> Result<Sweeping, AllocError>
    requires { link_to peer.now (fm.entries (seen node.now).ends) ≡ Some (link_entry (seen node.now).mint link.now) }
    ensures { IfOk result (λ s. IsAhead s (seen node.now)) }
{
    let _node = node;
    Ok(Sweeping {
        peer: Some(peer.clone()?),
        id: link.id - 1,
    })
}

/// Returns the progress of the sweep if there are no links to the peer.
pub(crate) fn behind_links(node: &Node, peer: &NodeName) -> Result<Sweeping, AllocError>
    requires { link_to peer.now (fm.entries (seen node.now).ends) ≡ None }
    ensures { IfOk result (λ s. IsAhead s (seen node.now)) }
{
    Ok(Sweeping {
        peer: Some(peer.clone()?),
        id: node.mint().pids(),
    })
}
