//! The first monitors towards a peer.
ghost use Rattle.std.specs.Prelude.{◌≡◌};
ghost use Rattle.std.specs.FinMap as fm;
ghost use Rattle.std.specs.Option.{option_copied};
ghost use Rattle.dist_model.specs.Losses.{registered_by, watch_to};
ghost use Rattle.node_plan.specs.Seen.{seen};

use erl_term::{Atom, Reference};
use monitor_core::{Registration, Watch};
use node_plan::Node;

/// Returns the first monitor of a process here of one at the peer.
pub(crate) fn first_watch<'a>(node: &'a Node, peer: &Atom) -> Option<&'a (Reference, Watch)>
    ensures { option_copied result ≡ watch_to peer.now (fm.entries (seen node.now).watches) }
{
    node.watches().first_towards(peer)
}

/// Returns the first monitor that a process at the peer has of one here.
pub(crate) fn first_registration<'a>(
    node: &'a Node,
    peer: &Atom,
) -> Option<&'a (Reference, Registration)>
    ensures { option_copied result ≡ registered_by peer.now (fm.entries (seen node.now).registered) }
{
    node.watchers().first_towards(peer)
}
