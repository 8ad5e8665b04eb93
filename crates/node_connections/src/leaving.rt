//! The records that a sweep of one record leaves.
ghost use Rattle.std.specs.Prelude.{◌≡◌, None, Some};
ghost use Rattle.std.specs.FinMap as fm;
ghost use Rattle.dist_model.specs.Losses.{link_to, sweep_end, watch_to};
ghost use Rattle.dist_model.specs.Monitoring.{unregister, unwatch};
ghost use Rattle.dist_model.specs.Work.{at_work};
ghost use Rattle.erl_names.specs.Ids.{pid_of};
ghost use Rattle.node_plan.specs.Seen.{seen};
ghost use Rattle.node_connections.specs.Ahead.{NoneOwnedBefore, NoneWatchedBefore};
ghost use Rattle.node_connections.specs.Next.{IsNextLink};
ghost use Rattle.node_connections.specs.Records.{has_records, left_by_end, left_by_loss};

use crate::left::{
    has_another_link, has_another_registration, has_another_watch, has_link_of_another,
    has_registration_of_another, has_watch_of_another,
};
use crate::monitors::{first_registration, first_watch};
use erl_term::{Atom, Pid, Reference};
use node_plan::Node;
use node_processes::is_active;
use node_tables::FoundLink;

// Returns true if a record is left once a process ends by the first link.
fn leaves_by_end(node: &Node, peer: &Atom, process: &Pid, link: &FoundLink<'_>) -> bool
    requires process { process.now ≡ pid_of (seen node.now).mint link.now.id }
    requires next { IsNextLink peer.now link.now (seen node.now) }
    ensures { result ≡ has_records peer.now (left_by_end process.now link.now.partner.now (seen node.now)) }
{
    has_link_of_another(node, peer, link)
        || has_watch_of_another(node, peer, process)
        || has_registration_of_another(node, peer, process)
}

// Returns true if a record is left once the first link is gone, and its process goes on.
fn leaves_by_loss(node: &Node, peer: &Atom, process: &Pid, link: &FoundLink<'_>) -> bool
    requires process { process.now ≡ pid_of (seen node.now).mint link.now.id }
    requires next { IsNextLink peer.now link.now (seen node.now) }
    ensures { result ≡ has_records peer.now (left_by_loss process.now link.now.partner.now (seen node.now)) }
{
    has_another_link(node, peer, process, link)
        || first_watch(node, peer).is_some()
        || first_registration(node, peer).is_some()
}

/// Returns true if a record towards a peer is left once the first link is swept. No record is left of a
/// process that ends by it: by noconnection it ends unless it traps exits. (Reference Manual, Processes,
/// Receiving Exit Signals.)
pub(crate) fn link_leaves(node: &Node, peer: &Atom, process: &Pid, link: &FoundLink<'_>) -> bool
    requires process { process.now ≡ pid_of (seen node.now).mint link.now.id }
    requires next { IsNextLink peer.now link.now (seen node.now) }
    ensures { result ≡ has_records peer.now (sweep_end link.now.end process.now link.now.partner.now (at_work (seen node.now))).node }
{
    if is_active(link.end) && !node.traps(process) {
        leaves_by_end(node, peer, process, link)
    } else {
        leaves_by_loss(node, peer, process, link)
    }
}

/// Returns true if a record towards a peer is left once the first monitor of a process there is gone.
pub(crate) fn watch_leaves(node: &Node, peer: &Atom, gone: &Reference) -> bool
    requires links { link_to peer.now (fm.entries (seen node.now).ends) ≡ None }
    requires watches { NoneWatchedBefore peer.now (Some gone.now) (seen node.now).watches }
    ensures { result ≡ has_records peer.now (unwatch gone.now (at_work (seen node.now))).node }
{
    has_another_watch(node, peer, gone) || first_registration(node, peer).is_some()
}

/// Returns true if a record towards a peer is left once the first monitor that a process there has is gone.
pub(crate) fn registration_leaves(node: &Node, peer: &Atom, gone: &Reference) -> bool
    requires links { link_to peer.now (fm.entries (seen node.now).ends) ≡ None }
    requires watches { watch_to peer.now (fm.entries (seen node.now).watches) ≡ None }
    requires registrations { NoneOwnedBefore peer.now (Some gone.now) (seen node.now).registered }
    ensures { result ≡ has_records peer.now (unregister gone.now (at_work (seen node.now))).node }
{
    has_another_registration(node, peer, gone)
}
