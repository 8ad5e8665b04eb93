//! The links and monitors that are left once a record is swept.
ghost use Rattle.std.specs.Prelude.{◌≡◌, true, Some};
ghost use Rattle.std.specs.FinMap as fm;
ghost use Rattle.dist_model.specs.Losses.{link_to};
ghost use Rattle.erl_names.specs.Ids.{pid_of};
ghost use Rattle.monitor_core.specs.Left.{without_held, without_owner};
ghost use Rattle.node_plan.specs.Seen.{seen};
ghost use Rattle.node_connections.specs.Ahead.{NoneOwnedBefore, NoneWatchedBefore};
ghost use Rattle.node_connections.specs.Records.{has_link, has_registration, has_watch, link_entry, parted, unlinked};

use erl_term::{Atom, Pid, Reference};
use node_frames::same_pid;
use node_plan::Node;
use node_tables::FoundLink;

// ---- links

// Returns true if a link is left once a process ends by this one, which is the first.
pub(crate) fn has_link_of_another(node: &Node, peer: &Atom, link: &FoundLink<'_>) -> bool
    requires up { (seen node.now).up ≡ true }
    requires first { link_to peer.now (fm.entries (seen node.now).ends) ≡ Some (link_entry (seen node.now).mint link.now) }
    ensures { result ≡ has_link peer.now (parted (pid_of (seen node.now).mint link.now.id) link.now.partner.now (seen node.now).ends) }
{
    node.first_link_towards(peer, link.id).is_some()
}

// Returns true if a link is left once this one is gone, which is the first.
pub(crate) fn has_another_link(
    node: &Node,
    peer: &Atom,
    process: &Pid,
    link: &FoundLink<'_>,
) -> bool
    requires up { (seen node.now).up ≡ true }
    requires process { process.now ≡ pid_of (seen node.now).mint link.now.id }
    requires first { link_to peer.now (fm.entries (seen node.now).ends) ≡ Some (link_entry (seen node.now).mint link.now) }
    ensures { result ≡ has_link peer.now (unlinked process.now link.now.partner.now (seen node.now).ends) }
{
    node.has_link_behind(process, peer, link.partner)
        || node.first_link_towards(peer, link.id).is_some()
}

// ---- monitors

// Returns true if a monitor is left once a process ends. It goes over those of that process alone, and one
// more.
pub(crate) fn has_watch_of_another(node: &Node, peer: &Atom, process: &Pid) -> bool
    ensures { result ≡ has_watch peer.now (without_owner (seen node.now).watches process.now) }
{
    let watches = node.watches();
    let mut behind: Option<&Reference> = None;
    while let Some((reference, watch)) = watches.next_towards(peer, behind) {
        if !same_pid(&watch.owner, process) {
            return true;
        }
        behind = Some(reference);
    }
    false
}

// Returns true if a monitor is left once that of a reference is gone.
pub(crate) fn has_another_watch(node: &Node, peer: &Atom, gone: &Reference) -> bool
    requires { NoneWatchedBefore peer.now (Some gone.now) (seen node.now).watches }
    ensures { result ≡ has_watch peer.now (fm.remove (seen node.now).watches gone.now) }
{
    node.watches().next_towards(peer, Some(gone)).is_some()
}

// Returns true if a monitor that another has is left once a process ends. It goes over those of that
// process alone, and one more.
pub(crate) fn has_registration_of_another(node: &Node, peer: &Atom, process: &Pid) -> bool
    ensures { result ≡ has_registration peer.now (without_held (seen node.now).registered process.now) }
{
    let watchers = node.watchers();
    let mut behind: Option<&Reference> = None;
    while let Some((reference, registration)) = watchers.next_towards(peer, behind) {
        if !same_pid(&registration.held, process) {
            return true;
        }
        behind = Some(reference);
    }
    false
}

// Returns true if a monitor that another has is left once that of a reference is gone.
pub(crate) fn has_another_registration(node: &Node, peer: &Atom, gone: &Reference) -> bool
    requires { NoneOwnedBefore peer.now (Some gone.now) (seen node.now).registered }
    ensures { result ≡ has_registration peer.now (fm.remove (seen node.now).registered gone.now) }
{
    node.watchers().next_towards(peer, Some(gone)).is_some()
}
