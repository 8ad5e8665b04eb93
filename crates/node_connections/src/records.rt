//! The records towards a peer, and the least of them.
ghost use Rattle.std.specs.Prelude.{◌≡◌, true, Some};
ghost use Rattle.std.specs.FinMap as fm;
ghost use Rattle.std.specs.Option.{option_map};
ghost use Rattle.dist_model.specs.Losses.{least_record, link_to};
ghost use Rattle.node_plan.specs.Seen.{seen};
ghost use Rattle.node_connections.specs.Ahead.{NoneLinkedUpTo};
ghost use Rattle.node_connections.specs.Records.{link_entry, record_of};

use crate::monitors::{first_registration, first_watch};
use crate::sweeping::Sweeping;
use erl_term::{Atom, Reference};
use monitor_core::{Registration, Watch};
use node_plan::Node;
use node_tables::FoundLink;

/// A record towards a peer.
#[derive(Clone, Copy)]
pub(crate) enum Record<'a> {
    /// A link of a process here to one there.
    Link(FoundLink<'a>),
    /// A monitor of a process here of one there.
    Watch(&'a (Reference, Watch)),
    /// A monitor of a process there of one here.
    Registration(&'a (Reference, Registration)),
}

// The first link towards a peer, of the processes behind this one.
fn first_link<'a>(node: &'a Node, peer: &Atom, after: u32) -> Option<FoundLink<'a>>
    requires up { (seen node.now).up ≡ true }
    requires none { NoneLinkedUpTo peer.now after (seen node.now).ends }
    ensures { option_map (link_entry (seen node.now).mint) result ≡ link_to peer.now (fm.entries (seen node.now).ends) }
{
    node.first_link_towards(peer, after)
}

/// Returns the least record towards a peer, of which no link is left before a bound.
pub(crate) fn least<'a>(node: &'a Node, peer: &Atom, from: &Sweeping) -> Option<Record<'a>>
    requires up { (seen node.now).up ≡ true }
    requires behind { NoneLinkedUpTo peer.now from.now.id (seen node.now).ends }
    ensures { option_map (record_of (seen node.now).mint) result ≡ least_record peer.now (seen node.now) }
{
    if let Some(link) = first_link(node, peer, from.id) {
        return Some(Record::Link(link));
    }
    if let Some(watch) = first_watch(node, peer) {
        return Some(Record::Watch(watch));
    }
    let registration = first_registration(node, peer)?;
    Some(Record::Registration(registration))
}
