//! New records of links and monitors.
ghost use Rattle.std.specs.Prelude.{◌≡◌};
ghost use Rattle.node_plan.specs.Registering.{changes_towards, is_new, links_towards, registers_towards, watches_towards};

use crate::change::{Change, LinkChange, MonitorChange};
use erl_term::Atom;
use link_core::LinkSignal;
use monitor_core::{Registration, Watch};
use node_frames::same_name;
use node_tables::EndChange;

// Returns true if `how` makes an end where there was none.
fn is_new(how: &EndChange) -> bool
    ensures { result ≡ is_new how.now }
{
    matches!(
        how,
        EndChange::Links | EndChange::Receives(LinkSignal::Link)
    )
}

// Returns true if `link` makes a link to a process at `peer`.
fn links_towards(link: &LinkChange, peer: &Atom) -> bool
    ensures { result ≡ links_towards peer.now link.now }
{
    match link {
        LinkChange::Stays => false,
        LinkChange::Becomes(partner, how) => is_new(how) && same_name(&partner.node, peer),
    }
}

/// Returns true if `change` makes a link to a process at `peer`. (Reference Manual, Processes, Links.)
pub fn changes_towards(change: &Change, peer: &Atom) -> bool
    ensures { result ≡ changes_towards peer.now change.now }
{
    match change {
        Change::Of { link, .. } => links_towards(link, peer),
        Change::None | Change::Spawns | Change::TakesName(_) | Change::GivesName(_) => false,
    }
}

/// Returns true if `watches` adds a monitor of a process at `peer`. (Reference Manual, Processes,
/// Monitors.)
pub fn watches_towards(watches: &MonitorChange<Watch>, peer: &Atom) -> bool
    ensures { result ≡ watches_towards peer.now watches.now }
{
    match watches {
        MonitorChange::Adds(_, monitor) => same_name(monitor.target.node(), peer),
        MonitorChange::Stays | MonitorChange::Removes(_) => false,
    }
}

/// Returns true if `watchers` adds a monitor that a process at `peer` owns. (Reference Manual, Processes,
/// Monitors.)
pub fn registers_towards(watchers: &MonitorChange<Registration>, peer: &Atom) -> bool
    ensures { result ≡ registers_towards peer.now watchers.now }
{
    match watchers {
        MonitorChange::Adds(_, monitor) => same_name(&monitor.owner.node, peer),
        MonitorChange::Stays | MonitorChange::Removes(_) => false,
    }
}
