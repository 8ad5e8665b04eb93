//! A node dials, and its end of the new connection is there.
ghost use Rattle.std.specs.Prelude.{◌≡◌, ◌<◌, IfErr, IfOk, vec_capacity, vec_len};
ghost use Rattle.std.specs.Option.{option_copied, option_map};
ghost use Rattle.erl_names.specs.declared.trunk.TrunkId.{TrunkId as TheTrunk};
ghost use Rattle.node_core.specs.Model.{model_of};
ghost use Rattle.node_history.specs.Entering.{IsWanting, Stays};
ghost use Rattle.node_history.specs.Telling.{IsTold};
ghost use Rattle.node_lock.specs.Answers.{trunk_in, trunk_said};
ghost use Rattle.node_lock.specs.Applying.{DialsOut, with_opened};

use crate::arriving::entry_at;
use crate::outlet::{Outlet, PieceLength};
use dist_model::Answer;
use erl_names::{NodeName, TrunkId};
use erl_term::Refusal;
use node_core::{Node, NodeEvent};
use node_history::{Entry, History, Told};
use std::alloc::{AllocError, Global};
use wire_core::{Offer, connect};

/// The part of a new connection that is left for the other node: its name, and its half.
#[derive(Drop)]
pub struct Left {
    /// The other node.
    pub peer: NodeName,
    /// Its half of the connection.
    pub offer: Offer,
}

// Both halves of a connection that isn't numbered yet, and the names that go with them.
#[derive(Drop)]
struct Halves {
    ours: Offer,
    theirs: Offer,
    peer: NodeName,
    to: NodeName,
}

fn both_halves(alloc: Global, node: &Node, peer: &NodeName) -> Result<Halves, AllocError>
    ensures dialer { IfOk result (λ h. h.ours.trunk.dialer ≡ (model_of node.now).mint.name) }
    ensures peer { IfOk result (λ h. h.peer ≡ peer.now) }
{
    let dialer = node.name().clone()?;
    let (ours, theirs) = connect(alloc, TrunkId { dialer, count: 0 })?;
    Ok(Halves {
        ours,
        theirs,
        peer: peer.clone()?,
        to: peer.clone()?,
    })
}

// The number of the connection that was dialed, if one was.
fn count_in(entry: Option<&Entry>) -> Option<u64>
    ensures { result ≡ option_map (λ (trunk : TheTrunk). trunk.count) (trunk_in (option_copied entry.entry)) }
{
    match entry {
        Some(entry) => match &entry.answer {
            Ok(report) => count_said(&report.answer),
            Err(_) => None,
        },
        None => None,
    }
}

fn count_said(said: &Answer) -> Option<u64>
    ensures { result ≡ option_map (λ (trunk : TheTrunk). trunk.count) (trunk_said said.now) }
{
    match said {
        Answer::Trunk(trunk) => Some(trunk.count),
        _ => None,
    }
}

// The halves are put where they belong, for which there is room: where a connection was dialed.
fn open(
    alloc: Global,
    halves: Halves,
    count: Option<u64>,
    place: usize,
    outlets: &mut Vec<Outlet>,
    offers: &mut Vec<Left>,
    greatest: PieceLength,
)
    requires outlets { vec_len outlets.old < vec_capacity outlets.old }
    requires offers { vec_len offers.old < vec_capacity offers.old }
    ensures { outlets.new.items ≡ with_opened greatest.bytes halves.ours.trunk.dialer halves.peer place count outlets.old.items }
{
    let Halves {
        mut ours,
        mut theirs,
        peer,
        to,
    } = halves;
    match count {
        Some(count) => {
            ours.trunk.count = count;
            theirs.trunk.count = count;
            outlets.push_reserved(Outlet::new(alloc, peer, ours, greatest, place));
            offers.push_reserved(Left {
                peer: to,
                offer: theirs,
            });
        }
        None => {
            drop(ours);
            drop(theirs);
        }
    }
}

/// A node dials another. Where it does, its end of the connection is behind the others, and the other
/// node's half behind those that are left. The place of the entry is told, and its answer.
///
/// # Errors
/// As those of [`History::act`]; also where there is no memory for the connection. Then nothing has
/// changed.
pub(crate) fn dial(
    alloc: Global,
    history: &mut History,
    outlets: &mut Vec<Outlet>,
    offers: &mut Vec<Left>,
    greatest: PieceLength,
    is_known: bool,
    peer: NodeName,
    word: u32,
    above: u64,
) -> Result<Told, Refusal>
    ensures ok { IfOk result (λ told. DialsOut greatest.bytes is_known peer word above history.old history.new outlets.old.items outlets.new.items told.place) }
    ensures told { IfOk result (IsTold history.new.entries.items) }
    ensures history { IfErr result (λ e. Stays history.old history.new) }
    ensures outlets { IfErr result (λ e. outlets.new.items ≡ outlets.old.items) }
    ensures why { IfErr result (IsWanting history.old.last above) }
{
    if history.last_or(above) == u64::MAX {
        drop(peer);
        return Err(Refusal::IdsUsedUp);
    }
    outlets.reserve(1)?;
    offers.reserve(1)?;
    let halves = both_halves(alloc, history.node(), &peer)?;
    let told = match history.act(alloc, is_known, NodeEvent::Dial { peer, word }, above) {
        Ok(told) => told,
        Err(e) => {
            drop(halves);
            return Err(e);
        }
    };
    let count = count_in(entry_at(history.entries(), told.place));
    open(alloc, halves, count, told.place, outlets, offers, greatest);
    Ok(told)
}
