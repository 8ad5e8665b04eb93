//! Nodes to test, and the requests to them.

use crate::meeting::Pieces;
use cluster_run::{Cluster, Gate, Settled};
use dist_model::{Answer, Command};
use erl_handshake::{Cookie, Profile, Setup};
use erl_names::{NodeName, TrunkId};
use erl_term::{Payload, Pid, Reference, Refusal, Term};
use joined_books::{Placed, Trace};
use link_core::End;
use node_lock::{Act, Asked, Seat};
use std::alloc::{AllocError, Global};
use std::rt::Runtime;
use std::sync::Wait;
use std::thread::Threads;

/// A runtime that the tests run on.
pub trait Machine: Runtime + Threads + Wait + Copy + Send + Sync + 'static {}

impl<R: Runtime + Threads + Wait + Copy + Send + Sync + 'static> Machine for R {}

/// Nodes whose gate sets the length of the pieces on their wires.
pub type Nodes = Cluster<Pieces>;

/// More looks than any test needs.
pub const ENOUGH: u64 = 10_000_000;

/// The names of the first nodes.
const FIRST: [&str; 4] = ["a@h", "b@h", "c@h", "d@h"];

/// The name of the node at a place.
pub fn name(alloc: Global, place: usize) -> Result<NodeName, Refusal> {
    match FIRST.get(place) {
        Some(name) => Ok(NodeName::read(alloc, name)?),
        None => Ok(NodeName::read(alloc, format!(in alloc; "n{place}@h")?.as_str())?),
    }
}

/// Returns a node of this name and of the cookie `c`.
pub fn named(alloc: Global, name: NodeName) -> Result<(NodeName, Setup), Refusal> {
    let setup = Setup {
        cookie: Cookie::new(Vec::from_slice(alloc, b"c")?),
        profile: Profile::One,
    };
    Ok((name, setup))
}

/// The nodes of the first so many names.
pub fn cluster<R, G>(rt: &R, alloc: Global, count: usize, gate: G) -> Result<Cluster<G>, Refusal>
where
    R: Machine,
    G: Gate + Send + Sync + Drop + 'static,
{
    let mut nodes = Vec::new(alloc);
    for place in 0..count {
        nodes.push(named(alloc, name(alloc, place)?)?)?;
    }
    Cluster::new(rt, alloc, nodes, gate)
}

/// Asks a node for an act by a seat. Returns true if the node did it.
pub fn asks<R: Wait, G>(
    rt: &R,
    cluster: &Cluster<G>,
    seat: &mut Seat,
    act: Act,
) -> Result<bool, Refusal>
where
    G: Gate + Send + Sync + Drop + 'static,
{
    let place = cluster.call(rt, seat, act)?;
    Ok(match seat.receipts().get(place) {
        Some(Asked { receipt, .. }) => receipt.answer.is_ok(),
        None => false,
    })
}

fn pid_told(seat: &Seat) -> Result<Option<Pid>, AllocError> {
    match seat.last() {
        Some(Asked { receipt, .. }) => match &receipt.answer {
            Ok(report) => match &report.answer {
                Answer::Pid(pid) => Ok(Some(pid.clone()?)),
                _ => Ok(None),
            },
            Err(_) => Ok(None),
        },
        None => Ok(None),
    }
}

/// A new process.
pub fn spawned<R: Wait, G>(rt: &R, cluster: &Cluster<G>, seat: &mut Seat) -> Result<Pid, Refusal>
where
    G: Gate + Send + Sync + Drop + 'static,
{
    cluster.call(rt, seat, Act::Run(Command::Spawn))?;
    pid_told(seat)?.ok_or(Refusal::NothingThere)
}

/// Returns the count of the connection that the node of the seat has dialed last.
pub fn count_told(seat: &Seat) -> Option<u64> {
    match seat.last() {
        Some(Asked { receipt, .. }) => match &receipt.answer {
            Ok(report) => match &report.answer {
                Answer::Trunk(trunk) => Some(trunk.count),
                _ => None,
            },
            Err(_) => None,
        },
        None => None,
    }
}

/// The node of the seat dials that of a place.
pub fn dials<R: Wait, G>(
    rt: &R,
    alloc: Global,
    cluster: &Cluster<G>,
    seat: &mut Seat,
    to: usize,
) -> Result<bool, Refusal>
where
    G: Gate + Send + Sync + Drop + 'static,
{
    let peer = name(alloc, to)?;
    asks(rt, cluster, seat, Act::Dial { peer, word: 7 })
}

/// One process links another, or takes its link back.
pub fn links<R: Wait, G>(
    rt: &R,
    cluster: &Cluster<G>,
    seat: &mut Seat,
    from: &Pid,
    to: &Pid,
    on: bool,
) -> Result<bool, Refusal>
where
    G: Gate + Send + Sync + Drop + 'static,
{
    let from = from.clone()?;
    let to = to.clone()?;
    let command = if on {
        Command::Link { from, to }
    } else {
        Command::Unlink { from, to }
    };
    asks(rt, cluster, seat, Act::Run(command))
}

/// A process sends the number 7 to another.
pub fn sends<R: Wait, G>(
    rt: &R,
    cluster: &Cluster<G>,
    seat: &mut Seat,
    from: &Pid,
    to: &Pid,
) -> Result<bool, Refusal>
where
    G: Gate + Send + Sync + Drop + 'static,
{
    sends_term(rt, cluster, seat, from, to, Term::Int(7))
}

/// A process sends a term to another.
pub fn sends_term<R: Wait, G>(
    rt: &R,
    cluster: &Cluster<G>,
    seat: &mut Seat,
    from: &Pid,
    to: &Pid,
    term: Term,
) -> Result<bool, Refusal>
where
    G: Gate + Send + Sync + Drop + 'static,
{
    let from = from.clone()?;
    let to = to.clone()?;
    let message = Payload::new(term);
    asks(
        rt,
        cluster,
        seat,
        Act::Run(Command::Send { from, to, message }),
    )
}

// The reference of the monitor that was made last.
fn reference_told(seat: &Seat) -> Result<Option<Reference>, AllocError> {
    match seat.last() {
        Some(Asked { receipt, .. }) => match &receipt.answer {
            Ok(report) => match &report.answer {
                Answer::Reference(reference) => Ok(Some(reference.clone()?)),
                _ => Ok(None),
            },
            Err(_) => Ok(None),
        },
        None => Ok(None),
    }
}

/// A process monitors another, and takes the monitor back.
pub fn monitors<R: Wait, G>(
    rt: &R,
    cluster: &Cluster<G>,
    seat: &mut Seat,
    from: &Pid,
    to: &Pid,
) -> Result<bool, Refusal>
where
    G: Gate + Send + Sync + Drop + 'static,
{
    let owner = from.clone()?;
    let target = to.clone()?;
    if !asks(
        rt,
        cluster,
        seat,
        Act::Run(Command::Monitor { owner, target }),
    )? {
        return Ok(false);
    }
    let reference = reference_told(seat)?.ok_or(Refusal::NothingThere)?;
    let owner = from.clone()?;
    let command = Command::Demonitor { owner, reference };
    asks(rt, cluster, seat, Act::Run(command))
}

/// Returns true if the process says that it has this link alone, and has it active.
pub fn has_link<R: Wait, G>(
    rt: &R,
    cluster: &Cluster<G>,
    seat: &mut Seat,
    process: &Pid,
    partner: &Pid,
) -> Result<bool, Refusal>
where
    G: Gate + Send + Sync + Drop + 'static,
{
    let process = process.clone()?;
    cluster.call(rt, seat, Act::Run(Command::LinksOf { process }))?;
    Ok(match seat.last() {
        Some(Asked { receipt, .. }) => match &receipt.answer {
            Ok(report) => match &report.answer {
                Answer::Links(links) => is_link(&links.entries, partner),
                _ => false,
            },
            Err(_) => false,
        },
        None => false,
    })
}

fn is_link(links: &[(Pid, End)], partner: &Pid) -> bool {
    match links {
        [(to, end)] => to == partner && *end == End::Active,
        _ => false,
    }
}

/// Returns true if the cluster comes to rest.
pub fn settles<R: Wait, G>(rt: &R, cluster: &Cluster<G>) -> bool
where
    G: Gate + Send + Sync + Drop + 'static,
{
    cluster.settle(rt, ENOUGH) == Settled::Settled
}

/// Returns true if a node is connected to another on the connection that this node has dialed as
/// so-manieth.
pub fn is_up<R: Wait, G>(
    rt: &R,
    alloc: Global,
    cluster: &Cluster<G>,
    node: usize,
    peer: usize,
    dialed: (usize, u64),
) -> Result<bool, Refusal>
where
    G: Gate + Send + Sync + Drop + 'static,
{
    let trunk = TrunkId {
        dialer: name(alloc, dialed.0)?,
        count: dialed.1,
    };
    let peer = name(alloc, peer)?;
    cluster.look(rt, node, |node| node.route(peer.atom()) == Some(&trunk))
}

/// Returns true if entries stand by stamp and then by node, and those of each node in their order.
pub fn is_ordered(trace: &Trace) -> bool {
    let mut last: Option<Placed> = None;
    for next in &trace.entries {
        if let Some(last) = last {
            if (last.stamp, last.node) >= (next.stamp, next.node) {
                return false;
            }
        }
        last = Some(*next);
    }
    true
}
