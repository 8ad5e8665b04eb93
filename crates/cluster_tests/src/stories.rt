//! Stories of nodes in threads, and checks of their outcomes.

use crate::ground::{
    Machine, Nodes, asks, cluster, count_told, dials, has_link, is_up, links, name, named, sends,
    sends_term, settles, spawned,
};
use crate::meeting::{LONG_PIECES, Leaving, Meet, Meeting, Pieces, becomes};
use crate::replaying::is_whole;
use crate::walking::walk;
use anyhow::Result;
use cluster_run::{Cluster, Finished, Settled, Unmerged};
use erl_names::{NodeName, TrunkId};
use erl_term::{Pid, Refusal, Term};
use joined_books::FinishError;
use link_core::End;
use node_lock::{Act, Seat};
use std::alloc::{AllocError, AllocFailed, Global};
use std::sync::atomic::AtomicBool;
use std::sync::{Arc, Wait};
use std::thread::for_each_mut;
use thiserror::Error;

/// The reason that a test doesn't hold.
#[derive(Clone, Copy, Debug, PartialEq, Eq, Error)]
pub enum Wrong {
    /// The check with this number doesn't hold.
    #[error("check {0} doesn't hold")]
    At(u32),
    /// A call was refused.
    #[error("{0}")]
    Refused(Refusal),
    /// The books don't merge.
    #[error("the books don't merge")]
    Unmerged,
    /// There was no memory to merge them.
    #[error("out of memory")]
    NoMemoryToMerge,
}

impl From<Refusal> for Wrong {
    fn from(e: Refusal) -> Wrong {
        Wrong::Refused(e)
    }
}

impl From<AllocError> for Wrong {
    fn from(_e: AllocError) -> Wrong {
        Wrong::Refused(Refusal::OutOfMemory)
    }
}

impl<T: Drop> From<AllocFailed<T>> for Wrong {
    fn from(_e: AllocFailed<T>) -> Wrong {
        Wrong::Refused(Refusal::OutOfMemory)
    }
}

/// Returns [`Ok`] if the check with this number holds, or else [`Wrong::At`].
pub fn check(number: u32, is_so: bool) -> Result<(), Wrong> {
    if is_so {
        Ok(())
    } else {
        Err(Wrong::At(number))
    }
}

/// Two nodes with a seat and a process at each.
#[derive(Drop)]
struct Two {
    cluster: Nodes,
    at_a: Seat,
    at_b: Seat,
    p: Pid,
    q: Pid,
}

fn two_nodes<R: Machine>(rt: &R, alloc: Global, pieces: Pieces) -> Result<Two, Wrong> {
    let cluster = cluster(rt, alloc, 2, pieces)?;
    let mut at_a = cluster.seat(0)?;
    let mut at_b = cluster.seat(1)?;
    let p = spawned(rt, &cluster, &mut at_a)?;
    let q = spawned(rt, &cluster, &mut at_b)?;
    Ok(Two {
        cluster,
        at_a,
        at_b,
        p,
        q,
    })
}

impl Two {
    // The first node dials the other, and both are connected.
    fn connects<R: Machine>(&mut self, rt: &R, alloc: Global, count: u64) -> Result<(), Wrong> {
        check(1, dials(rt, alloc, &self.cluster, &mut self.at_a, 1)?)?;
        check(5, count_told(&self.at_a) == Some(count))?;
        check(2, settles(rt, &self.cluster))?;
        check(3, is_up(rt, alloc, &self.cluster, 0, 1, (0, count))?)?;
        check(4, is_up(rt, alloc, &self.cluster, 1, 0, (0, count))?)
    }

    // The first process links the other, or takes its link back.
    fn p_links<R: Wait>(&mut self, rt: &R, on: bool) -> Result<bool, Refusal> {
        links(rt, &self.cluster, &mut self.at_a, &self.p, &self.q, on)
    }

    // The first process sends a message to the other.
    fn p_sends<R: Wait>(&mut self, rt: &R) -> Result<bool, Refusal> {
        sends(rt, &self.cluster, &mut self.at_a, &self.p, &self.q)
    }

    // The first process sends a term to the other.
    fn p_sends_term<R: Wait>(&mut self, rt: &R, term: Term) -> Result<bool, Refusal> {
        sends_term(rt, &self.cluster, &mut self.at_a, &self.p, &self.q, term)
    }

    // Returns the ends that the two processes have of their link.
    fn ends<R: Wait>(&self, rt: &R) -> Result<(End, End), Refusal> {
        let at_p = self.cluster.look(rt, 0, |node| node.end(&self.p, &self.q))?;
        let at_q = self.cluster.look(rt, 1, |node| node.end(&self.q, &self.p))?;
        Ok((at_p, at_q))
    }

    // As [`finish_with`].
    fn finishes<R: Machine>(self, rt: &R, alloc: Global) -> Result<Finished, Wrong> {
        let Two {
            cluster,
            at_a,
            at_b,
            ..
        } = self;
        let mut seats = Vec::new(alloc);
        seats.push(at_a)?;
        seats.push(at_b)?;
        finish_with(rt, cluster, seats)
    }
}

/// The threads end, and the books merge.
pub fn finish_with<R: Machine>(
    rt: &R,
    cluster: Nodes,
    seats: Vec<Seat>,
) -> Result<Finished, Wrong> {
    match cluster.finish(rt, seats) {
        Ok(finished) => Ok(finished),
        Err(unmerged) => Err(match unmerged.fault {
            FinishError::OutOfMemory => Wrong::NoMemoryToMerge,
            _ => Wrong::Unmerged,
        }),
    }
}

/// Checks the number of entries of a trace, if that is known, and that the trace is whole.
pub fn check_trace(
    alloc: Global,
    finished: &Finished,
    entries: Option<usize>,
) -> Result<(), Wrong> {
    if let Some(entries) = entries {
        check(101, finished.trace.entries.len() == entries)?;
    }
    check(102, is_whole(alloc, finished)?)
}

/// A link comes about and is taken back. All that happens is five acts, five messages of the handshake and
/// three signals.
fn link<R: Machine>(rt: &R, alloc: Global, two: &mut Two) -> Result<usize, Wrong> {
    two.connects(rt, alloc, 1)?;
    check(10, two.p_links(rt, true)?)?;
    check(11, settles(rt, &two.cluster))?;
    check(12, two.ends(rt)? == (End::Active, End::Active))?;
    check(13, two.p_links(rt, false)?)?;
    check(14, settles(rt, &two.cluster))?;
    check(15, two.ends(rt)? == (End::None, End::None))?;
    check(
        16,
        two.cluster.shortages(0) == Ok(0) && two.cluster.shortages(2) == Err(Refusal::NothingThere),
    )?;
    Ok(13)
}

/// Far more messages than a wire holds, in both directions, all come.
fn flood<R: Machine>(rt: &R, alloc: Global, two: &mut Two) -> Result<usize, Wrong> {
    two.connects(rt, alloc, 1)?;
    for _ in 0..500 {
        check(10, two.p_sends(rt)?)?;
        check(11, sends(rt, &two.cluster, &mut two.at_b, &two.q, &two.p)?)?;
    }
    check(12, settles(rt, &two.cluster))?;
    Ok(8 + 2000)
}

/// A binary of so many bytes takes 1,000,000 with its head, the most of a message. Its frame has 1,000,030.
const LONGEST_BINARY: usize = 999_994;

/// The longest message comes, in some 2,000 pieces at least.
fn longest<R: Machine>(rt: &R, alloc: Global, two: &mut Two) -> Result<usize, Wrong> {
    two.connects(rt, alloc, 1)?;
    let binary = Term::Binary(vec![in alloc; 7; LONGEST_BINARY]?);
    check(10, two.p_sends_term(rt, binary)?)?;
    check(11, settles(rt, &two.cluster))?;
    Ok(8 + 2)
}

// The node of a seat notices that the connection that the first node dialed as so-manieth is lost.
fn loses<R: Machine>(
    rt: &R,
    alloc: Global,
    cluster: &Nodes,
    seat: &mut Seat,
    count: u64,
) -> Result<bool, Refusal> {
    let dialer = NodeName::read(alloc, "a@h")?;
    asks(rt, cluster, seat, Act::Lose(TrunkId { dialer, count }))
}

/// A node stops and starts, the other notices, and they connect again.
fn restart<R: Machine>(rt: &R, alloc: Global, two: &mut Two) -> Result<(), Wrong> {
    two.connects(rt, alloc, 1)?;
    check(10, two.p_links(rt, true)?)?;
    check(11, settles(rt, &two.cluster))?;
    check(12, asks(rt, &two.cluster, &mut two.at_b, Act::Stop)?)?;
    check(13, settles(rt, &two.cluster))?;
    for _ in 0..200 {
        check(14, two.p_sends(rt)?)?;
    }
    check(15, settles(rt, &two.cluster))?;
    check(16, asks(rt, &two.cluster, &mut two.at_b, Act::Start)?)?;
    check(17, settles(rt, &two.cluster))?;
    check(18, loses(rt, alloc, &two.cluster, &mut two.at_a, 1)?)?;
    check(19, settles(rt, &two.cluster))?;
    check(20, two.ends(rt)? == (End::None, End::None))?;
    two.connects(rt, alloc, 2)
}

/// Both nodes notice that their connection is lost, and connect again.
fn loss<R: Machine>(rt: &R, alloc: Global, two: &mut Two) -> Result<(), Wrong> {
    two.connects(rt, alloc, 1)?;
    check(
        10,
        links(rt, &two.cluster, &mut two.at_b, &two.q, &two.p, true)?,
    )?;
    check(11, loses(rt, alloc, &two.cluster, &mut two.at_a, 1)?)?;
    check(12, settles(rt, &two.cluster))?;
    check(13, !is_up(rt, alloc, &two.cluster, 0, 1, (0, 1))?)?;
    check(14, loses(rt, alloc, &two.cluster, &mut two.at_b, 1)?)?;
    check(15, settles(rt, &two.cluster))?;
    two.connects(rt, alloc, 2)?;
    check(16, two.ends(rt)? == (End::None, End::None))
}

/// Both nodes notice twice that their connection is lost, and connect a third time.
fn losses<R: Machine>(rt: &R, alloc: Global, two: &mut Two) -> Result<(), Wrong> {
    two.connects(rt, alloc, 1)?;
    for count in 1..=2 {
        check(10, loses(rt, alloc, &two.cluster, &mut two.at_a, count)?)?;
        check(11, loses(rt, alloc, &two.cluster, &mut two.at_b, count)?)?;
        check(12, settles(rt, &two.cluster))?;
        two.connects(rt, alloc, count.saturating_add(1))?;
    }
    Ok(())
}

/// Both nodes dial each other before either has heard of it: one connection comes up.
fn crossed<R: Machine>(rt: &R, alloc: Global, two: &mut Two) -> Result<(), Wrong> {
    check(10, dials(rt, alloc, &two.cluster, &mut two.at_a, 1)?)?;
    let _ = dials(rt, alloc, &two.cluster, &mut two.at_b, 0)?;
    check(11, settles(rt, &two.cluster))?;
    let by_a = is_up(rt, alloc, &two.cluster, 0, 1, (0, 1))?;
    let by_b = is_up(rt, alloc, &two.cluster, 0, 1, (1, 1))?;
    check(12, by_a != by_b)?;
    check(13, by_a == is_up(rt, alloc, &two.cluster, 1, 0, (0, 1))?)?;
    check(14, by_b == is_up(rt, alloc, &two.cluster, 1, 0, (1, 1))?)
}

// One short run.
fn small<R: Machine>(rt: &R, alloc: Global, two: &mut Two) -> Result<(), Wrong> {
    two.connects(rt, alloc, 1)?;
    check(10, two.p_links(rt, true)?)?;
    check(11, settles(rt, &two.cluster))?;
    check(12, two.ends(rt)? == (End::Active, End::Active))
}

/// A story of two nodes.
#[derive(Clone, Copy)]
enum AtTwo {
    Link,
    Flood,
    Longest,
    Restart,
    Loss,
    Losses,
    Crossed,
    Small,
}

fn known(entries: Result<usize, Wrong>) -> Result<Option<usize>, Wrong> {
    match entries {
        Ok(entries) => Ok(Some(entries)),
        Err(wrong) => Err(wrong),
    }
}

fn unknown(done: Result<(), Wrong>) -> Result<Option<usize>, Wrong> {
    match done {
        Ok(()) => Ok(None),
        Err(wrong) => Err(wrong),
    }
}

impl AtTwo {
    // Runs the story. Returns the number of entries that the trace has then, if that is known.
    fn happens<R: Machine>(
        self,
        rt: &R,
        alloc: Global,
        two: &mut Two,
    ) -> Result<Option<usize>, Wrong> {
        match self {
            AtTwo::Link => known(link(rt, alloc, two)),
            AtTwo::Flood => known(flood(rt, alloc, two)),
            AtTwo::Longest => known(longest(rt, alloc, two)),
            AtTwo::Restart => unknown(restart(rt, alloc, two)),
            AtTwo::Loss => unknown(loss(rt, alloc, two)),
            AtTwo::Losses => unknown(losses(rt, alloc, two)),
            AtTwo::Crossed => unknown(crossed(rt, alloc, two)),
            AtTwo::Small => unknown(small(rt, alloc, two)),
        }
    }

    // It happens, the threads end, and the trace is whole.
    fn tell<R: Machine>(self, rt: &R, alloc: Global, pieces: Pieces) -> Result<(), Wrong> {
        let mut two = two_nodes(rt, alloc, pieces)?;
        let happened = self.happens(rt, alloc, &mut two);
        let finished = two.finishes(rt, alloc)?;
        match happened {
            Ok(entries) => check_trace(alloc, &finished, entries),
            Err(wrong) => Err(wrong),
        }
    }
}

// Returns true if the seat of the last node is missing, and all else has come back.
fn is_missing(outcome: &Result<Finished, Unmerged>, last: usize) -> bool {
    match outcome {
        Ok(_) => false,
        Err(unmerged) => {
            matches!(unmerged.fault, FinishError::SeatsMissing { node } if node == last)
                && unmerged.books.len() == last.saturating_add(1)
                && unmerged.seats.len() == last
        }
    }
}

/// Where a seat is left out, the books don't merge.
fn seat_left_out<R: Machine>(rt: &R, alloc: Global) -> Result<(), Wrong> {
    let Two {
        cluster,
        at_a,
        at_b,
        ..
    } = two_nodes(rt, alloc, LONG_PIECES)?;
    drop(at_b);
    let mut seats = Vec::new(alloc);
    seats.push(at_a)?;
    let outcome = cluster.finish(rt, seats);
    check(10, is_missing(&outcome, 1))
}

// Of a cluster of one node no other is asked for anything.
fn asks_nowhere<R: Machine>(rt: &R, cluster: &Nodes, strange: &mut Seat) -> Result<(), Wrong> {
    check(10, matches!(cluster.seat(1), Err(Refusal::NothingThere)))?;
    check(
        11,
        cluster.look(rt, 1, |node| node.is_up()) == Err(Refusal::NothingThere),
    )?;
    check(
        12,
        cluster.call(rt, strange, Act::Stop) == Err(Refusal::StrangeSeat),
    )?;
    check(13, strange.receipts().is_empty())?;
    check(14, cluster.settle(rt, 0) == Settled::StillBusy)
}

// No two nodes have one name.
fn one_name_twice<R: Machine>(rt: &R, alloc: Global) -> Result<(), Wrong> {
    let mut nodes = Vec::new(alloc);
    nodes.push(named(alloc, name(alloc, 0)?)?)?;
    nodes.push(named(alloc, name(alloc, 0)?)?)?;
    let none = Cluster::new(rt, alloc, nodes, LONG_PIECES);
    check(15, matches!(&none, Err(Refusal::BadName)))
}

/// There is no node past the last one, and no two have one name.
fn no_such_node<R: Machine>(rt: &R, alloc: Global) -> Result<(), Wrong> {
    let cluster = cluster(rt, alloc, 1, LONG_PIECES)?;
    let mut strange = Seat::new(alloc, 1);
    let asked = asks_nowhere(rt, &cluster, &mut strange);
    drop(finish_with(rt, cluster, Vec::new(alloc))?);
    asked?;
    one_name_twice(rt, alloc)
}

// At its node a caller has a process send itself a message, which the node's thread delivers.
fn sends_itself<R: Machine>(
    rt: &R,
    cluster: &Cluster<Meet>,
    seat: &mut Seat,
) -> Result<bool, Refusal> {
    let own = spawned(rt, cluster, seat)?;
    sends(rt, cluster, seat, &own, &own)
}

// Returns the length of the node's history right after the seat's last call.
fn entries_told(seat: &Seat) -> u64 {
    match seat.last() {
        Some(asked) => (asked.receipt.position as u64).saturating_add(1),
        None => u64::MAX,
    }
}

fn sends_at<R: Machine>(
    rt: &R,
    cluster: &Cluster<Meet>,
    seats: &mut [Seat],
    place: usize,
) -> Result<bool, Refusal> {
    match seats.get_mut(place) {
        Some(seat) => sends_itself(rt, cluster, seat),
        None => Err(Refusal::NothingThere),
    }
}

// The second node is called, and its thread goes on, while the first node's thread is inside a step.
fn both_send<R: Machine>(
    rt: &R,
    cluster: &Cluster<Meet>,
    meeting: &Meeting,
    seats: &mut [Seat],
) -> Result<(), Wrong> {
    check(10, sends_at(rt, cluster, seats, 0)?)?;
    check(11, meeting.is_inside_soon())?;
    check(12, sends_at(rt, cluster, seats, 1)?)?;
    meeting.was_called(seats.get(1).map_or(u64::MAX, |seat| entries_told(seat)));
    check(13, settles(rt, cluster))
}

fn two_seats(alloc: Global, cluster: &Cluster<Meet>) -> Result<Vec<Seat>, Wrong> {
    let mut seats = Vec::new(alloc);
    for place in 0..2 {
        seats.push(cluster.seat(place)?)?;
    }
    Ok(seats)
}

/// A node's thread goes on, and a call of it is answered, while another's is inside a step.
fn two_nodes_at_once<R: Machine>(rt: &R, alloc: Global) -> Result<(), Wrong> {
    let meeting = Arc::new(alloc, Meeting::new())?;
    let gate = Meet {
        meeting: Arc::try_clone(&meeting)?,
    };
    let cluster = cluster(rt, alloc, 2, gate)?;
    let mut seats = two_seats(alloc, &cluster)?;
    let sent = both_send(rt, &cluster, &meeting, seats.as_mut_slice());
    let finished = cluster.finish(rt, seats);
    sent?;
    match finished {
        Ok(finished) => {
            check(14, meeting.have_met())?;
            check_trace(alloc, &finished, Some(6))
        }
        Err(_) => Err(Wrong::Unmerged),
    }
}

// The last of three nodes spawns a process.
fn spawns<R: Machine>(rt: &R, cluster: &Cluster<Leaving>) -> Result<bool, Refusal> {
    let mut seat = cluster.seat(2)?;
    let process = spawned(rt, cluster, &mut seat);
    drop(seat);
    drop(process?);
    Ok(settles(rt, cluster))
}

// The cluster of a gate is used and dropped.
fn is_used<R: Machine>(rt: &R, alloc: Global, gate: Leaving) -> Result<bool, Refusal> {
    let cluster = cluster(rt, alloc, 3, gate)?;
    let is_used = spawns(rt, &cluster);
    drop(cluster);
    is_used
}

/// A cluster that is dropped ends its threads.
fn dropped<R: Machine>(rt: &R, alloc: Global) -> Result<(), Wrong> {
    let has_left = Arc::new(alloc, AtomicBool::new(false))?;
    let gate = Leaving {
        has_left: Arc::try_clone(&has_left)?,
    };
    let is_used = is_used(rt, alloc, gate);
    let have_ended = becomes(&has_left);
    drop(has_left);
    check(10, is_used?)?;
    check(11, have_ended)
}

/// A seat, and the flag that its caller has read back the link that it asked for.
#[derive(Drop)]
struct Reader {
    seat: Seat,
    has_read: bool,
}

// At its node a caller has a process link another, and asks it for its links.
fn reads_back<R: Wait>(rt: &R, cluster: &Nodes, seat: &mut Seat) -> Result<bool, Refusal> {
    let x = spawned(rt, cluster, seat)?;
    let y = spawned(rt, cluster, seat)?;
    Ok(links(rt, cluster, seat, &x, &y, true)? && has_link(rt, cluster, seat, &x, &y)?)
}

fn reads<R: Wait>(rt: &R, cluster: &Nodes, reader: &mut Reader) {
    reader.has_read = reads_back(rt, cluster, &mut reader.seat) == Ok(true);
}

// Each reader has a thread.
fn all_read<R: Machine>(rt: &R, cluster: &Nodes, readers: &mut [Reader]) {
    for_each_mut(
        rt,
        readers,
        4,
        &|_place, reader: &mut Reader| { reads(rt, cluster, reader) },
    );
}

// Returns the seats of four threads, each at a node of its own, which have read back their links.
fn four_read_back<R: Machine>(rt: &R, alloc: Global, cluster: &Nodes) -> Result<Vec<Seat>, Wrong> {
    let mut readers = Vec::new(alloc);
    for place in 0..4 {
        readers.push(Reader {
            seat: cluster.seat(place)?,
            has_read: false,
        })?;
    }
    all_read(rt, cluster, readers.as_mut_slice());
    let mut seats = Vec::new(alloc);
    for reader in readers {
        check(9, reader.has_read)?;
        seats.push(reader.seat)?;
    }
    check(10, settles(rt, cluster))?;
    Ok(seats)
}

/// Four threads call a node each, and read back their links. Each node has four calls then, and the signal
/// of its link, which it sends to itself.
fn read_back<R: Machine>(rt: &R, alloc: Global, pieces: Pieces) -> Result<(), Wrong> {
    let cluster = cluster(rt, alloc, 4, pieces)?;
    let seats = four_read_back(rt, alloc, &cluster)?;
    let finished = finish_with(rt, cluster, seats)?;
    check_trace(alloc, &finished, Some(20))
}

/// The same, but the last seat is left out.
fn last_seat_left_out<R: Machine>(rt: &R, alloc: Global) -> Result<(), Wrong> {
    let cluster = cluster(rt, alloc, 4, LONG_PIECES)?;
    let mut seats = four_read_back(rt, alloc, &cluster)?;
    drop(seats.pop());
    let outcome = cluster.finish(rt, seats);
    check(10, is_missing(&outcome, 3))
}

/// Four threads call four nodes at random.
fn at_random<R: Machine>(rt: &R, alloc: Global) -> Result<(), Wrong> {
    walk(rt, alloc, 1, 2000)
}

/// Tells a short story, for the refusal of each allocation in turn. Returns true if it could be told, and
/// prints the fault if it couldn't.
pub fn tell_small<R: Machine>(rt: &R, alloc: Global) -> Result<bool> {
    match AtTwo::Small.tell(rt, alloc, LONG_PIECES) {
        Ok(()) => {
            println!(rt; "done")?;
            Ok(true)
        }
        Err(wrong) => {
            println!(rt; "{wrong}")?;
            Ok(false)
        }
    }
}

#[derive(Clone, Copy)]
enum Story {
    AtTwo(AtTwo),
    SeatLeftOut,
    LastSeatLeftOut,
    NoSuchNode,
    TwoNodesAtOnce,
    ReadBack,
    AtRandom,
    Dropped,
}

const SHORT: Pieces = Pieces { greatest: 7 };

const SHORTEST: Pieces = Pieces { greatest: 1 };

const ALL: &[(Story, Pieces)] = &[
    (Story::AtTwo(AtTwo::Link), LONG_PIECES),
    (Story::AtTwo(AtTwo::Link), SHORT),
    (Story::AtTwo(AtTwo::Link), SHORTEST),
    (Story::AtTwo(AtTwo::Flood), LONG_PIECES),
    (Story::AtTwo(AtTwo::Longest), LONG_PIECES),
    (Story::AtTwo(AtTwo::Restart), LONG_PIECES),
    (Story::AtTwo(AtTwo::Restart), SHORT),
    (Story::AtTwo(AtTwo::Restart), SHORTEST),
    (Story::AtTwo(AtTwo::Loss), LONG_PIECES),
    (Story::AtTwo(AtTwo::Losses), LONG_PIECES),
    (Story::AtTwo(AtTwo::Crossed), LONG_PIECES),
    (Story::SeatLeftOut, LONG_PIECES),
    (Story::NoSuchNode, LONG_PIECES),
    (Story::TwoNodesAtOnce, LONG_PIECES),
    (Story::ReadBack, LONG_PIECES),
    (Story::ReadBack, SHORT),
    (Story::ReadBack, SHORTEST),
    (Story::LastSeatLeftOut, LONG_PIECES),
    (Story::AtRandom, LONG_PIECES),
    (Story::Dropped, LONG_PIECES),
];

impl AtTwo {
    fn name(self) -> &'static str {
        match self {
            AtTwo::Link => "a link is made and taken back",
            AtTwo::Flood => "more comes than a wire holds",
            AtTwo::Longest => "the longest message comes",
            AtTwo::Restart => "a node stops and starts",
            AtTwo::Loss => "a connection is lost, and comes again",
            AtTwo::Losses => "a connection is lost twice, and comes a third time",
            AtTwo::Crossed => "both nodes dial",
            AtTwo::Small => "a short run",
        }
    }
}

impl Story {
    fn name(self) -> &'static str {
        match self {
            Story::AtTwo(story) => story.name(),
            Story::SeatLeftOut => "a seat is left out",
            Story::LastSeatLeftOut => "the last of four seats is left out",
            Story::NoSuchNode => "there is no such node",
            Story::TwoNodesAtOnce => "two nodes at once",
            Story::ReadBack => "four threads read back what they asked for",
            Story::AtRandom => "four threads call at random",
            Story::Dropped => "a cluster is dropped",
        }
    }

    fn tell<R: Machine>(self, rt: &R, alloc: Global, pieces: Pieces) -> Result<(), Wrong> {
        match self {
            Story::AtTwo(story) => story.tell(rt, alloc, pieces),
            Story::SeatLeftOut => seat_left_out(rt, alloc),
            Story::LastSeatLeftOut => last_seat_left_out(rt, alloc),
            Story::NoSuchNode => no_such_node(rt, alloc),
            Story::TwoNodesAtOnce => two_nodes_at_once(rt, alloc),
            Story::ReadBack => read_back(rt, alloc, pieces),
            Story::AtRandom => at_random(rt, alloc),
            Story::Dropped => dropped(rt, alloc),
        }
    }
}

// Returns the words that tell the length of the pieces, where these are short.
fn length_text(pieces: Pieces) -> &'static str {
    match pieces.greatest {
        1 => ", in pieces of 1 byte",
        7 => ", in pieces of 7 bytes",
        _ => "",
    }
}

/// Tells each story, and if it holds. Returns true if all do.
pub fn tell_all<R: Machine>(rt: &R, alloc: Global) -> Result<bool> {
    let mut all = true;
    for (story, pieces) in ALL {
        let length = length_text(*pieces);
        match story.tell(rt, alloc, *pieces) {
            Ok(()) => println!(rt; "{}{length}: holds", story.name())?,
            Err(wrong) => {
                all = false;
                println!(rt; "{}{length}: {wrong:?}", story.name())?;
            }
        }
    }
    Ok(all)
}
