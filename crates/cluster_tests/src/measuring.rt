//! The rates at which nodes in threads do the commonest requests of callers.

use crate::ground::{Machine, Nodes, cluster, dials, links, monitors, sends, settles, spawned};
use crate::meeting::LONG_PIECES;
use crate::stories::Wrong;
use anyhow::Result;
use cluster_run::Finished;
use erl_term::{Pid, Refusal};
use node_lock::Seat;
use std::alloc::Global;
use std::sync::Wait;
use std::thread::for_each_mut;
use std::time::{Duration, Instant};

/// So often all callers call, taken together.
const CALLS: usize = 120_000;

/// So many threads call.
const THREADS: usize = 4;

/// The numbers of nodes. Two that stand beside one another are connected.
const SIZES: [usize; 6] = [2, 4, 8, 16, 32, 64];

/// The work that callers ask for.
#[derive(Clone, Copy)]
enum Work {
    /// Messages to a process of the other node.
    Messages,
    /// A link to one is made and taken back.
    Links,
    /// A monitor of one is made and taken back.
    Monitors,
}

impl Work {
    fn name(self) -> &'static str {
        match self {
            Work::Messages => "messages",
            Work::Links => "pairs of link and unlink",
            Work::Monitors => "pairs of monitor and demonitor",
        }
    }
}

/// The seat at a node, the two processes, the work, the number of rounds of it, and the number of rounds
/// done.
#[derive(Drop)]
struct Caller {
    seat: Seat,
    from: Pid,
    to: Pid,
    work: Work,
    rounds: usize,
    done: u64,
}

impl Caller {
    // Returns true if all is done that is asked for.
    fn asks<R: Wait>(&mut self, rt: &R, cluster: &Nodes) -> Result<bool, Refusal> {
        let Caller { seat, from, to, .. } = self;
        match self.work {
            Work::Messages => sends(rt, cluster, seat, from, to),
            Work::Links => Ok(
                links(rt, cluster, seat, from, to, true)?
                    && links(rt, cluster, seat, from, to, false)?,
            ),
            Work::Monitors => monitors(rt, cluster, seat, from, to),
        }
    }
}

fn calls<R: Wait>(rt: &R, cluster: &Nodes, caller: &mut Caller) {
    for _ in 0..caller.rounds {
        if caller.asks(rt, cluster) == Ok(true) {
            caller.done = caller.done.saturating_add(1);
        }
    }
}

// All callers call, in four threads at most.
fn all_call<R: Machine>(rt: &R, cluster: &Nodes, callers: &mut [Caller]) {
    for_each_mut(
        rt,
        callers,
        THREADS,
        &|_place, caller: &mut Caller| calls(rt, cluster, caller),
    );
}

// A process at each node, and a connection from each second node to the one before.
fn callers<R: Machine>(
    rt: &R,
    alloc: Global,
    cluster: &Nodes,
    count: usize,
    work: Work,
) -> Result<Vec<Caller>, Wrong> {
    let mut seats = Vec::new(alloc);
    let mut pids = Vec::new(alloc);
    for place in 0..count {
        let mut seat = cluster.seat(place)?;
        pids.push(spawned(rt, cluster, &mut seat)?)?;
        if place & 1 == 1 {
            dials(rt, alloc, cluster, &mut seat, place ^ 1)?;
        }
        seats.push(seat)?;
    }
    let mut made = Vec::new(alloc);
    let mut place = 0usize;
    for seat in seats {
        let (Some(from), Some(to)) = (pids.get(place), pids.get(place ^ 1)) else {
            return Err(Wrong::Refused(Refusal::NothingThere));
        };
        made.push(Caller {
            seat,
            from: from.clone()?,
            to: to.clone()?,
            work,
            rounds: CALLS / count.max(1),
            done: 0,
        })?;
        place = place.saturating_add(1);
    }
    Ok(made)
}

fn a_second(count: u64, took: Duration) -> u64 {
    let micros = took.as_micros().max(1);
    u64::try_from(u128::from(count).saturating_mul(1_000_000) / micros).unwrap_or(0)
}

// Returns the seats of all callers, and the number of rounds that were done.
fn seats_of(alloc: Global, callers: Vec<Caller>) -> Result<(Vec<Seat>, u64), Wrong> {
    let mut seats = Vec::new(alloc);
    let mut done = 0u64;
    for caller in callers {
        done = done.saturating_add(caller.done);
        seats.push(caller.seat)?;
    }
    Ok((seats, done))
}

/// The time until all calls were answered, the time until all that they brought about had happened, and the
/// number of calls.
#[derive(Clone, Copy)]
struct Times {
    called: Duration,
    settled: Duration,
    calls: u64,
}

// All callers call, and all that they bring about happens.
fn timed<R: Machine>(
    rt: &R,
    alloc: Global,
    cluster: &Nodes,
    count: usize,
    work: Work,
) -> Result<(Vec<Seat>, Times)> {
    let mut callers = callers(rt, alloc, cluster, count, work)?;
    settles(rt, cluster);
    let start = Instant::now(rt)?;
    all_call(rt, cluster, callers.as_mut_slice());
    let called = start.elapsed(rt)?;
    settles(rt, cluster);
    let settled = start.elapsed(rt)?;
    let (seats, calls) = seats_of(alloc, callers)?;
    Ok((
        seats,
        Times {
            called,
            settled,
            calls,
        },
    ))
}

// Returns the number of entries of the trace, and the time that the books took to merge.
fn merged<R: Machine>(rt: &R, cluster: Nodes, seats: Vec<Seat>) -> Result<(usize, Duration)> {
    let start = Instant::now(rt)?;
    let Finished { trace, .. } = match cluster.finish(rt, seats) {
        Ok(finished) => finished,
        Err(unmerged) => return Err(unmerged.fault.into()),
    };
    let entries = trace.entries.len();
    drop(trace);
    Ok((entries, start.elapsed(rt)?))
}

fn tell<R: Machine>(rt: &R, alloc: Global, count: usize, work: Work) -> Result<()> {
    let cluster = cluster(rt, alloc, count, LONG_PIECES)?;
    let (seats, times) = timed(rt, alloc, &cluster, count, work)?;
    let (entries, took) = merged(rt, cluster, seats)?;
    let name = work.name();
    let called = a_second(times.calls, times.called);
    let settled = a_second(times.calls, times.settled);
    println!(rt;
        "{count} nodes: {called} {name} a second are asked for, {settled} until all has happened"
    )?;
    println!(rt; "  {entries} entries, merged in {} ms", took.as_millis())?;
    Ok(())
}

/// Prints the rates of the requests of each kind, over so many nodes.
pub fn measure<R: Machine>(rt: &R, alloc: Global) -> Result<bool> {
    for count in SIZES {
        tell(rt, alloc, count, Work::Messages)?;
        tell(rt, alloc, count, Work::Links)?;
        tell(rt, alloc, count, Work::Monitors)?;
    }
    Ok(true)
}
