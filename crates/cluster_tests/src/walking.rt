//! Threads that call all nodes at random.

use crate::ground::{Machine, Nodes, cluster, name, settles};
use crate::meeting::LONG_PIECES;
use crate::stories::{Wrong, check, check_trace, finish_with};
use anyhow::Result;
use dist_model::Command;
use erl_names::TrunkId;
use erl_term::{Payload, Pid, Refusal, Term};
use node_lock::{Act, Seat};
use random_numbers::Random;
use std::alloc::Global;
use std::sync::Wait;
use std::thread::for_each_mut;

const NODES: usize = 4;

const THREADS: usize = 4;

/// A process is one of the last so many of its node.
const LAST: usize = 3;

/// A seat of a caller at each node, numbers at random, the number of calls to make, and the number that
/// were refused.
#[derive(Drop)]
struct Caller {
    alloc: Global,
    random: Random,
    seats: Vec<Seat>,
    count: u64,
    refused: u64,
}

// One of the last processes of a node.
fn process<R: Wait>(
    rt: &R,
    alloc: Global,
    cluster: &Nodes,
    random: &mut Random,
    place: usize,
) -> Result<Pid, Refusal> {
    let back = u32::try_from(random.below(LAST)).unwrap_or(0);
    let (creation, spawned) = cluster.look(rt, place, |node| (node.creation(), node.spawned()))?;
    Ok(Pid {
        node: name(alloc, place)?.atom().clone()?,
        creation,
        id: spawned.saturating_sub(back).max(1),
        serial: 0,
    })
}

// Returns a command of a process.
fn command(random: &mut Random, from: Pid, to: Pid) -> Command {
    match random.below(100) {
        0..=29 => Command::Link { from, to },
        30..=59 => Command::Unlink { from, to },
        60..=79 => Command::Send {
            from,
            to,
            message: Payload::new(Term::Int(1)),
        },
        80..=89 => Command::Monitor {
            owner: from,
            target: to,
        },
        90..=93 => Command::Trap {
            process: from,
            on: true,
        },
        94..=97 => Command::Receive { process: from },
        _ => Command::ExitSelf {
            process: from,
            reason: Payload::new(Term::Int(2)),
        },
    }
}

fn trunk(alloc: Global, random: &mut Random) -> Result<TrunkId, Refusal> {
    let dialer = name(alloc, random.below(NODES))?;
    let count = random.below(6) as u64;
    Ok(TrunkId { dialer, count })
}

// Returns a command of a process of the node of a place.
fn does<R: Wait>(
    rt: &R,
    alloc: Global,
    cluster: &Nodes,
    random: &mut Random,
    place: usize,
) -> Result<Command, Refusal> {
    let from = process(rt, alloc, cluster, random, place)?;
    let there = random.below(NODES);
    let to = process(rt, alloc, cluster, random, there)?;
    Ok(command(random, from, to))
}

// An act of the node of a place.
fn act<R: Wait>(
    rt: &R,
    alloc: Global,
    cluster: &Nodes,
    random: &mut Random,
    place: usize,
) -> Result<Act, Refusal> {
    match random.below(1000) {
        0..=79 => Ok(Act::Run(Command::Spawn)),
        80..=119 => {
            let peer = name(alloc, random.below(NODES))?;
            let word = u32::try_from(random.below(1000)).unwrap_or(0);
            Ok(Act::Dial { peer, word })
        }
        120..=123 => Ok(Act::Lose(trunk(alloc, random)?)),
        124..=125 => Ok(Act::Stop),
        126..=135 => Ok(Act::Start),
        _ => Ok(Act::Run(does(rt, alloc, cluster, random, place)?)),
    }
}

fn one<R: Wait>(rt: &R, cluster: &Nodes, caller: &mut Caller) -> Result<usize, Refusal> {
    let place = caller.random.below(NODES);
    let act = act(rt, caller.alloc, cluster, &mut caller.random, place)?;
    match caller.seats.get_mut(place) {
        Some(seat) => cluster.call(rt, seat, act),
        None => {
            drop(act);
            Err(Refusal::NothingThere)
        }
    }
}

// All calls of a caller.
fn calls<R: Wait>(rt: &R, cluster: &Nodes, caller: &mut Caller) {
    for _ in 0..caller.count {
        if one(rt, cluster, caller).is_err() {
            caller.refused = caller.refused.saturating_add(1);
        }
    }
}

fn new_caller(alloc: Global, cluster: &Nodes, seed: u64, count: u64) -> Result<Caller, Wrong> {
    let mut seats = Vec::new(alloc);
    for place in 0..NODES {
        seats.push(cluster.seat(place)?)?;
    }
    Ok(Caller {
        alloc,
        random: Random::new(seed),
        seats,
        count,
        refused: 0,
    })
}

// Returns four callers, with numbers of their own.
fn new_callers(
    alloc: Global,
    cluster: &Nodes,
    seed: u64,
    count: u64,
) -> Result<Vec<Caller>, Wrong> {
    let mut callers = Vec::new(alloc);
    for factor in [1, 3, 5, 7] {
        callers.push(new_caller(alloc, cluster, seed.wrapping_mul(factor), count)?)?;
    }
    Ok(callers)
}

// Each caller has a thread.
fn all_call<R: Machine>(rt: &R, cluster: &Nodes, callers: &mut [Caller]) {
    for_each_mut(
        rt,
        callers,
        THREADS,
        &|_place, caller: &mut Caller| calls(rt, cluster, caller),
    );
}

// Returns the seats of all callers, and the number of calls that were refused.
fn seats_of(alloc: Global, callers: Vec<Caller>) -> Result<(Vec<Seat>, u64), Wrong> {
    let mut seats = Vec::new(alloc);
    let mut refused = 0u64;
    for caller in callers {
        refused = refused.saturating_add(caller.refused);
        for seat in caller.seats {
            seats.push(seat)?;
        }
    }
    Ok((seats, refused))
}

// Four threads call, and all settles.
fn walks<R: Machine>(
    rt: &R,
    alloc: Global,
    cluster: &Nodes,
    seed: u64,
    count: u64,
) -> Result<Vec<Seat>, Wrong> {
    let mut callers = new_callers(alloc, cluster, seed, count)?;
    all_call(rt, cluster, callers.as_mut_slice());
    let (seats, refused) = seats_of(alloc, callers)?;
    check(1, settles(rt, cluster) && refused == 0)?;
    Ok(seats)
}

/// Four threads call so often each, at random. Then all settles, and the books merge.
pub fn walk<R: Machine>(rt: &R, alloc: Global, seed: u64, count: u64) -> Result<(), Wrong> {
    let cluster = cluster(rt, alloc, NODES, LONG_PIECES)?;
    let seats = walks(rt, alloc, &cluster, seed, count)?;
    let finished = finish_with(rt, cluster, seats)?;
    check_trace(alloc, &finished, None)
}

/// The same so often, with one seed and the next ones, told.
pub fn walk_at_random<R: Machine>(
    rt: &R,
    alloc: Global,
    seed: u64,
    count: u64,
    walks: u64,
) -> Result<bool> {
    let mut all = true;
    for i in 0..walks {
        let seed = seed.wrapping_add(i);
        match walk(rt, alloc, seed, count) {
            Ok(()) => println!(rt; "the walk of seed {seed} holds")?,
            Err(wrong) => {
                all = false;
                println!(rt; "the walk of seed {seed} doesn't hold: {wrong:?}")?;
            }
        }
    }
    Ok(all)
}
