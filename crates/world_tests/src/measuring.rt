//! The rate of the commonest events of a world, and the time of rounds of dial and cut.
use crate::events::world;
use crate::stage::act;
use crate::stories::{A1, P, Q};
use crate::told::{Process, Reason, Step, Trunk};
use anyhow::Result;
use erl_term::Refusal;
use std::alloc::Global;
use std::time::{Duration, Instant};
use world_core::World;

/// How many processes a node has.
const SIZES: [u32; 3] = [1_000, 10_000, 100_000];

/// So often messages are sent, and pairs of calls made.
const ROUNDS: u32 = 200_000;

/// The numbers of linked processes at the first node of a copied world.
const COPIED_SIZES: [u32; 3] = [2, 10, 100];

/// The number of copies that are measured.
const COPIES: u32 = 10_000;

/// What is measured: of one node with processes that take turns, or of two.
#[derive(Clone, Copy)]
enum Subject {
    Spawns,
    OwnMessages,
    OwnLinks,
    OwnMonitors,
    /// The first process ends, and each of its links is told.
    Ends,
    /// A connection is lost, and its links are swept.
    Sweeps,
    Messages,
    Links,
    Monitors,
}

const OF_ONE: [Subject; 6] = [
    Subject::Spawns,
    Subject::OwnMessages,
    Subject::OwnLinks,
    Subject::OwnMonitors,
    Subject::Ends,
    Subject::Sweeps,
];

const OF_TWO: [Subject; 3] = [Subject::Messages, Subject::Links, Subject::Monitors];

/// The events of a round.
type Round = [Option<Step>; 5];

fn two(first: Step, second: Step) -> Round {
    [Some(first), Some(second), None, None, None]
}

fn three(first: Step, second: Step, third: Step) -> Round {
    [Some(first), Some(second), Some(third), None, None]
}

fn four(first: Step, second: Step, third: Step, fourth: Step) -> Round {
    [Some(first), Some(second), Some(third), Some(fourth), None]
}

// The process of this place among so many of the first node, over and over.
fn nth(place: u32, size: u32) -> Process {
    let place = place.checked_rem(size).unwrap_or(0);
    Process {
        id: place.saturating_add(1),
        ..P
    }
}

impl Subject {
    fn name(self) -> &'static str {
        match self {
            Subject::Spawns => "spawn",
            Subject::OwnMessages | Subject::Messages => "send, come and receive",
            Subject::OwnLinks | Subject::Links => "link and unlink",
            Subject::OwnMonitors | Subject::Monitors => "monitor and demonitor",
            Subject::Ends => "end of a link of a process that ends",
            Subject::Sweeps => "sweep of a link",
        }
    }

    fn rounds(self, size: u32) -> u32 {
        match self {
            Subject::Spawns | Subject::Ends | Subject::Sweeps => size,
            _ => ROUNDS,
        }
    }

    // A round, where the first node has so many processes.
    fn round(self, number: u32, size: u32) -> Round {
        let p = nth(number, size);
        let q = nth(number.saturating_add(1), size);
        let word = number.saturating_add(1);
        let own = Step::Local(0);
        let there = Step::Come(1, A1);
        let back = Step::Come(0, A1);
        match self {
            Subject::Spawns => [Some(Step::Spawn(0)), None, None, None, None],
            Subject::OwnMessages => three(Step::Send(p, q), own, Step::Receive(q)),
            Subject::OwnLinks => [
                Some(Step::Link(p, q)),
                Some(own),
                Some(Step::Unlink(p, q)),
                Some(own),
                Some(own),
            ],
            Subject::OwnMonitors => four(Step::Monitor(p, q), own, Step::Demonitor(p, word), own),
            Subject::Ends if number == 0 => [
                Some(Step::Exit(P, Reason::Normal)),
                None,
                None,
                None,
                None,
            ],
            Subject::Ends => [Some(own), None, None, None, None],
            Subject::Sweeps => [Some(Step::Sweep(0)), None, None, None, None],
            Subject::Messages => three(Step::Send(P, Q), there, Step::Receive(Q)),
            Subject::Links => [
                Some(Step::Link(P, Q)),
                Some(there),
                Some(Step::Unlink(P, Q)),
                Some(there),
                Some(back),
            ],
            Subject::Monitors => four(Step::Monitor(P, Q), there, Step::Demonitor(P, word), there),
        }
    }
}

fn act_all(alloc: Global, world: &mut World, steps: &[Option<Step>]) -> Result<(), Refusal> {
    for step in steps.iter().flatten() {
        act(alloc, world, *step)?;
    }
    Ok(())
}

fn spawn(alloc: Global, world: &mut World, size: u32) -> Result<(), Refusal> {
    for _ in 0..size {
        act(alloc, world, Step::Spawn(0))?;
    }
    Ok(())
}

// The first node dials the second, each of which has a process.
fn connect(alloc: Global, world: &mut World) -> Result<(), Refusal> {
    act(alloc, world, Step::Spawn(1))?;
    act(alloc, world, Step::Dial(0, 1))?;
    for place in [1, 0, 0, 1, 0] {
        act(alloc, world, Step::Come(place, A1))?;
    }
    Ok(())
}

// The first process is linked to each other one.
fn link_to_all(alloc: Global, world: &mut World, size: u32) -> Result<(), Refusal> {
    for place in 1..size {
        let steps = two(Step::Link(P, nth(place, size)), Step::Local(0));
        act_all(alloc, world, &steps)?;
    }
    Ok(())
}

// Each process is linked to one of the second node, and the connection is lost.
fn lose_all(alloc: Global, world: &mut World, size: u32) -> Result<(), Refusal> {
    connect(alloc, world)?;
    for place in 0..size {
        act(alloc, world, Step::Link(nth(place, size), Q))?;
    }
    act(alloc, world, Step::Lose(0, A1))?;
    Ok(())
}

// What has to be there first.
fn prepare(alloc: Global, world: &mut World, subject: Subject, size: u32) -> Result<(), Refusal> {
    if matches!(subject, Subject::Spawns) {
        return Ok(());
    }
    spawn(alloc, world, size)?;
    match subject {
        Subject::Ends => link_to_all(alloc, world, size),
        Subject::Sweeps => lose_all(alloc, world, size),
        Subject::Messages | Subject::Links | Subject::Monitors => connect(alloc, world),
        _ => Ok(()),
    }
}

fn go(alloc: Global, world: &mut World, subject: Subject, size: u32) -> Result<(), Refusal> {
    for number in 0..subject.rounds(size) {
        act_all(alloc, world, &subject.round(number, size))?;
    }
    Ok(())
}

fn a_second(rounds: u32, elapsed: Duration) -> u128 {
    let rounds = u128::from(rounds).saturating_mul(1_000_000_000);
    rounds.checked_div(elapsed.as_nanos()).unwrap_or(0)
}

fn measure_in(rt: &HostRuntime, world: &mut World, subject: Subject, size: u32) -> Result<()> {
    prepare(rt.alloc(), world, subject, size)?;
    let start = Instant::now(rt)?;
    go(rt.alloc(), world, subject, size)?;
    let rate = a_second(subject.rounds(size), start.elapsed(rt)?);
    println!(rt; "  {}: {rate} a second", subject.name())?;
    Ok(())
}

fn measure_subject(rt: &HostRuntime, subject: Subject, size: u32) -> Result<()> {
    let mut world = world(rt.alloc(), &["c", "c"])?;
    let measured = measure_in(rt, &mut world, subject, size);
    drop(world);
    measured
}

fn copy_often(alloc: Global, world: &World) -> Result<(), Refusal> {
    for _ in 0..COPIES {
        drop(world.copy(alloc)?);
    }
    Ok(())
}

fn measure_copies_in(rt: &HostRuntime, world: &mut World, size: u32) -> Result<()> {
    spawn(rt.alloc(), world, size)?;
    connect(rt.alloc(), world)?;
    link_to_all(rt.alloc(), world, size)?;
    let start = Instant::now(rt)?;
    copy_often(rt.alloc(), world)?;
    let rate = a_second(COPIES, start.elapsed(rt)?);
    println!(rt; "  copy of {size} linked processes: {rate} a second")?;
    Ok(())
}

fn measure_copies(rt: &HostRuntime, size: u32) -> Result<()> {
    let mut world = world(rt.alloc(), &["c", "c"])?;
    let measured = measure_copies_in(rt, &mut world, size);
    drop(world);
    measured
}

/// Prints how often a second one node, and two, do what is measured.
pub fn measure(rt: &HostRuntime) -> Result<()> {
    for size in SIZES {
        println!(rt; "one node of {size} processes")?;
        for subject in OF_ONE {
            measure_subject(rt, subject, size)?;
        }
    }
    println!(rt; "two nodes")?;
    for subject in OF_TWO {
        measure_subject(rt, subject, 1)?;
    }
    for size in COPIED_SIZES {
        measure_copies(rt, size)?;
    }
    Ok(())
}

// The first node dials the second, they connect, and both lose the connection.
fn reconnect_once(alloc: Global, world: &mut World, count: u64) -> Result<(), Refusal> {
    let trunk = Trunk { dialer: 0, count };
    act(alloc, world, Step::Dial(0, 1))?;
    for place in [1, 0, 0, 1, 0] {
        act(alloc, world, Step::Come(place, trunk))?;
    }
    for place in [0, 1] {
        act(alloc, world, Step::Lose(place, trunk))?;
    }
    for place in [0, 1] {
        act(alloc, world, Step::Sweep(place))?;
    }
    Ok(())
}

fn reconnect_in(rt: &HostRuntime, world: &mut World, rounds: u64) -> Result<()> {
    let part = rounds.checked_div(10).unwrap_or(0);
    for tenth in 0..10u64 {
        let start = Instant::now(rt)?;
        let before = part.saturating_mul(tenth);
        for number in 0..part {
            let count = before.saturating_add(number).saturating_add(1);
            reconnect_once(rt.alloc(), world, count)?;
        }
        let elapsed = start.elapsed(rt)?.as_millis();
        println!(rt; "  after {before} rounds: {part} rounds in {elapsed} ms")?;
    }
    Ok(())
}

/// Prints how long each tenth of `rounds` rounds of dial and cut takes, in one world of two nodes.
pub fn reconnect(rt: &HostRuntime, rounds: u64) -> Result<()> {
    let mut world = world(rt.alloc(), &["c", "c"])?;
    let measured = reconnect_in(rt, &mut world, rounds);
    drop(world);
    measured
}
