//! How many pieces pass over a wire in a second, and how many calls a node takes.
use crate::acts::{book, named, pid};
use crate::passing::{parcels, pass};
use crate::rows::{Ask, Process, Row};
use crate::stage::{Stage, open};
use crate::stories::{A, B, CONNECTED, P, Q};
use crate::telling::Machine;
use anyhow::Result;
use dist_model::Command;
use erl_term::{Payload, Pid, Refusal, Term};
use node_core::{Node, NodeEvent};
use node_history::Told;
use node_lock::{Act, Asked, Book, NodeLock, Seat};
use std::alloc::{AllocError, Global};
use std::sync::Wait;
use std::time::{Duration, Instant};
use wire_core::Spelling;

/// So many pieces pass.
const PIECES: u64 = 1_000_000;

/// So often a process sends itself a message, or links itself to another and takes that back.
const ROUNDS: u32 = 200_000;

/// What happens at a node in a round.
#[derive(Clone, Copy)]
enum Work {
    /// The process sends itself a message.
    Send,
    /// What travels comes.
    Come,
    /// The process receives a message.
    Receive,
    /// The process links itself to another.
    Link,
    /// The process takes its link back.
    Unlink,
}

/// What is done over and over.
#[derive(Clone, Copy)]
enum Round {
    Send,
    Message,
    Pair,
}

impl Round {
    fn name(self) -> &'static str {
        match self {
            Round::Send => "send",
            Round::Message => "send, come and receive",
            Round::Pair => "link and unlink",
        }
    }

    fn works(self) -> &'static [Work] {
        match self {
            Round::Send => &[Work::Send],
            Round::Message => &[Work::Send, Work::Come, Work::Receive],
            Round::Pair => &[Work::Link, Work::Come, Work::Unlink, Work::Come, Work::Come],
        }
    }
}

/// A node by itself, in its book, or with the book under its lock.
#[derive(Drop)]
enum Subject {
    Bare(Node),
    Kept(Book),
    Locked(NodeLock, Seat),
}

#[derive(Clone, Copy)]
enum Which {
    Bare,
    Kept,
    Locked,
}

impl Which {
    fn name(self) -> &'static str {
        match self {
            Which::Bare => "Node::call",
            Which::Kept => "Book::act",
            Which::Locked => "NodeLock::call",
        }
    }

    fn subject(self, alloc: Global) -> Result<Subject, Refusal> {
        Ok(match self {
            Which::Bare => Subject::Bare(node(alloc)?),
            Which::Kept => Subject::Kept(book(alloc, A)?),
            Which::Locked => {
                let lock = NodeLock::new(book(alloc, A)?);
                let seat = lock.seat(alloc);
                Subject::Locked(lock, seat)
            }
        })
    }
}

fn node(alloc: Global) -> Result<Node, Refusal> {
    let (name, cookie) = named(alloc, ("a@h", "c"))?;
    Ok(Node::new(alloc, name, cookie)?)
}

fn did(told: Result<Told, Refusal>) -> bool {
    match told {
        Ok(told) => told.answer.is_ok(),
        Err(_) => false,
    }
}

fn has_done(seat: &Seat) -> bool {
    match seat.last() {
        Some(Asked { receipt, .. }) => receipt.answer.is_ok(),
        None => false,
    }
}

fn calls<R: Wait>(
    rt: &R,
    alloc: Global,
    lock: &NodeLock,
    seat: &mut Seat,
    command: Command,
) -> bool {
    lock.call(rt, alloc, seat, Act::Run(command)).is_ok() && has_done(seat)
}

fn comes_in(alloc: Global, book: &mut Option<Book>) -> bool {
    match book {
        Some(book) => book.apply(alloc, NodeEvent::Local).is_ok(),
        None => false,
    }
}

// Whether what travels from a node to itself comes.
fn comes<R: Wait>(rt: &R, alloc: Global, subject: &mut Subject) -> bool {
    match subject {
        Subject::Bare(node) => node.local(alloc).is_ok(),
        Subject::Kept(book) => book.apply(alloc, NodeEvent::Local).is_ok(),
        Subject::Locked(lock, _) => comes_in(alloc, &mut lock.lock(rt)),
    }
}

// Whether a node does what is asked of it.
fn obeys<R: Wait>(rt: &R, alloc: Global, subject: &mut Subject, command: Command) -> bool {
    match subject {
        Subject::Bare(node) => node.call(alloc, command).is_ok(),
        Subject::Kept(book) => did(book.act(alloc, NodeEvent::Call(command), 0)),
        Subject::Locked(lock, seat) => calls(rt, alloc, lock, seat, command),
    }
}

fn message(p: &Pid) -> Result<Command, AllocError> {
    Ok(Command::Send {
        from: p.clone()?,
        to: p.clone()?,
        message: Payload::new(Term::Int(7)),
    })
}

fn receive(p: &Pid) -> Result<Command, AllocError> {
    Ok(Command::Receive {
        process: p.clone()?,
    })
}

fn link(p: &Pid, q: &Pid) -> Result<Command, AllocError> {
    Ok(Command::Link {
        from: p.clone()?,
        to: q.clone()?,
    })
}

fn unlink(p: &Pid, q: &Pid) -> Result<Command, AllocError> {
    Ok(Command::Unlink {
        from: p.clone()?,
        to: q.clone()?,
    })
}

/// Two processes of one node.
#[derive(Drop)]
struct Two {
    first: Pid,
    second: Pid,
}

fn works<R: Wait>(
    rt: &R,
    alloc: Global,
    subject: &mut Subject,
    two: &Two,
    work: Work,
) -> Result<bool, AllocError> {
    let Two { first, second } = two;
    Ok(match work {
        Work::Send => obeys(rt, alloc, subject, message(first)?),
        Work::Come => comes(rt, alloc, subject),
        Work::Receive => obeys(rt, alloc, subject, receive(first)?),
        Work::Link => obeys(rt, alloc, subject, link(first, second)?),
        Work::Unlink => obeys(rt, alloc, subject, unlink(first, second)?),
    })
}

// Whether all rounds can be done.
fn go<R: Wait>(
    rt: &R,
    alloc: Global,
    subject: &mut Subject,
    two: &Two,
    round: &[Work],
) -> Result<bool, AllocError> {
    for _ in 0..ROUNDS {
        for work in round {
            if !works(rt, alloc, subject, two, *work)? {
                return Ok(false);
            }
        }
    }
    Ok(true)
}

fn a_second(count: u64, took: Duration) -> u64 {
    let micros = took.as_micros().max(1);
    u64::try_from(u128::from(count).saturating_mul(1_000_000) / micros).unwrap_or(0)
}

fn measure_rounds<R: Machine>(
    rt: &R,
    alloc: Global,
    subject: &mut Subject,
    two: &Two,
    round: Round,
) -> Result<bool> {
    let spawns = obeys(rt, alloc, subject, Command::Spawn)
        && obeys(rt, alloc, subject, Command::Spawn);
    let start = Instant::now(rt)?;
    let goes = go(rt, alloc, subject, two, round.works())?;
    let rate = a_second(u64::from(ROUNDS), start.elapsed(rt)?);
    println!(rt; "  {}: {rate} a second", round.name())?;
    Ok(spawns && goes)
}

// How often a new node does a round.
fn measure_calls<R: Machine>(rt: &R, alloc: Global, which: Which, round: Round) -> Result<bool> {
    let two = Two {
        first: pid(alloc, P)?,
        second: pid(alloc, Process { id: 2, ..P })?,
    };
    let mut subject = which.subject(alloc)?;
    let measured = measure_rounds(rt, alloc, &mut subject, &two, round);
    drop(subject);
    measured
}

// The frame of a message from one node to another, as it is put on a wire.
fn example<R: Wait>(rt: &R, alloc: Global) -> Result<Spelling, Refusal> {
    let mut stage = open(alloc, &[A, B])?;
    let put = sent(rt, alloc, &mut stage);
    drop(stage);
    put
}

// A message is sent and put.
const SENT: &[Row] = &[Row::Repeats(0, Ask::Send(P, Q), 1), Row::Flushes(0, 1)];

fn hold_all<R: Wait>(
    rt: &R,
    alloc: Global,
    stage: &mut Stage,
    rows: &[Row],
) -> Result<(), Refusal> {
    for row in rows {
        stage.holds(rt, alloc, &[], *row)?;
    }
    Ok(())
}

fn sent<R: Wait>(rt: &R, alloc: Global, stage: &mut Stage) -> Result<Spelling, Refusal> {
    hold_all(rt, alloc, stage, CONNECTED)?;
    hold_all(rt, alloc, stage, SENT)?;
    stage.last_put(0)
}

fn measure_wire<R: Machine>(rt: &R, alloc: Global) -> Result<bool> {
    let frame = example(rt, alloc)?;
    let bytes = frame.as_slice();
    let parcels = parcels(alloc, &frame, PIECES)?;
    let start = Instant::now(rt)?;
    let passed = pass(rt, alloc, parcels, bytes)?;
    let rate = a_second(PIECES, start.elapsed(rt)?);
    println!(rt;
        "a wire between two threads: {rate} pieces of {} bytes a second",
        bytes.len()
    )?;
    Ok(passed.in_order && passed.left == 0)
}

/// Prints how many pieces pass in a second, how often a process sends itself a message, and receives
/// it, and how often it links itself to another and takes that back. Answers whether all could be done.
pub fn measure<R: Machine>(rt: &R, alloc: Global) -> Result<bool> {
    let mut all = measure_wire(rt, alloc)?;
    for which in [Which::Bare, Which::Kept, Which::Locked] {
        println!(rt; "{}", which.name())?;
        for round in [Round::Send, Round::Message, Round::Pair] {
            all &= measure_calls(rt, alloc, which, round)?;
        }
    }
    Ok(all)
}
