//! The threads of a script's nodes, and the seats by which the script calls the nodes.
ghost use Rattle.std.specs.Prelude.{◌≡◌, ◌<◌, ◌++◌, IfOk, OnOk, Some, length, string_bytes};
ghost use Rattle.node_lock.specs.Seats.{last_of};
ghost use Rattle.node_lock.specs.declared.seat.Asked.{Asked as TheAsked};
ghost use Rattle.script_threads.specs.Asking.{Asks, answered_text, made_by, made_of};

use crate::nodes::{copies, place_of};
use cluster_run::{Cluster, Open};
use dist_model::Answer;
use erl_handshake::Setup;
use erl_names::NodeName;
use erl_term::Refusal;
use node_history::Answered;
use node_lock::{Act, Seat};
use script_session::Made;
use script_terms::Named;
use script_texts::{put_answer, put_refused};
use std::alloc::{AllocError, Global};
use std::sync::Wait;
use std::thread::Threads;

/// A runtime that can start threads and wait for them.
pub trait Machine: Threads + Wait + Copy + Send + Drop + 'static {}

impl<R: Threads + Wait + Copy + Send + Drop + 'static> Machine for R {}

/// The nodes of a script in their threads, and a seat at each. There is one node at least.
#[derive(Drop)]
pub(crate) struct Running {
    pub(crate) nodes: Vec<(NodeName, Setup)>,
    pub(crate) cluster: Cluster<Open>,
    pub(crate) seats: Vec<Seat>,
    /// The greatest stamp of the receipts. Each act comes behind it, so the acts stand in the merged run in the
    /// order of the lines that ask for them.
    seen: u64,
    ghost same: { cluster.nodes.items ≡ nodes.items },
    ghost some: { 0 < length nodes.items },
}

// Returns a seat at each of so many nodes.
fn seats(alloc: Global, count: usize) -> Result<Vec<Seat>, AllocError> {
    let mut seats = Vec::new(alloc);
    for place in 0..count {
        seats.push(Seat::new(alloc, place))?;
    }
    Ok(seats)
}

// Returns the greater of two stamps: that of the last receipt of a seat, and this one.
fn last_seen(seat: &Seat, seen: u64) -> u64 {
    match seat.last() {
        Some(asked) if seen < asked.receipt.stamp => asked.receipt.stamp,
        _ => seen,
    }
}

// Returns the thing that an answer has made, if a name may be bound to it.
fn made_of(answer: &Answer) -> Result<Made, AllocError>
    ensures { IfOk result (λ made. made ≡ made_of answer.now) }
{
    match answer {
        Answer::Pid(process) => Ok(Made::One(Named::Process(process.clone()?))),
        Answer::Reference(reference) => Ok(Made::One(Named::Monitor(reference.clone()?))),
        _ => Ok(Made::Nothing),
    }
}

// Prints the answer of a node of this name.
fn put_answered(out: &mut String, node: &str, answered: &Answered) -> Result<Made, AllocError>
    ensures text { OnOk result (string_bytes out.new ≡ string_bytes out.old ++ answered_text node.now answered.now) }
    ensures made { IfOk result (λ made. made ≡ made_by answered.now) }
{
    match answered {
        Ok(report) => {
            put_answer(out, node, &report.answer)?;
            made_of(&report.answer)
        }
        Err(why) => {
            put_refused(out, *why)?;
            Ok(Made::Nothing)
        }
    }
}

// Prints the answer of a node of this name to the last call of a seat.
fn put_last(out: &mut String, node: &str, seat: &Seat) -> Result<Made, AllocError>
    ensures text { (asked : TheAsked) → last_of seat.now.receipts.items ≡ Some asked →
        OnOk result (string_bytes out.new ≡ string_bytes out.old ++ answered_text node.now asked.receipt.answer) }
    ensures made { (asked : TheAsked) → last_of seat.now.receipts.items ≡ Some asked → IfOk result (λ made. made ≡ made_by asked.receipt.answer) }
{
    match seat.last() {
        Some(asked) => put_answered(out, node, &asked.receipt.answer),
        None => Ok(Made::Nothing),
    }
}

/// Makes a call by the seat at a node of this name, and prints the answer.
///
/// # Errors
/// [`AllocError`] if out of memory.
pub(crate) fn act<R: Wait>(
    rt: &R,
    cluster: &Cluster<Open>,
    seat: &mut Seat,
    node: &str,
    act: Act,
    out: &mut String,
) -> Result<Made, AllocError>
    ensures { IfOk result (Asks act node.now seat.old seat.new (string_bytes out.old) (string_bytes out.new)) }
{
    match cluster.call(rt, seat, act) {
        Ok(_) => put_last(out, node, seat),
        Err(Refusal::OutOfMemory) => Err(AllocError),
        Err(why) => {
            put_refused(out, why)?;
            Ok(Made::Nothing)
        }
    }
}

impl Running {
    /// Starts a thread for each node, none of which has the name of another.
    ///
    /// # Errors
    /// If out of memory, or if a thread can't be started. Then those that were started are ended.
    pub(crate) fn start<R: Machine>(
        rt: &R,
        alloc: Global,
        nodes: &[(NodeName, Setup)],
        seed: u32,
    ) -> Result<Running, AllocError>
        requires { 0 < length nodes.now }
        ensures { IfOk result (λ running. running.nodes.items ≡ nodes.now) }
    {
        let seats = seats(alloc, nodes.len())?;
        let asked = copies(alloc, nodes)?;
        let nodes = copies(alloc, nodes)?;
        match Cluster::new_seeded(rt, alloc, asked, Open, seed) {
            Ok(cluster) => Ok(Running {
                nodes,
                cluster,
                seats,
                seen: 0,
            }),
            Err(_) => Err(AllocError),
        }
    }

    /// Returns the number of the receipts.
    pub(crate) fn acts(&self) -> usize {
        let mut acts = 0usize;
        for seat in &self.seats {
            acts = acts.saturating_add(seat.receipts().len());
        }
        acts
    }

    /// Makes a call by the seat at the node of a name, and prints the answer.
    ///
    /// # Errors
    /// [`AllocError`] if out of memory.
    pub(crate) fn act<R: Wait>(
        &mut self,
        rt: &R,
        node: &str,
        asked: Act,
        out: &mut String,
    ) -> Result<Made, AllocError>
        ensures { self.new.nodes.items ≡ self.old.nodes.items }
    {
        if let Some(place) = place_of(&self.nodes, node) {
            if let Some(seat) = self.seats.get_mut(place) {
                seat.follow(self.seen);
                let made = act(rt, &self.cluster, seat, node, asked, out);
                self.seen = last_seen(seat, self.seen);
                return made;
            }
        }
        drop(asked);
        put_refused(out, Refusal::NothingThere)?;
        Ok(Made::Nothing)
    }

    /// Makes a call by the seat at the node of a name, and prints nothing. Passes over a refusal, since it changes
    /// nothing.
    ///
    /// # Errors
    /// [`AllocError`] if out of memory.
    pub(crate) fn pass<R: Wait>(&mut self, rt: &R, node: &str, asked: Act) -> Result<(), AllocError>
        ensures { self.new.nodes.items ≡ self.old.nodes.items }
    {
        if let Some(place) = place_of(&self.nodes, node) {
            if let Some(seat) = self.seats.get_mut(place) {
                seat.follow(self.seen);
                let called = self.cluster.call(rt, seat, asked);
                self.seen = last_seen(seat, self.seen);
                return match called {
                    Err(Refusal::OutOfMemory) => Err(AllocError),
                    _ => Ok(()),
                };
            }
        }
        drop(asked);
        Ok(())
    }
}
